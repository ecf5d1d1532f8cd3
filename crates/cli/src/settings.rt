//! How a file is laid out.

ghost use Rattle.cli.specs.Formatted.{indent_text};
ghost use Rattle.cli.specs.Settings.{IsNamed, default_settings, none_given, with_given};
ghost use Rattle.kdl.specs.Words.{text_of};
ghost use Rattle.std.specs.Prelude.{◌≡◌, IfOk};

use kdl_laws::reading_back::printed_is_text;
use std::alloc::{AllocError, Global};

/// What comes before a node, once for each level.
#[derive(Clone, Copy)]
pub enum Indent {
    /// This number of spaces.
    Spaces(usize),
    /// One tab.
    Tab,
}

/// How a file is laid out.
#[derive(Clone, Copy)]
pub struct Settings {
    /// What a node is indented by.
    pub indent: Indent,
    /// The greatest number of blank lines that are kept between two nodes or comments.
    pub blank_lines: usize,
    /// Whether values, names, keys and types are spelled anew.
    pub respell: bool,
    /// Whether each node of a block on one line gets a line of its own.
    pub expand: bool,
}

/// The settings that are given: each is `None` where it is left as it is.
#[derive(Clone, Copy)]
pub struct Given {
    pub indent: Option<Indent>,
    pub blank_lines: Option<usize>,
    pub respell: Option<bool>,
    pub expand: Option<bool>,
}

impl Indent {
    /// Returns the indent that is called so: `tab`, or a number of spaces in decimal.
    pub fn named(name: &str) -> Option<Indent>
        ensures { IsNamed name.now result }
    {
        if name == "tab" {
            return Some(Indent::Tab);
        }
        name.parse().ok().map(Indent::Spaces)
    }

    /// Returns the text of the indent.
    pub fn text(self, alloc: Global) -> Result<String, AllocError>
        ensures { IfOk result (λ s. text_of s ≡ indent_text self) }
    {
        printed_is_text();
        match self {
            Indent::Spaces(count) => " ".repeat(alloc, count),
            Indent::Tab => String::from_str(alloc, "\t"),
        }
    }
}

impl Settings {
    /// Four spaces, and one blank line; spellings and blocks on one line stay.
    pub fn new() -> Settings
        ensures { result ≡ default_settings }
    {
        Settings {
            indent: Indent::Spaces(4),
            blank_lines: 1,
            respell: false,
            expand: false,
        }
    }

    /// Returns the settings with those that are given in their place.
    pub fn with(self, given: Given) -> Settings
        ensures { result ≡ with_given self given }
    {
        Settings {
            indent: given.indent.unwrap_or(self.indent),
            blank_lines: given.blank_lines.unwrap_or(self.blank_lines),
            respell: given.respell.unwrap_or(self.respell),
            expand: given.expand.unwrap_or(self.expand),
        }
    }
}

impl Given {
    /// No setting is given.
    pub fn none() -> Given
        ensures { result ≡ none_given }
    {
        Given {
            indent: None,
            blank_lines: None,
            respell: None,
            expand: None,
        }
    }
}
