//! A row: the texts that it tests, each with the settings of its lines.

use crate::checks::{Case, check};
use crate::fault::{Fault, Teller};
use crate::line::{Call, Kind, Line};
use crate::members::members;
use crate::notation::Fills;
use crate::places::PLACES;

/// The lines of a row, and its place.
#[derive(Clone, Copy)]
pub struct Row<'a> {
    pub tell: &'a Teller<'a>,
    pub lines: &'a [&'a str],
}

/// Which lines were seen in a row.
#[derive(Clone, Copy)]
struct Seen {
    has_text: bool,
    has_wanted: bool,
    /// Whether there is a line that says how texts are laid out, or that sets a text before layout.
    has_setting: bool,
    has_layout: bool,
    has_query: bool,
    has_document: bool,
}

impl Seen {
    /// Takes a line, or says what is wrong with it.
    fn add(&mut self, line: &str) -> Option<&'static str> {
        if line.ends_with(' ') {
            return Some("a space at the end of ");
        }
        let line = Line::of(line);
        match line.kind() {
            Kind::Text(_) if self.has_wanted => return Some("a text after what is expected: "),
            Kind::Text(call) => {
                self.has_text = true;
                self.has_query = self.has_query || call.is_query();
            }
            Kind::On if self.has_document => return Some("a second document: "),
            Kind::On => self.has_document = true,
            Kind::Making => return making(line),
            Kind::Layout => self.has_setting = true,
            Kind::Place => {
                self.has_setting = true;
                return placing(line);
            }
            Kind::Wanted => {
                self.has_wanted = true;
                self.has_layout = self.has_layout || line.is_layout();
            }
        }
        None
    }

    /// What the lines lack.
    fn lacks(&self) -> Option<&'static str> {
        if !self.has_text {
            return Some("no text");
        }
        if !self.has_wanted {
            return Some("nothing is expected");
        }
        if self.has_setting && !self.has_layout {
            return Some("a setting of layout without layout");
        }
        if self.has_document && !self.has_query {
            return Some("a document without a query");
        }
        None
    }
}

/// What is wrong with a line that says which texts are made.
fn making(line: Line<'_>) -> Option<&'static str> {
    if line.label == "within" && !line.words().contains('□') {
        return Some("`within` without □: ");
    }
    None
}

/// What is wrong with a line that sets a text in a place.
fn placing(line: Line<'_>) -> Option<&'static str> {
    let place = line.place();
    if place == Some("each") {
        return None;
    }
    for name in &PLACES {
        if place == Some(*name) {
            return None;
        }
    }
    Some("no such place: ")
}

impl<'a> Row<'a> {
    /// Checks that the row has a text, expects something, and each of its lines is right.
    pub fn is_whole(&self) -> Result<(), Fault> {
        let mut seen = Seen {
            has_text: false,
            has_wanted: false,
            has_setting: false,
            has_layout: false,
            has_query: false,
            has_document: false,
        };
        for line in self.lines {
            if let Some(what) = seen.add(line) {
                return Err(self.tell.wrong(what, line));
            }
        }
        match seen.lacks() {
            Some(what) => Err(self.tell.wrong(what, "")),
            None => Ok(()),
        }
    }

    /// The text of the last line with this label.
    pub fn setting(&self, label: &str) -> Option<&'a str> {
        let mut text = None;
        for line in self.lines {
            let line = Line::of(line);
            if line.label == label && line.text.is_some() {
                text = line.text;
            }
        }
        text
    }

    /// Whether one of the lines is only this label.
    pub fn has(&self, label: &str) -> bool {
        for line in self.lines {
            if *line == label {
                return true;
            }
        }
        false
    }

    /// Whether the row sets texts in places.
    pub fn has_places(&self) -> bool {
        for line in self.lines {
            if line.starts_with("set ") {
                return true;
            }
        }
        false
    }

    /// Tests a text of the row, with each member of a class if the row says so.
    pub fn run(&'a self, call: Call, text: &str) -> Result<(), Fault> {
        let Some(class) = self.setting("each") else {
            return self.run_text(call, text, None);
        };
        let Some(members) = members(class) else {
            return Err(self.tell.wrong("no class ", class));
        };
        if !self.is_filled(text) {
            return Err(self.tell.wrong("`each` without ◊: ", text));
        }
        for member in members.split('|') {
            self.run_text(call, text, Some(member))?;
        }
        Ok(())
    }

    /// Whether the text, or a pattern for it, has a place for a member.
    fn is_filled(&self, text: &str) -> bool {
        for line in self.lines {
            if line.starts_with("within: ") && line.contains('◊') {
                return true;
            }
        }
        text.contains('◊')
    }

    /// Tests the text with that member.
    fn run_text(&'a self, call: Call, text: &str, member: Option<&'a str>) -> Result<(), Fault> {
        let fills = Fills {
            tell: self.tell,
            member,
            own: None,
        };
        let own = fills.decoded(text)?;
        self.run_own(call, &own, member)
    }

    /// Tests the decoded text with that member.
    fn run_own(&'a self, call: Call, own: &'a str, member: Option<&'a str>) -> Result<(), Fault> {
        let fills = Fills {
            tell: self.tell,
            member,
            own: Some(own),
        };
        let case = Case {
            row: self,
            call,
            text: own,
            fills,
            each: None,
        };
        self.run_places(&case)
    }

    /// Tests the text, and for a line `set each` tests it once for each place.
    fn run_places(&self, case: &Case<'_>) -> Result<(), Fault> {
        if self.setting("set each").is_none() {
            return self.run_patterns(case);
        }
        for place in &PLACES {
            // A node does not have the places of a document.
            if place.contains(' ') || !case.call.is_node() {
                self.run_patterns(&Case {
                    each: Some(place),
                    ..*case
                })?;
            }
        }
        Ok(())
    }

    /// Tests the text, or each pattern with the text in its place.
    fn run_patterns(&self, case: &Case<'_>) -> Result<(), Fault> {
        if self.setting("within").is_none() {
            return check(case);
        }
        for line in self.lines {
            let line = Line::of(line);
            if line.label == "within" {
                run_pattern(case, line.words())?;
            }
        }
        Ok(())
    }
}

/// Tests the pattern with the text in its place.
fn run_pattern(case: &Case<'_>, pattern: &str) -> Result<(), Fault> {
    let text = case.fills.decoded(pattern)?;
    check(&Case {
        text: &text,
        ..*case
    })
}
