//! The configuration of layout.

ghost use Rattle.kdl_layout.specs.Config.{defaults, keeping, keeps_texts, nothing, settings, settings_so_far};
ghost use Rattle.kdl_text.specs.Chars as class;
ghost use Rattle.std.specs.List.{list_all};
ghost use Rattle.std.specs.Prelude.{◌≡◌, false, option_map, unwrap_or};
ghost use Rattle.std.specs.Str.{chars};

use kdl_text::chars::is_space;

/// Returns whether each character of the text is one of the 18 spaces (KDL 2.0.0, Whitespace). Returns `true` if the
/// text is empty.
#[inline(always)]
pub fn is_kdl_space(text: &str) -> bool
    ensures { result ≡ list_all class.is_space (chars text.now) }
{
    text.chars().all(is_space)
}

/// The configuration of `autoformat_config` of documents and nodes.
///
/// By default, the outermost nodes are at level 0, the indent is four spaces, comments are kept, and entries lose their
/// form unless they are flagged to keep it.
#[derive(Clone, Copy, Debug, PartialEq, Eq)]
pub struct FormatConfig<'a> {
    /// The level of the outermost nodes.
    pub indent_level: usize,
    /// The text that is printed before a node, once for each level. The contracts on the printed text require that it
    /// contains only KDL spaces.
    pub indent: &'a str,
    /// Whether comments and slashdashed pieces are removed.
    pub no_comments: bool,
    /// Whether each entry that has a format is flagged to keep its form.
    pub entry_autoformate_keep: bool,
}

/// The configuration of `autoformat_layout` of documents and nodes, which can keep blank lines, spellings, and blocks on
/// one line.
///
/// ```
/// let layout = Layout { blank_lines: 1, keep_spelling: true, keep_one_line: true, ..Layout::new() };
/// ```
#[derive(Clone, Copy, Debug, PartialEq, Eq)]
pub struct Layout<'a> {
    /// How each line is laid out.
    pub config: FormatConfig<'a>,
    /// The greatest number of blank lines that are kept between two nodes or comments.
    pub blank_lines: usize,
    /// Whether spellings are kept: the spelling of a value that is one of that value, of the same kind, and the spelling
    /// of a name, a key or a type that is one of its string. A spelling that means something else, as `set_value` can
    /// leave it, is replaced.
    ///
    /// With spellings stay the texts of `keep_inner_comments`, and the text before an entry if this continues the line
    /// (KDL 2.0.0, Line Continuation) and no entry is slashdashed there. If comments are removed, only a text without
    /// comments that continues the line stays.
    ///
    /// An entry that is flagged to keep its form is laid out as without this field.
    pub keep_spelling: bool,
    /// Whether texts with comments stay inside types, after types and around `=`, also if spellings do not stay. Such a
    /// text may also be one that continues the line. It stays as it is, with LF for a CR at its end. So no comment of a
    /// text is lost, unless comments are removed.
    ///
    /// An entry that is flagged to keep its form is laid out as without this field.
    pub keep_inner_comments: bool,
    /// Whether a block that is on one line stays on one line: `{ a 1; b 2 }`, or `{}` without nodes. From its `{` to its
    /// `}` such a block prints no newline, also in no string, and no comment, slashdashed piece or line continuation, and
    /// its nodes have no blocks. Comments count even if they are removed. Its last node ends without a terminator, so a
    /// node that is pushed to the list of nodes itself becomes a part of it, as after a text that was read so.
    pub keep_one_line: bool,
    /// Whether a document or a block without nodes ends after the line of its last comment. If no comment is kept, the
    /// document prints nothing, and the block `{}`. Without this field, a newline is in place of the nodes: an empty line
    /// comes after the comments, and between the braces.
    pub compact_empty: bool,
}

impl Layout<'_> {
    /// Creates a layout with the default configuration, which keeps no blank lines, no spellings, no comments inside
    /// entries and types, and no blocks on one line, and has a newline in place of nodes.
    ///
    /// ```
    /// let layout = Layout { blank_lines: 1, ..Layout::new() };
    /// ```
    pub fn new() -> Layout<'static>
        ensures config { settings result.config ≡ defaults }
        ensures blank_lines { result.blank_lines ≡ 0 }
        ensures keeping { keeping result ≡ nothing }
        ensures one_line { result.keep_one_line ≡ false }
        ensures compact_empty { result.compact_empty ≡ false }
    {
        Layout {
            config: FormatConfig::default(),
            blank_lines: 0,
            keep_spelling: false,
            keep_inner_comments: false,
            keep_one_line: false,
            compact_empty: false,
        }
    }

    /// Returns whether texts with comments stay inside entries and types.
    pub(crate) fn keeps_texts(&self) -> bool
        ensures { result ≡ keeps_texts (keeping self.now) }
    {
        self.keep_spelling || self.keep_inner_comments
    }
}

impl Default for Layout<'_> {
    ghost is_default = { λ l. (settings l.config ≡ defaults) × (l.blank_lines ≡ 0)
        × (keeping l ≡ nothing) × (l.keep_one_line ≡ false) × (l.compact_empty ≡ false) };

    fn default() -> Self {
        Layout::new()
    }
}

impl Default for FormatConfig<'_> {
    ghost is_default = { λ c. settings c ≡ defaults };

    fn default() -> Self {
        FormatConfig {
            indent_level: 0,
            indent: "    ",
            no_comments: false,
            entry_autoformate_keep: false,
        }
    }
}

impl FormatConfig<'_> {
    /// Creates a builder that starts from the default configuration.
    ///
    /// ```
    /// let config = FormatConfig::builder().indent("\t").no_comments(true).build();
    /// ```
    pub fn builder() -> FormatConfigBuilder<'static>
        ensures { settings_so_far result ≡ defaults }
    {
        FormatConfigBuilder::new()
    }
}

/// Builds a `FormatConfig`. If a setter is called more than once, the last call counts.
#[derive(Clone, Copy, Debug, PartialEq, Eq)]
pub struct FormatConfigBuilder<'a>(FormatConfig<'a>);

impl<'a> FormatConfigBuilder<'a> {
    /// Creates a builder that starts from the default configuration.
    pub fn new() -> Self
        ensures { settings_so_far result ≡ defaults }
    {
        FormatConfigBuilder(FormatConfig::default())
    }

    /// Sets the level of the outermost nodes, if `indent_level` is `Some`.
    pub fn maybe_indent_level(self, indent_level: Option<usize>) -> Self
        ensures { settings_so_far result ≡ record (settings_so_far self.entry)
            { indent_level = unwrap_or indent_level (settings_so_far self.entry).indent_level } }
    {
        match indent_level {
            Some(indent_level) => self.indent_level(indent_level),
            None => self,
        }
    }

    /// Sets the level of the outermost nodes.
    pub fn indent_level(mut self, indent_level: usize) -> Self
        ensures { settings_so_far result ≡ record (settings_so_far self.entry)
            { indent_level = indent_level } }
    {
        self.0.indent_level = indent_level;
        self
    }

    /// Sets the text that is printed before a node for each level, if `indent` is `Some`.
    pub fn maybe_indent<'b>(self, indent: Option<&'b str>) -> FormatConfigBuilder<'b>
    where
        'a: 'b,
        ensures { settings_so_far result ≡ record (settings_so_far self.entry) {
          indent = unwrap_or (option_map (λ s. chars s.now) indent.entry)
              (settings_so_far self.entry).indent;
        } }
    {
        match indent {
            Some(indent) => self.indent(indent),
            None => self,
        }
    }

    /// Sets the text that is printed before a node for each level.
    pub fn indent<'b>(self, indent: &'b str) -> FormatConfigBuilder<'b>
    where
        'a: 'b,
        ensures { settings_so_far result ≡ record (settings_so_far self.entry)
            { indent = chars indent.now } }
    {
        FormatConfigBuilder(FormatConfig { indent, ..self.0 })
    }

    /// Sets whether comments and slashdashed pieces are removed, if `no_comments` is `Some`.
    pub fn maybe_no_comments(self, no_comments: Option<bool>) -> Self
        ensures { settings_so_far result ≡ record (settings_so_far self.entry)
            { no_comments = unwrap_or no_comments (settings_so_far self.entry).no_comments } }
    {
        match no_comments {
            Some(no_comments) => self.no_comments(no_comments),
            None => self,
        }
    }

    /// Sets whether comments and slashdashed pieces are removed.
    pub fn no_comments(mut self, no_comments: bool) -> Self
        ensures { settings_so_far result ≡ record (settings_so_far self.entry)
            { no_comments = no_comments } }
    {
        self.0.no_comments = no_comments;
        self
    }

    /// Returns the configuration.
    pub fn build(self) -> FormatConfig<'a>
        ensures { settings result ≡ settings_so_far self.entry }
    {
        self.0
    }
}

impl Default for FormatConfigBuilder<'_> {
    ghost is_default = { λ b. settings_so_far b ≡ defaults };

    fn default() -> Self {
        FormatConfigBuilder::new()
    }
}
