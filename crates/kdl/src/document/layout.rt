//! Layout of documents.

ghost use Rattle.kdl.specs.Internal.Spacing.{DocumentIsSpaced, IsAround};
ghost use Rattle.kdl.specs.Layout.{DocumentKeepsReading, DocumentSpaced, IndentsBySpaces, document_bare};
ghost use Rattle.kdl.specs.LaysOut.{FormatsDocument, KeepsComments, KeepsDocument, RereadsDocument};
ghost use Rattle.kdl.specs.ReadsBack.{DocumentReadsBack};
ghost use Rattle.kdl.specs.Tree.{document_tree, nodes_tree};
ghost use Rattle.kdl.specs.declared.document.KdlDocument.{out-KdlDocument};
ghost use Rattle.kdl_layout.specs.Config.{defaults, indentation, keeping, nothing, settings, without_comments};
ghost use Rattle.kdl_layout.specs.Formatted.{or_empty_document};
ghost use Rattle.kdl_layout.specs.OneLine.{is_on_one_line};
ghost use Rattle.kdl_layout.specs.Spaced.{IsSpacedBraced};
ghost use Rattle.kdl_grammar.specs.Tree.{DocumentFormat};
ghost use Rattle.kdl_parts.specs.Formats.{document_format_tree};
ghost use Rattle.std.specs.Prelude.{◌≡◌, ◌+◌, ◌<◌, ◌^◌, IfOk, OnOk, Some, false, option_map};
ghost use Rattle.std.specs.Str.{chars};

use crate::document::KdlDocument;
use crate::layout::{Around, before_trailing, lay_out_nodes, nodes_on_line};
use kdl_layout::layout::{braces, lay_out_content};
use kdl_layout::one_line::{braces_on_line, formats_in_line};
use kdl_layout::{Before, FormatConfig, Layout};
use kdl_parts::KdlDocumentFormat;
use std::alloc::AllocError;

impl KdlDocument {
    /// Formats the document: each node on its own line, four spaces for each level, one space between the parts of a
    /// node. A document without nodes prints one newline. The data and the spans are unchanged.
    ///
    /// Comments and slashdashed pieces are kept between nodes, after a node on its line, between entries, and before a
    /// block. They are removed inside a type or after it, around `=`, and after the value of an entry that
    /// `KdlEntry::parse` read. Spellings are removed too, but an entry that is flagged to keep its form
    /// (`KdlEntry::keep_format`) keeps the spelling of its value and the text before it.
    ///
    /// If no entry is flagged, the printed text is a document with the same data, and a second call changes nothing.
    ///
    /// If an allocation fails, returns an error. The data of the document is then unchanged, and some of it may be
    /// formatted. If each piece of the text that it printed was read as that piece, as after `parse`, and if each entry
    /// that keeps its form reads back in it, that is still so.
    ///
    /// ```
    /// let mut document = KdlDocument::parse(alloc, "a  0x10 // one\n/- b 2;c /* two */ {  }")?;
    /// document.autoformat()?; // prints `a 16 // one`, `/- b 2;`, `c /* two */ {`, an empty line and `}`
    /// ```
    pub fn autoformat(&mut self) -> Result<(), AllocError>
        ensures keeps { KeepsDocument defaults self.old self.new result }
        ensures rereads { RereadsDocument defaults self.old self.new result }
        ensures formats { FormatsDocument defaults self.old self.new result }
    {
        let config = FormatConfig::builder().build();
        self.autoformat_config(&config)
    }

    /// Formats the document like `autoformat`, and removes its comments and slashdashed pieces.
    ///
    /// If no entry is flagged, two documents that are formatted so print equal texts exactly if their data are equal.
    ///
    /// What an error leaves is as after `autoformat`.
    ///
    /// ```
    /// let mut document = KdlDocument::parse(alloc, "a  0x10; /* b */ \"b\" { c }")?;
    /// document.autoformat_no_comments()?; // prints `a 16`, `b {`, `    c` and `}`, each with a newline
    /// ```
    pub fn autoformat_no_comments(&mut self) -> Result<(), AllocError>
        ensures keeps { KeepsDocument without_comments self.old self.new result }
        ensures rereads { RereadsDocument without_comments self.old self.new result }
        ensures formats { FormatsDocument without_comments self.old self.new result }
    {
        let config = FormatConfig::builder().no_comments(true).build();
        self.autoformat_config(&config)
    }

    /// Formats the document as the configuration says: from its level on, with its indent for each level, with or
    /// without comments, and with all entries flagged or not.
    ///
    /// Returns an error if an allocation fails, or if the level of a child would exceed `usize::MAX`. It leaves what an
    /// error of `autoformat` does, but the text need not read back if the indent is not spaces.
    ///
    /// ```
    /// let config = FormatConfig::builder().indent("\t").build();
    /// let mut document = KdlDocument::parse(alloc, "a { b }")?;
    /// document.autoformat_config(&config)?; // prints `a {`, `b` after a tab, and `}`
    /// ```
    pub fn autoformat_config(&mut self, config: &FormatConfig) -> Result<(), AllocError>
        ensures keeps { KeepsDocument (settings config.now) self.old self.new result }
        ensures rereads { IndentsBySpaces (settings config.now)
            → RereadsDocument (settings config.now) self.old self.new result }
        ensures formats { FormatsDocument (settings config.now) self.old self.new result }
    {
        let layout = Layout {
            config: *config,
            blank_lines: 0,
            keep_spelling: false,
            keep_inner_comments: false,
            keep_one_line: false,
            compact_empty: false,
        };
        self.autoformat_layout(&layout)
    }

    /// Formats the document like `autoformat_config`, and keeps blank lines between nodes, and between comments and
    /// slashdashed pieces that are kept: as many as there are, but at most the layout's number. There are none at the
    /// start and at the end of the document, and of a block. If the layout keeps spellings, a value, a name, a key or a
    /// type keeps its spelling if this means what it did, comments inside a type, after it and around `=` stay, and so
    /// does a text before an entry that continues the line; an entry that is flagged to keep its form is laid out as
    /// without that. If the layout keeps comments inside entries and types, these stay even if spellings do not. If the
    /// layout keeps blocks on one line, a block that prints one line, without comments and without blocks in it, is put on
    /// one line: `{ a 1; b 2 }`, or `{}` without nodes. If the layout is compact where there are no nodes, a document or
    /// a block without nodes ends after its last comment; without comments the document prints nothing, and the block
    /// `{}`.
    ///
    /// Returns an error as `autoformat_config` does, or if a number of newlines would exceed `usize::MAX`. What it leaves
    /// is the same.
    ///
    /// ```
    /// let layout = Layout { blank_lines: 1, keep_one_line: true, ..Layout::new() };
    /// let mut document = KdlDocument::parse(alloc, "a;b\n\n\n\nc {d ;e}")?;
    /// document.autoformat_layout(&layout)?; // prints `a`, `b`, an empty line and `c { d; e }`
    /// let layout = Layout { keep_spelling: true, ..Layout::new() };
    /// let mut document = KdlDocument::parse(alloc, "a   0x10;\"b\"")?;
    /// document.autoformat_layout(&layout)?; // prints `a 0x10` and `"b"`
    /// let layout = Layout { compact_empty: true, ..Layout::new() };
    /// let mut document = KdlDocument::parse(alloc, "a {\n} // b\nc {\n// d\n\n}")?;
    /// document.autoformat_layout(&layout)?; // prints `a {} // b`, `c {`, `// d` and `}`, each on its own line
    /// ```
    pub fn autoformat_layout(&mut self, layout: &Layout) -> Result<(), AllocError>
        ensures keeps { KeepsDocument (settings layout.now.config) self.old self.new result }
        ensures rereads { IndentsBySpaces (settings layout.now.config)
            → RereadsDocument (settings layout.now.config) self.old self.new result }
        ensures comments { KeepsComments layout.now self.old self.new result }
        ensures formatted { OnOk result (DocumentSpaced layout.now self.old self.new) }
        ensures unspaced { layout.now.blank_lines ≡ 0
            → keeping layout.now ≡ nothing → layout.now.keep_one_line ≡ false
            → layout.now.compact_empty ≡ false
            → FormatsDocument (settings layout.now.config) self.old self.new result }
    {
        self.lay_out(layout)
    }

    /// Lays out the document at the configuration's level.
    fn lay_out(&mut self, layout: &Layout) -> Result<(), AllocError>
        ensures kept { document_bare self.new ≡ document_bare self.old }
        ensures reads_back { IndentsBySpaces (settings layout.now.config)
            → DocumentKeepsReading (settings layout.now.config) self.old
            → DocumentReadsBack self.old → DocumentReadsBack self.new }
        ensures spaced { OnOk result (DocumentIsSpaced layout.now self.old self.new) }
    {
        let alloc = *self.nodes.allocator();
        let level = layout.config.indent_level;
        let last = before_trailing(&self.nodes, layout)?;
        let first = lay_out_content(&mut self.format, alloc, layout, level, last)?;
        lay_out_nodes(&mut self.nodes, layout, level, first)
    }

    /// Returns the texts around the nodes of the document, as the block of a node at a level, between braces, and what
    /// comes before the first of these.
    pub(crate) fn braces(
        &self,
        layout: &Layout,
        level: usize,
        before: &str,
    ) -> Result<(KdlDocumentFormat, Before), AllocError>
        ensures fits { OnOk result (level + 1 < 2 ^ 64) }
        ensures formatted { IfOk result (λ (braces, first).
            chars before.now ≡ indentation (settings layout.now.config) level
            → IsSpacedBraced layout.now.compact_empty layout.now.blank_lines (settings layout.now.config) level
            (nodes_tree (out-KdlDocument self.now).nodes.items)
            (or_empty_document (option_map document_format_tree (out-KdlDocument self.now).format))
            first (Some (document_format_tree braces))) }
    {
        let Some(inner) = level.checked_add(1) else {
            return Err(AllocError);
        };
        let alloc = *self.nodes.allocator();
        let last = before_trailing(&self.nodes, layout)?;
        braces(&self.format, alloc, layout, inner, before, last)
    }

    /// Returns the texts around the nodes of the document, as the block of a node at a level, and what comes before the
    /// first of these. If the document is on one line and the layout keeps it there, they are those on one line.
    pub(crate) fn around(
        &self,
        layout: &Layout,
        level: usize,
        before: &str,
    ) -> Result<(Around, Before), AllocError>
        ensures fits { OnOk result (level + 1 < 2 ^ 64) }
        ensures formatted { IfOk result (λ (around, first).
            chars before.now ≡ indentation (settings layout.now.config) level
            → (braces : DocumentFormat)
            × IsSpacedBraced layout.now.compact_empty layout.now.blank_lines (settings layout.now.config) level
            (nodes_tree (out-KdlDocument self.now).nodes.items)
            (or_empty_document (option_map document_format_tree (out-KdlDocument self.now).format))
            first (Some braces)
            × IsAround layout.now self.now braces around) }
    {
        let (braces, first) = self.braces(layout, level, before)?;
        let alloc = *self.nodes.allocator();
        if layout.keep_one_line && self.is_on_one_line() {
            let line = formats_in_line(alloc, self.nodes.len())?;
            let braces = KdlDocumentFormat::new(alloc);
            return Ok((Around { braces, line }, first));
        }
        let line = Vec::new(alloc);
        Ok((Around { braces, line }, first))
    }

    /// Returns whether the block is on one line: it prints no newline, no comment, no slashdashed piece and no line
    /// continuation, and its nodes have no blocks.
    fn is_on_one_line(&self) -> bool
        ensures { result ≡ is_on_one_line (document_tree self.now) }
    {
        braces_on_line(&self.format) && nodes_on_line(&self.nodes)
    }
}
