//! Documents and nodes, read from a text.

ghost use Rattle.kdl.specs.Parses.{ChecksDocument, ParsesDocument, ParsesNodeText};
ghost use Rattle.kdl_text.specs.Failures.{IsSyntax};
ghost use Rattle.kdl_text.specs.Spans.{raise};
ghost use Rattle.std.specs.Prelude.{◌+◌, ◌*◌, ◌≤◌, length, OnOk};
ghost use Rattle.std.specs.Str.{chars};

use crate::acceptance::check;
use crate::document::KdlDocument;
use crate::node::KdlNode;
use kdl_parser::{read_document, read_node_text};
use kdl_text::cursor::Steps;
use kdl_text::error::ParseFailure;
use std::alloc::Global;

impl KdlDocument {
    /// Parses a document, and keeps every byte of its form (KDL 2.0.0, Document).
    ///
    /// Returns `Syntax` if the text is not a document. Faults are reported in the order in which reading meets them, an
    /// unclosed block when the text ends; reading continues after a fault. There is at least one diagnostic. Returns
    /// `Memory` if an allocation fails.
    ///
    /// ```
    /// let text = "host localhost // here\nport 0x1F90\n";
    /// let document = KdlDocument::parse(alloc, text)?;
    /// let same = document.to_string(alloc)?; // the text, byte for byte
    /// ```
    pub fn parse(alloc: Global, text: &str) -> Result<KdlDocument, ParseFailure>
        ensures { ParsesDocument text.now result }
    {
        let mut steps = Steps::new();
        KdlDocument::parse_counted(alloc, text, &mut steps)
    }

    /// Parses a document like `parse`, and adds the steps of parsing to the count, which saturates at `u64::MAX`. A
    /// step is one look at a character or at a token, or one byte of a slice of the text.
    ///
    /// A document of n bytes takes at least a step for each character and at most 32 (n + 1) steps. A refused text
    /// takes at least one step, and at most 184 (n + 1).
    ///
    /// ```
    /// let mut steps = Steps::new();
    /// let document = KdlDocument::parse_counted(alloc, "a 1", &mut steps)?;
    /// let taken = steps.count(); // at least 3, at most 128
    /// ```
    pub fn parse_counted(
        alloc: Global,
        text: &str,
        steps: &mut Steps,
    ) -> Result<KdlDocument, ParseFailure>
        ensures parses { ParsesDocument text.now result }
        // At least a step for each character is counted, and at most 32 for each byte and 32 more. For a refused text,
        // with its diagnostics, it is at most 184.
        ensures least { OnOk result (raise steps.old (length (chars text.now)) ≤ steps.new) }
        ensures most { OnOk result (steps.new ≤ steps.old + 32 * (length text.now + 1)) }
        ensures told_most { IsSyntax result → steps.new ≤ steps.old + 184 * (length text.now + 1) }
        ensures raised { raise steps.old 1 ≤ steps.new }
    {
        match read_document(alloc, text, steps) {
            Ok(parts) => Ok(KdlDocument::from_parts(parts)),
            Err(failure) => Err(failure),
        }
    }

    /// Checks whether a text is a document, and creates none. This takes about a third of the time of `parse`.
    ///
    /// Returns `Syntax`, with the same faults as `parse`, if the text is not a document. Returns `Memory` if an
    /// allocation fails.
    ///
    /// ```
    /// let checked = KdlDocument::check(alloc, "host localhost\n"); // `Ok`
    /// let refused = KdlDocument::check(alloc, "host }\n"); // `Syntax`, at the `}`
    /// ```
    pub fn check(alloc: Global, text: &str) -> Result<(), ParseFailure>
        ensures { ChecksDocument text.now result }
    {
        check(alloc, text)
    }

    /// Parses a document of KDL 2, as `parse` does.
    ///
    /// ```
    /// let document = KdlDocument::parse_v2(alloc, "on #true")?;
    /// let on = document.get_arg("on"); // the boolean `#true`
    /// ```
    pub fn parse_v2(alloc: Global, text: &str) -> Result<KdlDocument, ParseFailure>
        ensures { ParsesDocument text.now result }
    {
        KdlDocument::parse(alloc, text)
    }
}

impl KdlNode {
    /// Parses a text that is exactly one node, and keeps every byte of its form (KDL 2.0.0, Node). Before the node the
    /// text may have line-spaces and slashdashed nodes, which are its leading text. After its terminator the text may
    /// have only line-spaces, which are its trailing text. The span is the whole text, in bytes.
    ///
    /// Returns `Syntax` if the text is not a node. The error has a diagnostic for each fault, and at least one: a
    /// second node, where reading ends, and the end of a text that has no node, are reported too. Returns `Memory` if an
    /// allocation fails.
    ///
    /// ```
    /// let node = KdlNode::parse(alloc, "// the port\nport 8080\n")?;
    /// let two = KdlNode::parse(alloc, "a; b"); // `Syntax`, at the second node
    /// ```
    pub fn parse(alloc: Global, text: &str) -> Result<KdlNode, ParseFailure>
        ensures { ParsesNodeText text.now result }
    {
        read_node_text(alloc, text)
    }
}
