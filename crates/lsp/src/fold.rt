//! Blocks, block comments and runs of line comments, over several lines, as folding ranges.

ghost use Rattle.lsp.specs.Internal.Nesting.{WritesItems, WritesMembers};
ghost use Rattle.lsp.specs.Replies.{IsSomeJson};
ghost use Rattle.std.specs.Prelude.{IfOk, OnOk};

use crate::scan::{Lexeme, Scanner, is_block_comment, is_line_comment};
use crate::write::{Out, Wrong, begin, end, put_number, put_text};
use kdl_syntax::{Event, Token, TokenKind};
use lsp_text::{Cursor, Encoding};
use std::alloc::{AllocError, Global};

/// Line comments on lines that follow each other.
#[derive(Clone, Copy)]
struct Run {
    first: usize,
    last: usize,
}

/// What is known of the text before a token.
#[derive(Drop)]
struct FoldWriter<'a> {
    text: &'a str,
    cursor: Cursor<'a>,
    /// The line of the name of the last node.
    name: usize,
    /// The same for each open block.
    open: Vec<usize>,
    /// The last line comments.
    run: Option<Run>,
    /// Whether the line has spaces and block comments only.
    is_blank: bool,
}

/// Returns what folds in a text. In a text with faults, a block that is not closed does not fold.
pub(crate) fn folds(alloc: Global, text: &str) -> Result<String, Wrong>
    ensures { IfOk result IsSomeJson }
{
    let mut out = begin(alloc);
    out.begin_array()?;
    let mut folds = FoldWriter {
        text,
        cursor: Cursor::new(text, Encoding::Utf8),
        name: 0,
        open: Vec::new(alloc),
        run: None,
        is_blank: true,
    };
    let mut scanner = Scanner::new(alloc, text);
    while let Some(lexeme) = scanner.next(alloc)? {
        folds.read(&mut out, lexeme)?;
    }
    put_run(&mut out, folds.run)?;
    out.end_array()?;
    Ok(end(alloc, out))
}

impl<'a> FoldWriter<'a> {
    /// Takes a token or a fault, and writes what ends with it.
    fn read(&mut self, out: &mut Out, lexeme: Lexeme<'_>) -> Result<(), AllocError>
        ensures { OnOk result (WritesItems out.old out.new) }
    {
        match lexeme {
            Lexeme::Token(token, event) => self.take(out, &token, event),
            Lexeme::Fault { .. } => {
                self.is_blank = true;
                Ok(())
            }
        }
    }

    /// Takes a token, and writes what ends with it.
    fn take(&mut self, out: &mut Out, token: &Token<'_>, event: Event) -> Result<(), AllocError>
        ensures { OnOk result (WritesItems out.old out.new) }
    {
        self.put_ended(out, token, event)?;
        self.is_blank = match token.kind {
            TokenKind::Space => self.is_blank,
            TokenKind::Newline => true,
            _ => false,
        };
        Ok(())
    }

    /// Writes what ends with a token.
    fn put_ended(
        &mut self,
        out: &mut Out,
        token: &Token<'_>,
        event: Event,
    ) -> Result<(), AllocError>
        ensures { OnOk result (WritesItems out.old out.new) }
    {
        let start = token.at.start.at();
        match event {
            Event::Name | Event::TypedName => {
                self.name = self.cursor.position(start).line;
                Ok(())
            }
            Event::Opening(_) => Ok(self.open.push(self.name)?),
            Event::GapClosing | Event::NodeClosing | Event::KeptClosing => self.close(out, start),
            _ => self.comment(out, token),
        }
    }

    /// Writes the block that ends with a `}`, from the line of its node to the line before, if these differ.
    fn close(&mut self, out: &mut Out, end: usize) -> Result<(), AllocError>
        ensures { OnOk result (WritesItems out.old out.new) }
    {
        let Some(first) = self.open.pop() else {
            return Ok(());
        };
        self.name = first;
        let last = self.cursor.position(end).line.saturating_sub(1);
        put_fold(out, Run { first, last }, None)
    }

    /// Takes a token that may be a comment.
    fn comment(&mut self, out: &mut Out, token: &Token<'_>) -> Result<(), AllocError>
        ensures { OnOk result (WritesItems out.old out.new) }
    {
        let (start, end) = (token.at.start.at(), token.at.end.at());
        let text = self.text.get(start..end).unwrap_or("");
        if is_block_comment(&token.kind, text) {
            let first = self.cursor.position(start).line;
            let last = self.cursor.position(end).line;
            return put_fold(out, Run { first, last }, Some("comment"));
        }
        if !is_line_comment(&token.kind, text) || !self.is_blank {
            return Ok(());
        }
        let last = self.cursor.position(start).line;
        match self.run {
            Some(run) if last <= run.last.saturating_add(1) => {
                self.run = Some(Run { last, ..run });
                Ok(())
            }
            _ => {
                let run = self.run.replace(Run { first: last, last });
                put_run(out, run)
            }
        }
    }
}

/// Writes line comments, if there are some on more than one line.
fn put_run(out: &mut Out, run: Option<Run>) -> Result<(), AllocError>
    ensures { OnOk result (WritesItems out.old out.new) }
{
    match run {
        Some(run) => put_fold(out, run, Some("comment")),
        None => Ok(()),
    }
}

/// Writes lines that fold, if there is more than one.
fn put_fold(out: &mut Out, lines: Run, kind: Option<&str>) -> Result<(), AllocError>
    ensures { OnOk result (WritesItems out.old out.new) }
{
    if lines.last <= lines.first {
        return Ok(());
    }
    out.begin_object()?;
    put_number(out, "startLine", lines.first)?;
    put_number(out, "endLine", lines.last)?;
    put_kind(out, kind)?;
    out.end_object()
}

/// Writes the kind of lines that fold, if they have one.
fn put_kind(out: &mut Out, kind: Option<&str>) -> Result<(), AllocError>
    ensures { OnOk result (WritesMembers out.old out.new) }
{
    match kind {
        Some(kind) => put_text(out, "kind", kind),
        None => Ok(()),
    }
}
