//! The tokens of a text for highlighting.

ghost use Rattle.lsp.specs.Internal.Nesting.{WritesItems};
ghost use Rattle.lsp.specs.Replies.{IsSomeJson};
ghost use Rattle.std.specs.Prelude.{IfOk, OnOk};

use crate::scan::{Lexeme, Scanner, is_block_comment, is_key, is_line_comment};
use crate::write::{Out, Wrong, begin, end};
use kdl_syntax::{Event, Phase, Token, TokenKind};
use kdl_text::chars::is_newline_char;
use lsp_text::{Cursor, Encoding, Position};
use std::alloc::{AllocError, Global};

/// What a token is highlighted as.
#[derive(Clone, Copy, PartialEq, Eq, Debug)]
enum Class {
    /// A comment, or a part of what is slashdashed.
    Comment,
    /// A string that is a value.
    Text,
    Number,
    Keyword,
    /// The key of a property.
    Key,
    /// The name of a type.
    Type,
    /// The name of a node.
    Name,
    /// `=`.
    Operator,
}

/// The names of the classes in the protocol, in order.
pub(crate) const LEGEND: [&str; 8] = [
    "comment", "string", "number", "keyword", "property", "type", "function", "operator",
];

impl Class {
    /// Returns the index of the class in the legend.
    fn index(self) -> usize {
        match self {
            Class::Comment => 0,
            Class::Text => 1,
            Class::Number => 2,
            Class::Keyword => 3,
            Class::Key => 4,
            Class::Type => 5,
            Class::Name => 6,
            Class::Operator => 7,
        }
    }
}

/// What is slashdashed here, with the number of open blocks where its `/-` is.
#[derive(Clone, Copy)]
enum Dropped {
    Nothing,
    Node(usize),
    /// An entry or a block.
    Part(usize),
}

/// The tokens that are being written.
#[derive(Drop)]
struct TokenWriter<'a> {
    text: &'a str,
    cursor: Cursor<'a>,
    /// Where the last token begins.
    last: Position,
    /// How many blocks are open.
    depth: usize,
    dropped: Dropped,
}

/// Returns the tokens of a text. A line with a fault has tokens up to the fault.
pub(crate) fn tokens(alloc: Global, text: &str, encoding: Encoding) -> Result<String, Wrong>
    ensures { IfOk result IsSomeJson }
{
    let mut out = begin(alloc);
    out.begin_object()?;
    out.key("data")?;
    out.begin_array()?;
    let mut tokens = TokenWriter {
        text,
        cursor: Cursor::new(text, encoding),
        last: Position {
            line: 0,
            character: 0,
        },
        depth: 0,
        dropped: Dropped::Nothing,
    };
    let mut scanner = Scanner::new(alloc, text);
    while let Some(lexeme) = scanner.next(alloc)? {
        tokens.read(alloc, &mut out, lexeme)?;
    }
    out.end_array()?;
    out.end_object()?;
    Ok(end(alloc, out))
}

impl<'a> TokenWriter<'a> {
    /// Takes a token, which it writes, or a fault.
    fn read(&mut self, alloc: Global, out: &mut Out, lexeme: Lexeme<'_>) -> Result<(), AllocError>
        ensures { OnOk result (WritesItems out.old out.new) }
    {
        match lexeme {
            Lexeme::Token(token, event) => self.take(alloc, out, &token, event),
            Lexeme::Fault { .. } => {
                self.dropped = Dropped::Nothing;
                Ok(())
            }
        }
    }

    /// Takes a token, and writes it.
    fn take(
        &mut self,
        alloc: Global,
        out: &mut Out,
        token: &Token<'_>,
        event: Event,
    ) -> Result<(), AllocError>
        ensures { OnOk result (WritesItems out.old out.new) }
    {
        let (start, end) = (token.at.start.at(), token.at.end.at());
        let text = self.text.get(start..end).unwrap_or("");
        if matches!(token.kind, TokenKind::Space) && text.starts_with('\\') {
            let comments = text.get(1..).unwrap_or("");
            return self.put_comments(alloc, out, comments, start.saturating_add(1));
        }
        let is_key = match event {
            Event::Word => is_key(alloc, self.text.get(end..).unwrap_or(""))?,
            _ => false,
        };
        self.enter(&token.kind, event);
        let class = match self.dropped {
            Dropped::Nothing => class_of(&token.kind, event, text, is_key),
            _ => dropped_class(&token.kind, text),
        };
        self.leave(event, is_key);
        self.put_token(out, text, start, class)
    }

    /// Notes a `/-`, and the end of a block before its `}`.
    fn enter(&mut self, kind: &TokenKind, event: Event) {
        match event {
            Event::GapClosing | Event::NodeClosing | Event::KeptClosing => {
                if matches!(self.dropped, Dropped::Node(depth) if depth == self.depth) {
                    self.dropped = Dropped::Nothing;
                }
                self.depth = self.depth.saturating_sub(1);
            }
            _ => {}
        }
        if matches!(kind, TokenKind::Slashdash) && matches!(self.dropped, Dropped::Nothing) {
            self.dropped = match event {
                Event::Skip(Phase::NodeSlashdash) => Dropped::Node(self.depth),
                _ => Dropped::Part(self.depth),
            };
        }
    }

    /// Notes the start of a block, and the end of what is slashdashed, after a token.
    fn leave(&mut self, event: Event, is_key: bool) {
        let is_over = match (event, self.dropped) {
            (Event::NodeEnd | Event::KeptEnd, Dropped::Node(depth)) => depth == self.depth,
            (
                Event::Argument
                | Event::TypedValue
                | Event::KeyedValue
                | Event::GapClosing
                | Event::NodeClosing
                | Event::KeptClosing,
                Dropped::Part(depth),
            ) => depth == self.depth,
            (Event::Word, Dropped::Part(depth)) => depth == self.depth && !is_key,
            _ => false,
        };
        if is_over {
            self.dropped = Dropped::Nothing;
        }
        if let Event::Opening(_) = event {
            self.depth = self.depth.saturating_add(1);
        }
    }

    /// Writes the comments in an escline, after its `\`.
    fn put_comments(
        &mut self,
        alloc: Global,
        out: &mut Out,
        text: &str,
        offset: usize,
    ) -> Result<(), AllocError>
        ensures { OnOk result (WritesItems out.old out.new) }
    {
        let mut scanner = Scanner::new(alloc, text);
        while let Some(Lexeme::Token(token, _)) = scanner.next(alloc)? {
            let (start, end) = (token.at.start.at(), token.at.end.at());
            let text = text.get(start..end).unwrap_or("");
            let class = comment_class(&token.kind, text);
            self.put_token(out, text, offset.saturating_add(start), class)?;
        }
        Ok(())
    }

    /// Writes a token, if it has a class.
    fn put_token(
        &mut self,
        out: &mut Out,
        text: &str,
        offset: usize,
        class: Option<Class>,
    ) -> Result<(), AllocError>
        ensures { OnOk result (WritesItems out.old out.new) }
    {
        match class {
            Some(class) => self.put_lines(out, text, offset, class),
            None => Ok(()),
        }
    }

    /// Writes a token, once for each of its lines.
    fn put_lines(
        &mut self,
        out: &mut Out,
        text: &str,
        offset: usize,
        class: Class,
    ) -> Result<(), AllocError>
        ensures { OnOk result (WritesItems out.old out.new) }
    {
        let mut start = offset;
        for line in text.trim_end_matches(is_newline_char).split(is_line_end) {
            let end = start.saturating_add(line.len());
            self.put(out, start, end, class)?;
            start = end.saturating_add(1);
        }
        Ok(())
    }

    /// Writes a token of one line, unless it is empty: its place after the last one, its length and its class.
    fn put(
        &mut self,
        out: &mut Out,
        start: usize,
        end: usize,
        class: Class,
    ) -> Result<(), AllocError>
        ensures { OnOk result (WritesItems out.old out.new) }
    {
        if end <= start {
            return Ok(());
        }
        let start = self.cursor.position(start);
        let end = self.cursor.position(end);
        let lines = start.line.saturating_sub(self.last.line);
        let before = if lines == 0 { self.last.character } else { 0 };
        let len = end.character.saturating_sub(start.character);
        self.last = start;
        for n in [
            lines,
            start.character.saturating_sub(before),
            len,
            class.index(),
            0,
        ] {
            out.u64(n as u64)?;
        }
        Ok(())
    }
}

/// Returns whether a character ends a line of the protocol, or a part of its end.
fn is_line_end(c: char) -> bool {
    c == '\n' || c == '\r'
}

/// Returns the class of a token that is not slashdashed, if it has one.
fn class_of(kind: &TokenKind, event: Event, text: &str, is_key: bool) -> Option<Class> {
    match event {
        Event::Name | Event::TypedName => Some(Class::Name),
        Event::TypeName(_) => Some(Class::Type),
        Event::Word if is_key => Some(Class::Key),
        Event::Word | Event::Argument | Event::TypedValue | Event::KeyedValue => {
            Some(value_class(kind, text))
        }
        Event::Equals => Some(Class::Operator),
        _ => comment_class(kind, text),
    }
}

/// Returns the class of a value.
fn value_class(kind: &TokenKind, text: &str) -> Class {
    match kind {
        TokenKind::String(_) => Class::Text,
        _ if text.starts_with('#') => Class::Keyword,
        _ => Class::Number,
    }
}

/// Returns the class of a token that may be a comment.
fn comment_class(kind: &TokenKind, text: &str) -> Option<Class> {
    (is_block_comment(kind, text) || is_line_comment(kind, text)).then_some(Class::Comment)
}

/// Returns the class of a token that is slashdashed: a comment, if it is more than a space or a newline.
fn dropped_class(kind: &TokenKind, text: &str) -> Option<Class> {
    match kind {
        TokenKind::Space | TokenKind::Newline => comment_class(kind, text),
        _ => Some(Class::Comment),
    }
}
