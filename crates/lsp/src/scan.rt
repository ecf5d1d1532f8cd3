//! The tokens of a text that may have faults.

ghost use Rattle.std.specs.Prelude.{◌≡◌, ◌<◌, ◌≤◌, [], IfOk, IsTrue, MatchOption, length};

use kdl_syntax::{Control, Event, LexFailure, Phase, Token, TokenKind, lexer};
use kdl_text::chars::is_newline_char;
use kdl_text::cursor::{Cursor, Steps};
use std::alloc::{AllocError, Global};

/// What comes next in a text.
#[derive(Drop)]
pub(crate) enum Lexeme<'a> {
    /// A token, and what it is in the document.
    Token(Token<'a>, Event),
    /// Characters that can't be where they are, up to the end of a line, or of the text.
    Fault { ends_text: bool },
}

/// A reader of tokens. After a fault it goes on at the next line, between the nodes of the block that is open.
#[derive(Drop)]
pub(crate) struct Scanner<'a> {
    text: &'a str,
    cursor: Cursor<'a>,
    control: Control,
}

impl<'a> Scanner<'a> {
    /// At the start of a text.
    pub(crate) fn new(alloc: Global, text: &'a str) -> Scanner<'a> {
        let mut cursor = Cursor::new(text, Steps::new());
        let _ = cursor.eat('\u{feff}');
        Scanner {
            text,
            cursor,
            control: Control::new(alloc, Phase::Gap),
        }
    }

    /// Returns the phase of the grammar.
    pub(crate) fn phase(&self) -> Phase {
        self.control.phase()
    }

    /// Returns what comes next, which has at least one character, or `None` at the end of the text.
    pub(crate) fn next(&mut self, alloc: Global) -> Result<Option<Lexeme<'a>>, AllocError>
        ensures { IfOk result (λ o. MatchOption o (self.old.cursor.rest ≡ [])
            (λ _. length self.new.cursor.rest < length self.old.cursor.rest)) }
    {
        let start = self.cursor.at();
        let token = match lexer::next(&mut self.cursor, alloc) {
            Ok(Some(token)) => token,
            Ok(None) => return Ok(None),
            Err(LexFailure::Faulty) => {
                let is_unclosed = self.cursor.at() >= self.text.len();
                let ends_line = self.skip_line(start);
                let ends_text = is_unclosed || !ends_line;
                return Ok(Some(Lexeme::Fault { ends_text }));
            }
            Err(LexFailure::Memory) => return Err(AllocError),
        };
        let event = self.control.phase().event(&token.kind);
        let is_taken = self.control.take(&token.kind)?;
        match event {
            Some(event) if is_taken => Ok(Some(Lexeme::Token(token, event))),
            _ => {
                let ends_text = !self.skip_line(start);
                Ok(Some(Lexeme::Fault { ends_text }))
            }
        }
    }

    /// Goes on at the next line after what was read from `start` on. Returns whether a newline is before it.
    fn skip_line(&mut self, start: usize) -> bool
        ensures left { length self.new.cursor.rest ≤ length self.old.cursor.rest }
        // Where nothing was read, it takes a character, if there is one.
        ensures taken { self.old.cursor.at ≤ start → 0 < length self.old.cursor.rest
            → length self.new.cursor.rest < length self.old.cursor.rest }
    {
        self.control.go_to(Phase::Gap);
        if self.ends_line(start) {
            return true;
        }
        while let Some(c) = self.cursor.take() {
            if is_newline_char(c) {
                return true;
            }
        }
        false
    }

    /// Returns whether something was read from `start` on, and ends with a newline.
    fn ends_line(&self, start: usize) -> bool
        ensures { IsTrue result → start < self.now.cursor.at }
    {
        let end = self.cursor.at();
        let read = self.text.get(..end).unwrap_or("");
        start < end && read.ends_with(is_newline_char)
    }
}

/// Returns whether a token is a line comment.
pub(crate) fn is_line_comment(kind: &TokenKind, text: &str) -> bool {
    matches!(kind, TokenKind::Newline) && text.starts_with("//")
}

/// Returns whether a token is a block comment.
pub(crate) fn is_block_comment(kind: &TokenKind, text: &str) -> bool {
    matches!(kind, TokenKind::Space) && text.starts_with("/*")
}

/// Returns whether a string at the end of which a text begins is a key: whether `=` follows, perhaps after spaces.
pub(crate) fn is_key(alloc: Global, text: &str) -> Result<bool, AllocError> {
    let mut cursor = Cursor::new(text, Steps::new());
    loop {
        match lexer::next(&mut cursor, alloc) {
            Ok(Some(token)) => match token.kind {
                TokenKind::Space => {}
                TokenKind::Equals => return Ok(true),
                _ => return Ok(false),
            },
            Ok(None) | Err(LexFailure::Faulty) => return Ok(false),
            Err(LexFailure::Memory) => return Err(AllocError),
        }
    }
}
