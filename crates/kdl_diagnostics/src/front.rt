//! The part of a text before its first fault: the tokens that the control takes.

ghost use Rattle.kdl_diagnostics.specs.Internal.Noted.{IsFrontOf, KeepsFrontBetween};
ghost use Rattle.kdl_diagnostics.specs.Internal.Outsets.{GoesOver, IsNew, IsStopped, text_view};
ghost use Rattle.kdl_diagnostics.specs.TextControl.{Accepts, Takes, text_start, text_step};
ghost use Rattle.kdl_syntax.specs.Internal.Handed.{kind_view};
ghost use Rattle.kdl_text.specs.Chars.{Text};
ghost use Rattle.kdl_text.specs.Internal.Reading.{Costs, Moves};
ghost use Rattle.kdl_text.specs.Spans.{bytes, raise};
ghost use Rattle.std.specs.Prelude.{◌≡◌, ◌↔◌, ◌+◌, ◌*◌, ◌≤◌, false, true, IfOk, None, OnOk, Some, if◌then◌else◌};

use crate::notes::Notes;
use crate::state::Progress;
use crate::text_control::TextControl;
use crate::whole::Whole;
use kdl_syntax::{LexFailure, Phase, Token, TokenKind, lexer};
use kdl_text::cursor::{Checkpoint, Cursor};
use std::alloc::{AllocError, Global};

/// The part of a text up to a place: the tokens before it may come.
#[derive(Drop)]
pub(crate) struct Prefix<'a> {
    pub alloc: Global,
    pub notes: Notes<'a>,
    pub control: TextControl,
    /// Whether the last `(` begins the type of a property's value.
    pub is_property: bool,
    /// The place where the tokens end.
    pub place: Checkpoint<'a>,
    /// The start of the string, number or keyword that ends there, or else that place.
    pub from: Checkpoint<'a>,
    /// What is known at that start.
    pub before: Progress,
    /// Whether the tokens end with the text, which may end there.
    pub is_accepted: bool,
}

/// Advances past the U+FEFF that a document may begin with.
fn skip_bom<'a>(whole: Whole, cursor: &mut Cursor<'a>)
    ensures accepts { Takes (text_start whole) cursor.new.rest ↔ Accepts whole cursor.old.rest }
    ensures moves { Moves cursor.old cursor.new }
    ensures costs { Costs 24 1 cursor.old cursor.new }
{
    if let Whole::Document = whole {
        let _ = cursor.eat('\u{feff}');
    }
}

impl<'a> Prefix<'a> {
    /// Creates the empty part at the start of a text.
    pub(crate) fn new(alloc: Global, whole: Whole, start: Checkpoint<'a>) -> Self
        ensures front { IsFrontOf start.entry.rest result }
        ensures new { IsNew result }
        ensures whole { result.control.whole ≡ whole }
    {
        let control = TextControl::new(alloc, whole);
        let before = control.outset();
        Prefix {
            alloc,
            place: start.copied(),
            from: start.copied(),
            notes: Notes::new(alloc, start),
            control,
            is_property: false,
            before,
            is_accepted: false,
        }
    }

    /// Reads the text before the cursor up to its first fault, or to its end.
    pub(crate) fn read(&mut self, cursor: &mut Cursor<'a>) -> Result<(), AllocError>
        requires { IsNew self.old }
        ensures keeps { (text : Text) → text ≡ cursor.old.rest → IsFrontOf text self.old → IsFrontOf text self.new }
        ensures exact { IfOk result (λ _. self.new.is_accepted ≡ true ↔ Accepts self.old.control.whole cursor.old.rest) }
        ensures stopped { IfOk result (λ _. self.new.is_accepted ≡ false → IsStopped self.new) }
        ensures most { OnOk result (cursor.new.steps ≤ cursor.old.steps + (24 * bytes cursor.old.rest + 25)) }
        ensures counts { raise cursor.old.steps 0 ≤ raise cursor.new.steps 0 }
    {
        skip_bom(self.control.whole, cursor);
        self.place = cursor.checkpoint();
        self.from = self.place.copied();
        self.before = self.control.outset();
        'tokens: loop {
            let token = match lexer::next(cursor, self.alloc) {
                Ok(Some(token)) => token,
                Ok(None) => {
                    self.is_accepted = self.control.may_end();
                    return Ok(());
                }
                Err(LexFailure::Faulty) => return Ok(()),
                Err(LexFailure::Memory) => return Err(AllocError),
            };
            let is_taken = self.take(&token)?;
            drop(token);
            if !is_taken {
                return Ok(());
            }
        }
    }

    /// Takes the token if it may come here, and returns whether it may.
    fn take(&mut self, token: &Token<'a>) -> Result<bool, AllocError>
        ensures keeps { KeepsFrontBetween token.now.at.start token.now.at.end self.old self.new }
        ensures took { IfOk result (λ b. text_step (text_view self.old.control) (kind_view token.now.kind) ≡
            (if b then Some (text_view self.new.control) else None)) }
        ensures over { IfOk result (GoesOver token.now self.old self.new) }
        ensures same { self.new.is_accepted ≡ self.old.is_accepted }
    {
        let before = self.control.outset();
        if !self.control.take(&token.kind)? {
            return Ok(false);
        }
        self.notes
            .note_token(&token.kind, &token.at.start, &token.at.end)?;
        self.is_property = match token.kind {
            TokenKind::Left => matches!(before.phase, Phase::Property),
            _ => self.is_property,
        };
        self.place = token.at.end.copied();
        match token.kind {
            TokenKind::String(_) | TokenKind::Value(_) => {
                self.from = token.at.start.copied();
                self.before = before;
                Ok(true)
            }
            _ => {
                self.from = token.at.end.copied();
                self.before = self.control.outset();
                Ok(true)
            }
        }
    }
}
