//! What a reader notes of a text: its faults, its open blocks, and the last `(`.

ghost use Rattle.kdl_diagnostics.specs.Internal.Noted.{Adds, Always, Between, CountsOpen, IsNotesOf, Keeps, Lexed, LexedAnd, LexedFrom, HasFault, Untold};
ghost use Rattle.kdl_diagnostics.specs.Internal.Reading.{LiesIn, Reads};
ghost use Rattle.kdl_syntax.specs.Internal.Handed.{kind_view};
ghost use Rattle.kdl_text.specs.Chars.{Text};
ghost use Rattle.kdl_text.specs.Spans.{InText};
ghost use Rattle.std.specs.Prelude.{◌≡◌, ◌<◌, [], length, IfOk};

use crate::ends::value_end;
use crate::esclines::Candidate;
use crate::kind::Kind;
use crate::lexemes::Lexeme;
use kdl_syntax::TokenKind;
use kdl_text::cursor::{Checkpoint, Cursor};
use kdl_text::span::SourceSpan;
use std::alloc::{AllocError, Global};

/// A fault of a text, and the span at which it is reported.
#[derive(Clone, Copy)]
pub struct Fault {
    pub kind: Kind,
    pub span: SourceSpan,
}

/// The notes of a text.
#[derive(Drop)]
pub(crate) struct Notes<'a> {
    /// The start of the text.
    pub whole: Checkpoint<'a>,
    /// The place after the last `(` that was read.
    pub left: Checkpoint<'a>,
    /// The `{` of each open block, or `None` if a fault was noted there.
    pub blocks: Vec<Option<SourceSpan>>,
    pub faults: Vec<Fault>,
    /// The faults that may end a byte earlier, in the order of the text.
    pub candidates: Vec<Candidate>,
}

impl<'a> Notes<'a> {
    /// Creates the notes of a text that begins at the place: there are none.
    pub(crate) fn new(alloc: Global, start: Checkpoint<'a>) -> Self
        ensures notes { IsNotesOf start.entry.rest result }
        ensures blocks { result.blocks.items ≡ [] }
    {
        Notes {
            left: start.copied(),
            whole: start,
            blocks: Vec::new(alloc),
            faults: Vec::new(alloc),
            candidates: Vec::new(alloc),
        }
    }

    /// The span from one place to another after it, or of the character there if they are the same place.
    fn span(&self, from: &Checkpoint<'a>, to: &Checkpoint<'a>) -> SourceSpan
        ensures { (text : Text) → IsNotesOf text self.now → LiesIn text from.now → LiesIn text to.now → InText text result }
    {
        let SourceSpan { offset, len } = self.whole.span_between(from, to);
        if len > 0 {
            return SourceSpan { offset, len };
        }
        let len = from.char_span().len;
        SourceSpan { offset, len }
    }

    /// Notes that a fault was noted at the `{` of the innermost open block.
    pub(crate) fn tell_block(&mut self)
        ensures { Keeps Always self.old self.new }
    {
        let count = self.blocks.len();
        if count > 0 {
            self.blocks[count - 1] = None;
        }
    }

    /// Notes the block that the token opens or closes, or the place after a `(`.
    pub(crate) fn note_token(
        &mut self,
        token: &TokenKind,
        start: &Checkpoint<'a>,
        end: &Checkpoint<'a>,
    ) -> Result<(), AllocError>
        ensures keeps { Keeps (Between start.now end.now) self.old self.new }
        ensures blocks { IfOk result (λ _. CountsOpen (kind_view token.now) self.old.blocks.items self.new.blocks.items) }
    {
        match token {
            TokenKind::Left => {
                self.left = end.copied();
                Ok(())
            }
            TokenKind::Opening => {
                let span = self.span(start, start);
                self.blocks.push(Some(span))?;
                Ok(())
            }
            TokenKind::Closing => {
                let _ = self.blocks.pop();
                Ok(())
            }
            _ => Ok(()),
        }
    }

    /// Notes the place after a `(`.
    pub(crate) fn note_left(&mut self, lexeme: &Lexeme<'a>)
        ensures { Keeps (Lexed lexeme.now) self.old self.new }
    {
        if let Some(TokenKind::Left) = lexeme.token {
            self.left = lexeme.end.copied();
        }
    }

    /// Notes a fault from one place to another after it, or at the character there if they are the same place.
    pub(crate) fn note(
        &mut self,
        kind: Kind,
        from: &Checkpoint<'a>,
        to: &Checkpoint<'a>,
    ) -> Result<(), AllocError>
        ensures { Adds (Between from.now to.now) result self.old self.new }
    {
        let span = self.span(from, to);
        self.faults.push(Fault { kind, span })?;
        Ok(())
    }

    /// Notes a candidate if the lexeme has one: the next fault that is noted, of this kind and from this place on, ends
    /// at the backslash if an escline begins there.
    fn note_candidate(
        &mut self,
        kind: Kind,
        from: &Checkpoint<'a>,
        lexeme: &Lexeme<'a>,
    ) -> Result<(), AllocError>
        ensures { Keeps (LexedAnd lexeme.now from.now) self.old self.new }
    {
        if let Some(backslash) = &lexeme.backslash {
            let span = self.span(from, backslash);
            self.candidates.push(Candidate {
                at: backslash.at(),
                number: self.faults.len(),
                fault: Fault { kind, span },
            })?;
        }
        Ok(())
    }

    /// Notes a fault from the place to the end of the lexeme.
    pub(crate) fn note_from(
        &mut self,
        kind: Kind,
        from: &Checkpoint<'a>,
        lexeme: &Lexeme<'a>,
    ) -> Result<(), AllocError>
        ensures { Adds (LexedAnd lexeme.now from.now) result self.old self.new }
    {
        self.note_candidate(kind, from, lexeme)?;
        self.note(kind, from, &lexeme.end)
    }

    /// The start of a fault of the kind at the place: in a type the place after its `(`, and else the place itself.
    pub(crate) fn start_of(&self, kind: Kind, place: &Checkpoint<'a>) -> Checkpoint<'a>
        ensures { (text : Text) → IsNotesOf text self.now → LiesIn text place.now → LiesIn text result }
    {
        match kind {
            Kind::Type => self.left.copied(),
            _ => place.copied(),
        }
    }

    /// Notes that the lexeme does not fit, by a fault of the kind. After a `(` the fault ends at the next value end.
    pub(crate) fn note_misfit(
        &mut self,
        cursor: &mut Cursor<'a>,
        kind: Kind,
        lexeme: &Lexeme<'a>,
    ) -> Result<(), AllocError>
        ensures adds { Adds (LexedFrom lexeme.now cursor.old) result self.old self.new }
        ensures reads { Reads 24 24 cursor.old cursor.new }
    {
        if let Kind::Misplaced | Kind::Nameless = kind {
            return self.note(kind, &lexeme.start, &lexeme.start);
        }
        let from = self.start_of(kind, &lexeme.start);
        if let Some(TokenKind::Left) = lexeme.token {
            let (end, _) = value_end(cursor);
            return self.note(kind, &from, &end);
        }
        self.note_from(kind, &from, lexeme)
    }

    /// Notes each open block, the innermost first, except those with a fault noted at their `{`.
    pub(crate) fn note_blocks(&mut self) -> Result<(), AllocError>
        ensures keeps { Keeps Always self.old self.new }
        ensures noted { IfOk result (λ _. Untold self.old.blocks.items → 0 < length self.old.blocks.items → HasFault self.new) }
    {
        'unclosed: while let Some(block) = self.blocks.pop() {
            if let Some(span) = block {
                let kind = Kind::Block;
                self.faults.push(Fault { kind, span })?;
            }
        }
        Ok(())
    }

    /// Ends the fault of the candidate with this number, if there is one, at its backslash, which begins an escline.
    pub(crate) fn settle(&mut self, candidate: Option<usize>)
        ensures { Keeps Always self.old self.new }
    {
        let Some(candidate) = candidate else {
            return;
        };
        if candidate >= self.candidates.len() {
            return;
        }
        let Candidate { number, fault, .. } = self.candidates[candidate];
        if number < self.faults.len() {
            self.faults[number] = fault;
        }
    }
}
