//! The reader of faults: it reads a refused text, and notes each fault.

ghost use Rattle.kdl_diagnostics.specs.Internal.Noted.{Always, Counted, Goes, HasFault, IsFrontOf, IsReader, IsReaderOf, ReadsIn, Takes};
ghost use Rattle.kdl_diagnostics.specs.Internal.Outsets.{BeginsAt, IsReady, IsStopped, Lacking};
ghost use Rattle.kdl_text.specs.Chars.{Text};
ghost use Rattle.kdl_text.specs.Spans.{bytes};
ghost use Rattle.std.specs.Prelude.{◌≡◌, ◌+◌, ◌*◌, length, None, IfOk};
ghost use Rattle.std.specs.Str.{chars};

use crate::ends::is_value_end;
use crate::esclines::settle_all;
use crate::front::Prefix;
use crate::kind::Kind;
use crate::lexemes::{Lexeme, next_lexeme};
use crate::notes::Notes;
use crate::state::{Context, Progress, is_due};
use crate::whole::Whole;
use kdl_syntax::{Control, Phase, TokenKind};
use kdl_text::cursor::{Cursor, Steps};
use std::alloc::{AllocError, Global};

/// A reader of faults.
#[derive(Drop)]
pub(crate) struct Reader<'a> {
    alloc: Global,
    pub cursor: Cursor<'a>,
    control: Control,
    state: Progress,
    pub notes: Notes<'a>,
    /// Whether the text ended in a string or a comment.
    is_cut: bool,
    /// Whether reading has ended before the end of the text.
    is_over: bool,
}

/// Goes to the end of the front if a value end is there, and else to the string, number or keyword that ends there. An
/// identifier is read again from its start. Returns what is known there.
fn begin<'a>(cursor: &mut Cursor<'a>, front: &Prefix<'a>) -> Progress
    requires { IsFrontOf cursor.old.text front.now }
    ensures begins { BeginsAt front.now result cursor.new }
    ensures here { ReadsIn cursor.old.text cursor.new }
    ensures counted { Counted 7 cursor.old.steps cursor.new.steps }
{
    cursor.go_to(&front.place);
    if is_value_end(cursor) && !matches!(front.control.whole, Whole::Identifier) {
        return front.control.outset();
    }
    cursor.go_to(&front.from);
    front.before
}

impl<'a> Reader<'a> {
    /// Creates a reader that continues after the front of the text, and adds to the given count of steps.
    pub(crate) fn new(text: &'a str, front: Prefix<'a>, steps: Steps) -> Self
        requires { IsFrontOf (chars text.now) front }
        ensures reads { IsReaderOf (chars text.now) result }
        ensures ready { IsStopped front.entry → IsReady result }
        ensures counted { Counted 7 steps result.cursor.steps }
    {
        let mut cursor = Cursor::new(text, steps);
        let mut state = begin(&mut cursor, &front);
        state.whole = front.control.whole;
        state.is_property = front.is_property;
        Reader {
            alloc: front.alloc,
            cursor,
            control: front.control.node.control,
            state,
            notes: front.notes,
            is_cut: false,
            is_over: false,
        }
    }

    /// Takes a lexeme that does not fit, and notes that. What was expected counts as read; then the lexeme ends or
    /// begins a node, a block or what a `/-` drops, if it is such a lexeme.
    fn mend(&mut self, lexeme: &Lexeme<'a>) -> Result<(), AllocError>
        ensures takes { Takes lexeme.now self.old self.new }
        ensures noted { IfOk result (λ _. HasFault self.new.notes) }
    {
        let kind = self.state.misfit(&lexeme.token, &self.notes);
        self.notes.note_misfit(&mut self.cursor, kind, lexeme)?;
        self.is_over = self.is_over || self.state.is_last(kind);
        self.notes.note_left(lexeme);
        self.state.skip(lexeme);
        if self.is_over {
            return Ok(());
        }
        self.state.go_on(&mut self.control, &mut self.notes, lexeme)
    }

    /// Takes a lexeme, whether it fits or not, without a comment that is unclosed. The first one is refused. A string
    /// in a type that is faulty already has no fault of its own.
    fn take_part(&mut self, lexeme: &Lexeme<'a>) -> Result<(), AllocError>
        ensures takes { Takes lexeme.now self.old self.new }
        ensures noted { length self.old.notes.faults.items ≡ 0 → IfOk result (λ _. lexeme.now.comment ≡ None → HasFault self.new.notes) }
    {
        let is_first = self.notes.faults.is_empty();
        if matches!(lexeme.token, Some(TokenKind::Space))
            && (!is_first || lexeme.comment.is_some())
        {
            return Ok(());
        }
        let is_in_type = !is_first && matches!(self.state.context, Context::FaultyType);
        let is_refused = is_first && lexeme.fault.is_none() || self.state.refuses(lexeme);
        self.state.begin(lexeme, &self.notes);
        if is_refused {
            return self.mend(lexeme);
        }
        if !self.state.take(&mut self.control, &mut self.notes, lexeme)? {
            return self.mend(lexeme);
        }
        match lexeme.fault {
            Some(kind) if !is_in_type => self.notes.note_from(kind, &lexeme.start, lexeme),
            _ => Ok(()),
        }
    }

    /// Takes a lexeme, and its unclosed comment.
    fn take(&mut self, lexeme: &Lexeme<'a>) -> Result<(), AllocError>
        ensures takes { Takes lexeme.now self.old self.new }
        ensures noted { length self.old.notes.faults.items ≡ 0 → IfOk result (λ _. HasFault self.new.notes) }
    {
        self.take_part(lexeme)?;
        self.state.is_apart = matches!(lexeme.token, Some(TokenKind::Space));
        self.is_cut = self.is_cut || lexeme.cut || lexeme.comment.is_some();
        let Some(comment) = &lexeme.comment else {
            return Ok(());
        };
        let end = self.cursor.checkpoint();
        self.notes.note(Kind::Comment, comment, &end)
    }

    /// Takes the end of the text: what is expected is missing, and open blocks are unclosed, the innermost first.
    fn end(&mut self) -> Result<(), AllocError>
        ensures goes { Goes Always 0 self.old self.new }
        ensures noted { IfOk result (λ _. Lacking self.old → HasFault self.new.notes) }
    {
        if self.is_cut {
            return Ok(());
        }
        let here = self.cursor.checkpoint();
        if is_due(self.state.phase) {
            let kind = self.state.misfit(&None, &self.notes);
            let from = self.notes.start_of(kind, &here);
            return self.notes.note(kind, &from, &here);
        }
        if let Some(kind) = self.state.missing(&self.notes) {
            return self.notes.note(kind, &here, &here);
        }
        self.notes.note_blocks()
    }

    /// Notes the fault of a text that is read as an identifier.
    fn read_identifier(&mut self) -> Result<(), AllocError>
        ensures goes { Goes Always (124 * bytes self.old.cursor.rest + 100) self.old self.new }
        ensures noted { IfOk result (λ _. HasFault self.new.notes) }
    {
        let start = self.cursor.checkpoint();
        let lexeme = match next_lexeme(self.alloc, &mut self.cursor, Phase::Gap)? {
            Some(lexeme) => lexeme,
            None => return self.notes.note(Kind::Misplaced, &start, &start),
        };
        if !matches!(lexeme.token, Some(TokenKind::String(_))) {
            return self.notes.note(Kind::Misplaced, &start, &start);
        }
        if let Some(kind) = lexeme.fault {
            return self.notes.note_from(kind, &start, &lexeme);
        }
        self.notes.note(Kind::Misplaced, &lexeme.end, &lexeme.end)
    }

    /// Notes the faults of the text, as if no candidate began an escline.
    fn read(&mut self) -> Result<(), AllocError>
        ensures goes { Goes Always (124 * bytes self.old.cursor.rest + 100) self.old self.new }
        ensures noted { IfOk result (λ _. IsReady self.old → HasFault self.new.notes) }
    {
        if matches!(self.state.whole, Whole::Identifier) {
            return self.read_identifier();
        }
        'lexemes: loop {
            let lexeme = match next_lexeme(self.alloc, &mut self.cursor, self.state.phase)? {
                Some(lexeme) => lexeme,
                None => return self.end(),
            };
            self.take(&lexeme)?;
            drop(lexeme);
            if self.is_over {
                return Ok(());
            }
        }
    }

    /// Notes the faults of the text.
    pub(crate) fn find(&mut self) -> Result<(), AllocError>
        requires { IsReader self.old }
        ensures goes { (text : Text) → IsReaderOf text self.old → Goes Always (128 * bytes text + 104) self.old self.new }
        ensures noted { IfOk result (λ _. IsReady self.old → HasFault self.new.notes) }
    {
        self.read()?;
        if self.notes.candidates.is_empty() {
            return Ok(());
        }
        self.cursor.go_to(&self.notes.whole);
        settle_all(self.alloc, &mut self.cursor, &mut self.notes)
    }
}
