//! Where a reader of faults is in the grammar, and what a lexeme does there.
//!
//! Which token may come where is up to the `Control`. If a lexeme does not fit, what was expected counts as read, and
//! the control continues from there.

ghost use Rattle.kdl_diagnostics.specs.Internal.Noted.{Keeps, Lexed};
ghost use Rattle.kdl_diagnostics.specs.Internal.Outsets.{IsSingle};
ghost use Rattle.kdl_syntax.specs.Control.{at, finish};
ghost use Rattle.std.specs.Prelude.{◌≡◌, ◌+◌, ◌<◌, [], false, length, None, if◌then◌else◌, true};

use crate::kind::Kind;
use crate::lexemes::Lexeme;
use crate::notes::Notes;
use crate::whole::Whole;
use kdl_syntax::{Control, Owner, Phase, Spot, TokenKind, Word};
use std::alloc::AllocError;

/// A place in a text with faults.
#[derive(Clone, Copy)]
pub(crate) enum Context {
    /// Where the control is.
    Control,
    /// In a faulty type.
    FaultyType,
    /// After a faulty type: what it belongs to may follow.
    Typeless,
    /// After the only node or entry of a text: only line-spaces may follow.
    Over,
}

/// Where a reader of faults is.
#[derive(Clone, Copy)]
pub(crate) struct Progress {
    /// What the text is read as.
    pub whole: Whole,
    /// The phase of the grammar. Spaces count as read after each lexeme. In and after a faulty type, and after the only
    /// node or entry, it is after the name or an entry of the node.
    pub phase: Phase,
    pub context: Context,
    /// Whether the last `(` begins the type of a property's value.
    pub is_property: bool,
    /// Whether the only node or entry of the text has begun.
    pub has_item: bool,
    /// Whether an entry was slashdashed.
    pub has_dropped: bool,
    /// Whether a space is directly before the place.
    pub is_apart: bool,
}

/// The phase in a node, after the name or an entry and spaces.
pub(crate) fn in_node() -> Phase {
    Phase::InNode(Spot::Spaced(Word::NoKey))
}

/// Whether something is expected in the phase, so that the text may not end here.
pub(crate) fn is_due(phase: Phase) -> bool
    ensures { finish (at phase []) ≡ (if result then false else true) }
{
    !matches!(phase, Phase::Gap | Phase::InNode(_) | Phase::Kept)
}

/// Whether an entry or a block is slashdashed here.
pub(crate) fn is_dropping(phase: Phase) -> bool {
    matches!(
        phase,
        Phase::EntrySlashdash | Phase::BlockSlashdash | Phase::KeptSlashdash
    )
}

/// The phase after a `(` that does not fit in the phase: in its type if it may be one, and else in a node.
fn after_left(phase: Phase) -> Phase {
    match phase {
        Phase::TypeDone(_) | Phase::InNode(Spot::Later) => Phase::TypeOpen(Owner::Value),
        _ if is_dropping(phase) => Phase::TypeOpen(Owner::Value),
        Phase::Kept => Phase::TypeOpen(Owner::Name),
        _ => in_node(),
    }
}

/// The phase after a string that does not fit in the phase.
fn after_string(phase: Phase) -> Phase {
    match phase {
        Phase::KeptSlashdash => Phase::Kept,
        Phase::InNode(Spot::Later) | Phase::EntrySlashdash | Phase::BlockSlashdash | Phase::Kept =>
            { Phase::InNode(Spot::Spaced(Word::MayBeKey)) }
        _ => in_node(),
    }
}

impl Progress {
    /// The place in a phase, where no item has begun.
    pub(crate) fn new(whole: Whole, phase: Phase) -> Self
        ensures phase { result.phase ≡ phase }
        ensures item { result.has_item ≡ false }
    {
        Progress {
            whole,
            phase,
            context: Context::Control,
            is_property: false,
            has_item: false,
            has_dropped: false,
            is_apart: false,
        }
    }

    /// Whether an entry may begin here, or its key or value is directly before, as far as the control knows.
    fn is_before_entry(&self) -> bool {
        match (self.context, self.phase) {
            (Context::Control, Phase::InNode(spot)) => !matches!(spot, Spot::Later),
            _ => false,
        }
    }

    /// Whether the place is after an entry, or before the first one, in the text of an entry.
    fn is_between_entries(&self) -> bool {
        match (self.whole, self.context) {
            (Whole::Entry, Context::Typeless) => true,
            (Whole::Entry, _) => self.is_before_entry(),
            _ => false,
        }
    }

    /// Whether the lexeme does not fit, though its token may: a faulty string is not the name of a type, and the text
    /// of an entry has neither blocks nor a second entry. There a space follows each slashdashed entry.
    pub(crate) fn refuses(&self, lexeme: &Lexeme) -> bool {
        match (self.whole, &lexeme.token) {
            _ if lexeme.fault.is_some() && matches!(self.phase, Phase::TypeOpen(_)) => true,
            (Whole::Entry, Some(TokenKind::Opening | TokenKind::Closing | TokenKind::Semicolon)) =>
                { true }
            (Whole::Entry, Some(TokenKind::Slashdash)) if self.has_dropped && !self.is_apart =>
                true,
            (Whole::Entry, Some(TokenKind::Newline)) => {
                self.is_between_entries() && self.has_dropped && !self.has_item
            }
            (Whole::Entry, Some(TokenKind::Equals)) => false,
            (Whole::Entry, _) => self.has_item && self.is_before_entry(),
            _ => false,
        }
    }

    /// Notes that the only node or entry of a text, or a slashdashed entry, begins with the lexeme.
    pub(crate) fn begin(&mut self, lexeme: &Lexeme, notes: &Notes) {
        let Some(
            TokenKind::String(_) | TokenKind::Value(_) | TokenKind::Left | TokenKind::Opening,
        ) = lexeme.token
        else {
            return;
        };
        match (self.whole, self.phase) {
            _ if !notes.blocks.is_empty() => {}
            (Whole::Node, Phase::Gap) => self.has_item = true,
            (Whole::Entry, _) if self.is_before_entry() => self.has_item = true,
            (Whole::Entry, phase) if is_dropping(phase) => self.has_dropped = true,
            _ => {}
        }
    }

    /// After the only node of a text only line-spaces may follow.
    fn end_node(&mut self, notes: &Notes) {
        if let (Whole::Node, Phase::Gap) = (self.whole, self.phase)
            && self.has_item
            && notes.blocks.is_empty()
        {
            self.context = Context::Over;
            self.phase = in_node();
        }
    }

    /// Whether the lexeme fits, or `None` if that is up to the control. A faulty type goes up to its `)`, or to what
    /// opens or ends a block or ends the node. After it a string is no key.
    fn fits(&mut self, token: &Option<TokenKind>) -> Option<bool> {
        match (self.context, token) {
            (Context::Over, token) => Some(matches!(token, Some(TokenKind::Newline))),
            (_, Some(TokenKind::Newline)) if self.is_between_entries() => {
                self.context = if self.has_item {
                    Context::Over
                } else {
                    Context::Control
                };
                self.phase = in_node();
                Some(true)
            }
            (Context::FaultyType, Some(TokenKind::Right)) => {
                self.context = Context::Typeless;
                Some(true)
            }
            (
                Context::FaultyType,
                Some(
                    TokenKind::Opening
                    | TokenKind::Newline
                    | TokenKind::Semicolon
                    | TokenKind::Closing,
                ),
            ) => None,
            (Context::FaultyType, _) => Some(true),
            (Context::Typeless, Some(TokenKind::String(_))) => {
                self.phase = Phase::TypeDone(Owner::Value);
                None
            }
            _ => None,
        }
    }

    /// Takes the lexeme if it fits, and returns whether it does.
    pub(crate) fn take<'a>(
        &mut self,
        control: &mut Control,
        notes: &mut Notes<'a>,
        lexeme: &Lexeme<'a>,
    ) -> Result<bool, AllocError>
        ensures { Keeps (Lexed lexeme.now) notes.old notes.new }
    {
        if let Some(fits) = self.fits(&lexeme.token) {
            return Ok(fits);
        }
        let Some(token) = &lexeme.token else {
            return Ok(false);
        };
        control.go_to(self.phase);
        if !control.take(token)? {
            return Ok(false);
        }
        self.is_property = match token {
            TokenKind::Left => matches!(self.phase, Phase::Property),
            _ => self.is_property,
        };
        self.context = Context::Control;
        self.phase = control.phase().spaced();
        notes.note_token(token, &lexeme.start, &lexeme.end)?;
        self.end_node(notes);
        Ok(true)
    }

    /// The fault of a lexeme that does not fit here: where a name is expected, a `{` opens a block without one, and a
    /// `}` outside blocks is misplaced.
    pub(crate) fn misfit(&self, token: &Option<TokenKind>, notes: &Notes) -> Kind {
        match (self.phase, token) {
            (Phase::Gap | Phase::NodeSlashdash | Phase::TypeDone(Owner::Name), token) =>
                match token {
                    Some(TokenKind::Opening) => Kind::Nameless,
                    Some(TokenKind::Closing) if notes.blocks.is_empty() => Kind::Misplaced,
                    _ => Kind::Name,
                },
            (Phase::Property, _) => Kind::Value,
            (Phase::TypeDone(Owner::Value), _) if self.is_property => Kind::Value,
            (Phase::TypeOpen(_) | Phase::TypeName(_), _) => Kind::Type,
            _ => Kind::Misplaced,
        }
    }

    /// Whether reading ends after a fault of the kind: in the text of an entry, and after the only node of a text.
    pub(crate) fn is_last(&self, kind: Kind) -> bool {
        match (self.whole, self.context) {
            (Whole::Entry, _) => matches!(kind, Kind::Misplaced),
            (_, Context::Over) => true,
            _ => false,
        }
    }

    /// Goes past a lexeme that does not fit: what was expected counts as read.
    pub(crate) fn skip(&mut self, lexeme: &Lexeme) {
        self.is_property = false;
        (self.context, self.phase) = match (self.phase, &lexeme.token) {
            (Phase::TypeOpen(_), Some(TokenKind::Right)) => (Context::Typeless, in_node()),
            (Phase::TypeOpen(_) | Phase::TypeName(_), _) => (Context::FaultyType, in_node()),
            (phase, Some(TokenKind::Left)) => (Context::Control, after_left(phase)),
            (phase, Some(TokenKind::String(_))) => (Context::Control, after_string(phase)),
            (Phase::KeptSlashdash, Some(TokenKind::Value(_))) => (Context::Control, Phase::Kept),
            _ => (Context::Control, in_node()),
        };
    }

    /// After a lexeme that does not fit: if it ends or begins a node, a block or what a `/-` drops, it does so. A `}`
    /// outside blocks ends a node.
    pub(crate) fn go_on<'a>(
        &mut self,
        control: &mut Control,
        notes: &mut Notes<'a>,
        lexeme: &Lexeme<'a>,
    ) -> Result<(), AllocError>
        ensures { Keeps (Lexed lexeme.now) notes.old notes.new }
    {
        let Some(
            TokenKind::Newline
            | TokenKind::Semicolon
            | TokenKind::Closing
            | TokenKind::Opening
            | TokenKind::Slashdash,
        ) = lexeme.token
        else {
            return Ok(());
        };
        if self.refuses(lexeme) {
            return Ok(());
        }
        if !self.take(control, notes, lexeme)? {
            self.context = Context::Control;
            self.phase = Phase::Gap;
            self.end_node(notes);
            return Ok(());
        }
        match lexeme.token {
            Some(TokenKind::Opening) => {
                notes.tell_block();
                Ok(())
            }
            _ => Ok(()),
        }
    }

    /// The fault of a text that has no node or no entry, if no block is open and there is no other fault.
    pub(crate) fn missing(&self, notes: &Notes) -> Option<Kind>
        ensures { result ≡ None → IsSingle self.now.whole → self.now.has_item ≡ false
            → 0 < length notes.now.blocks.items + length notes.now.faults.items }
    {
        if self.has_item || !notes.blocks.is_empty() || !notes.faults.is_empty() {
            return None;
        }
        match self.whole {
            Whole::Node => Some(Kind::Name),
            Whole::Entry => Some(Kind::Misplaced),
            Whole::Document | Whole::Identifier => None,
        }
    }
}
