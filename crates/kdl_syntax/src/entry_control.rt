//! Which token may come where in the text of one entry.

ghost use Rattle.kdl_syntax.specs.EntryControl.{dropped_turn, entry_finish, entry_step};
ghost use Rattle.kdl_syntax.specs.Internal.Handed.{kind_view};
ghost use Rattle.std.specs.Prelude.{◌≡◌};

use crate::control::{Owner, Phase, Spot};
use crate::lexer::TokenKind;

/// The control of a text that is one entry. It takes tokens, and builds nothing.
#[derive(Clone, Copy)]
pub enum EntryControl {
    /// Before the entry.
    Ahead,
    /// In or after a slashdashed entry, in this phase.
    Dropping(Phase),
    /// In the entry, which has a type or a key, in this phase.
    Under(Phase),
    /// After a string that may be the entry's key.
    Word,
    /// After the entry.
    Done,
}

/// Before the entry.
fn in_ahead(kind: &TokenKind) -> Option<EntryControl>
    ensures { result ≡ entry_step EntryControl.Ahead (kind_view kind.now) }
{
    match kind {
        TokenKind::Space | TokenKind::Newline => Some(EntryControl::Ahead),
        TokenKind::Slashdash => Some(EntryControl::Dropping(Phase::EntrySlashdash)),
        TokenKind::String(_) => Some(EntryControl::Word),
        TokenKind::Value(_) => Some(EntryControl::Done),
        TokenKind::Left => Some(EntryControl::Under(Phase::TypeOpen(Owner::Value))),
        _ => None,
    }
}

/// The phase after a token in or after a slashdashed entry, or `None` if the token may not come here.
fn dropped_turn(phase: Phase, kind: &TokenKind) -> Option<Phase>
    ensures { result ≡ dropped_turn phase (kind_view kind.now) }
{
    match (phase, kind) {
        (Phase::InNode(Spot::Fresh(_)), TokenKind::Slashdash) => None,
        (Phase::InNode(_), TokenKind::Newline | TokenKind::Semicolon) => None,
        _ => phase.after(kind),
    }
}

/// In or after a slashdashed entry. After spaces the entry may begin.
fn in_dropping(phase: Phase, kind: &TokenKind) -> Option<EntryControl>
    ensures { result ≡ entry_step (EntryControl.Dropping phase) (kind_view kind.now) }
{
    match (phase, kind) {
        (
            Phase::InNode(Spot::Spaced(_)),
            TokenKind::String(_) | TokenKind::Value(_) | TokenKind::Left,
        ) => in_ahead(kind),
        _ => Some(EntryControl::Dropping(dropped_turn(phase, kind)?)),
    }
}

/// In the entry, which ends with its value.
fn in_under(phase: Phase, kind: &TokenKind) -> Option<EntryControl>
    ensures { result ≡ entry_step (EntryControl.Under phase) (kind_view kind.now) }
{
    match phase.after(kind)? {
        Phase::InNode(_) => Some(EntryControl::Done),
        next => Some(EntryControl::Under(next)),
    }
}

/// After a string that may be the entry's key.
fn in_word(kind: &TokenKind) -> Option<EntryControl>
    ensures { result ≡ entry_step EntryControl.Word (kind_view kind.now) }
{
    match kind {
        TokenKind::Space => Some(EntryControl::Word),
        TokenKind::Newline => Some(EntryControl::Done),
        TokenKind::Equals => Some(EntryControl::Under(Phase::Property)),
        _ => None,
    }
}

/// After the entry.
fn in_done(kind: &TokenKind) -> Option<EntryControl>
    ensures { result ≡ entry_step EntryControl.Done (kind_view kind.now) }
{
    match kind {
        TokenKind::Space | TokenKind::Newline => Some(EntryControl::Done),
        _ => None,
    }
}

impl EntryControl {
    /// Returns the control after a token, or `None` if the token may not come here.
    ///
    /// ```
    /// let word = EntryControl::Ahead.after(&TokenKind::String(key)); // `Word`: an `=` may follow
    /// let none = EntryControl::Ahead.after(&TokenKind::Opening); // `None`: an entry has no block
    /// ```
    pub fn after(self, kind: &TokenKind) -> Option<EntryControl>
        ensures { result ≡ entry_step self (kind_view kind.now) }
    {
        match self {
            EntryControl::Ahead => in_ahead(kind),
            EntryControl::Dropping(phase) => in_dropping(phase, kind),
            EntryControl::Under(phase) => in_under(phase, kind),
            EntryControl::Word => in_word(kind),
            EntryControl::Done => in_done(kind),
        }
    }

    /// Returns whether the text may end here.
    ///
    /// ```
    /// let ends = EntryControl::Ahead.may_end(); // false: the entry is yet to come
    /// ```
    pub fn may_end(self) -> bool
        ensures { result ≡ entry_finish self }
    {
        matches!(self, EntryControl::Word | EntryControl::Done)
    }
}
