//! What a token is for the tree of a document, in each phase of the grammar.

ghost use Rattle.kdl_syntax.specs.Control as control;
ghost use Rattle.kdl_syntax.specs.Control.{at, event_of, spaced_of, step, without_block};
ghost use Rattle.kdl_syntax.specs.declared.control.Phase.TheVariants.{
  Gap,
  NodeSlashdash,
  TypeOpen,
  TypeName,
  TypeDone,
  InNode,
  Property,
  EntrySlashdash,
  BlockSlashdash,
  Kept,
  KeptSlashdash,
};
ghost use Rattle.kdl_syntax.specs.declared.events.Event.TheVariants.{Skip};
ghost use Rattle.kdl_syntax.specs.Internal.Handed.{kind_view};
ghost use Rattle.kdl_syntax.specs.Tokens.{space};
ghost use Rattle.std.specs.Prelude.{◌≡◌, [], Some};

use crate::control::{Frame, Owner, Phase, Spot, Word};
use crate::lexer::TokenKind;

/// What a token is for the tree of a document.
#[derive(Clone, Copy)]
pub enum Event {
    /// Nothing: only the phase changes.
    Skip(Phase),
    /// The name of a node without a type.
    Name,
    /// The name of a node after its type.
    TypedName,
    /// The `(` of a node's type.
    NameType,
    /// The `(` of a value's type, where the value has no key.
    ValueType,
    /// The `(` of a value's type after a key.
    KeyedType,
    /// The name of a type.
    TypeName(Owner),
    /// The `)` of a type.
    TypeEnd(Owner),
    /// A string that is a key if `=` follows, and else an argument.
    Word,
    /// A value that is an argument without a type.
    Argument,
    /// A value after its type.
    TypedValue,
    /// A value after a key, without a type.
    KeyedValue,
    /// The `=` after a key.
    Equals,
    /// A `/-` in a node, after which an entry or a block may follow.
    EntrySlashdash,
    /// The terminator of a node without a block.
    NodeEnd,
    /// The terminator of a node with a block.
    KeptEnd,
    /// The `{` of a block.
    Opening(Frame),
    /// A `}` between nodes.
    GapClosing,
    /// A `}` that also ends a node without a block.
    NodeClosing,
    /// A `}` that also ends a node with a block.
    KeptClosing,
}

/// What a token is between nodes.
fn in_gap(kind: &TokenKind) -> Option<Event>
    ensures { result ≡ event_of Gap (kind_view kind.now) }
{
    match kind {
        TokenKind::Space | TokenKind::Newline => Some(Event::Skip(Phase::Gap)),
        TokenKind::Slashdash => Some(Event::Skip(Phase::NodeSlashdash)),
        TokenKind::String(_) => Some(Event::Name),
        TokenKind::Left => Some(Event::NameType),
        TokenKind::Closing => Some(Event::GapClosing),
        _ => None,
    }
}

/// What a token is between nodes, after `/-`.
fn in_node_slashdash(kind: &TokenKind) -> Option<Event>
    ensures { result ≡ event_of NodeSlashdash (kind_view kind.now) }
{
    match kind {
        TokenKind::Space | TokenKind::Newline => Some(Event::Skip(Phase::NodeSlashdash)),
        TokenKind::String(_) => Some(Event::Name),
        TokenKind::Left => Some(Event::NameType),
        _ => None,
    }
}

/// What a token is after the `(` of a type.
fn in_type(owner: Owner, kind: &TokenKind) -> Option<Event>
    ensures { result ≡ event_of (TypeOpen owner) (kind_view kind.now) }
{
    match kind {
        TokenKind::Space => Some(Event::Skip(Phase::TypeOpen(owner))),
        TokenKind::String(_) => Some(Event::TypeName(owner)),
        _ => None,
    }
}

/// What a token is after the name of a type.
fn after_type_name(owner: Owner, kind: &TokenKind) -> Option<Event>
    ensures { result ≡ event_of (TypeName owner) (kind_view kind.now) }
{
    match kind {
        TokenKind::Space => Some(Event::Skip(Phase::TypeName(owner))),
        TokenKind::Right => Some(Event::TypeEnd(owner)),
        _ => None,
    }
}

/// What a token is after the `)` of a type.
fn after_type(owner: Owner, kind: &TokenKind) -> Option<Event>
    ensures { result ≡ event_of (TypeDone owner) (kind_view kind.now) }
{
    match (owner, kind) {
        (_, TokenKind::Space) => Some(Event::Skip(Phase::TypeDone(owner))),
        (Owner::Name, TokenKind::String(_)) => Some(Event::TypedName),
        (Owner::Value, TokenKind::String(_) | TokenKind::Value(_)) => Some(Event::TypedValue),
        _ => None,
    }
}

/// What a token is after the `=` of a property.
fn in_property(kind: &TokenKind) -> Option<Event>
    ensures { result ≡ event_of Property (kind_view kind.now) }
{
    match kind {
        TokenKind::Space => Some(Event::Skip(Phase::Property)),
        TokenKind::String(_) | TokenKind::Value(_) => Some(Event::KeyedValue),
        TokenKind::Left => Some(Event::KeyedType),
        _ => None,
    }
}

/// The place in a node after spaces.
fn spaced(spot: Spot) -> Spot
    ensures { result ≡ spaced_of spot }
{
    match spot {
        Spot::Fresh(word) | Spot::Spaced(word) => Spot::Spaced(word),
        Spot::Later => Spot::Later,
    }
}

/// What a token is in a node, before its block.
fn in_node(spot: Spot, kind: &TokenKind) -> Option<Event>
    ensures { result ≡ event_of (InNode spot) (kind_view kind.now) }
{
    match (kind, spot) {
        (TokenKind::Space, _) => Some(Event::Skip(Phase::InNode(spaced(spot)))),
        (TokenKind::Newline | TokenKind::Semicolon, _) => Some(Event::NodeEnd),
        (TokenKind::Closing, _) => Some(Event::NodeClosing),
        (TokenKind::Opening, _) => Some(Event::Opening(Frame::Node)),
        (TokenKind::Slashdash, Spot::Later) => Some(Event::Skip(Phase::BlockSlashdash)),
        (TokenKind::Slashdash, _) => Some(Event::EntrySlashdash),
        (TokenKind::String(_), Spot::Spaced(_)) => Some(Event::Word),
        (TokenKind::Value(_), Spot::Spaced(_)) => Some(Event::Argument),
        (TokenKind::Left, Spot::Spaced(_)) => Some(Event::ValueType),
        (TokenKind::Equals, Spot::Fresh(Word::MayBeKey) | Spot::Spaced(Word::MayBeKey)) => {
            Some(Event::Equals)
        }
        _ => None,
    }
}

/// What a token is after `/-` in a node, where an entry or a block may follow.
fn in_entry_slashdash(kind: &TokenKind) -> Option<Event>
    ensures { result ≡ event_of EntrySlashdash (kind_view kind.now) }
{
    match kind {
        TokenKind::Space | TokenKind::Newline => Some(Event::Skip(Phase::EntrySlashdash)),
        TokenKind::String(_) => Some(Event::Word),
        TokenKind::Value(_) => Some(Event::Argument),
        TokenKind::Left => Some(Event::ValueType),
        TokenKind::Opening => Some(Event::Opening(Frame::Dropped)),
        _ => None,
    }
}

/// What a token is after `/-` in a node, where a block may follow.
fn in_block_slashdash(kind: &TokenKind) -> Option<Event>
    ensures { result ≡ event_of BlockSlashdash (kind_view kind.now) }
{
    match kind {
        TokenKind::Space | TokenKind::Newline => Some(Event::Skip(Phase::BlockSlashdash)),
        TokenKind::Opening => Some(Event::Opening(Frame::Dropped)),
        _ => None,
    }
}

/// What a token is after a node's block.
fn in_kept(kind: &TokenKind) -> Option<Event>
    ensures { result ≡ event_of Kept (kind_view kind.now) }
{
    match kind {
        TokenKind::Space => Some(Event::Skip(Phase::Kept)),
        TokenKind::Newline | TokenKind::Semicolon => Some(Event::KeptEnd),
        TokenKind::Closing => Some(Event::KeptClosing),
        TokenKind::Slashdash => Some(Event::Skip(Phase::KeptSlashdash)),
        _ => None,
    }
}

/// What a token is after a `/-` that follows a node's block.
fn in_kept_slashdash(kind: &TokenKind) -> Option<Event>
    ensures { result ≡ event_of KeptSlashdash (kind_view kind.now) }
{
    match kind {
        TokenKind::Space | TokenKind::Newline => Some(Event::Skip(Phase::KeptSlashdash)),
        TokenKind::Opening => Some(Event::Opening(Frame::Later)),
        _ => None,
    }
}

/// The phase after the token of an event, or `None` where it opens or closes a block.
#[inline(always)]
pub(crate) fn next_phase(event: Event) -> Option<Phase>
    ensures { result ≡ control.next_phase event }
{
    Some(match event {
        Event::Skip(phase) => phase,
        Event::Name | Event::TypedName => Phase::InNode(Spot::Fresh(Word::NoKey)),
        Event::NameType => Phase::TypeOpen(Owner::Name),
        Event::ValueType | Event::KeyedType => Phase::TypeOpen(Owner::Value),
        Event::TypeName(owner) => Phase::TypeName(owner),
        Event::TypeEnd(owner) => Phase::TypeDone(owner),
        Event::Word => Phase::InNode(Spot::Fresh(Word::MayBeKey)),
        Event::Argument | Event::TypedValue | Event::KeyedValue => {
            Phase::InNode(Spot::Fresh(Word::NoKey))
        }
        Event::Equals => Phase::Property,
        Event::EntrySlashdash => Phase::EntrySlashdash,
        Event::NodeEnd | Event::KeptEnd => Phase::Gap,
        Event::Opening(_) | Event::GapClosing | Event::NodeClosing | Event::KeptClosing => {
            return None;
        }
    })
}

impl Phase {
    /// Returns what a token is for the tree, or `None` if it may not come here. A `}` may come only
    /// where a block is open.
    ///
    /// ```
    /// let name = Phase::Gap.event(&TokenKind::String(text)); // `Some(Event::Name)`
    /// let refused = Phase::Gap.event(&TokenKind::Equals); // `None`
    /// ```
    #[inline(always)]
    pub fn event(self, kind: &TokenKind) -> Option<Event>
        ensures { result ≡ event_of self (kind_view kind.now) }
    {
        match self {
            Phase::Gap => in_gap(kind),
            Phase::NodeSlashdash => in_node_slashdash(kind),
            Phase::TypeOpen(owner) => in_type(owner, kind),
            Phase::TypeName(owner) => after_type_name(owner, kind),
            Phase::TypeDone(owner) => after_type(owner, kind),
            Phase::InNode(spot) => in_node(spot, kind),
            Phase::Property => in_property(kind),
            Phase::EntrySlashdash => in_entry_slashdash(kind),
            Phase::BlockSlashdash => in_block_slashdash(kind),
            Phase::Kept => in_kept(kind),
            Phase::KeptSlashdash => in_kept_slashdash(kind),
        }
    }

    /// Returns the phase after spaces. They may come in each phase, and only the phase changes.
    ///
    /// ```
    /// let property = Phase::Property.spaced(); // `Phase::Property`
    /// let node = Phase::InNode(Spot::Fresh(word)).spaced(); // `Phase::InNode(Spot::Spaced(word))`
    /// ```
    #[inline(always)]
    pub fn spaced(self) -> Phase
        ensures { event_of self space ≡ Some (Skip result) }
    {
        match self {
            Phase::InNode(spot) => Phase::InNode(spaced(spot)),
            _ => self,
        }
    }

    /// Returns the phase after a token, where no block is open, or `None` if the token may not come
    /// here or opens a block.
    ///
    /// ```
    /// let spaced = Phase::Property.after(&TokenKind::Space); // `Some(Phase::Property)`
    /// let refused = Phase::Property.after(&TokenKind::Equals); // `None`
    /// let block = Phase::EntrySlashdash.after(&TokenKind::Opening); // `None`
    /// ```
    pub fn after(self, kind: &TokenKind) -> Option<Phase>
        ensures { result ≡ without_block (step (at self []) (kind_view kind.now)) }
    {
        next_phase(self.event(kind)?)
    }
}
