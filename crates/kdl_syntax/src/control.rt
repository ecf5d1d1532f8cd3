//! Which token may come where, and the open blocks.

ghost use Rattle.kdl_syntax.specs.Control as control;
ghost use Rattle.kdl_syntax.specs.Control.{is_block, is_gap, is_over, is_word};
ghost use Rattle.kdl_syntax.specs.Internal.Views.{control_view, ended_view};
ghost use Rattle.kdl_syntax.specs.declared.control.Frame.{Frame};
ghost use Rattle.kdl_syntax.specs.Internal.Handed.{kind_view};
ghost use Rattle.std.specs.Prelude.{◌≡◌, ◌∷◌, IfOk, List, MatchOption, Some, None, [], true, false, if◌then◌else◌};

use crate::events::{Event, next_phase};
use crate::lexer::TokenKind;
use std::alloc::{AllocError, Global};

/// What a type belongs to: the name of a node, or a value.
#[derive(Clone, Copy)]
pub enum Owner {
    Name,
    Value,
}

/// What is directly before, or before the spaces here: a string that may be a key, or something
/// else.
#[derive(Clone, Copy)]
pub enum Word {
    MayBeKey,
    NoKey,
}

/// A place in a node before its block: directly after the name or an entry, after spaces, or after
/// a slashdashed block.
#[derive(Clone, Copy)]
pub enum Spot {
    Fresh(Word),
    Spaced(Word),
    Later,
}

/// The phase of the grammar.
#[derive(Clone, Copy)]
pub enum Phase {
    /// Between nodes.
    Gap,
    /// Between nodes, after `/-`.
    NodeSlashdash,
    /// After the `(` of a type.
    TypeOpen(Owner),
    /// After the name of a type.
    TypeName(Owner),
    /// After the `)` of a type.
    TypeDone(Owner),
    /// In a node, before its block.
    InNode(Spot),
    /// After the `=` of a property.
    Property,
    /// After `/-` in a node, where an entry or a block may follow.
    EntrySlashdash,
    /// After `/-` in a node, where a block may follow.
    BlockSlashdash,
    /// After a node's block.
    Kept,
    /// After a `/-` that follows a node's block.
    KeptSlashdash,
}

/// An open block: of a node, or a slashdashed one before or after the node's own.
#[derive(Clone, Copy)]
pub enum Frame {
    Node,
    Dropped,
    Later,
}

/// What ends in a node: an entry or a block.
#[derive(Clone, Copy)]
pub enum Ended {
    Entry,
    Block,
}

/// Whether a string that may be a key is here.
fn may_be_key(spot: Spot) -> bool
    ensures { result ≡ is_word (control.at (Phase.InNode spot) []) }
{
    match spot {
        Spot::Fresh(word) | Spot::Spaced(word) => matches!(word, Word::MayBeKey),
        Spot::Later => false,
    }
}

/// The phase after the block.
fn after_block(frame: Frame) -> Phase
    ensures { (fs : List Frame) → control.popped (frame ∷ fs) ≡ Some (control.at result fs) }
{
    match frame {
        Frame::Dropped => Phase::InNode(Spot::Later),
        Frame::Node | Frame::Later => Phase::Kept,
    }
}

/// The control: the phase of the grammar, and the open blocks. It takes tokens, and builds nothing.
#[derive(Drop)]
pub struct Control {
    phase: Phase,
    frames: Vec<Frame>,
}

impl Control {
    /// Creates a control in a phase, with no block open.
    ///
    /// ```
    /// let control = Control::new(alloc, Phase::Gap); // a node may begin here
    /// ```
    pub fn new(alloc: Global, phase: Phase) -> Self
        ensures { control_view result ≡ control.at phase [] }
    {
        Control {
            phase,
            frames: Vec::new(alloc),
        }
    }

    /// Returns the phase of the grammar.
    ///
    /// ```
    /// let mut control = Control::new(alloc, Phase::Gap);
    /// let taken = control.take(&TokenKind::Slashdash)?; // true
    /// let phase = control.phase(); // `NodeSlashdash`
    /// ```
    pub fn phase(&self) -> Phase
        ensures { result ≡ self.now.phase }
    {
        self.phase
    }

    /// Continues in another phase. The open blocks stay open.
    ///
    /// ```
    /// let mut control = Control::new(alloc, Phase::Property);
    /// control.go_to(Phase::Gap);
    /// let ends = control.may_end(); // true
    /// ```
    pub fn go_to(&mut self, phase: Phase)
        ensures phase { self.new.phase ≡ phase }
        ensures blocks { self.new.frames ≡ self.old.frames }
    {
        self.phase = phase;
    }

    /// Returns whether the control is between nodes, with no block open.
    ///
    /// ```
    /// let between = Control::new(alloc, Phase::NodeSlashdash).is_between_nodes(); // false
    /// ```
    pub fn is_between_nodes(&self) -> bool
        ensures { result ≡ is_gap (control_view self.now) }
    {
        match self.phase {
            Phase::Gap => self.frames.is_empty(),
            _ => false,
        }
    }

    /// Returns whether the text may end here.
    ///
    /// ```
    /// let ends = Control::new(alloc, Phase::Kept).may_end(); // true
    /// ```
    pub fn may_end(&self) -> bool
        ensures { result ≡ control.finish (control_view self.now) }
    {
        match self.phase {
            Phase::Gap | Phase::InNode(_) | Phase::Kept => self.frames.is_empty(),
            _ => false,
        }
    }

    /// Returns whether a string that may be a key is directly before, or before the spaces here.
    /// What a slashdash drops ends with it if no `=` follows.
    ///
    /// ```
    /// let mut control = Control::new(alloc, Phase::EntrySlashdash);
    /// let taken = control.take(&TokenKind::String(name))?; // true
    /// let word = control.is_word(); // true: an `=` may follow
    /// ```
    pub fn is_word(&self) -> bool
        ensures { result ≡ is_word (control_view self.now) }
    {
        if !self.frames.is_empty() {
            return false;
        }
        match self.phase {
            Phase::InNode(spot) => may_be_key(spot),
            _ => false,
        }
    }

    /// Returns what ends directly before, or `None` if neither an entry nor a block does.
    ///
    /// ```
    /// let mut control = Control::new(alloc, Phase::EntrySlashdash);
    /// let before = control.over(); // `None`
    /// let taken = control.take(&TokenKind::Value(KdlValue::Null))?; // true
    /// let after = control.over(); // `Some(Ended::Entry)`
    /// ```
    pub fn over(&self) -> Option<Ended>
        ensures { MatchOption result (is_over (control_view self.now) ≡ false)
            (λ e. (is_over (control_view self.now) ≡ true)
            × (ended_view e ≡ is_block (control_view self.now))) }
    {
        if !self.frames.is_empty() {
            return None;
        }
        match self.phase {
            Phase::InNode(Spot::Fresh(Word::NoKey)) => Some(Ended::Entry),
            Phase::InNode(Spot::Later) => Some(Ended::Block),
            _ => None,
        }
    }

    /// Takes a token. Returns false if it may not come here.
    ///
    /// ```
    /// let mut control = Control::new(alloc, Phase::Gap);
    /// let name = control.take(&TokenKind::String(name))?; // true: a node begins
    /// let equals = control.take(&TokenKind::Equals)?; // false: a name is no key
    /// ```
    #[inline(always)]
    pub fn take(&mut self, kind: &TokenKind) -> Result<bool, AllocError>
        ensures { IfOk result (λ b. control.step (control_view self.old) (kind_view kind.now) ≡
            (if b then Some (control_view self.new) else None)) }
    {
        let Some(event) = self.phase.event(kind) else {
            return Ok(false);
        };
        if let Event::Opening(frame) = event {
            self.frames.push(frame)?;
            self.phase = Phase::Gap;
        } else if let Some(phase) = next_phase(event) {
            self.phase = phase;
        } else if let Some(frame) = self.frames.pop() {
            self.phase = after_block(frame);
        } else {
            return Ok(false);
        }
        Ok(true)
    }
}
