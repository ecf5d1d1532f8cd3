//! What is slashdashed: the control reads it, and nothing is built.
#![tactic(auto, using(crate::proofs::Rules::dropping))]

ghost use Rattle.kdl_syntax.specs.Internal.Views.{control_view};
ghost use Rattle.kdl_parser.specs.Internal.Dropping.{is_before_node};
ghost use Rattle.std.specs.Prelude.{◌≡◌, false};

use super::Builder;
use super::content::put;
use crate::node_parts::ParsedNode;
use kdl_entry::parsing::parts::empty;
use kdl_syntax::{Control, LexFailure, Phase, TokenKind, TokenSpan};
use kdl_text::cursor::Piece;
use std::alloc::{AllocError, Global};

/// An entry or a block of the current node that is slashdashed.
#[derive(Drop)]
pub(super) struct DroppedPart {
    control: Control,
    ghost begun: { is_before_node (control_view control) ≡ false },
}

impl DroppedPart {
    ghost use Rattle.kdl_syntax.specs.Control as control;
    ghost use Rattle.kdl_syntax.specs.Internal.Handed.{kind_view};
    ghost use Rattle.std.specs.Prelude.{Some, None, IfOk, if◌then◌else◌};

    /// Takes a token. Returns false if it may not be here.
    #[inline(always)]
    fn take(&mut self, kind: &TokenKind) -> Result<bool, AllocError>
        requires { control.finish (control_view self.old.control) ≡ false }
        ensures { IfOk result (λ b. control.step (control_view self.old.control) (kind_view kind.now) ≡
            (if b then Some (control_view self.new.control) else None)) }
    {
        let taken = self.control.take(kind);
        if !matches!(taken, Ok(true)) {
            // Nothing is known of the control then, but `begun` has to hold.
            self.control.go_to(Phase::Gap);
        }
        taken
    }
}

/// What is slashdashed and being read: nothing, a node, or a part of the current node.
#[derive(Drop)]
pub(super) enum Dropped {
    Nothing,
    Node(Control),
    Part(DroppedPart),
}

impl Dropped {
    ghost use Rattle.kdl_syntax.specs.Control as control;
    ghost use Rattle.kdl_syntax.specs.Internal.Handed.{kind_view};
    ghost use Rattle.kdl_parser.specs.Internal.Building.{phase_after, reading_view};
    ghost use Rattle.kdl_parser.specs.Internal.Dropping.{after_slashdash, is_over, next, part};
    ghost use Rattle.std.specs.Prelude.{[], true, IfOk, MatchOption, Some, None, if◌then◌else◌};

    /// What is slashdashed, directly after the `/-` of the phase.
    fn after_slashdash(alloc: Global, phase: Phase) -> Self
        ensures { reading_view result ≡ after_slashdash phase }
    {
        match phase {
            Phase::NodeSlashdash => Dropped::Node(Control::new(alloc, phase)),
            _ => Dropped::part(alloc, phase),
        }
    }

    /// A slashdashed part of a node, in the phase.
    pub(super) fn part(alloc: Global, phase: Phase) -> Self
        requires { is_before_node (control.at phase []) ≡ false }
        ensures { reading_view result ≡ part (control.at phase []) }
    {
        Dropped::Part(DroppedPart {
            control: Control::new(alloc, phase),
        })
    }

    /// The phase in which the token is, if it comes after what is slashdashed.
    #[inline(always)]
    fn phase_at(&self, kind: &TokenKind) -> Option<Phase>
        ensures { MatchOption result (is_over (kind_view kind.now) (reading_view self.now) ≡ false)
            (λ p. (is_over (kind_view kind.now) (reading_view self.now) ≡ true)
            × (p ≡ phase_after self.now)) }
    {
        match self {
            Dropped::Nothing => None,
            Dropped::Node(control) => {
                let is_over = match kind {
                    TokenKind::Closing => control.may_end(),
                    _ => control.is_between_nodes(),
                };
                if is_over { Some(Phase::Gap) } else { None }
            }
            Dropped::Part(part) => {
                if part.control.may_end() {
                    Some(part.control.phase())
                } else {
                    None
                }
            }
        }
    }

    /// Takes a token. Returns false if it may not be here.
    #[inline(always)]
    fn take(&mut self, kind: &TokenKind) -> Result<bool, AllocError>
        requires { is_over (kind_view kind.now) (reading_view self.old) ≡ false }
        ensures { IfOk result (λ b. next (kind_view kind.now) (reading_view self.old) ≡
            (if b then Some (reading_view self.new) else None)) }
    {
        match self {
            Dropped::Nothing => Ok(false),
            Dropped::Node(control) => control.take(kind),
            Dropped::Part(part) => part.take(kind),
        }
    }
}

impl<'a, N: ParsedNode> Builder<'a, N> {
    ghost use Rattle.kdl_syntax.specs.Internal.Handed.{kind_view};
    ghost use Rattle.kdl_syntax.specs.Tokens.{space, string};
    ghost use Rattle.kdl_parser.specs.Internal.Building.{reading_view};
    ghost use Rattle.kdl_parser.specs.Internal.Dropping.{is_over, is_reading};
    ghost use Rattle.kdl_parser.specs.Internal.Events.{StandsAt, is_building};
    ghost use Rattle.kdl_parser.specs.Internal.States.{TakesToken};
    ghost use Rattle.kdl_parser.specs.Internal.Turns.{Drops, IsLeft, TakesLike};
    ghost use Rattle.std.specs.Prelude.{true};

    /// Takes a token of what is slashdashed. The text of a string makes no difference.
    #[inline(always)]
    fn drop_token(&mut self, kind: &TokenKind, at: &TokenSpan<'a>) -> Result<(), LexFailure>
        requires reading { is_reading (reading_view self.old.dropped) ≡ true }
        requires here { is_over (kind_view kind.now) (reading_view self.old.dropped) ≡ false }
        ensures { TakesLike N.tree self.old (kind_view kind.now) at.now result self.new }
    {
        if self.dropped.take(kind)? {
            Ok(())
        } else {
            Err(LexFailure::Faulty)
        }
    }

    /// Ends what is slashdashed if it is over before a token of this kind. Returns false if it is not.
    #[inline(always)]
    pub(super) fn leave_dropped(&mut self, kind: &TokenKind) -> Result<bool, AllocError>
        ensures { IsLeft N.tree self.old (kind_view kind.now) result self.new }
    {
        let Some(phase) = self.dropped.phase_at(kind) else {
            return Ok(false);
        };
        self.dropped = Dropped::Nothing;
        self.settle_word()?;
        self.phase = phase;
        Ok(true)
    }

    /// Takes the first token after a `/-`, or one of what is slashdashed. Returns `None` if what is slashdashed is over
    /// before the token, which is then still to be taken. The text of a string makes no difference.
    #[inline(always)]
    fn drops(&mut self, kind: &TokenKind, at: &TokenSpan<'a>) -> Option<Result<(), LexFailure>>
        requires { is_building self.old.dropped self.old.phase ≡ false }
        ensures { Drops N.tree self.old (kind_view kind.now) at.now result self.new }
    {
        if let Dropped::Nothing = self.dropped {
            let dropped = Dropped::after_slashdash(self.alloc, self.phase);
            put(&mut self.dropped, dropped);
            return Some(self.drop_token(kind, at));
        }
        match self.leave_dropped(kind) {
            Ok(true) => None,
            Ok(false) => Some(self.drop_token(kind, at)),
            Err(_) => Some(Err(LexFailure::Memory)),
        }
    }

    /// Takes a token in or after what is slashdashed, or the first one after a `/-`.
    #[inline(never)]
    pub(super) fn take_dropped(
        &mut self,
        kind: TokenKind,
        at: &TokenSpan<'a>,
    ) -> Result<(), LexFailure>
        requires { StandsAt false N.tree self.old at.now.start }
        ensures { TakesToken N.tree self.old (kind_view kind) at.now result self.new }
    {
        match self.drops(&kind, at) {
            Some(taken) => taken,
            None => self.take_live(kind, at),
        }
    }

    /// Takes a run of spaces in or after what is slashdashed, or directly after a `/-`.
    #[inline(never)]
    pub(super) fn drop_space(&mut self, at: &TokenSpan<'a>) -> Result<(), LexFailure>
        requires { is_building self.old.dropped self.old.phase ≡ false }
        ensures { TakesToken N.tree self.old space at.now result self.new }
    {
        match self.drops(&TokenKind::Space, at) {
            Some(taken) => taken,
            None => self.take_blank(at),
        }
    }

    /// Takes a bare string in or after what is slashdashed, or directly after a `/-`. It is copied only if it is kept.
    #[inline(never)]
    pub(super) fn drop_word(
        &mut self,
        word: &Piece<'a>,
        at: &TokenSpan<'a>,
    ) -> Result<(), LexFailure>
        requires { StandsAt false N.tree self.old at.now.start }
        ensures { TakesToken N.tree self.old (string word.now) at.now result self.new }
    {
        let kind = TokenKind::String(empty(self.alloc));
        match self.drops(&kind, at) {
            Some(taken) => taken,
            None => {
                let text = word.to_string(self.alloc)?;
                self.take_live(TokenKind::String(text), at)
            }
        }
    }
}
