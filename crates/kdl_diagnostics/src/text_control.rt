//! Which token may come where in a text, and where the reader of faults may begin.

ghost use Rattle.kdl_syntax.specs.EntryControl.{entry_finish};
ghost use Rattle.kdl_diagnostics.specs.Internal.Outsets.{LacksAt, depth, text_view};
ghost use Rattle.kdl_diagnostics.specs.TextControl.{text_finish, text_start, text_step};
ghost use Rattle.kdl_diagnostics.specs.declared.whole.Whole.TheVariants.{Entry};
ghost use Rattle.kdl_syntax.specs.Internal.Handed.{kind_view};
ghost use Rattle.std.specs.Prelude.{◌≡◌, false, IfOk, None, Some, if◌then◌else◌};

use crate::state::{Context, Progress, in_node, is_dropping, is_due};
use crate::whole::Whole;
use kdl_syntax::{EntryControl, NodeControl, Owner, Phase, Spot, TokenKind, Word};
use std::alloc::{AllocError, Global};

/// The place in the text of an entry, as far as the control knows it.
fn place_in_entry(control: EntryControl) -> Progress
    ensures { entry_finish control ≡ false → LacksAt Entry 0 result }
{
    let (phase, has_item) = match control {
        EntryControl::Ahead => (in_node(), false),
        EntryControl::Dropping(Phase::InNode(Spot::Fresh(word))) => {
            (Phase::InNode(Spot::Spaced(word)), false)
        }
        // Up to its value, something is due in the entry.
        EntryControl::Under(phase) => (phase, is_due(phase)),
        EntryControl::Dropping(phase) => (phase, false),
        EntryControl::Word => (Phase::InNode(Spot::Spaced(Word::MayBeKey)), true),
        EntryControl::Done => (in_node(), true),
    };
    Progress {
        has_item,
        ..Progress::new(Whole::Entry, phase)
    }
}

/// Which token may come where in a text.
#[derive(Drop)]
pub(crate) struct TextControl {
    /// What the text is read as.
    pub whole: Whole,
    /// The control of a document or of a node's text.
    pub node: NodeControl,
    /// The control of an entry's text.
    pub entry: EntryControl,
    /// In the text of an entry, whether an entry was slashdashed.
    pub has_dropped: bool,
    /// In the text of an entry, whether the last token is a space.
    pub is_apart: bool,
    /// Whether the string of an identifier's text was read.
    pub has_string: bool,
}

impl TextControl {
    /// Creates a control at the start of a text.
    pub(crate) fn new(alloc: Global, whole: Whole) -> Self
        ensures start { text_view result ≡ text_start whole }
        ensures whole { result.whole ≡ whole }
    {
        TextControl {
            whole,
            node: NodeControl::new(alloc),
            entry: EntryControl::Ahead,
            has_dropped: false,
            is_apart: false,
            has_string: false,
        }
    }

    /// Whether the text may end here.
    pub(crate) fn may_end(&self) -> bool
        ensures { result ≡ text_finish (text_view self.now) }
    {
        match self.whole {
            Whole::Document => self.node.control.may_end(),
            Whole::Node => self.node.may_end(),
            Whole::Entry => self.entry.may_end(),
            Whole::Identifier => self.has_string,
        }
    }

    /// Takes a token, and returns whether it may come here.
    pub(crate) fn take(&mut self, kind: &TokenKind) -> Result<bool, AllocError>
        ensures { IfOk result (λ b. text_step (text_view self.old) (kind_view kind.now) ≡
            (if b then Some (text_view self.new) else None)) }
    {
        match (self.whole, kind) {
            (Whole::Document, _) => self.node.control.take(kind),
            (Whole::Node, _) => self.node.take(kind),
            (Whole::Entry, _) => {
                let Some(entry) = self.entry.after(kind) else {
                    return Ok(false);
                };
                self.entry = entry;
                if let EntryControl::Dropping(phase) = entry
                    && !is_dropping(phase)
                {
                    self.has_dropped = true;
                }
                self.is_apart = matches!(kind, TokenKind::Space);
                Ok(true)
            }
            (Whole::Identifier, TokenKind::String(_)) if !self.has_string => {
                self.has_string = true;
                Ok(true)
            }
            (Whole::Identifier, _) => Ok(false),
        }
    }

    /// What the reader of faults knows here. If the text ends here and may not, something is missing.
    pub(crate) fn outset(&self) -> Progress
        ensures { text_finish (text_view self.now) ≡ false
            → LacksAt self.now.whole (depth (text_view self.now)) result }
    {
        let phase = self.node.control.phase();
        match self.whole {
            Whole::Node if self.node.begun && self.node.control.is_between_nodes() => Progress {
                context: Context::Over,
                has_item: true,
                ..Progress::new(Whole::Node, in_node())
            },
            Whole::Document | Whole::Node => Progress {
                has_item: self.node.begun,
                ..Progress::new(self.whole, phase)
            },
            Whole::Entry => Progress {
                has_dropped: self.has_dropped,
                is_apart: self.is_apart,
                ..place_in_entry(self.entry)
            },
            // A string is due, as in a type.
            Whole::Identifier => Progress::new(self.whole, Phase::TypeOpen(Owner::Name)),
        }
    }
}
