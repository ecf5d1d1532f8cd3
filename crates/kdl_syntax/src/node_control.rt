//! Which token may come where in the text of one node.

ghost use Rattle.kdl_syntax.specs.Internal.Views as view;
ghost use Rattle.kdl_syntax.specs.Internal.Views.{node_view};
ghost use Rattle.kdl_syntax.specs.NodeControl as spec;
ghost use Rattle.kdl_syntax.specs.NodeControl.{node_step};
ghost use Rattle.kdl_syntax.specs.Internal.Handed.{kind_view};
ghost use Rattle.std.specs.Prelude.{◌≡◌, IfOk, None, Some, if◌then◌else◌};

use crate::control::{Control, Phase};
use crate::lexer::TokenKind;
use std::alloc::{AllocError, Global};

/// Whether the token begins a node between nodes: a name, or the `(` of a type.
fn begins_node(kind: &TokenKind) -> bool
    ensures { result ≡ view.begins_node kind.now }
{
    matches!(kind, TokenKind::String(_) | TokenKind::Left)
}

/// Whether the token is made of line-spaces.
fn is_line_space(kind: &TokenKind) -> bool
    ensures { result ≡ view.is_line_space kind.now }
{
    matches!(kind, TokenKind::Space | TokenKind::Newline)
}

/// The control of a text that is one node: after the node, only line-spaces may come.
#[derive(Drop)]
pub struct NodeControl {
    /// The control of a document.
    pub control: Control,
    /// Whether the node has begun, which is not slashdashed.
    pub begun: bool,
}

impl NodeControl {
    /// Creates a control at the start of a text.
    ///
    /// ```
    /// let control = NodeControl::new(alloc); // the node may begin here
    /// ```
    pub fn new(alloc: Global) -> Self
        ensures { node_view result ≡ spec.node_start }
    {
        NodeControl {
            control: Control::new(alloc, Phase::Gap),
            begun: false,
        }
    }

    /// Returns whether the text may end here.
    ///
    /// ```
    /// let ends = NodeControl::new(alloc).may_end(); // false: the node is yet to come
    /// ```
    pub fn may_end(&self) -> bool
        ensures { result ≡ spec.node_finish (node_view self.now) }
    {
        self.begun && self.control.may_end()
    }

    /// Takes a token. Returns false if it may not come here.
    ///
    /// ```
    /// let mut control = NodeControl::new(alloc);
    /// let name = control.take(&TokenKind::String(name))?; // true: the node begins
    /// let end = control.take(&TokenKind::Newline)?; // true: it ends
    /// let other = control.take(&TokenKind::String(other))?; // false: that would be a second node
    /// ```
    pub fn take(&mut self, kind: &TokenKind) -> Result<bool, AllocError>
        ensures { IfOk result (λ b. node_step (node_view self.old) (kind_view kind.now) ≡
            (if b then Some (node_view self.new) else None)) }
    {
        if !self.control.is_between_nodes() {
            return self.control.take(kind);
        }
        if self.begun {
            return Ok(is_line_space(kind));
        }
        self.begun = begins_node(kind);
        self.control.take(kind)
    }
}
