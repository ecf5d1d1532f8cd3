//! Nodes, blocks and documents, from their parts.
#![tactic(auto, using(crate::proofs::Rules::content))]

ghost use Rattle.kdl_entry.specs.Internal.Building.{type_view};
ghost use Rattle.kdl_entry.specs.Internal.Counted.{Within};
ghost use Rattle.kdl_entry.specs.Places.{between};
ghost use Rattle.kdl_grammar.specs.Internal.Machine as machine;
ghost use Rattle.kdl_grammar.specs.Laid as laid;
ghost use Rattle.kdl_grammar.specs.Tree.{children, children_of, document, no_children, none};
ghost use Rattle.kdl_parser.specs.Internal.Building.{boxed_type, under_view};
ghost use Rattle.kdl_parser.specs.Internal.Parts.{nodes_tree, document_by};
ghost use Rattle.kdl_parser.specs.Internal.States.{Appends, Slices, ended_node};
ghost use Rattle.kdl_value.specs.Tree.{text_of};
ghost use Rattle.std.specs.Prelude.{◌≡◌, [], Some, None, IfOk, option_map};

use super::Builder;
use crate::node_parts::{DocumentParts, NodeParts, ParsedNode};
use kdl_entry::KdlIdentifier;
use kdl_entry::parsing::parts::{TypeParts, empty};
use kdl_entry::parsing::texts::{span_between, text_between, token_text};
use kdl_syntax::TokenSpan;
use kdl_text::cursor::Checkpoint;
use kdl_text::span::SourceSpan;
use std::alloc::{AllocError, Global};
use std::mem;

/// Assigns the value to the place, and drops the old one. A plain assignment does the same, but as a call the drop is
/// proved once, and not at each place.
#[inline]
pub(super) fn put<T: Drop>(place: &mut T, value: T)
    ensures { place.new ≡ value }
{
    drop(mem::replace(place, value));
}

/// The span from the start of the first node to the end of the last one; without nodes the given span.
pub(super) fn content_span<N: ParsedNode>(nodes: &[N], place: SourceSpan) -> SourceSpan
    ensures { result ≡ laid.content_span place (nodes_tree N.tree nodes.now) }
{
    let Some(first) = nodes.first() else {
        return place;
    };
    let Some(last) = nodes.last() else {
        return place;
    };
    let offset = first.span().offset;
    let end = last.span().offset.saturating_add(last.span().len);
    SourceSpan {
        offset,
        len: end.saturating_sub(offset),
    }
}

/// An empty document, for a builder outside of a block. Does not allocate.
pub(super) fn no_content<N: ParsedNode>(alloc: Global) -> DocumentParts<N>
    ensures { document_by N.tree result ≡ document
        (Some (record { leading = []; trailing = [] })) (record { offset = 0; len = 0 }) none }
{
    DocumentParts {
        leading: empty(alloc),
        nodes: Vec::new(alloc),
        trailing: empty(alloc),
        span: SourceSpan { offset: 0, len: 0 },
    }
}

impl<'a, N: ParsedNode> Builder<'a, N> {
    /// The nodes, and after them the text of the current place, which ends here; without nodes it is the leading text.
    #[inline(always)]
    pub(super) fn content_up_to(
        &mut self,
        nodes: Vec<N>,
        end: &Checkpoint<'a>,
    ) -> Result<DocumentParts<N>, AllocError>
        requires { Within self.old.cursor self.old.from end.now }
        ensures is { IfOk result (λ d. document_by N.tree d ≡ machine.content_at
            self.old.cursor.text (nodes_tree N.tree nodes.items)
            (between self.old.from.rest end.now.rest) end.now.rest) }
        ensures slices { Slices self.old.from end.now self.old result self.new }
    {
        let place = text_between(&mut self.cursor, self.alloc, &self.from, end)?;
        let here = span_between(&self.cursor, end, &end.copied());
        let span = content_span(&nodes, here);
        let nothing = empty(self.alloc);
        if nodes.is_empty() {
            return Ok(DocumentParts {
                leading: place,
                nodes,
                trailing: nothing,
                span,
            });
        }
        Ok(DocumentParts {
            leading: nothing,
            nodes,
            trailing: place,
            span,
        })
    }

    /// Takes the current node as one of this type, with this block after this text, and appends it to the nodes. The
    /// token is its terminator.
    #[inline(always)]
    fn push_node(
        &mut self,
        ty: Option<TypeParts>,
        before_children: String,
        children: Option<DocumentParts<N>>,
        at: &TokenSpan<'a>,
    ) -> Result<(), AllocError>
        requires from { Within self.old.cursor self.old.from at.now.start }
        ensures { Appends N.tree (ended_node N.tree self.old (record (under_view self.old.under) {
          ty = option_map type_view ty;
        }) (children_of (option_map (document_by N.tree) children)) (text_of before_children) at.now) at.now.end
            self.old result self.new }
    {
        let before_terminator = text_between(&mut self.cursor, self.alloc, &self.from, &at.start)?;
        let terminator = token_text(&mut self.cursor, self.alloc, at)?;
        self.nodes.make_room()?;
        let span = span_between(&self.cursor, &self.under.start, &at.start);
        let alloc = self.alloc;
        let parts = NodeParts {
            leading: mem::replace(&mut self.under.leading, empty(alloc)),
            ty,
            name: mem::replace(&mut self.under.name, KdlIdentifier::from(empty(alloc))),
            entries: mem::replace(&mut self.under.entries.items, Vec::new(alloc)),
            before_children,
            children,
            before_terminator,
            terminator,
            span,
        };
        self.nodes.items.push_reserved(N::from_parts(alloc, parts));
        Ok(())
    }

    /// Takes the current node as one of this type, as `push_node` does. Few nodes have a type, so this is not inlined.
    #[inline(never)]
    fn push_typed(
        &mut self,
        ty: Box<TypeParts>,
        before_children: String,
        children: Option<DocumentParts<N>>,
        at: &TokenSpan<'a>,
    ) -> Result<(), AllocError>
        requires from { Within self.old.cursor self.old.from at.now.start }
        ensures { Appends N.tree (ended_node N.tree self.old (record (under_view self.old.under) {
          ty = Some (boxed_type ty);
        }) (children_of (option_map (document_by N.tree) children)) (text_of before_children) at.now) at.now.end
            self.old result self.new }
    {
        self.push_node(Some(Box::into_inner(ty)), before_children, children, at)
    }

    /// Takes the current node, whose terminator is the token, and appends it to the nodes.
    pub(super) fn push_ended(&mut self, at: &TokenSpan<'a>) -> Result<(), AllocError>
        requires from { Within self.old.cursor self.old.from at.now.start }
        ensures { Appends N.tree (ended_node N.tree self.old (under_view self.old.under) no_children [] at.now)
            at.now.end self.old result self.new }
    {
        self.under.entries.fit()?;
        let before = empty(self.alloc);
        match self.under.ty.take() {
            None => self.push_node(None, before, None, at),
            Some(ty) => self.push_typed(ty, before, None, at),
        }
    }

    /// Takes the node with its block, whose terminator is the token, and appends it to the nodes.
    #[inline(always)]
    pub(super) fn push_kept(&mut self, at: &TokenSpan<'a>) -> Result<(), AllocError>
        requires from { Within self.old.cursor self.old.from at.now.start }
        ensures { Appends N.tree (ended_node N.tree self.old (under_view self.old.under)
            (children (document_by N.tree self.old.block)) (text_of self.old.under.before) at.now) at.now.end
            self.old result self.new }
    {
        let alloc = self.alloc;
        let before = mem::replace(&mut self.under.before, empty(alloc));
        let block = mem::replace(&mut self.block, no_content(alloc));
        match self.under.ty.take() {
            None => self.push_node(None, before, Some(block), at),
            Some(ty) => self.push_typed(ty, before, Some(block), at),
        }
    }
}

/// The empty span at the place.
#[inline(always)]
pub(super) fn nothing_at<'a>(place: &Checkpoint<'a>) -> TokenSpan<'a>
    ensures start { result.start ≡ place.now }
    ensures end { result.end ≡ place.now }
{
    TokenSpan::new(place.copied(), place.copied())
}
