//! Nodes, created from their parsed parts.
#![tactic(auto, using(crate::proofs::Trees::node_tree_out))]

ghost use Rattle.kdl.specs.Tree.{node_tree};
ghost use Rattle.kdl_grammar.specs.Laid.{node_span};
ghost use Rattle.kdl_parser.specs.Internal.NodeText.{with_text_after};
ghost use Rattle.kdl_parser.specs.Internal.Parts.{node_by};
ghost use Rattle.kdl_value.specs.Tree.{text_of};
ghost use Rattle.std.specs.Prelude.{◌≡◌};

use super::KdlNode;
use crate::document::KdlDocument;
use kdl_entry::parsing::parts::TypeParts;
use kdl_parser::{NodeParts, ParsedNode};
use kdl_parts::KdlNodeFormat;
use kdl_text::span::SourceSpan;
use std::alloc::Global;

impl ParsedNode for KdlNode {
    ghost tree = { node_tree };

    #[inline(always)]
    fn from_parts(alloc: Global, parts: NodeParts<KdlNode>) -> KdlNode
        ensures { node_tree result ≡ node_by node_tree parts }
    {
        let NodeParts {
            leading,
            ty,
            name,
            entries,
            before_children,
            children,
            before_terminator,
            terminator,
            span,
        } = parts;
        let mut format = KdlNodeFormat::new(alloc);
        format.leading = leading;
        format.before_children = before_children;
        format.before_terminator = before_terminator;
        format.terminator = terminator;
        let ty = match ty {
            Some(
                TypeParts {
                    name: ty,
                    before,
                    after,
                    following,
                },
            ) => {
                format.before_ty_name = before;
                format.after_ty_name = after;
                format.after_ty = following;
                Some(ty)
            }
            None => None,
        };
        let children = match children {
            Some(children) => Some(KdlDocument::from_parts(children)),
            None => None,
        };
        KdlNode {
            ty,
            name,
            entries,
            children,
            format: Some(format),
            span,
        }
    }

    fn with_text_after(mut self, trailing: String, span: SourceSpan) -> KdlNode
        ensures { node_tree result ≡ with_text_after (node_tree self) (text_of trailing) span }
    {
        if let Some(format) = &mut self.format {
            format.trailing = trailing;
        }
        self.set_span(span);
        self
    }

    fn span(&self) -> SourceSpan
        ensures { result ≡ node_span (node_tree self.now) }
    {
        self.span
    }
}
