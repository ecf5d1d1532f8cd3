//! What look-ups find after layout.

ghost use Rattle.kdl.specs.Words.{DocumentLaidOut, IsDocument, NodeLaidOut, Nodes, argument_named, arguments_of, defaults, document_says, document_tree, found_value, node_named, node_says, plain_document, said_arg, value_of, without_comments};
ghost use Rattle.std.specs.Prelude.{◌↔◌, ◌≡◌, IfOk, OnOk, chars, option_map, true};

use kdl::{KdlDocument, KdlNode, NodeKey, ParseFailure};
use std::alloc::{AllocError, Global};

/// Lays the document out. Each look-up finds what it found before.
pub fn tidy(document: &mut KdlDocument, name: &str) -> Result<(), AllocError>
    ensures formatted { OnOk result (DocumentLaidOut defaults document.old document.new) }
    ensures argument { value_of (argument_named name.now document.new) ≡
        value_of (argument_named name.now document.old) }
    ensures arguments { arguments_of (node_named name.now document.new) ≡
        arguments_of (node_named name.now document.old) }
    ensures node { option_map node_says (node_named name.now document.new) ≡
        option_map node_says (node_named name.now document.old) }
    ensures said { said_arg (chars name.now) (document_says document.new) ≡
        said_arg (chars name.now) (document_says document.old) }
{
    document.autoformat()
}

/// Lays the document out without comments. Each look-up finds what it found before.
pub fn tidy_all(document: &mut KdlDocument, name: &str) -> Result<(), AllocError>
    ensures formatted { OnOk result
        (document_tree document.new ≡ plain_document without_comments document.old) }
    ensures argument { value_of (argument_named name.now document.new) ≡
        value_of (argument_named name.now document.old) }
    ensures arguments { arguments_of (node_named name.now document.new) ≡
        arguments_of (node_named name.now document.old) }
    ensures node { option_map node_says (node_named name.now document.new) ≡
        option_map node_says (node_named name.now document.old) }
{
    document.autoformat_no_comments()
}

/// Lays the node out. Each key finds what it found before.
pub fn tidy_node(node: &mut KdlNode) -> Result<(), AllocError>
    ensures formatted { OnOk result (NodeLaidOut defaults node.old node.new) }
    ensures finds { (key : NodeKey) → found_value key node.new ≡ found_value key node.old }
{
    node.autoformat()
}

/// Returns whether two texts are documents with the same data.
pub fn same_configuration(alloc: Global, one: &str, other: &str) -> Result<bool, ParseFailure>
    ensures { IfOk result (λ b. (b ≡ true) ↔ ((x : Nodes)
        × IsDocument (chars one.now) x × IsDocument (chars other.now) x)) }
{
    let mut a = KdlDocument::parse(alloc, one)?;
    let mut b = KdlDocument::parse(alloc, other)?;
    a.autoformat_no_comments()?;
    b.autoformat_no_comments()?;
    let one = a.to_string(alloc)?;
    let other = b.to_string(alloc)?;
    Ok(one == other)
}
