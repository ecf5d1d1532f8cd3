//! Look-ups of nodes by their name.
#![tactic(auto, using(crate::proofs::Rules::document_lookup))]

ghost use Rattle.kdl.specs.Bytes.{IsExchangedInDocument, IsExchangedInNode};
ghost use Rattle.kdl.specs.DocumentLookups.{argument_named, argument_place, first_argument, is_node_named, node_named, with_argument_named, with_node_named};
ghost use Rattle.kdl.specs.Found.{IsSetIn};
ghost use Rattle.kdl.specs.Lookups.{held_value, value_of};
ghost use Rattle.kdl.specs.Said.{said_arg, said_node};
ghost use Rattle.kdl.specs.Tree.{document_says, node_says};
ghost use Rattle.kdl.specs.ReadsBack.{BlockReadsBack, DocumentReadsBack, ReadsAs};
ghost use Rattle.kdl.specs.contracts.document.KdlDocument.{the_row};
ghost use Rattle.kdl.specs.contracts.node.KdlNode.{the_row as node_row};
ghost use Rattle.kdl.specs.declared.node.KdlNode.{KdlNode};
ghost use Rattle.kdl_text.specs.Chars.{Text};
ghost use Rattle.kdl_value.specs.Tree.{value_tree};
ghost use Rattle.kdl_value.specs.contracts.value.KdlValue.{the_row as value_row};
ghost use Rattle.std.specs.Borrow.{LendsIf, sem};
ghost use Rattle.std.specs.List.{find};
ghost use Rattle.std.specs.Prelude.{◌≡◌, ◌<◌, IfNone, IfSome, IsSome, None, Some, length, option_and_then, option_map, position, slice_get};
ghost use Rattle.std.specs.Str.{chars};

use crate::document::KdlDocument;
use crate::node::KdlNode;
use kdl_entry::KdlValue;
use kdl_parts::NodeKey;

/// Whether the node has that name.
pub(crate) fn is_named(node: &KdlNode, name: &str) -> bool
    ensures { result ≡ is_node_named name.now node.now }
{
    node.name().value() == name
}

/// The first node of that name.
fn first_named<'a>(nodes: &'a [KdlNode], name: &str) -> Option<&'a KdlNode>
    ensures { option_map (λ n. n.now) result ≡ find (is_node_named name.now) nodes.now }
{
    nodes.iter().find(|node| is_named(*node, name))
}

/// The place of the first node of that name.
fn place(nodes: &[KdlNode], name: &str) -> Option<usize>
    ensures place { result ≡ position (is_node_named name.now) nodes.now }
    ensures bound { IfSome result (λ i. i < length nodes.now) }
{
    nodes.iter().position(|node| is_named(node, name))
}

/// The place of the first node of that name, if it has an argument.
fn place_with_argument(nodes: &[KdlNode], name: &str) -> Option<usize>
    ensures place { IfSome result (λ i. Some i ≡ position (is_node_named name.now) nodes.now) }
    ensures bound { IfSome result (λ i. i < length nodes.now) }
    ensures there { IfSome result (λ i.
        IsSome (option_and_then argument_place (slice_get nodes.now i))) }
    ensures absent { IfNone result
        (option_and_then first_argument (find (is_node_named name.now) nodes.now) ≡ None) }
{
    let Some(at) = place(nodes, name) else {
        return None;
    };
    match nodes[at].get(NodeKey::Index(0)) {
        Some(_) => Some(at),
        None => None,
    }
}

impl KdlDocument {
    /// Returns the first node of that name. Names are compared by their values, not by their spellings.
    ///
    /// ```
    /// let document = KdlDocument::parse(alloc, "host 1\n\"host\" 2")?;
    /// let host = document.get("host"); // the first one
    /// ```
    pub fn get(&self, name: &str) -> Option<&KdlNode>
        ensures value { option_map (λ n. n.now) result ≡ node_named name.now self.now }
        ensures said { option_map (λ n. node_says n.now) result ≡
            said_node (chars name.now) (document_says self.now) }
    {
        first_named(&self.nodes, name)
    }

    /// Returns a mutable reference to the first node of that name. All else is unchanged, and so are all bytes of the
    /// printed text before and after those of the node.
    ///
    /// ```
    /// let mut document = KdlDocument::parse(alloc, "host a; port 1 // kept")?;
    /// if let Some(port) = document.get_mut("port") {
    ///     port.clear(); // prints "host a; port // kept"
    /// }
    /// ```
    pub fn get_mut(&mut self, name: &str) -> Option<&mut KdlNode>
        ensures* writes_back { sem 𝓛 (LendsIf the_row node_row self.entry result
            (with_node_named name.now self.old) self.old) }
        ensures value { option_map (λ n. n.now) result ≡ node_named name.now self.old }
        ensures said { option_map (λ n. node_says n.now) result ≡
            said_node (chars name.now) (document_says self.old) }
        // With a node in its place that reads back as the old one did, the document reads back as before.
        ensures reads { IfSome result (λ n. (m : KdlNode) → ReadsAs n.now m
            → DocumentReadsBack self.old
            → DocumentReadsBack (with_node_named name.now self.old m)) }
        ensures reads_block { IfSome result (λ n. (m : KdlNode) → ReadsAs n.now m
            → BlockReadsBack self.old
            → BlockReadsBack (with_node_named name.now self.old m)) }
        ensures bytes { IfSome result (λ n. (m : KdlNode) (p q : Text) →
            IsExchangedInNode p q n.now m →
            IsExchangedInDocument p q self.old (with_node_named name.now self.old m)) }
    {
        match place(&self.nodes, name) {
            Some(at) => Some(&mut self.nodes[at]),
            None => None,
        }
    }

    /// Returns the value of the first argument of the first node of that name.
    ///
    /// ```
    /// let document = KdlDocument::parse(alloc, "port udp=#true 8080 8081")?;
    /// let port = document.get_arg("port"); // the whole number 8080
    /// ```
    pub fn get_arg(&self, name: &str) -> Option<&KdlValue>
        ensures value { option_map (λ v. value_tree v.now) result ≡
            value_of (argument_named name.now self.now) }
        ensures said { option_map (λ v. value_tree v.now) result ≡
            said_arg (chars name.now) (document_says self.now) }
    {
        match self.get(name) {
            Some(node) => node.get(NodeKey::Index(0)),
            None => None,
        }
    }

    /// Returns a mutable reference to the value that `get_arg` returns. The entry's format, with the spelling of the
    /// value, and all else are unchanged.
    ///
    /// ```
    /// let mut document = KdlDocument::parse(alloc, "port 0x10")?;
    /// if let Some(port) = document.get_arg_mut("port") {
    ///     *port = KdlValue::from(17); // the format keeps the spelling "0x10" of the former value
    /// }
    /// ```
    pub fn get_arg_mut(&mut self, name: &str) -> Option<&mut KdlValue>
        ensures* writes_back { sem 𝓛 (LendsIf the_row value_row self.entry result
            (with_argument_named name.now self.old) self.old) }
        ensures value { option_map (λ v. v.now) result ≡
            held_value (argument_named name.now self.old) }
        ensures sets { IsSome result → (w : KdlValue) → IsSetIn name.now (value_tree w) self.old
            (with_argument_named name.now self.old w) }
    {
        match place_with_argument(&self.nodes, name) {
            Some(at) => Some(&mut self.nodes[at][0]),
            None => None,
        }
    }
}
