//! The references that look-ups return.

ghost use Rattle.kdl.specs.Change.{children_row};
ghost use Rattle.kdl.specs.Fields.{block_of};
ghost use Rattle.kdl.specs.Iterators.{block_left, block_name, with_written_block};
ghost use Rattle.kdl.specs.Lookups.{HasSameEntries, HasWritten, found_entry, property_place, property_value, with_found_entry};
ghost use Rattle.kdl.specs.contracts.node.KdlNode.{the_row};
ghost use Rattle.kdl_entry.specs.contracts.entry.KdlEntry.{the_row as entry_row};
ghost use Rattle.kdl_value.specs.Tree.{or_null, value_tree};
ghost use Rattle.kdl_value.specs.contracts.value.KdlValue.{the_row as value_row};
ghost use Rattle.std.specs.Borrow.{Array, LendsIf, LendsSoOk, follows, sem};
ghost use Rattle.std.specs.Prelude.{◌≡◌, [], ◌∷◌, IfOk, option_map};

use kdl::{ChildrenIterMut, KdlEntry, KdlNode, KdlValue, NodeKey};
use std::alloc::AllocError;

/// `KdlNode::entry_mut`.
pub fn entry_mut(node: &mut KdlNode, key: NodeKey) -> Option<&mut KdlEntry>
    ensures* writes_back { sem 𝓛 (LendsIf the_row entry_row node.entry result
        (with_found_entry key node.old) node.old) }
    ensures value { option_map (λ e. e.now) result ≡ found_entry key node.old }
{
    node.entry_mut(key)
}

/// `KdlNode::iter_children_mut`: the block that it borrows, and the node after a write to that.
pub fn iter_children_mut(node: &mut KdlNode) -> ChildrenIterMut<'_>
    ensures* writes_back { sem 𝓛 (follows the_row (Array children_row 0) node.entry.ghost_name
        (block_name result) (with_written_block node.old)) }
    ensures block { block_left result ≡ block_of node.old ∷ [] }
{
    node.iter_children_mut()
}

/// `KdlNode::get_or_null_mut`: the value, and the node after a write to it.
pub fn value_or_null<'a>(node: &'a mut KdlNode, name: &str) -> Result<&'a mut KdlValue, AllocError>
    ensures* writes_back { sem 𝓛 (LendsSoOk the_row value_row node.entry result
        (λ n w. HasWritten (property_place name.now node.old) name.now node.old w n)
        (λ n. HasSameEntries node.old n)) }
    ensures value { IfOk result (λ v.
        value_tree v.now ≡ or_null (property_value name.now node.old)) }
{
    node.get_or_null_mut(name)
}
