//! What is printed.

ghost use Rattle.kdl.specs.Tree.{node_prints};
ghost use Rattle.kdl_value.specs.Print.{print_value};
ghost use Rattle.kdl_value.specs.Tree.{value_tree};
ghost use Rattle.std.specs.Prelude.{◌≡◌, IfOk, string_bytes};
ghost use Rattle.std.specs.Str.{encode_utf8_all};

use kdl::{KdlNode, KdlValue};
use std::alloc::{AllocError, Global};

/// `to_string` of a node.
pub fn print_node(alloc: Global, node: &KdlNode) -> Result<String, AllocError>
    ensures { IfOk result (λ s. string_bytes s ≡ encode_utf8_all (node_prints node.now)) }
{
    node.to_string(alloc)
}

/// `to_string` of a value.
pub fn print_value(alloc: Global, value: &KdlValue) -> Result<String, AllocError>
    ensures { IfOk result
        (λ s. string_bytes s ≡ encode_utf8_all (print_value (value_tree value.now))) }
{
    value.to_string(alloc)
}
