//! What `==` and clones of keys mean.

ghost use Rattle.kdl_laws.specs.Keys.{sought_anywhere};
ghost use Rattle.kdl_parts.specs.EntryLists.{sought};
ghost use Rattle.std.specs.Prelude.{◌≡◌, ◌↔◌, IfOk, IsTrue};

use kdl_parts::NodeKey;
use std::alloc::AllocError;

/// Two keys are equal exactly if they look for the same: an argument at the same place, or a property by identifiers
/// that are equal except for their spans.
#[tactic(auto, using(crate::proofs::KeyEquality::key_decides))]
pub fn equal_keys(a: &NodeKey, b: &NodeKey) -> bool
    ensures { IsTrue result ↔ (sought_anywhere (sought a.now) ≡ sought_anywhere (sought b.now)) }
{
    a == b
}

/// A clone of a key looks for the same, by an identifier with the same spelling and span, and so is equal to it.
pub fn clone_key(key: &NodeKey) -> Result<NodeKey, AllocError>
    ensures { IfOk result (λ k. sought k ≡ sought key.now) }
{
    key.clone()
}
