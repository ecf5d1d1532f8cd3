//! What `==`, the order and hashes of values mean; printed strings read back; and what values contain.
#![tactic(auto, using(crate::proofs::Rules::values))]

ghost use Rattle.kdl_value.specs.Floats.{DecimalsAreFloats};
ghost use Rattle.kdl_value.specs.Order.{text_order, value_order};
ghost use Rattle.kdl_value.specs.Spelled.{SpelledReadsBack, SpelledReadsBackBefore};
ghost use Rattle.kdl_value.specs.Tree.{value_tree, float_text_of};
ghost use Rattle.kdl_value.specs.WellFormed.{IsWellFormed};
ghost use Rattle.kdl_laws.specs.Hashes.{WritesBoth};
ghost use Rattle.std.specs.Cmp.{IsTotalOrder};
ghost use Rattle.std.specs.Prelude.{◌≡◌, IsTrue, ◌↔◌};

use kdl_layout::layout::well_formed;
use kdl_value::{KdlFloat, KdlValue};
use std::cmp::Ordering;
use std::hash::{Hash, Hasher};

/// Every printed string is one string, bare or between quotes, whose value is the string that was printed, both by
/// itself and before any text that does not begin with an identifier character.
pub fn spelled_reads_back()
    ensures alone { SpelledReadsBack }
    ensures before { SpelledReadsBackBefore }
{}

/// Every value in memory is well formed: its text is of Unicode scalar values, its whole number is a signed one of 128
/// bits, its float's text is a float's.
pub fn values_are_well_formed(value: &KdlValue)
    ensures { IsWellFormed (value_tree value.now) }
{
    well_formed(value);
}

/// Two floats are equal exactly if their texts are equal.
pub fn equal_floats(a: &KdlFloat, b: &KdlFloat) -> bool
    ensures { IsTrue result ↔ (float_text_of a.now ≡ float_text_of b.now) }
{
    a == b
}

/// Two values are equal exactly if they have the same kind and the same data.
pub fn equal_values(a: &KdlValue, b: &KdlValue) -> bool
    ensures { IsTrue result ↔ (value_tree a.now ≡ value_tree b.now) }
{
    a == b
}

/// Floats are ordered by the bytes of their texts.
pub fn compare_floats(a: &KdlFloat, b: &KdlFloat) -> Ordering
    ensures order { result ≡ text_order (float_text_of a.now) (float_text_of b.now) }
    ensures equal { (result ≡ Ordering.Equal) ↔ (float_text_of a.now ≡ float_text_of b.now) }
{
    a.cmp(b)
}

/// Values are ordered by their kinds, and within a kind by their contents; two compare as equal exactly if they are
/// equal by `==`.
pub fn compare_values(a: &KdlValue, b: &KdlValue) -> Ordering
    ensures order { result ≡ value_order (value_tree a.now) (value_tree b.now) }
    ensures equal { (result ≡ Ordering.Equal) ↔ (value_tree a.now ≡ value_tree b.now) }
{
    a.cmp(b)
}

/// The order of values is total.
pub fn values_are_ordered()
    ensures { IsTotalOrder ⟦<KdlValue as Ord>⟧.cmp }
{}

/// Equal floats leave equal hashers equal: their hashes write the same bytes.
pub fn hash_floats<H: Hasher>(a: &KdlFloat, b: &KdlFloat, one: &mut H, other: &mut H)
    requires { float_text_of a.now ≡ float_text_of b.now }
    ensures { WritesBoth H.write (⟦<KdlFloat as Hash>⟧.hash_input a.now)
        one.old one.new other.old other.new }
{
    a.hash(one);
    b.hash(other);
}

/// Equal values leave equal hashers equal: their hashes write the same bytes.
pub fn hash_values<H: Hasher>(a: &KdlValue, b: &KdlValue, one: &mut H, other: &mut H)
    requires { value_tree a.now ≡ value_tree b.now }
    ensures { WritesBoth H.write (⟦<KdlValue as Hash>⟧.hash_input a.now)
        one.old one.new other.old other.new }
{
    a.hash(one);
    b.hash(other);
}

/// The value of a decimal in a text is a float's text.
pub fn decimals_are_floats()
    ensures { DecimalsAreFloats }
{}
