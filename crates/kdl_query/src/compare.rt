//! Comparisons of values and types with literals.

ghost use Rattle.kdl_entry.specs.Tree.{entry_data, entry_tree, identifier_tree};
ghost use Rattle.kdl_parts.specs.EntryLists.{same_text};
ghost use Rattle.kdl_query.specs.Internal.Holds.{compares_other, compares_so, compares_string, compares_text, compares_type, compares_value, has_infix, is_equal, is_ordered, is_ordered_if, is_same, is_truth, is_typed, same_truth};
ghost use Rattle.kdl_query.specs.Tests.{as_entry};
ghost use Rattle.kdl_query.specs.Tree.{literal_says, type_test_says};
ghost use Rattle.kdl_value.specs.Tree.{value_tree};
ghost use Rattle.std.specs.List.{ends_with, starts_with};
ghost use Rattle.std.specs.Prelude.{◌≡◌, nat_eq, option_map};
ghost use Rattle.std.specs.Str.{chars};

use crate::decimal::compare;
use crate::tree::{Comparison, Literal, TypeTest};
use kdl::{KdlEntry, KdlIdentifier, KdlValue};
use std::cmp::Ordering;

/// Whether the two texts are the same.
pub(crate) fn is_text(text: &str, other: &str) -> bool
    ensures { result ≡ same_text (chars text.now) (chars other.now) }
{
    text.len() == other.len() && text == other
}

/// Whether the text begins with the other.
fn begins_with(text: &str, front: &str) -> bool
    ensures { result ≡ starts_with nat_eq (chars text.now) (chars front.now) }
{
    text.starts_with(front)
}

/// Whether the text ends with the other.
fn finishes_with(text: &str, back: &str) -> bool
    ensures { result ≡ ends_with nat_eq (chars text.now) (chars back.now) }
{
    text.ends_with(back)
}

/// Whether the other is somewhere in the text.
fn has_text(text: &str, inner: &str) -> bool
    ensures { result ≡ has_infix (chars text.now) (chars inner.now) }
{
    text.find(inner).is_some()
}

/// Whether the two are equal.
fn same_truth(truth: bool, other: bool) -> bool
    ensures { result ≡ same_truth truth other }
{
    if truth { other } else { !other }
}

/// Whether the value is that boolean.
fn is_truth(truth: bool, literal: &KdlValue) -> bool
    ensures { result ≡ is_truth truth (value_tree literal.now) }
{
    match literal {
        KdlValue::Bool(literal) => same_truth(truth, *literal),
        _ => false,
    }
}

/// Whether there is an order, and it is that of equal numbers.
fn is_equal(order: Option<Ordering>) -> bool
    ensures { result ≡ is_equal order }
{
    match order {
        Some(order) => order.is_eq(),
        None => false,
    }
}

/// Whether the type meets the test.
pub(crate) fn is_typed(ty: Option<&KdlIdentifier>, test: &TypeTest) -> bool
    ensures { result ≡ is_typed (type_test_says test.now)
        (option_map (λ t. (identifier_tree t.now).value) ty.entry) }
{
    match (test, ty) {
        (_, None) => false,
        (TypeTest::Any, Some(_)) => true,
        (TypeTest::Named(name), Some(ty)) => is_text(ty.value(), name.as_str()),
    }
}

/// Whether the texts compare so. Texts are not ordered.
fn compares_text(text: &str, comparison: Comparison, literal: &str) -> bool
    ensures { result ≡ compares_text comparison (chars text.now) (chars literal.now) }
{
    match comparison {
        Comparison::Equal => is_text(text, literal),
        Comparison::NotEqual => !is_text(text, literal),
        Comparison::StartsWith => begins_with(text, literal),
        Comparison::EndsWith => finishes_with(text, literal),
        Comparison::Contains => has_text(text, literal),
        _ => false,
    }
}

/// Whether a text compares so with the literal. No text is another value.
fn compares_string(text: &str, comparison: Comparison, literal: &KdlValue) -> bool
    ensures { result ≡ compares_string comparison (chars text.now) (value_tree literal.now) }
{
    match literal {
        KdlValue::String(literal) => compares_text(text, comparison, literal.as_str()),
        _ => matches!(comparison, Comparison::NotEqual),
    }
}

/// Whether the two are the same value, numbers by their exact value. The first is no string.
fn is_same(value: &KdlValue, literal: &KdlValue) -> bool
    ensures { result ≡ is_same (value_tree value.now) (value_tree literal.now) }
{
    match value {
        KdlValue::Bool(truth) => is_truth(*truth, literal),
        KdlValue::Null => literal.is_null(),
        KdlValue::String(_) => is_equal(compare(value, literal)),
        KdlValue::Integer(_) => is_equal(compare(value, literal)),
        KdlValue::Float(_) => is_equal(compare(value, literal)),
    }
}

/// Whether the order is the one that is asked for.
fn is_ordered(order: Ordering, comparison: Comparison) -> bool
    ensures { result ≡ is_ordered comparison order }
{
    match comparison {
        Comparison::Greater => order.is_gt(),
        Comparison::GreaterOrEqual => order.is_ge(),
        Comparison::Less => order.is_lt(),
        Comparison::LessOrEqual => order.is_le(),
        _ => false,
    }
}

/// Whether there is an order, and it is the one that is asked for.
fn is_ordered_if(order: Option<Ordering>, comparison: Comparison) -> bool
    ensures { result ≡ is_ordered_if comparison order }
{
    match order {
        Some(order) => is_ordered(order, comparison),
        None => false,
    }
}

/// Whether a value that is no string compares so with the literal.
fn compares_other(value: &KdlValue, comparison: Comparison, literal: &KdlValue) -> bool
    ensures { result ≡ compares_other comparison (value_tree value.now) (value_tree literal.now) }
{
    match comparison {
        Comparison::Equal => is_same(value, literal),
        Comparison::NotEqual => !is_same(value, literal),
        Comparison::Greater => is_ordered_if(compare(value, literal), comparison),
        Comparison::GreaterOrEqual => is_ordered_if(compare(value, literal), comparison),
        Comparison::Less => is_ordered_if(compare(value, literal), comparison),
        Comparison::LessOrEqual => is_ordered_if(compare(value, literal), comparison),
        _ => false,
    }
}

/// Whether the value compares so with the literal.
fn compares_value(value: &KdlValue, comparison: Comparison, literal: &KdlValue) -> bool
    ensures { result ≡ compares_value comparison (value_tree value.now) (value_tree literal.now) }
{
    match value {
        KdlValue::String(text) => compares_string(text.as_str(), comparison, literal),
        _ => compares_other(value, comparison, literal),
    }
}

/// Whether the type compares so with a test of types.
fn compares_type(ty: Option<&KdlIdentifier>, comparison: Comparison, test: &TypeTest) -> bool
    ensures { result ≡ compares_type comparison (type_test_says test.now)
        (option_map (λ t. (identifier_tree t.now).value) ty.entry) }
{
    match comparison {
        Comparison::Equal => is_typed(ty, test),
        Comparison::NotEqual => !is_typed(ty, test),
        _ => false,
    }
}

/// Whether the entry compares so with the literal: by its value, or by its own type.
pub(crate) fn compares_entry(entry: &KdlEntry, comparison: Comparison, literal: &Literal) -> bool
    ensures { result ≡
        compares_so comparison (literal_says literal.now) (entry_data (entry_tree entry.now)) }
{
    match literal {
        Literal::Value(literal) => compares_value(entry.value(), comparison, literal),
        Literal::Type(test) => compares_type(entry.ty(), comparison, test),
    }
}

/// Whether a name compares so with the literal, as a string without a type.
pub(crate) fn compares_name(name: &str, comparison: Comparison, literal: &Literal) -> bool
    ensures { result ≡
        compares_so comparison (literal_says literal.now) (as_entry (chars name.now)) }
{
    match literal {
        Literal::Value(literal) => compares_string(name, comparison, literal),
        Literal::Type(test) => compares_type(None, comparison, test),
    }
}
