//! What a query selects: the relation of queries as it is defined, tried on all paths.

use crate::ask::{Accessor, Chain, Literal, Test, Want};
use crate::data::{Bare, Entry, Spot, Value, Word};
use crate::numbers;
use std::cmp::Ordering;

/// What is asked of an entry that is found: nothing, or a comparison.
type Asked = Option<(&'static str, Literal)>;

/// Where the value is in the order of numbers, but for those that are finite: no other value is in it.
fn rank(value: Value) -> Option<i32> {
    match value {
        Value::Number(_) => Some(0),
        Value::Keyword("#inf") => Some(1),
        Value::Keyword("#-inf") => Some(-1),
        _ => None,
    }
}

/// The order of two numbers.
fn order(a: Value, b: Value) -> Option<Ordering> {
    match (a, b) {
        (Value::Number(a), Value::Number(b)) => Some(numbers::order(a, b)),
        _ => Some(rank(a)?.cmp(&rank(b)?)),
    }
}

/// Whether the two are the same value.
fn is_same(a: Value, b: Value) -> bool {
    match (a, b) {
        (Value::Text(a), Value::Text(b)) => a.0 == b.0,
        (Value::Keyword(a), Value::Keyword(b)) => a == b && a != "#nan",
        _ => order(a, b) == Some(Ordering::Equal),
    }
}

/// Whether the two are strings that compare so.
fn are_texts(a: Value, comparison: &str, b: Value) -> bool {
    match (a, comparison, b) {
        (Value::Text(a), "^=", Value::Text(b)) => a.0.starts_with(b.0),
        (Value::Text(a), "$=", Value::Text(b)) => a.0.ends_with(b.0),
        (Value::Text(a), "*=", Value::Text(b)) => a.0.contains(b.0),
        _ => false,
    }
}

/// Whether the values compare so.
fn compares(a: Value, comparison: &str, b: Value) -> bool {
    match (comparison, order(a, b)) {
        ("=", _) => is_same(a, b),
        ("!=", _) => !is_same(a, b),
        (">", Some(order)) => order.is_gt(),
        (">=", Some(order)) => order.is_ge(),
        ("<", Some(order)) => order.is_lt(),
        ("<=", Some(order)) => order.is_le(),
        (_, _) => are_texts(a, comparison, b),
    }
}

/// Whether the type is the one of a test, which may be any.
fn is_typed(ty: Option<Word>, test: Option<Word>) -> bool {
    match (ty, test) {
        (None, _) => false,
        (Some(_), None) => true,
        (Some(ty), Some(test)) => ty.0 == test.0,
    }
}

/// Whether the entry is as asked.
fn passes(entry: Entry, asked: Asked) -> bool {
    match asked {
        None => true,
        Some((comparison, Literal::Value(value))) => compares(entry.value, comparison, value),
        Some(("=", Literal::Type(test))) => is_typed(entry.ty, test),
        Some((_, Literal::Type(test))) => !is_typed(entry.ty, test),
    }
}

/// Whether the entry at that place is the last property of its name.
fn is_last(spot: &Spot, at: usize, key: Word) -> bool {
    for (other, entry) in spot.entries.iter().enumerate() {
        if let Some(other_key) = entry.key {
            if other > at && other_key.0 == key.0 {
                return false;
            }
        }
    }
    true
}

/// The number of arguments before that place.
fn arguments_before(spot: &Spot, at: usize) -> usize {
    let mut count: usize = 0;
    for entry in spot.entries.iter().take(at) {
        if entry.key.is_none() {
            count = count.saturating_add(1);
        }
    }
    count
}

/// Whether the accessor finds the entry at that place.
fn is_found(spot: &Spot, at: usize, entry: Entry, accessor: Accessor) -> bool {
    match (accessor, entry.key) {
        (Accessor::Arguments, None) => true,
        (Accessor::Argument(index), None) => arguments_before(spot, at) == index,
        (Accessor::Properties, Some(key)) => is_last(spot, at, key),
        (Accessor::Property(name), Some(key)) => key.0 == name.0 && is_last(spot, at, key),
        (_, _) => false,
    }
}

/// Whether the string is as asked.
fn passes_text(text: Word, asked: Asked) -> bool {
    passes(
        Entry {
            key: None,
            ty: None,
            value: Value::Text(text),
        },
        asked,
    )
}

/// Whether something that the accessor finds in the node is as asked.
fn finds(spot: &Spot, accessor: Accessor, asked: Asked) -> bool {
    match (accessor, spot.ty) {
        (Accessor::Name, _) => return passes_text(spot.name, asked),
        (Accessor::Type, Some(ty)) => return passes_text(ty, asked),
        (_, _) => {}
    }
    for (at, entry) in spot.entries.iter().enumerate() {
        if is_found(spot, at, *entry, accessor) && passes(*entry, asked) {
            return true;
        }
    }
    false
}

/// Whether the test holds of the node.
fn holds(spot: &Spot, test: Test) -> bool {
    match test {
        Test::Always => true,
        Test::Has(accessor) => finds(spot, accessor, None),
        Test::Compares(accessor, comparison, literal) => {
            finds(spot, accessor, Some((comparison, literal)))
        }
    }
}

/// Whether the node is as wanted.
fn meets(spot: &Spot, want: &Want) -> bool {
    let is_typed = match want.ty {
        Some(test) => is_typed(spot.ty, test),
        None => true,
    };
    let is_named = match want.name {
        Some(name) => spot.name.0 == name.0,
        None => true,
    };
    is_typed && is_named && want.tests.iter().all(|test| holds(spot, *test))
}

/// Whether the first path is related to the second as the operator says.
pub fn is_related(before: &[usize], operator: &str, path: &[usize]) -> bool {
    match (operator, before.split_last(), path.split_last()) {
        (">", _, Some((_, parent))) => parent == before,
        (">>", _, Some((_, parent))) => parent.starts_with(before),
        ("+", Some((i, block)), Some((j, other))) => block == other && j.checked_sub(1) == Some(*i),
        ("++", Some((i, block)), Some((j, other))) => block == other && i < j,
        (_, _, _) => false,
    }
}

/// Whether the selector leads to the node, or to the document without one, at the path.
fn reaches(spots: &[Spot], chain: &Chain, path: &[usize], spot: Option<&Spot>) -> bool {
    match (chain, spot) {
        (Chain::Top, _) => path.is_empty(),
        (_, None) => false,
        (Chain::Start(want), Some(spot)) => meets(spot, want),
        (Chain::Then(before, operator, want), Some(spot)) => {
            if !meets(spot, want) {
                return false;
            }
            if is_related(&[], operator, path) && reaches(spots, before, &[], None) {
                return true;
            }
            for other in spots {
                if is_related(&other.path, operator, path)
                    && reaches(spots, before, &other.path, Some(other))
                {
                    return true;
                }
            }
            false
        }
    }
}

/// Whether one of the selectors selects the node.
pub fn is_selected(spots: &[Spot], chains: &[Chain], spot: &Spot) -> bool {
    for chain in chains {
        let is_reached = match chain {
            Chain::Top => spot.path.len() == 1,
            _ => reaches(spots, chain, &spot.path, Some(spot)),
        };
        if is_reached {
            return true;
        }
    }
    false
}
