//! Tests of nodes.

ghost use Rattle.kdl.specs.Said.{has_key, has_no_key, last_property, nth_argument, said_name, said_type};
ghost use Rattle.kdl.specs.Tree.{node_says};
ghost use Rattle.kdl_entry.specs.Tree.{entry_data, entry_tree};
ghost use Rattle.kdl_query.specs.Internal.Holds.{accessor_of, any_found, any_property, holds, is_last_property, is_named_if, is_typed_if, meets, passes_so, wanted_of};
ghost use Rattle.kdl_query.specs.Tree.{accessor_says, node_test_says, test_says, type_test_says};
ghost use Rattle.kdl_query.specs.Tests.{as_entry};
ghost use Rattle.kdl_value.specs.Tree.{text_of};
ghost use Rattle.std.specs.Option.{option_map_or};
ghost use Rattle.std.specs.List.{list_all, list_any};
ghost use Rattle.std.specs.Prelude.{◌≡◌, ◌&&◌, map, option_map, false};
ghost use Rattle.std.specs.Str.{chars};

use crate::compare::{compares_entry, compares_name, is_text, is_typed};
use crate::tree::{Accessor, NodeTest, Test, TypeTest};
use kdl::{KdlEntry, KdlNode, NodeKey};

/// Whether the node meets the test.
pub(crate) fn meets(node: &KdlNode, test: &NodeTest) -> bool
    ensures { result ≡ meets (node_test_says test.now) (node_says node.now) }
{
    meets_name(node, &test.name) && meets_type(node, &test.node_type) && all_hold(&test.tests, node)
}

/// Whether each test holds of the node.
fn all_hold(tests: &[Test], node: &KdlNode) -> bool
    ensures { result ≡ list_all (λ u. holds u (node_says node.now)) (map test_says tests.now) }
{
    let mut rest = tests;
    while let Some((test, after)) = rest.split_first() {
        if !holds(test, node) {
            return false;
        }
        rest = after;
    }
    true
}

/// Whether the node has the type that is asked for.
fn meets_type(node: &KdlNode, test: &Option<TypeTest>) -> bool
    ensures { result ≡
        is_typed_if (option_map type_test_says test.now) (said_type (node_says node.now)) }
{
    match test {
        Some(test) => is_typed(node.ty(), test),
        None => true,
    }
}

/// Whether the node has the name that is asked for.
fn meets_name(node: &KdlNode, name: &Option<String>) -> bool
    ensures { result ≡
        is_named_if (option_map text_of name.now) (said_name (node_says node.now)) }
{
    match name {
        Some(name) => is_text(node.name().value(), name.as_str()),
        None => true,
    }
}

/// What the test looks at, if it looks at anything.
fn accessor_of(test: &Test) -> Option<&Accessor>
    ensures { option_map (λ a. accessor_says a.now) result ≡ accessor_of (test_says test.now) }
{
    match test {
        Test::Always => None,
        Test::Has(accessor) => Some(accessor),
        Test::Compares(accessor, _, _) => Some(accessor),
    }
}

/// Whether the test holds of the node.
fn holds(test: &Test, node: &KdlNode) -> bool
    ensures { result ≡ holds (test_says test.now) (node_says node.now) }
{
    match accessor_of(test) {
        Some(accessor) => any_found(node, accessor, test),
        None => true,
    }
}

/// Whether the entry compares as the test asks for, if it asks for that.
fn passes(entry: &KdlEntry, test: &Test) -> bool
    ensures { result ≡ passes_so (wanted_of (test_says test.now)) (entry_data (entry_tree entry.now)) }
{
    match test {
        Test::Compares(_, comparison, literal) => compares_entry(entry, *comparison, literal),
        _ => true,
    }
}

/// Whether the name compares as the test asks for, if it asks for that.
fn name_passes(name: &str, test: &Test) -> bool
    ensures { result ≡ passes_so (wanted_of (test_says test.now)) (as_entry (chars name.now)) }
{
    match test {
        Test::Compares(_, comparison, literal) => compares_name(name, *comparison, literal),
        _ => true,
    }
}

/// Whether something that the accessor finds passes.
fn any_found(node: &KdlNode, accessor: &Accessor, test: &Test) -> bool
    ensures { result ≡ any_found (passes_so (wanted_of (test_says test.now)))
        (accessor_says accessor.now) (node_says node.now) }
{
    match accessor {
        Accessor::Argument(index) => entry_passes(argument(node, *index), test),
        Accessor::Property(name) => entry_passes(property(node, name.as_str()), test),
        Accessor::Name => name_passes(node.name().value(), test),
        Accessor::Type => type_passes(node, test),
        Accessor::Arguments => some_argument(node.entries(), test),
        Accessor::Properties => some_property(node.entries(), test),
    }
}

/// Whether there is an entry, and it passes.
fn entry_passes(entry: Option<&KdlEntry>, test: &Test) -> bool
    ensures { result ≡ option_map_or (passes_so (wanted_of (test_says test.now)))
        (option_map (λ e. entry_data (entry_tree e.now)) entry.entry) false }
{
    match entry {
        Some(entry) => passes(entry, test),
        None => false,
    }
}

/// Whether the node has a type, and it passes.
fn type_passes(node: &KdlNode, test: &Test) -> bool
    ensures { result ≡ option_map_or (λ t. passes_so (wanted_of (test_says test.now)) (as_entry t))
        (said_type (node_says node.now)) false }
{
    match node.ty() {
        Some(ty) => name_passes(ty.value(), test),
        None => false,
    }
}

/// The argument at that place among the arguments.
fn argument(node: &KdlNode, index: usize) -> Option<&KdlEntry>
    ensures { option_map (λ e. entry_data (entry_tree e.now)) result
        ≡ nth_argument index (node_says node.now) }
{
    node.entry(NodeKey::from(index))
}

/// Whether the entry is an argument.
fn is_argument(entry: &KdlEntry) -> bool
    ensures { result ≡ has_no_key (entry_data (entry_tree entry.now)) }
{
    entry.name().is_none()
}

/// Whether some argument passes.
fn some_argument(entries: &[KdlEntry], test: &Test) -> bool
    ensures { result ≡ list_any (λ e. has_no_key e && passes_so (wanted_of (test_says test.now)) e)
        (map (λ e. entry_data (entry_tree e)) entries.now) }
{
    let mut rest = entries;
    while let Some((entry, after)) = rest.split_first() {
        if is_argument(entry) && passes(entry, test) {
            return true;
        }
        rest = after;
    }
    false
}

/// Whether the entry is a property of that name.
fn is_named(entry: &KdlEntry, name: &str) -> bool
    ensures { result ≡ has_key (chars name.now) (entry_data (entry_tree entry.now)) }
{
    match entry.name() {
        Some(key) => is_text(key.value(), name),
        None => false,
    }
}

/// The last property of that name.
fn property<'a>(node: &'a KdlNode, name: &str) -> Option<&'a KdlEntry>
    ensures { option_map (λ e. entry_data (entry_tree e.now)) result
        ≡ last_property (chars name.now) (node_says node.entry.now) }
{
    let mut found = None;
    let mut rest = node.entries();
    while let Some((entry, after)) = rest.split_first() {
        if is_named(entry, name) {
            found = Some(entry);
        }
        rest = after;
    }
    found
}

/// Whether there is a property of that name.
fn has_named(entries: &[KdlEntry], name: &str) -> bool
    ensures { result ≡ list_any (has_key (chars name.now))
        (map (λ e. entry_data (entry_tree e)) entries.now) }
{
    let mut rest = entries;
    while let Some((entry, after)) = rest.split_first() {
        if is_named(entry, name) {
            return true;
        }
        rest = after;
    }
    false
}

/// Whether the entry is a property, and none of its name is among the entries after it.
fn is_last_property(entry: &KdlEntry, after: &[KdlEntry]) -> bool
    ensures { result ≡ is_last_property (entry_data (entry_tree entry.now))
        (map (λ e. entry_data (entry_tree e)) after.now) }
{
    match entry.name() {
        Some(key) => !has_named(after, key.value()),
        None => false,
    }
}

/// Whether some property that is the last one of its name passes.
fn some_property(entries: &[KdlEntry], test: &Test) -> bool
    ensures { result ≡ any_property (passes_so (wanted_of (test_says test.now)))
        (map (λ e. entry_data (entry_tree e)) entries.now) }
{
    let mut rest = entries;
    while let Some((entry, after)) = rest.split_first() {
        if passes(entry, test) && is_last_property(entry, after) {
            return true;
        }
        rest = after;
    }
    false
}
