//! Rules for nodes, and what breaks them.

ghost use Rattle.kdl.specs.Said.{has_key, is_called};
ghost use Rattle.kdl.specs.Words.{node_says, value_tree};
ghost use Rattle.std.specs.Prelude.{◌≡◌, ◌↔◌, ◌++◌, Contains, IfOk, OnOk, chars, flat_map, map, option_map};
ghost use Rattle.use_files.specs.Breaches.{BreachView, IsBreachIn, argument_breaches, block_of, blocks_at, breach_view, breaches_at, entry_breaches, entry_says, has_arguments, is_entry, is_kind, is_listed, is_property, is_allowed, own_breaches, rule_of};

use kdl::{KdlDocument, KdlEntry, KdlNode, KdlValue, SourceSpan};
use kdl_laws::said::{arguments_are_counted, texts_are_compared};
use std::alloc::{AllocError, Global};

/// The kind of a property's value.
#[derive(Clone, Copy)]
pub enum Kind {
    Text,
    Whole,
    Boolean,
}

/// What a node of that name may have: the least and the greatest number of arguments, properties, and names of
/// children.
#[derive(Clone, Copy)]
pub struct Rule<'a> {
    pub name: &'a str,
    pub arguments: (usize, usize),
    pub properties: &'a [(&'a str, Kind)],
    pub children: &'a [&'a str],
}

/// Where a rule is broken, and how.
#[derive(Clone, Copy)]
pub struct Breach {
    pub span: SourceSpan,
    pub what: &'static str,
}

/// Nodes that are to be checked, and the rule of the block that they are in.
#[derive(Clone, Copy)]
struct Due<'a> {
    nodes: &'a [KdlNode],
    above: &'a Rule<'a>,
}

fn is_kind(kind: Kind, value: &KdlValue) -> bool
    ensures { result ≡ is_kind kind (value_tree value.now) }
{
    match kind {
        Kind::Text => value.is_string(),
        Kind::Whole => value.is_integer(),
        Kind::Boolean => value.is_bool(),
    }
}

/// Whether the entry has that name.
fn has_name(entry: &KdlEntry, name: &str) -> bool
    ensures { result ≡ has_key (chars name.now) (entry_says entry.now) }
{
    texts_are_compared();
    match entry.name() {
        Some(key) => key.value() == name,
        None => false,
    }
}

/// Whether the entry is a property of that name and kind.
fn is_property(entry: &KdlEntry, name: &str, kind: Kind) -> bool
    ensures { result ≡ is_property (entry_says entry.now) name.now kind }
{
    has_name(entry, name) && is_kind(kind, entry.value())
}

/// Whether the entry is a property that the rule has.
fn is_listed(rule: &Rule<'_>, entry: &KdlEntry) -> bool
    ensures { result ≡ is_listed rule.now (entry_says entry.now) }
{
    rule.properties
        .iter()
        .any(|known| is_property(entry, known.0, known.1))
}

/// Whether the entry is an argument, or such a property.
fn is_entry(rule: &Rule<'_>, entry: &KdlEntry) -> bool
    ensures { result ≡ is_entry rule.now (entry_says entry.now) }
{
    entry.name().is_none() || is_listed(rule, entry)
}

/// Whether the node has an allowed number of arguments.
fn has_arguments(rule: &Rule<'_>, node: &KdlNode) -> bool
    ensures { result ≡ has_arguments rule.now (node_says node.now) }
{
    arguments_are_counted();
    let count = node.argument_count();
    rule.arguments.0 <= count && count <= rule.arguments.1
}

/// Whether the node has that name.
fn is_named(node: &KdlNode, name: &str) -> bool
    ensures { result ≡ is_called (chars name.now) (node_says node.now) }
{
    texts_are_compared();
    node.name().value() == name
}

/// Whether the node is allowed in the block of a node of that rule.
fn is_allowed(above: &Rule<'_>, node: &KdlNode) -> bool
    ensures { result ≡ is_allowed above.now (node_says node.now) }
{
    above.children.iter().any(|name| is_named(node, name))
}

/// The rule of the node's name.
fn rule_of<'a>(rules: &'a [Rule<'a>], node: &KdlNode) -> Option<&'a Rule<'a>>
    ensures { option_map (λ r. r.now) result ≡ rule_of rules.now (node_says node.now) }
{
    rules.iter().find(|rule| is_named(node, rule.name))
}

/// Notes if a node of that rule has too few arguments, or too many.
fn check_arguments(
    rule: &Rule<'_>,
    node: &KdlNode,
    found: &mut Vec<Breach>,
) -> Result<(), AllocError>
    ensures { OnOk result (map breach_view found.new.items ≡
        map breach_view found.old.items ++ argument_breaches rule.now node.now) }
{
    if !has_arguments(rule, node) {
        let what = "too few or too many arguments";
        found.push(Breach {
            span: node.span(),
            what,
        })?;
    }
    Ok(())
}

/// Notes each entry that is not allowed in a node of that rule.
fn check_entries(
    rule: &Rule<'_>,
    entries: &[KdlEntry],
    found: &mut Vec<Breach>,
) -> Result<(), AllocError>
    ensures { OnOk result (map breach_view found.new.items ≡
        map breach_view found.old.items ++ entry_breaches rule.now entries.now) }
{
    for entry in entries {
        if !is_entry(rule, entry) {
            let what = "a property that is not known, or of another type";
            found.push(Breach {
                span: entry.span(),
                what,
            })?;
        }
    }
    Ok(())
}

/// Notes what is wrong with a node of that rule, except for its block.
fn check(rule: &Rule<'_>, node: &KdlNode, found: &mut Vec<Breach>) -> Result<(), AllocError>
    ensures { OnOk result (map breach_view found.new.items ≡
        map breach_view found.old.items ++ own_breaches rule.now node.now) }
{
    check_arguments(rule, node, found)?;
    check_entries(rule, node.entries(), found)
}

/// Notes what is wrong with a node in a block of that rule, except for its own block, which is to be checked then.
fn check_node<'a>(
    rules: &'a [Rule<'a>],
    above: &Rule<'_>,
    node: &'a KdlNode,
    found: &mut Vec<Breach>,
    due: &mut Vec<Due<'a>>,
) -> Result<(), AllocError>
    ensures found { OnOk result (map breach_view found.new.items ≡
        map breach_view found.old.items ++ breaches_at rules.now above.now node.now) }
    ensures due { OnOk result (map block_of due.new.items ≡
        map block_of due.old.items ++ blocks_at rules.now above.now node.now) }
{
    if !is_allowed(above, node) {
        let what = "a node that is not allowed here";
        found.push(Breach {
            span: node.span(),
            what,
        })?;
        return Ok(());
    }
    let Some(rule) = rule_of(rules, node) else {
        return Ok(());
    };
    check(rule, node, found)?;
    if let Some(block) = node.children() {
        due.push(Due {
            nodes: block.nodes(),
            above: rule,
        })?;
    }
    Ok(())
}

/// The same for each of the nodes that are to be checked.
fn check_nodes<'a>(
    rules: &'a [Rule<'a>],
    next: Due<'a>,
    found: &mut Vec<Breach>,
    due: &mut Vec<Due<'a>>,
) -> Result<(), AllocError>
    ensures found { OnOk result (map breach_view found.new.items ≡ map breach_view found.old.items
        ++ flat_map (breaches_at rules.now next.entry.above.now) next.entry.nodes.now) }
    ensures due { OnOk result (map block_of due.new.items ≡ map block_of due.old.items
        ++ flat_map (blocks_at rules.now next.entry.above.now) next.entry.nodes.now) }
{
    for node in next.nodes {
        check_node(rules, next.above, node, found, due)?;
    }
    Ok(())
}

/// Returns each breach of the rules. The first rule is that of the top. Breaches in a block come after those of the
/// nodes at the level above.
pub fn breaches<'a>(
    alloc: Global,
    rules: &'a [Rule<'a>],
    document: &'a KdlDocument,
) -> Result<Vec<Breach>, AllocError>
    ensures { IfOk result (λ found. (b : BreachView) → Contains (map breach_view found.items) b
        ↔ IsBreachIn rules.now document.now b) }
{
    let mut found = Vec::new(alloc);
    let mut due = Vec::new(alloc);
    if let Some(above) = rules.first() {
        due.push(Due {
            nodes: document.nodes(),
            above,
        })?;
    }
    while let Some(next) = due.pop() {
        check_nodes(rules, next, &mut found, &mut due)?;
    }
    Ok(found)
}
