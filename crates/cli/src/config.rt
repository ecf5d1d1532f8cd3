//! Settings from a KDL text.

ghost use Rattle.cli.specs.Config.{AreMisfits, Configures, IsConfig, alone, bare_value, count_of, given_by, given_of, indent_of, key_of, merged, misfit, only_value, tab_of, unfit, why_text, wrong};
ghost use Rattle.kdl.specs.Words.{LaidDocument, document_tree, entry_data, entry_tree, node_says, node_tree, value_tree};
ghost use Rattle.std.specs.Option.{option_or};
ghost use Rattle.std.specs.Prelude.{◌≡◌, [], IfOk, List, OnOk, chars, is_some, map, option_map, ℕ};
ghost use Rattle.std.specs.Result.{result_err};

use crate::settings::{Given, Indent};
use kdl::{KdlDocument, KdlEntry, KdlError, KdlNode, KdlValue, ParseFailure, SourceSpan};
use std::alloc::{AllocError, Global};

/// The name of a setting.
#[derive(Clone, Copy)]
pub enum Key {
    Indent,
    BlankLines,
    Respell,
    Expand,
}

/// Why a node is no setting.
#[derive(Clone, Copy)]
pub enum Why {
    /// No setting has its name.
    Unknown,
    /// The setting of its name can't be what the node says.
    Unfit(Key),
    /// The setting is there before.
    Twice,
}

/// A node that is no setting, and why.
#[derive(Clone, Copy)]
pub struct Misfit {
    pub why: Why,
    /// The span of its name.
    pub span: SourceSpan,
}

/// Why a text has no settings.
#[derive(Drop)]
pub enum Unfit {
    /// The text is not a document.
    Syntax(KdlError),
    /// Nodes are no settings.
    Misfits(Vec<Misfit>),
    /// An allocation failed.
    Memory,
}

impl Why {
    /// Returns the reason as a text.
    pub fn text(self) -> &'static str
        ensures { result.now ≡ why_text self }
    {
        match self {
            Why::Unknown => {
                "no such setting: there are `indent`, `blank-lines`, `respell` and `expand`"
            }
            Why::Unfit(Key::Indent) => "`indent` is a number of spaces or `tab`",
            Why::Unfit(Key::BlankLines) => "`blank-lines` is a number of lines",
            Why::Unfit(Key::Respell | Key::Expand) => "this setting is `#true` or `#false`",
            Why::Twice => "the setting is there before",
        }
    }
}

/// Returns the settings that a text gives. Its nodes are:
///
/// - `indent 4` or `indent tab`, the indent;
/// - `blank-lines 1`, the greatest number of blank lines that are kept;
/// - `respell #true`, whether values, names, keys and types are spelled anew;
/// - `expand #true`, whether each node of a block on one line gets a line of its own.
///
/// Each is there at most once, with one argument and without properties, type and block.
pub fn given(alloc: Global, text: &str) -> Result<Given, Unfit>
    ensures { Configures text.now result }
{
    match KdlDocument::parse(alloc, text) {
        Ok(document) => given_in(alloc, &document),
        Err(ParseFailure::Syntax(error)) => Err(Unfit::Syntax(error)),
        Err(ParseFailure::Memory) => Err(Unfit::Memory),
    }
}

/// Returns the settings that a document gives.
fn given_in(alloc: Global, document: &KdlDocument) -> Result<Given, Unfit>
    ensures { (text : List ℕ) → LaidDocument (document_tree document.now) (chars text)
        → Configures text result }
{
    let mut misfits = Vec::new(alloc);
    match given_by(document.nodes(), &mut misfits) {
        Ok(given) => without_misfits(given, misfits),
        Err(AllocError) => Err(Unfit::Memory),
    }
}

/// Returns the settings, if there are no misfits.
fn without_misfits(given: Given, misfits: Vec<Misfit>) -> Result<Given, Unfit>
    ensures { (text : List ℕ) → IsConfig text given misfits.items → Configures text result }
{
    if misfits.as_slice().is_empty() {
        Ok(given)
    } else {
        Err(Unfit::Misfits(misfits))
    }
}

/// Returns the settings that nodes give, and notes each node that is no setting.
fn given_by(nodes: &[KdlNode], misfits: &mut Vec<Misfit>) -> Result<Given, AllocError>
    requires { misfits.old.items ≡ [] }
    ensures given { IfOk result (λ given. given ≡ given_by (map node_says nodes.now)) }
    ensures misfits { OnOk result (AreMisfits (map node_tree nodes.now) misfits.new.items) }
{
    let mut given = Given::none();
    for node in nodes {
        if let Err(why) = give(&mut given, node) {
            let span = node.name().span();
            misfits.push(Misfit { why, span })?;
        }
    }
    Ok(given)
}

/// Sets what a node gives, or returns why it gives nothing.
fn give(given: &mut Given, node: &KdlNode) -> Result<(), Why>
    ensures given { given.new ≡ merged given.old (given_of (node_says node.now)) }
    ensures why { result_err result ≡ misfit given.old (node_says node.now) }
{
    match key_of(node.name().value()) {
        Some(key) => set(given, key, only_argument(node)),
        None => Err(Why::Unknown),
    }
}

/// Returns the key that is spelled so.
fn key_of(name: &str) -> Option<Key>
    ensures { result ≡ key_of (chars name.now) }
{
    match name {
        "indent" => Some(Key::Indent),
        "blank-lines" => Some(Key::BlankLines),
        "respell" => Some(Key::Respell),
        "expand" => Some(Key::Expand),
        _ => None,
    }
}

/// Sets the setting of that name to what the value says.
fn set(given: &mut Given, key: Key, value: Option<&KdlValue>) -> Result<(), Why>
    ensures given { given.new
        ≡ merged given.old (alone key (option_map (λ v. value_tree v.now) value.entry)) }
    ensures why { result_err result
        ≡ wrong key given.old (alone key (option_map (λ v. value_tree v.now) value.entry)) }
{
    match key {
        Key::Indent => put(&mut given.indent, value.and_then(indent_of), key),
        Key::BlankLines => put(&mut given.blank_lines, value.and_then(count_of), key),
        Key::Respell => put(&mut given.respell, value.and_then(KdlValue::as_bool), key),
        Key::Expand => put(&mut given.expand, value.and_then(KdlValue::as_bool), key),
    }
}

/// Sets a setting that is not there before.
fn put<T: Copy>(setting: &mut Option<T>, value: Option<T>, key: Key) -> Result<(), Why>
    ensures setting { setting.new ≡ option_or setting.old value }
    ensures why { result_err result ≡ unfit key (is_some setting.old) (is_some value) }
{
    match value {
        None => Err(Why::Unfit(key)),
        Some(_) if setting.is_some() => Err(Why::Twice),
        Some(_) => {
            *setting = value;
            Ok(())
        }
    }
}

/// Returns the only argument of a node that has neither a type nor a block.
fn only_argument(node: &KdlNode) -> Option<&KdlValue>
    ensures { option_map (λ v. value_tree v.now) result ≡ only_value (node_says node.now) }
{
    if node.ty().is_some() || node.children().is_some() {
        return None;
    }
    match node.entries() {
        [entry] => bare_value(entry),
        _ => None,
    }
}

/// Returns the value of an argument without a type.
fn bare_value(entry: &KdlEntry) -> Option<&KdlValue>
    ensures { option_map (λ v. value_tree v.now) result
        ≡ bare_value (entry_data (entry_tree entry.now)) }
{
    if entry.name().is_none() && entry.ty().is_none() {
        Some(entry.value())
    } else {
        None
    }
}

/// Returns the indent that a value says.
fn indent_of(value: &KdlValue) -> Option<Indent>
    ensures { result ≡ indent_of (value_tree value.now) }
{
    match value.as_string() {
        Some(text) => tab(text),
        None => count_of(value).map(Indent::Spaces),
    }
}

/// Returns the tab, if the text is its name.
fn tab(text: &str) -> Option<Indent>
    ensures { result ≡ tab_of (chars text.now) }
{
    if text == "tab" {
        Some(Indent::Tab)
    } else {
        None
    }
}

/// Returns the count that a value says.
fn count_of(value: &KdlValue) -> Option<usize>
    ensures { result ≡ count_of (value_tree value.now) }
{
    usize::try_from(value.as_integer()?).ok()
}
