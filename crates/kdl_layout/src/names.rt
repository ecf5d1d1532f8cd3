//! Spellings that layout keeps, of names, keys, types and values.

ghost use Rattle.kdl_entry.specs.Tree.{entry_tree, identifier_tree, unspelled};
ghost use Rattle.kdl_layout.specs.Internal.Names.{Keeps, KeepsName, KeepsValue, autoformatted_but, emptied_key, emptied_type, spelling_of, unspelled_value, with_spelling, with_spelling_if};
ghost use Rattle.kdl_layout.specs.Kept.{is_kept_format};
ghost use Rattle.kdl_value.specs.Tree.{text_of};
ghost use Rattle.std.specs.Prelude.{◌≡◌, IfOk, option_map};

use crate::config::Layout;
use crate::spelling::{spells_text, spells_value};
use kdl_entry::{KdlEntry, KdlIdentifier};
use std::alloc::{AllocError, Global};
use std::mem;

/// What layout does with a spelling.
#[derive(Clone, Copy)]
pub enum SpellingRule {
    /// It stays.
    Kept,
    /// It is removed.
    Removed,
}

/// Returns what the layout does with the spelling of the identifier. It is kept if the layout keeps spellings, and this
/// is one of the identifier's string.
pub fn name_spelling(
    alloc: Global,
    layout: &Layout,
    identifier: &KdlIdentifier,
) -> Result<SpellingRule, AllocError>
    ensures { IfOk result (λ spelling.
        KeepsName layout.now.keep_spelling (identifier_tree identifier.now) spelling) }
{
    if !layout.keep_spelling {
        return Ok(SpellingRule::Removed);
    }
    let Some(repr) = identifier.repr() else {
        return Ok(SpellingRule::Removed);
    };
    if spells_text(alloc, repr, identifier.value())? {
        return Ok(SpellingRule::Kept);
    }
    Ok(SpellingRule::Removed)
}

/// The same of a key or a type, if there is one.
pub fn name_spelling_if(
    alloc: Global,
    layout: &Layout,
    identifier: Option<&KdlIdentifier>,
) -> Result<SpellingRule, AllocError>
    ensures { IfOk result (λ spelling. Keeps layout.now.keep_spelling
        (option_map (λ i. identifier_tree i.now) identifier.entry) spelling) }
{
    match identifier {
        Some(identifier) => name_spelling(alloc, layout, identifier),
        None => Ok(SpellingRule::Removed),
    }
}

/// Removes the spelling of the identifier, unless it is kept.
pub fn respell(identifier: &mut KdlIdentifier, spelling: SpellingRule)
    ensures spelled { identifier_tree identifier.new ≡
        with_spelling spelling (identifier_tree identifier.old) }
    ensures same { unspelled (identifier_tree identifier.new) ≡
        unspelled (identifier_tree identifier.old) }
{
    match spelling {
        SpellingRule::Kept => {}
        SpellingRule::Removed => identifier.clear_format(),
    }
}

/// The same of a type, if there is one.
pub fn respell_type(ty: &mut Option<KdlIdentifier>, spelling: SpellingRule)
    ensures spelled { option_map identifier_tree ty.new ≡
        with_spelling_if spelling (option_map identifier_tree ty.old) }
    ensures same { option_map unspelled (option_map identifier_tree ty.new) ≡
        option_map unspelled (option_map identifier_tree ty.old) }
{
    if let Some(ty) = ty {
        respell(ty, spelling);
    }
}

/// Takes out the key, and leaves an empty one in its place. Returns `None` if there is no key.
fn take_key(alloc: Global, entry: &mut KdlEntry) -> Option<KdlIdentifier>
    ensures key { option_map identifier_tree result ≡ (entry_tree entry.old).name }
    ensures left { entry_tree entry.new ≡ emptied_key (entry_tree entry.old) }
{
    match entry.name_mut() {
        Some(name) => Some(mem::replace(name, KdlIdentifier::from(String::new(alloc)))),
        None => None,
    }
}

/// Takes out the type, and leaves an empty one in its place. Returns `None` if there is no type.
fn take_type(alloc: Global, entry: &mut KdlEntry) -> Option<KdlIdentifier>
    ensures ty { option_map identifier_tree result ≡ (entry_tree entry.old).ty }
    ensures left { entry_tree entry.new ≡ emptied_type (entry_tree entry.old) }
{
    match entry.ty_mut() {
        Some(ty) => Some(mem::replace(ty, KdlIdentifier::from(String::new(alloc)))),
        None => None,
    }
}

/// Removes the format of an entry, as `KdlEntry::autoformat` does, and the spellings of its key and its type unless
/// they are kept.
pub(crate) fn autoformat_but(
    alloc: Global,
    entry: &mut KdlEntry,
    key: SpellingRule,
    ty: SpellingRule,
)
    ensures { entry_tree entry.new ≡ autoformatted_but key ty (entry_tree entry.old) }
{
    let old_key = take_key(alloc, entry);
    let old_type = take_type(alloc, entry);
    entry.autoformat();
    if let Some(mut name) = old_key {
        respell(&mut name, key);
        entry.set_name(Some(name));
    }
    if let Some(mut name) = old_type {
        respell(&mut name, ty);
        entry.set_ty(name);
    }
}

/// Returns whether the spelling of the entry's value is kept: the layout keeps spellings, and the entry has a format with
/// a spelling of its value.
pub(crate) fn keeps_value(
    alloc: Global,
    layout: &Layout,
    entry: &KdlEntry,
) -> Result<bool, AllocError>
    ensures { IfOk result (λ b. KeepsValue layout.now.keep_spelling (entry_tree entry.now).value
        (entry_tree entry.now).format b) }
{
    if !layout.keep_spelling {
        return Ok(false);
    }
    match entry.format() {
        Some(format) => spells_value(alloc, format.value_repr.as_str(), entry.value()),
        None => Ok(false),
    }
}

/// Takes the spelling of the value out of the entry. Returns an empty text if the entry has no format.
pub(crate) fn take_spelling(alloc: Global, entry: &mut KdlEntry) -> String
    ensures left { entry_tree entry.new ≡ unspelled_value (entry_tree entry.old) }
    ensures text { text_of result ≡ spelling_of (entry_tree entry.old).format }
{
    match entry.format_mut() {
        Some(format) => mem::replace(&mut format.value_repr, String::new(alloc)),
        None => String::new(alloc),
    }
}

/// Returns whether the entry is flagged to keep its form.
pub(crate) fn is_flagged(entry: &KdlEntry) -> bool
    ensures { result ≡ is_kept_format (entry_tree entry.now).format }
{
    match entry.format() {
        Some(format) => format.autoformat_keep,
        None => false,
    }
}
