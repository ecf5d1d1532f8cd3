//! The texts that layout keeps: comments inside an entry or a type, and with spellings a text before an entry that
//! continues the line.

ghost use Rattle.kdl_layout.specs.Items.{before_entry, PlaceItems};
ghost use Rattle.kdl_entry.specs.Tree.{entry_format_tree, entry_tree};
ghost use Rattle.kdl_layout.specs.Config.{keeping, keeps_texts, settings};
ghost use Rattle.kdl_layout.specs.Internal.KeptTexts.{HasForm, HasOtherForm, KeepsInside, KeepsLeading, KeptTypeTextsIn, plain_format, put_type_texts, type_texts_view};
ghost use Rattle.kdl_layout.specs.Internal.Names.{unspelled_value};
ghost use Rattle.kdl_layout.specs.Respelled.{IsContinued, KeptLeadingIf, KeptPlaceIf, bare_inside};
ghost use Rattle.kdl_parts.specs.Formats.{node_texts};
ghost use Rattle.kdl_value.specs.Print.{print_value};
ghost use Rattle.kdl_value.specs.Tree.{text_of, value_tree};
ghost use Rattle.std.specs.Prelude.{◌≡◌, ◌&&◌, ◌∷◌, ◌++◌, ◌↔◌, [], IfOk, IsTrue, OnErr, OnOk, false, is_some, not, option_map};
ghost use Rattle.std.specs.Str.{chars};

use crate::config::{Layout, is_kdl_space};
use crate::lacks::is_node_spaces;
use crate::names::take_spelling;
use crate::one_line::has_no_newline;
use crate::places::place_items;
use crate::spaces::Place;
use crate::written::{push_line_text, push_text};
use kdl_entry::{KdlEntry, KdlEntryFormat, KdlIdentifier, KdlValue};
use kdl_parts::KdlNodeFormat;
use std::alloc::{AllocError, Global};

/// Returns an empty text.
pub(crate) fn no_text(alloc: Global) -> String
    ensures { text_of result ≡ [] }
{
    String::new(alloc)
}

/// Returns a copy of the text, with LF for a CR at its end, if it is kept, may be between any two parts of an entry or a
/// type, and has more in it than spaces. Returns an empty text if not.
fn kept_place(alloc: Global, is_kept: bool, text: &str) -> Result<String, AllocError>
    ensures { IfOk result (λ t. KeptPlaceIf is_kept (chars text.now) (text_of t)) }
{
    if !is_kept {
        return Ok(no_text(alloc));
    }
    if is_kdl_space(text) {
        return Ok(no_text(alloc));
    }
    let mut kept = no_text(alloc);
    push_line_text(&mut kept, text)?;
    if is_node_spaces(alloc, kept.as_str())? {
        return Ok(kept);
    }
    Ok(no_text(alloc))
}

/// Returns what is kept of the texts around the type of a node, for `put_type_texts`: after its `(`, before its `)`,
/// and after it. Returns `None` if the layout keeps nothing there, or if there is no type.
pub fn kept_type_texts(
    alloc: Global,
    layout: &Layout,
    has_type: bool,
    format: &Option<KdlNodeFormat>,
) -> Result<Option<(String, String, String)>, AllocError>
    ensures { IfOk result (λ o. KeptTypeTextsIn
        (keeps_texts (keeping layout.now) && not layout.now.config.no_comments && has_type)
        (node_texts format.now) (option_map type_texts_view o)) }
{
    if !layout.keeps_texts() || layout.config.no_comments || !has_type {
        return Ok(None);
    }
    let Some(format) = format else {
        return Ok(Some((no_text(alloc), no_text(alloc), no_text(alloc))));
    };
    let before_name = kept_place(alloc, true, format.before_ty_name.as_str())?;
    let after_name = kept_place(alloc, true, format.after_ty_name.as_str())?;
    let after = kept_place(alloc, true, format.after_ty.as_str())?;
    Ok(Some((before_name, after_name, after)))
}

/// Sets the texts around the type of a node that has a format, if there are any.
pub fn put_type_texts(format: &mut Option<KdlNodeFormat>, texts: Option<(String, String, String)>)
    ensures { node_texts format.new ≡ put_type_texts (option_map type_texts_view texts)
        (node_texts format.old) }
{
    let Some((before_name, after_name, after)) = texts else {
        return;
    };
    if let Some(format) = format {
        format.before_ty_name = before_name;
        format.after_ty_name = after_name;
        format.after_ty = after;
    }
}

/// Returns whether texts around a key or a type stay: there is one, and comments stay.
fn keeps_around(layout: &Layout, identifier: Option<&KdlIdentifier>) -> bool
    ensures { result ≡ (not layout.now.config.no_comments && is_some identifier.entry) }
{
    !layout.config.no_comments && identifier.is_some()
}

/// Returns whether the text may be before an entry and holds no comment or slashdashed entry.
fn has_no_items(alloc: Global, text: &str) -> Result<bool, AllocError>
    ensures { IfOk result (λ b. IsTrue b ↔ PlaceItems (before_entry false) (chars text.now) []) }
{
    match place_items(alloc, Place::BeforeEntry(false), text)? {
        Some(items) => Ok(items.is_empty()),
        None => Ok(false),
    }
}

/// Returns whether the text before an entry continues the line, and holds nothing that the layout removes.
fn is_continued(alloc: Global, layout: &Layout, text: &str) -> Result<bool, AllocError>
    ensures { IfOk result (λ b. IsTrue b ↔ IsContinued (settings layout.now.config) (chars text.now)) }
{
    if has_no_newline(text) {
        return Ok(false);
    }
    if layout.config.no_comments && !has_no_items(alloc, text)? {
        return Ok(false);
    }
    is_node_spaces(alloc, text)
}

/// Returns whether the text before an entry stays: the layout keeps spellings, and the text continues the line.
fn keeps_leading(alloc: Global, layout: &Layout, text: &str) -> Result<bool, AllocError>
    ensures { IfOk result (λ b. KeepsLeading layout.now.keep_spelling (settings layout.now.config)
        (chars text.now) b) }
{
    if !layout.keep_spelling {
        return Ok(false);
    }
    is_continued(alloc, layout, text)
}

/// Returns the text before an entry once it is laid out: with spellings the old one if it continues the line, else what
/// is kept of its comments, and a space.
fn leading_text(
    alloc: Global,
    layout: &Layout,
    old: &str,
    mut kept: String,
) -> Result<String, AllocError>
    ensures { IfOk result (λ t. KeptLeadingIf layout.now.keep_spelling (settings layout.now.config)
        (chars old.now) (text_of kept ++ (32 ∷ [])) (text_of t)) }
{
    if keeps_leading(alloc, layout, old)? {
        return String::from_str(alloc, old);
    }
    push_text(&mut kept, " ")?;
    Ok(kept)
}

/// Returns a format with what is kept inside an entry.
fn kept_inside(
    alloc: Global,
    layout: &Layout,
    entry: &KdlEntry,
    old: &KdlEntryFormat,
) -> Result<KdlEntryFormat, AllocError>
    ensures { IfOk result (λ g. KeepsInside (settings layout.now.config) (entry_tree entry.now)
        (entry_format_tree old.now) (entry_format_tree g)) }
{
    let keeps_type = keeps_around(layout, entry.ty());
    let keeps_key = keeps_around(layout, entry.name());
    Ok(KdlEntryFormat {
        before_ty_name: kept_place(alloc, keeps_type, old.before_ty_name.as_str())?,
        after_ty_name: kept_place(alloc, keeps_type, old.after_ty_name.as_str())?,
        after_ty: kept_place(alloc, keeps_type, old.after_ty.as_str())?,
        after_key: kept_place(alloc, keeps_key, old.after_key.as_str())?,
        after_eq: kept_place(alloc, keeps_key, old.after_eq.as_str())?,
        ..KdlEntryFormat::new(alloc)
    })
}

/// Returns the format of an entry with its spelling, once it is laid out. `kept` is what is kept of the comments and
/// slashdashed entries before it. Takes the spelling of the value out of the entry. Returns `None` if the entry has no
/// format.
pub(crate) fn spelled_format(
    alloc: Global,
    layout: &Layout,
    entry: &mut KdlEntry,
    kept: String,
) -> Result<Option<KdlEntryFormat>, AllocError>
    ensures same { OnErr result (entry_tree entry.new ≡ entry_tree entry.old) }
    ensures left { OnOk result (entry_tree entry.new ≡ unspelled_value (entry_tree entry.old)) }
    ensures form { IfOk result (λ o. HasForm layout.now.keep_spelling (settings layout.now.config)
        (entry_tree entry.old) (text_of kept ++ (32 ∷ [])) (entry_tree entry.old).format
        (option_map entry_format_tree o)) }
{
    let Some(old) = entry.format() else {
        return Ok(None);
    };
    let mut format = kept_inside(alloc, layout, entry, old)?;
    format.leading = leading_text(alloc, layout, old.leading.as_str(), kept)?;
    format.value_repr = take_spelling(alloc, entry);
    Ok(Some(format))
}

/// Returns whether an entry with the format has only spaces inside.
fn is_bare_inside(format: &KdlEntryFormat) -> bool
    ensures { result ≡ bare_inside (entry_format_tree format.now) }
{
    is_kdl_space(format.before_ty_name.as_str())
        && is_kdl_space(format.after_ty_name.as_str())
        && is_kdl_space(format.after_ty.as_str())
        && is_kdl_space(format.after_key.as_str())
        && is_kdl_space(format.after_eq.as_str())
}

/// Returns the format of an entry without its spelling, once it is laid out: with what is kept inside it and the value as
/// it is printed, or as `format_after` if nothing is kept inside it. `kept` is what is kept of the comments and
/// slashdashed entries before it.
pub(crate) fn respelled_format(
    alloc: Global,
    layout: &Layout,
    entry: &KdlEntry,
    kept: String,
) -> Result<Option<KdlEntryFormat>, AllocError>
    ensures { IfOk result (λ o. HasOtherForm layout.now.keep_spelling (settings layout.now.config)
        (entry_tree entry.now) (text_of kept) (entry_tree entry.now).format
        (option_map entry_format_tree o)) }
{
    let Some(old) = entry.format() else {
        return format_after(alloc, entry, kept);
    };
    let mut format = kept_inside(alloc, layout, entry, old)?;
    if is_bare_inside(&format) {
        return format_after(alloc, entry, kept);
    }
    format.leading = leading_text(alloc, layout, old.leading.as_str(), kept)?;
    format.value_repr = printed(alloc, entry.value())?;
    Ok(Some(format))
}

/// Returns the value as it is printed.
fn printed(alloc: Global, value: &KdlValue) -> Result<String, AllocError>
    ensures { IfOk result (λ t. text_of t ≡ print_value (value_tree value.now)) }
{
    value.to_string(alloc)
}

/// Returns the format of an entry after what is kept of the text before it: `kept` and a space, and the value as it is
/// printed. If `kept` is empty, returns `None`.
#[inline(always)]
pub(crate) fn format_after(
    alloc: Global,
    entry: &KdlEntry,
    kept: String,
) -> Result<Option<KdlEntryFormat>, AllocError>
    ensures { IfOk result (λ o. option_map entry_format_tree o
        ≡ plain_format (text_of kept) (entry_tree entry.now).value) }
{
    if kept.is_empty() {
        return Ok(None);
    }
    let mut format = KdlEntryFormat::new(alloc);
    format.value_repr = printed(alloc, entry.value())?;
    format.leading = kept;
    push_text(&mut format.leading, " ")?;
    Ok(Some(format))
}
