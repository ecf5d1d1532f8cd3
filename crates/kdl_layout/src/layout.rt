//! Layout of the texts around nodes and documents, and of entries.

ghost use Rattle.kdl_entry.specs.Places.{between};
ghost use Rattle.kdl_entry.specs.Tree.{Entry, cleared, entry_data, entry_format_tree, entry_tree};
ghost use Rattle.kdl_layout.specs.Blank.{past_node};
ghost use Rattle.kdl_layout.specs.Config.{indentation, keeping, settings};
ghost use Rattle.kdl_layout.specs.Formatted.{newline_if_none, or_empty, or_empty_document, with_keep_if};
ghost use Rattle.kdl_layout.specs.Internal.Names.{IsLaid};
ghost use Rattle.kdl_layout.specs.Kept.{KeptBefore, KeptBeforeBlock, KeptEnd, KeptTail, is_kept_format, last_place, without_bom};
ghost use Rattle.kdl_layout.specs.Items.{line_end};
ghost use Rattle.kdl_layout.specs.KeptForm.{EntriesKeepReading};
ghost use Rattle.kdl_layout.specs.Plain.{newline_if};
ghost use Rattle.kdl_layout.specs.Respelled.{AreSpelledEntries, HasSpellings, IsSpelledEntry};
ghost use Rattle.kdl_layout.specs.Internal.Laying.{EndsNodes, KeepsBeforeNode, KeepsLines, KeepsLinesAfter, PassesLine, SetsContent, SetsLine};
ghost use Rattle.kdl_layout.specs.Spaced.{IsSpacedBraced, Passes};
ghost use Rattle.kdl_layout.specs.WellFormed.{AreWellFormedEntries, IsWellFormedEntry};
ghost use Rattle.kdl_layout.specs.Parts.{newline_at_end, put_format};
ghost use Rattle.kdl_grammar.specs.ReadsBack.{EntryReads};
ghost use Rattle.kdl_grammar.specs.Tree.{Nodes};
ghost use Rattle.kdl_layout.specs.Internal.Reading.{place_view};
ghost use Rattle.kdl_parts.specs.Formats.{document_format_tree, document_texts, node_format_tree, node_texts};
ghost use Rattle.kdl_text.specs.Chars.{Text};
ghost use Rattle.kdl_text.specs.Trivia.{LineComment};
ghost use Rattle.kdl_value.specs.Tree.{text_of, value_tree};
ghost use Rattle.kdl_value.specs.WellFormed.{IsWellFormed};
ghost use Rattle.std.specs.List.{All, list_all, repeat};
ghost use Rattle.std.specs.Prelude.{◌≡◌, ◌+◌, ◌==◌, ◌≤◌, ◌&&◌, ◌||◌, ◌++◌, ◌∷◌, [], ℕ, Bool, IfOk, IsTrue, MatchOption, OnErr, OnOk, Some, is_none, length, map, false, option_map, string_capacity, string_len, true};
ghost use Rattle.std.specs.Str.{chars};

use crate::blank::{Before, Last, past_items, past_node, push_empty_lines, push_spaced_lines};
use crate::config::{FormatConfig, Layout, is_kdl_space};
use crate::kept::{format_after, no_text, respelled_format, spelled_format};
use crate::names::{autoformat_but, is_flagged, keeps_value, name_spelling_if};
use crate::places::{gap_items, place_items};
use crate::spaces::{Place, line};
use crate::written::{push_lines, push_tail, push_text};
use kdl_entry::{KdlEntry, KdlEntryFormat, KdlValue};
use kdl_parts::{KdlDocumentFormat, KdlNodeFormat};
use kdl_text::cursor::{Cursor, Steps};
use kdl_text::trivia;
use std::alloc::{AllocError, Global};

/// Shows that each value in memory is well formed. Does nothing at run time.
pub fn well_formed(value: &KdlValue)
    ensures { IsWellFormed (value_tree value.now) }
{
    if let KdlValue::Integer(number) = value {
        let _number = *number;
    }
}

/// Returns the text, repeated `times` times.
fn repeated(alloc: Global, text: &str, times: usize) -> Result<String, AllocError>
    ensures { IfOk result (λ s. text_of s ≡ repeat times (chars text.now)) }
{
    text.repeat(alloc, times)
}

/// Returns the indentation of a node at a level. If the indent is empty, does not allocate, and the time does not
/// depend on the level.
pub fn indentation(alloc: Global, config: &FormatConfig, level: usize) -> Result<String, AllocError>
    ensures { IfOk result (λ s. text_of s ≡ indentation (settings config.now) level) }
{
    repeated(alloc, config.indent, level)
}

/// Returns the indentation one level further than `before`. If both are empty, does not allocate.
pub fn further(alloc: Global, config: &FormatConfig, before: &str) -> Result<String, AllocError>
    ensures { IfOk result (λ s. (level : ℕ)
        → chars before.now ≡ indentation (settings config.now) level
        → text_of s ≡ indentation (settings config.now) (level + 1)) }
{
    let size = config.indent.len().saturating_add(before.len());
    let mut out = String::with_capacity(alloc, size)?;
    push_text(&mut out, config.indent)?;
    push_text(&mut out, before)?;
    Ok(out)
}

/// Returns whether each character of the text is U+0020 or U+000A. Between nodes, such a text has no items.
fn is_blank_gap(text: &str) -> bool
    ensures { result ≡ list_all (λ c. (c == 32) || (c == 10)) (chars text.now) }
{
    text.chars().all(|c| c == ' ' || c == '\n')
}

/// Returns whether it is clear at once that nothing is kept of a text between nodes, and nothing is counted in it.
#[inline(always)]
fn adds_nothing(layout: &Layout, place: &str) -> bool
    ensures { IsTrue result → (level : ℕ) (b : Before)
        → KeepsLines layout.now level b (chars place.now) [] b }
{
    if place.is_empty() {
        return true;
    }
    if layout.blank_lines != 0 {
        return false;
    }
    if layout.config.no_comments {
        return true;
    }
    is_blank_gap(place)
}

/// Returns what is kept of a text between nodes: a line for each item, after the blank lines before it and the text
/// `margin`. If blank lines are kept, sets `before` to what comes before the next thing.
#[inline(always)]
fn lines_between(
    alloc: Global,
    layout: &Layout,
    margin: &str,
    before: &mut Before,
    place: &str,
) -> Result<String, AllocError>
    ensures { IfOk result (λ t. KeepsLinesAfter layout.now (chars margin.now)
        before.old (chars place.now) (text_of t) before.new) }
{
    let mut out = no_text(alloc);
    if adds_nothing(layout, place) {
        return Ok(out);
    }
    let Some(items) = gap_items(alloc, place)? else {
        return Ok(out);
    };
    if layout.config.no_comments {
        *before = past_items(&layout.config, *before, place, &items)?;
        return Ok(out);
    }
    let size = if items.is_empty() {
        0
    } else {
        place.len().saturating_add(margin.len())
    };
    out.reserve(size)?;
    if layout.blank_lines == 0 {
        push_lines(&mut out, margin, &items)?;
        return Ok(out);
    }
    let number = layout.blank_lines;
    *before = push_spaced_lines(&mut out, number, margin, *before, place, &items)?;
    Ok(out)
}

/// Returns what is kept of a text in a node: each item after a space.
#[inline(always)]
fn kept_tail(
    alloc: Global,
    config: &FormatConfig,
    place: Place,
    text: &str,
) -> Result<String, AllocError>
    ensures { IfOk result (λ t. KeptTail (settings config.now) (place_view place)
        (chars text.now) (text_of t)) }
{
    let mut out = no_text(alloc);
    if config.no_comments {
        return Ok(out);
    }
    if is_kdl_space(text) {
        return Ok(out);
    }
    if let Some(items) = place_items(alloc, place, text)? {
        push_tail(&mut out, &items)?;
    }
    Ok(out)
}

/// Returns what is kept of the text before an entry.
#[inline(always)]
fn kept_before(alloc: Global, config: &FormatConfig, entry: &KdlEntry) -> Result<String, AllocError>
    ensures { IfOk result (λ t. KeptBefore (settings config.now) (entry_tree entry.now).format
        (text_of t)) }
{
    match entry.format() {
        Some(format) if !format.autoformat_keep => kept_tail(
            alloc,
            config,
            Place::BeforeEntry(false),
            format.leading.as_str(),
        ),
        _ => Ok(no_text(alloc)),
    }
}

/// Sets the format of the entry, if there is one.
fn put_format(entry: &mut KdlEntry, format: Option<KdlEntryFormat>)
    ensures { entry_tree entry.new ≡ put_format (option_map entry_format_tree format)
        (entry_tree entry.old) }
{
    if let Some(format) = format {
        entry.set_format(format);
    }
}

/// Lays out an entry that keeps comments inside it, and its spellings if the layout keeps them.
fn lay_out_spelled(alloc: Global, entry: &mut KdlEntry, layout: &Layout) -> Result<(), AllocError>
    requires { is_kept_format (entry_tree entry.old).format ≡ false }
    ensures same { OnErr result (entry_tree entry.new ≡ entry_tree entry.old) }
    ensures spelled { OnOk result ((m : Entry)
        × IsLaid (settings layout.now.config) (entry_tree entry.old) m
        × HasSpellings layout.now.keep_spelling (settings layout.now.config)
        (entry_tree entry.old) m (entry_tree entry.new)) }
{
    let key = name_spelling_if(alloc, layout, entry.name())?;
    let ty = name_spelling_if(alloc, layout, entry.ty())?;
    let kept = kept_before(alloc, &layout.config, entry)?;
    let format = if keeps_value(alloc, layout, entry)? {
        spelled_format(alloc, layout, entry, kept)?
    } else {
        respelled_format(alloc, layout, entry, kept)?
    };
    autoformat_but(alloc, entry, key, ty);
    put_format(entry, format);
    Ok(())
}

/// Flags the entry to keep its form if the configuration says so of each entry that has a format.
fn flag(entry: &mut KdlEntry, config: &FormatConfig)
    ensures { entry_tree entry.new ≡ with_keep_if config.now.entry_autoformate_keep
        (entry_tree entry.old) }
{
    if config.entry_autoformate_keep {
        entry.keep_format();
    }
}

/// Shows that the data of an entry in memory are well formed. Does nothing at run time.
fn well_formed_entry(entry: &KdlEntry)
    ensures { IsWellFormedEntry (entry_data (entry_tree entry.now)) }
{
    well_formed(entry.value());
}

/// Lays out an entry, as `lay_out_entries` lays out each one.
fn lay_out_entry(alloc: Global, entry: &mut KdlEntry, layout: &Layout) -> Result<(), AllocError>
    ensures flagged { OnErr result (entry_tree entry.new ≡
        with_keep_if layout.now.config.entry_autoformate_keep (entry_tree entry.old)) }
    ensures formatted { OnOk result (IsSpelledEntry (keeping layout.now)
        (settings layout.now.config) (entry_tree entry.old) (entry_tree entry.new)) }
    ensures well_formed { IsWellFormedEntry (entry_data (entry_tree entry.old)) }
{
    well_formed_entry(entry);
    flag(entry, &layout.config);
    if layout.keeps_texts() && !is_flagged(entry) {
        return lay_out_spelled(alloc, entry, layout);
    }
    let kept = kept_before(alloc, &layout.config, entry)?;
    let format = format_after(alloc, entry, kept)?;
    entry.autoformat();
    put_format(entry, format);
    Ok(())
}

/// Lays out each entry of a node. Keeps the comments and slashdashed pieces before an entry, unless the configuration
/// removes them, and the comments inside it and the spellings that mean what they did, if the layout keeps these. An
/// entry that is flagged to keep its form keeps the whole text before it. Allocates only for what is kept, and to read
/// spellings. If an allocation fails, each entry is laid out or not, and still reads back.
pub fn lay_out_entries(entries: &mut Vec<KdlEntry>, layout: &Layout) -> Result<(), AllocError>
    ensures same { map cleared (map entry_tree entries.new.items) ≡
        map cleared (map entry_tree entries.old.items) }
    ensures reads { EntriesKeepReading (settings layout.now.config)
        (map entry_tree entries.old.items)
        → All EntryReads (map entry_tree entries.old.items)
        → All EntryReads (map entry_tree entries.new.items)
        × EntriesKeepReading (settings layout.now.config) (map entry_tree entries.new.items) }
    ensures formatted { OnOk result (AreSpelledEntries (keeping layout.now)
        (settings layout.now.config)
        (map entry_tree entries.old.items) (map entry_tree entries.new.items)) }
    ensures well_formed { OnOk result
        (AreWellFormedEntries (map entry_data (map entry_tree entries.old.items))) }
{
    let alloc = *entries.allocator();
    for entry in entries.iter_mut() {
        lay_out_entry(alloc, entry, layout)?;
    }
    Ok(())
}

/// Returns `kept` with `more` appended. If `kept` is empty, reserves room for `more` in the memory of `old`, and returns
/// `None`. The text `old` does not change.
#[inline(always)]
fn prepare(mut kept: String, old: &mut String, more: &str) -> Result<Option<String>, AllocError>
    ensures same { text_of old.new ≡ text_of old.old }
    ensures ready { IfOk result (λ o. MatchOption o
        ((length more.now ≤ string_capacity old.new)
        × (chars more.now ≡ text_of kept ++ chars more.now))
        (λ s. text_of s ≡ text_of kept ++ chars more.now)) }
{
    if kept.is_empty() {
        old.reserve(more.len().saturating_sub(old.len()))?;
        return Ok(None);
    }
    push_text(&mut kept, more)?;
    Ok(Some(kept))
}

/// Puts a new text in place of an old one. If it is `None`, puts `more` there, in the memory of the old text.
#[inline(always)]
fn put(old: &mut String, new: Option<String>, more: &str)
    requires { MatchOption new (length more.now ≤ string_capacity old.old) (λ s. Unit {0}) }
    ensures { MatchOption new (text_of old.new ≡ chars more.now)
        (λ s. text_of old.new ≡ text_of s) }
{
    match new {
        Some(new) => *old = new,
        None => {
            old.clear();
            let _ = old.push_str(more);
        }
    }
}

/// Returns what is kept of the text before the block of a node, if the place before its terminator is `last`. Without a
/// block, nothing is kept.
#[inline(always)]
fn kept_before_block(
    alloc: Global,
    config: &FormatConfig,
    last: Place,
    text: &str,
) -> Result<String, AllocError>
    ensures { IfOk result (λ t. (has_block : Bool) → place_view last ≡ last_place has_block
        → KeptBeforeBlock (settings config.now) has_block (chars text.now) (text_of t)) }
{
    match last {
        Place::AfterBlock => kept_tail(alloc, config, Place::BeforeBlock, text),
        _ => Ok(no_text(alloc)),
    }
}

/// Returns the line comment that the whole text is, without its newline, or `None` if the text is not one.
#[inline(never)]
fn line_comment(text: &str) -> Option<&str>
    ensures { MatchOption result (LineComment (chars text.now) [] → ⊥)
        (λ comment. LineComment (chars text.now) []
        × (chars comment.now ≡ between (chars text.now) (line_end (chars text.now)))) }
{
    let mut cursor = Cursor::new(text, Steps::new());
    if !cursor.looks_two('/', '/') {
        return None;
    }
    trivia::line_comment(&mut cursor);
    match cursor.look() {
        Some(_) => None,
        None => {
            let (comment, _) = line(text);
            Some(comment)
        }
    }
}

/// Returns what is kept of a terminator: if it is a line comment, the comment without its newline.
#[inline(always)]
fn kept_end<'a>(config: &FormatConfig, terminator: &'a str) -> Option<&'a str>
    ensures { MatchOption result (KeptEnd config.now.no_comments (chars terminator.now) [] [])
        (λ comment. KeptEnd config.now.no_comments (chars terminator.now) (32 ∷ [])
        (chars comment.now)) }
{
    if config.no_comments {
        return None;
    }
    line_comment(terminator)
}

/// Returns the text before the terminator of a node, and what comes before the newline that is its terminator. `last` is
/// what is kept of the text before the terminator. If the old terminator is a line comment that is kept, a space follows
/// `last`, and the comment comes before the newline.
#[inline(always)]
fn line_end(
    alloc: Global,
    config: &FormatConfig,
    mut last: String,
    terminator: &str,
) -> Result<(String, String), AllocError>
    ensures { IfOk result (λ (l, comment). (space : Text)
        × KeptEnd config.now.no_comments (chars terminator.now) space (text_of comment)
        × (text_of l ≡ text_of last ++ space)) }
{
    let mut end = no_text(alloc);
    if let Some(comment) = kept_end(config, terminator) {
        push_text(&mut last, " ")?;
        push_text(&mut end, comment)?;
    }
    Ok((last, end))
}

/// Returns what is kept of the text before a node, and the blank lines before the node.
#[inline(always)]
fn before_node(
    alloc: Global,
    layout: &Layout,
    margin: &str,
    before: Before,
    place: &str,
) -> Result<String, AllocError>
    ensures { IfOk result (λ t. KeepsBeforeNode layout.now (chars margin.now)
        before (chars place.now) (text_of t)) }
{
    let mut at_node = before;
    let mut lines = lines_between(alloc, layout, margin, &mut at_node, place)?;
    push_empty_lines(&mut lines, layout.blank_lines, at_node)?;
    Ok(lines)
}

/// Returns what comes before the next thing, after a node with this terminator. The result has no meaning if no blank
/// lines are kept; the terminator is not read then.
fn after_end(layout: &Layout, terminator: &str) -> Before
    ensures { (layout.now.blank_lines ≡ 0 → ⊥) → result ≡ past_node (chars terminator.now) }
{
    if layout.blank_lines == 0 {
        return Before::Nothing(Last::Other);
    }
    past_node(terminator)
}

/// Removes the texts around the type of a node.
fn clear_type(format: &mut KdlNodeFormat)
    ensures { node_format_tree format.new ≡ record (node_format_tree format.old)
        { before_ty_name = []; after_ty_name = []; after_ty = [] } }
{
    format.before_ty_name.clear();
    format.after_ty_name.clear();
    format.after_ty.clear();
}

/// Sets the texts around the parts of a node on its own line, in the memory of the old ones where nothing is kept.
/// `last` is the place before the node's terminator. Returns what comes before the next thing. If an allocation fails, no
/// text changes.
fn line_format(
    format: &mut KdlNodeFormat,
    alloc: Global,
    layout: &Layout,
    margin: &str,
    last: Place,
    before: Before,
) -> Result<Before, AllocError>
    ensures same { OnErr result (node_format_tree format.new ≡ node_format_tree format.old) }
    ensures spaced { IfOk result (λ next. SetsLine (node_format_tree format.old)
        (Some (node_format_tree format.new)) layout.now (chars margin.now) (place_view last)
        before next) }
{
    let config = &layout.config;
    let kept = before_node(alloc, layout, margin, before, format.leading.as_str())?;
    let leading = prepare(kept, &mut format.leading, margin)?;
    let kept = kept_before_block(alloc, config, last, format.before_children.as_str())?;
    let before_children = prepare(kept, &mut format.before_children, " ")?;
    let kept = kept_tail(alloc, config, last, format.before_terminator.as_str())?;
    let (before_end, comment) = line_end(alloc, config, kept, format.terminator.as_str())?;
    let mut next = after_end(layout, format.terminator.as_str());
    let terminator = prepare(comment, &mut format.terminator, "\n")?;
    let trailing = lines_between(alloc, layout, margin, &mut next, format.trailing.as_str())?;
    put(&mut format.leading, leading, margin);
    put(&mut format.before_children, before_children, " ");
    put(&mut format.terminator, terminator, "\n");
    format.before_terminator = before_end;
    format.trailing = trailing;
    clear_type(format);
    Ok(next)
}

/// Sets the texts around the parts of a node on its own line: the blank lines and the indentation before it, a space
/// before its children, and a newline after it. They contain the comments that are kept. `last` is the place before the
/// node's terminator: after its block, or before a block if it has none. Returns what comes before the next thing. If an
/// allocation fails, no text changes.
pub fn lay_out_line(
    format: &mut Option<KdlNodeFormat>,
    alloc: Global,
    layout: &Layout,
    margin: &str,
    last: Place,
    before: Before,
) -> Result<Before, AllocError>
    ensures same { OnErr result (node_texts format.new ≡ node_texts format.old) }
    ensures spaced { IfOk result (λ next. SetsLine (or_empty (node_texts format.old))
        (node_texts format.new) layout.now (chars margin.now) (place_view last) before next) }
{
    match format {
        Some(format) => line_format(format, alloc, layout, margin, last, before),
        None => {
            let mut line = KdlNodeFormat::new(alloc);
            let next = line_format(&mut line, alloc, layout, margin, last, before)?;
            *format = Some(line);
            Ok(next)
        }
    }
}

/// Returns what comes before the thing after a node that is not laid out. The result has no meaning if no blank lines
/// are kept.
pub fn after_line(
    format: &Option<KdlNodeFormat>,
    alloc: Global,
    layout: &Layout,
) -> Result<Before, AllocError>
    ensures { IfOk result (λ next. PassesLine layout.now (or_empty (node_texts format.now)) next) }
{
    match format {
        Some(format) if layout.blank_lines != 0 => {
            let before = past_node(format.terminator.as_str());
            past_text(alloc, layout, before, format.trailing.as_str())
        }
        _ => Ok(past_node("")),
    }
}

/// Returns what comes before the thing after a text between nodes.
fn past_text(
    alloc: Global,
    layout: &Layout,
    before: Before,
    place: &str,
) -> Result<Before, AllocError>
    ensures { IfOk result (λ b. Passes layout.now.config.no_comments before (chars place.now) b) }
{
    let Some(items) = gap_items(alloc, place)? else {
        return Ok(before);
    };
    past_items(&layout.config, before, place, &items)
}

/// Returns the text without the U+FEFF at its start, if there is one.
pub fn without_bom(text: &str) -> &str
    ensures { chars result.now ≡ without_bom (chars text.now) }
{
    match text.strip_prefix('\u{feff}') {
        Some(rest) => rest,
        None => text,
    }
}

/// Returns what is kept of a text between nodes at a level, and the blank lines that are kept. `before` is what comes
/// before the text. If blank lines are kept, sets it to what comes before the next thing. Does not allocate if the text
/// adds nothing.
fn lines_at(
    alloc: Global,
    layout: &Layout,
    level: usize,
    before: &mut Before,
    place: &str,
) -> Result<String, AllocError>
    ensures { IfOk result (λ t. KeepsLines layout.now level
        before.old (chars place.now) (text_of t) before.new) }
{
    if adds_nothing(layout, place) {
        return Ok(no_text(alloc));
    }
    let margin = indentation(alloc, &layout.config, level)?;
    lines_between(alloc, layout, margin.as_str(), before, place)
}

/// Returns the texts before and after the nodes of a document.
fn texts_of(format: &Option<KdlDocumentFormat>) -> (&str, &str)
    ensures leading { chars result.0.now ≡ (or_empty_document (document_texts format.now)).leading }
    ensures trailing { chars result.1.now ≡
        (or_empty_document (document_texts format.now)).trailing }
{
    match format {
        Some(format) => (format.leading.as_str(), format.trailing.as_str()),
        None => ("", ""),
    }
}

/// Returns what comes after what is kept of the text after the nodes: a newline if there are no nodes, unless the layout
/// is compact there. `last` is as in `content`.
fn content_end(layout: &Layout, last: Option<Before>) -> &'static str
    ensures { (ns : Nodes) → newline_if (is_none last) ≡ newline_if_none ns
        → chars result.now ≡ newline_at_end layout.now.compact_empty ns }
{
    if layout.compact_empty {
        return "";
    }
    match last {
        Some(_) => "",
        None => "\n",
    }
}

/// Returns the texts before and after the nodes of a document at a level, and what comes before the first node: the
/// comments that are kept, each after the indentation, and a newline if there are no nodes and the layout is not compact
/// there. `last` is what comes before the text after the last node, or `None` if there are no nodes.
fn content(
    alloc: Global,
    layout: &Layout,
    level: usize,
    format: &Option<KdlDocumentFormat>,
    last: Option<Before>,
) -> Result<(KdlDocumentFormat, Before), AllocError>
    ensures { IfOk result (λ (f, b). (ns : Nodes)
        → newline_if (is_none last) ≡ newline_if_none ns → EndsNodes layout.now last ns
        → SetsContent layout.now level ns (or_empty_document (document_texts format.now)) b
        (Some (document_format_tree f))) }
{
    let (before_first, after_last) = texts_of(format);
    let mut first = Before::Nothing(Last::Other);
    let leading = lines_at(alloc, layout, level, &mut first, without_bom(before_first))?;
    let mut next = last.unwrap_or(first);
    let mut trailing = lines_at(alloc, layout, level, &mut next, after_last)?;
    push_text(&mut trailing, content_end(layout, last))?;
    Ok((KdlDocumentFormat { leading, trailing }, first))
}

/// Sets the texts before and after the nodes of a document at a level: the comments that are kept, each after the
/// indentation, and a newline if there are no nodes and the layout is not compact there. `last` is what comes before the
/// text after the last node, or `None` if there are no nodes. Returns what comes before the first node. If an allocation
/// fails, no text changes.
pub fn lay_out_content(
    format: &mut Option<KdlDocumentFormat>,
    alloc: Global,
    layout: &Layout,
    level: usize,
    last: Option<Before>,
) -> Result<Before, AllocError>
    ensures same { OnErr result (document_texts format.new ≡ document_texts format.old) }
    ensures spaced { IfOk result (λ b. (ns : Nodes)
        → newline_if (is_none last) ≡ newline_if_none ns → EndsNodes layout.now last ns
        → SetsContent layout.now level ns
        (or_empty_document (document_texts format.old)) b (document_texts format.new)) }
{
    let (texts, first) = content(alloc, layout, level, format, last)?;
    *format = Some(texts);
    Ok(first)
}

/// Returns whether a block prints `{}`, if `content` returns these texts for it.
fn is_empty_block(layout: &Layout, last: Option<Before>, texts: &KdlDocumentFormat) -> bool
    ensures { result ≡ (layout.now.compact_empty && is_none last
        && (string_len texts.now.leading == 0) && (string_len texts.now.trailing == 0)) }
{
    layout.compact_empty && last.is_none() && texts.leading.is_empty() && texts.trailing.is_empty()
}

/// Returns the texts before and after the nodes between the braces of a node, like those that `lay_out_content` sets,
/// with a newline after the `{`, and the indentation of the node, `margin`, before the `}`. Both texts are empty if the
/// layout is compact where there are no nodes, and nothing is kept. `inner` is the level between the braces. Returns what
/// comes before the first node as well. The old texts are `format`.
pub fn braces(
    format: &Option<KdlDocumentFormat>,
    alloc: Global,
    layout: &Layout,
    inner: usize,
    margin: &str,
    last: Option<Before>,
) -> Result<(KdlDocumentFormat, Before), AllocError>
    ensures { IfOk result (λ (f, b). (level : ℕ) (ns : Nodes) → inner ≡ level + 1
        → chars margin.now ≡ indentation (settings layout.now.config) level
        → newline_if (is_none last) ≡ newline_if_none ns → EndsNodes layout.now last ns
        → IsSpacedBraced layout.now.compact_empty layout.now.blank_lines
        (settings layout.now.config) level ns
        (or_empty_document (document_texts format.now)) b (Some (document_format_tree f))) }
{
    let (texts, first) = content(alloc, layout, inner, format, last)?;
    if is_empty_block(layout, last, &texts) {
        return Ok((texts, first));
    }
    let KdlDocumentFormat {
        leading: kept,
        mut trailing,
    } = texts;
    let mut leading = no_text(alloc);
    push_text(&mut leading, "\n")?;
    push_text(&mut leading, kept.as_str())?;
    push_text(&mut trailing, margin)?;
    Ok((KdlDocumentFormat { leading, trailing }, first))
}
