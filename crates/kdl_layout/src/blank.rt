//! The blank lines between nodes and comments: how many a text has, and how many are kept.

ghost use Rattle.kdl_layout.specs.Blank.{after_char, blank_lines, counts, empty_lines, from_item, goes_on, last_after_item, last_before, last_in, last_of, newlines, one_if, past_item, past_items, past_node, read, spaced_lines};
ghost use Rattle.kdl_layout.specs.Internal.Reading.{item_view, items_view};
ghost use Rattle.kdl_layout.specs.Written.{item_text};
ghost use Rattle.kdl_text.specs.Chars.{is_newline_char};
ghost use Rattle.kdl_value.specs.Tree.{text_of};
ghost use Rattle.std.specs.List.{list_any};
ghost use Rattle.std.specs.Prelude.{◌≡◌, ◌+◌, ◌++◌, ◌∷◌, [], IfOk, MatchOption, OnOk, drop, false, length};
ghost use Rattle.std.specs.Str.{chars};

use crate::config::FormatConfig;
use crate::spaces::{Item, same};
use crate::written::{push_lines, push_text};
use kdl_text::chars::is_newline_char;
use std::alloc::AllocError;
use std::slice;

/// What comes last in the text between two things. Determines whether the next newline counts.
#[derive(Clone, Copy)]
pub enum Last {
    /// Anything else. The next newline counts.
    Other,
    /// A CR. An LF after it is part of the same newline.
    Cr,
    /// An escline that has not ended: its `\`, then spaces and block comments. The next newline ends it, and does not
    /// count.
    Escline,
}

/// What comes before a node, or before an item between nodes, in the same document or block.
#[derive(Clone, Copy)]
pub enum Before {
    /// Only spaces, newlines and items that are removed. The field is what comes last.
    Nothing(Last),
    /// Another node or item. The first field is the greatest number of blank lines in a run of newlines that has ended
    /// since. The second is the number of newlines so far in the current run. The third is what comes last.
    Thing(usize, usize, Last),
}

/// Returns the first character and the text after it, or `None` if the text is empty.
fn next_char(text: &str) -> Option<(char, &str)>
    ensures { MatchOption result (chars text.now ≡ [])
        (λ (c, rest). chars text.now ≡ c ∷ chars rest.now) }
{
    let mut chars = text.chars();
    match chars.next() {
        Some(c) => Some((c, chars.as_str())),
        None => None,
    }
}

impl Last {
    /// Returns whether the newline `c` counts: it does not end an escline, and is not the LF of a CR LF.
    fn counts(self, c: char) -> bool
        ensures { result ≡ counts self c }
    {
        match self {
            Last::Other => true,
            Last::Cr => c != '\n',
            Last::Escline => false,
        }
    }

    /// Returns what comes last after a space or a block comment. These do not end an escline.
    fn goes_on(self) -> Last
        ensures { result ≡ goes_on self }
    {
        match self {
            Last::Escline => Last::Escline,
            Last::Other | Last::Cr => Last::Other,
        }
    }

    /// Returns what comes last after the character.
    fn after_char(self, c: char) -> Last
        ensures { result ≡ after_char self c }
    {
        if c == '\r' {
            Last::Cr
        } else if is_newline_char(c) {
            Last::Other
        } else if c == '\\' {
            Last::Escline
        } else {
            self.goes_on()
        }
    }

    /// Returns what comes last after the item. In an escline, a piece is a block comment, and a line comment ends the
    /// escline.
    fn after_item(self, item: Item) -> Last
        ensures { result ≡ last_after_item (item_view item.entry) self }
    {
        match item {
            Item::Comment(_) => Last::Other,
            Item::Piece(_) => self.goes_on(),
        }
    }
}

/// Returns the count, plus one if the newline `c` counts.
fn one_more(count: usize, last: Last, c: char) -> Result<usize, AllocError>
    ensures { IfOk result (λ n. n ≡ count + one_if (counts last c)) }
{
    if !last.counts(c) {
        return Ok(count);
    }
    match count.checked_add(1) {
        Some(count) => Ok(count),
        None => Err(AllocError),
    }
}

/// Adds the newlines before the first item of a text between nodes to the count. Returns the new count, what comes last
/// before that item, and the text from it on.
fn newlines(count: usize, last: Last, text: &str) -> Result<(usize, Last, &str), AllocError>
    ensures { IfOk result (λ (n, l, rest). (n ≡ count + newlines last (chars text.now))
        × (l ≡ last_of last (chars text.now)) × (chars rest.now ≡ from_item (chars text.now))) }
{
    let mut count = count;
    let mut last = last;
    let mut rest = text;
    'chars: while let Some((c, following)) = next_char(rest) {
        if c == '/' {
            break;
        }
        if is_newline_char(c) {
            count = one_more(count, last, c)?;
        }
        last = last.after_char(c);
        rest = same(following);
    }
    Ok((count, last, rest))
}

/// Returns the text without its first characters, as many as the item has.
fn following_item<'a>(text: &'a str, item: Item) -> &'a str
    ensures { chars result.now ≡ drop (length (item_text (item_view item.entry))) (chars text.now) }
{
    let (Item::Comment(item) | Item::Piece(item)) = item;
    after_chars(text, item)
}

/// Returns the text without its first characters, as many as the other text has.
fn after_chars<'a>(text: &'a str, other: &str) -> &'a str
    ensures { chars result.now ≡ drop (length (chars other.now)) (chars text.now) }
{
    let mut rest = text;
    let mut left = other;
    'chars: while let Some((_, more)) = next_char(left) {
        left = same(more);
        match next_char(rest) {
            Some((_, following)) => rest = same(following),
            None => return rest,
        }
    }
    rest
}

impl Before {
    /// Returns what comes before the first item of the text, and the text from that item on. If the text has no item,
    /// returns what comes before the thing after the text.
    fn read(self, text: &str) -> Result<(Before, &str), AllocError>
        ensures { IfOk result (λ (b, rest). (b ≡ read (chars text.now) self)
            × (chars rest.now ≡ from_item (chars text.now))) }
    {
        match self {
            Before::Nothing(last) => {
                let (_, last, rest) = newlines(0, last, text)?;
                Ok((Before::Nothing(last), rest))
            }
            Before::Thing(most, count, last) => {
                let (count, last, rest) = newlines(count, last, text)?;
                Ok((Before::Thing(most, count, last), rest))
            }
        }
    }

    /// Returns the number of blank lines before the thing.
    fn blank_lines(self) -> usize
        ensures { result ≡ blank_lines self }
    {
        match self {
            Before::Nothing(_) => 0,
            Before::Thing(most, count, _) => most.max(count.saturating_sub(1)),
        }
    }

    /// Returns what comes last before the thing.
    fn last(self) -> Last
        ensures { result ≡ last_before self }
    {
        match self {
            Before::Nothing(last) | Before::Thing(_, _, last) => last,
        }
    }

    /// Returns what comes before the next thing, after an item that is removed or written.
    fn past_item(self, removed: bool, item: Item) -> Before
        ensures { result ≡ past_item removed (item_view item.entry) self }
    {
        let last = self.last().after_item(item);
        if !removed {
            return Before::Thing(0, 0, last);
        }
        match self {
            Before::Nothing(_) => Before::Nothing(last),
            Before::Thing(..) => Before::Thing(self.blank_lines(), 0, last),
        }
    }
}

/// Returns what comes last in a terminator.
fn last_in(terminator: &str) -> Last
    ensures { result ≡ last_in (chars terminator.now) }
{
    if terminator.ends_with('\r') {
        Last::Cr
    } else {
        Last::Other
    }
}

/// Returns whether the text contains a newline.
fn has_newline(text: &str) -> bool
    ensures { result ≡ list_any is_newline_char (chars text.now) }
{
    text.chars().any(is_newline_char)
}

/// Returns what comes before the next thing, after a node with this terminator.
pub(crate) fn past_node(terminator: &str) -> Before
    ensures { result ≡ past_node (chars terminator.now) }
{
    let last = last_in(terminator);
    if has_newline(terminator) {
        Before::Thing(0, 1, last)
    } else {
        Before::Thing(0, 0, last)
    }
}

/// Returns what comes before the thing after a text whose items are removed or written, as the configuration says.
#[inline(never)]
pub(crate) fn past_items(
    config: &FormatConfig,
    before: Before,
    text: &str,
    items: &[Item],
) -> Result<Before, AllocError>
    ensures { IfOk result (λ b. b ≡ past_items config.now.no_comments before
        (chars text.now) (items_view items.now)) }
{
    let mut before = before;
    let mut rest = text;
    for item in items {
        let (at_item, from) = before.read(rest)?;
        before = at_item.past_item(config.no_comments, *item);
        rest = same(following_item(from, *item));
    }
    let (at_end, _) = before.read(rest)?;
    Ok(at_end)
}

/// Appends the blank lines before a thing, at most `number` of them.
pub(crate) fn push_empty_lines(
    out: &mut String,
    number: usize,
    before: Before,
) -> Result<(), AllocError>
    ensures { OnOk result (text_of out.new ≡ text_of out.old ++ empty_lines number before) }
{
    for _line in 0..number.min(before.blank_lines()) {
        push_text(out, "\n")?;
    }
    Ok(())
}

/// Appends a line for each item of a text, after at most `number` of the blank lines before it. Returns what comes
/// before the next thing.
#[inline(never)]
pub(crate) fn push_spaced_lines(
    out: &mut String,
    number: usize,
    indentation: &str,
    before: Before,
    text: &str,
    items: &[Item],
) -> Result<Before, AllocError>
    ensures { IfOk result (λ b. (b ≡ past_items false before (chars text.now) (items_view items.now))
        × (text_of out.new ≡ text_of out.old
        ++ spaced_lines number (chars indentation.now) before (chars text.now) (items_view items.now))) }
{
    let mut before = before;
    let mut rest = text;
    for item in items {
        let (at_item, from) = before.read(rest)?;
        push_empty_lines(out, number, at_item)?;
        push_lines(out, indentation, slice::from_ref(item))?;
        before = at_item.past_item(false, *item);
        rest = same(following_item(from, *item));
    }
    let (at_end, _) = before.read(rest)?;
    Ok(at_end)
}
