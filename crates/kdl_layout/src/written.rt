//! Items, in the form of the layout.

ghost use Rattle.kdl_layout.specs.Internal.Reading.{item_view, items_view};
ghost use Rattle.kdl_layout.specs.Written.{item_text, line_text, lines, tail};
ghost use Rattle.kdl_value.specs.Tree.{text_of};
ghost use Rattle.std.specs.Prelude.{◌≡◌, ◌++◌, ◌∷◌, [], OnOk};
ghost use Rattle.std.specs.Str.{chars};

use crate::spaces::Item;
use std::alloc::AllocError;

/// Appends the text.
///
/// ```
/// push_text(&mut out, "b")?; // after `a` the text is `ab`
/// ```
pub fn push_text(out: &mut String, text: &str) -> Result<(), AllocError>
    ensures { OnOk result (text_of out.new ≡ text_of out.old ++ chars text.now) }
{
    out.push_str(text)
}

/// Appends the text, with a CR at its end written as LF.
pub(crate) fn push_line_text(out: &mut String, text: &str) -> Result<(), AllocError>
    ensures { OnOk result (text_of out.new ≡ text_of out.old ++ line_text (chars text.now)) }
{
    match text.strip_suffix('\r') {
        Some(line) => {
            push_text(out, line)?;
            push_text(out, "\n")
        }
        None => push_text(out, text),
    }
}

/// Appends the item on a line of its own.
fn push_line(out: &mut String, before: &str, item: Item) -> Result<(), AllocError>
    ensures { OnOk result (text_of out.new ≡ text_of out.old ++ (chars before.now
        ++ line_text (item_text (item_view item.entry)) ++ (10 ∷ []))) }
{
    push_text(out, before)?;
    match item {
        Item::Comment(text) | Item::Piece(text) => push_line_text(out, text)?,
    }
    push_text(out, "\n")
}

/// Appends a line for each item, after the text `before`. A CR at the end of an item, which ends an escline, is written
/// as LF: with the newline after it, it would be one newline.
#[inline(never)]
pub fn push_lines(out: &mut String, before: &str, items: &[Item]) -> Result<(), AllocError>
    ensures { OnOk result (text_of out.new ≡ text_of out.old ++ lines (chars before.now)
        (items_view items.now)) }
{
    for item in items {
        push_line(out, before, *item)?;
    }
    Ok(())
}

/// Appends the item after a space.
fn push_after_space(out: &mut String, item: Item) -> Result<(), AllocError>
    ensures { OnOk result (text_of out.new ≡ text_of out.old ++ tail (item_view item.entry ∷ [])) }
{
    match item {
        Item::Comment(text) => {
            push_text(out, " \\ ")?;
            push_text(out, text)?;
            push_text(out, "\n")
        }
        Item::Piece(text) => {
            push_text(out, " ")?;
            push_text(out, text)
        }
    }
}

/// Appends each item after a space. A line comment is written as the end of an escline.
#[inline(never)]
pub fn push_tail(out: &mut String, items: &[Item]) -> Result<(), AllocError>
    ensures { OnOk result (text_of out.new ≡ text_of out.old ++ tail (items_view items.now)) }
{
    for item in items {
        push_after_space(out, *item)?;
    }
    Ok(())
}
