//! Texts that are laid out, with comments or without, and what they then print.

use crate::answer::prints;
use crate::checks::{Case, has_data};
use crate::dump::Dump;
use crate::fault::Fault;
use crate::item::Item;
use crate::line::{Call, Line};
use crate::places::Setting;
use kdl::{FormatConfig, Layout};
use kdl_diagnostics::Whole;

/// An expected line of layout: its text, if it says what is printed, whether comments are removed, whether the first
/// entry of the first node is flagged to keep its form, and how many blank lines are kept, if the line says so.
#[derive(Clone, Copy)]
pub struct Asked<'a> {
    line: &'a str,
    text: Option<&'a str>,
    no_comments: bool,
    is_kept: bool,
    blank_lines: Option<usize>,
}

impl<'a> Asked<'a> {
    /// What the line requests, if it is a line of layout.
    pub fn of(line: &'a str) -> Option<Asked<'a>> {
        let Line { label, text } = Line::of(line);
        let (label, blank_lines) = counted(label);
        let (no_comments, is_kept) = match (label, text) {
            ("fmt", Some(_)) | ("fmts", None) => (false, false),
            ("strip", Some(_)) | ("strips", None) => (true, false),
            ("kept fmt", Some(_)) => (false, true),
            ("kept strip", Some(_)) => (true, true),
            (_, _) => return None,
        };
        Some(Asked {
            line,
            text,
            no_comments,
            is_kept,
            blank_lines,
        })
    }
}

/// The label without the number at its end, as in `fmt 1`, and the number.
fn counted(label: &str) -> (&str, Option<usize>) {
    if let Some((before, number)) = label.split_once(' ') {
        if let Ok(number) = number.parse::<usize>() {
            return (before, Some(number));
        }
    }
    (label, None)
}

/// Checks that the text after layout prints what is expected, which has the same data. After a second layout it prints
/// the same, and so does what is read from it; if an entry is kept, it prints what the row's other line says.
pub fn lays_out(case: &Case<'_>, asked: Asked<'_>) -> Result<(), Fault> {
    match case.call {
        Call::Document | Call::Node => {}
        _ => return Err(case.differs(asked.line, "no such line for this call")),
    }
    match Item::parse(case.alloc(), case.call.whole(), case.text) {
        Ok(mut item) => item_lays_out(case, asked, &mut item),
        Err(_) => Err(case.differs(asked.line, "refused")),
    }
}

/// Checks the same for the item, with the texts of the row in its places.
fn item_lays_out(case: &Case<'_>, asked: Asked<'_>, item: &mut Item) -> Result<(), Fault> {
    let mut data = Dump::new(case.alloc(), true);
    item.add_to(&mut data);
    put_places(case, item)?;
    if asked.is_kept {
        item.keep_first();
    }
    lay_out(case, asked, item)?;
    let printed = item.printed(case.alloc())?;
    prints(case, &printed, asked.text.unwrap_or(&printed))?;
    is_read_back(case, asked, &printed, &data)?;
    lays_out_again(case, asked, item, &printed)
}

/// Sets the texts of the row's lines in their places of the item.
fn put_places(case: &Case<'_>, item: &mut Item) -> Result<(), Fault> {
    for line in case.row.lines {
        let line = Line::of(line);
        match (line.place(), case.each) {
            (Some("each"), Some(place)) => put_place(case, item, place, line.words())?,
            (Some(place), _) => put_place(case, item, place, line.words())?,
            (None, _) => {}
        }
    }
    Ok(())
}

/// Sets the text in that place of the item.
fn put_place(case: &Case<'_>, item: &mut Item, place: &str, notation: &str) -> Result<(), Fault> {
    let text = case.fills.decoded(notation)?;
    item.put(&Setting {
        tell: case.row.tell,
        place,
        text: &text,
    })
}

/// Lays out the item as the line and the row's settings say.
fn lay_out(case: &Case<'_>, asked: Asked<'_>, item: &mut Item) -> Result<(), Fault> {
    match case.row.setting("indent") {
        Some(indent) => {
            let indent = case.fills.decoded(indent)?;
            lay_out_with(case, asked, item, Some(&indent))
        }
        None => lay_out_with(case, asked, item, None),
    }
}

/// Lays out the item with that indent, by the call with the fewest settings that says it.
fn lay_out_with(
    case: &Case<'_>,
    asked: Asked<'_>,
    item: &mut Item,
    indent: Option<&str>,
) -> Result<(), Fault> {
    let level = level(case)?;
    let config = FormatConfig::builder()
        .maybe_indent(indent)
        .maybe_indent_level(level)
        .no_comments(asked.no_comments)
        .build();
    let layout = Layout {
        config,
        blank_lines: asked.blank_lines.unwrap_or(0),
        keep_spelling: case.row.has("keep spelling"),
        keep_inner_comments: case.row.has("keep inner comments"),
        keep_one_line: case.row.has("keep one line"),
        compact_empty: false,
    };
    if asked.blank_lines.is_some()
        || layout.keep_spelling
        || layout.keep_inner_comments
        || layout.keep_one_line
    {
        item.lay_out_by(&layout)?;
    } else if indent.is_some() || level.is_some() {
        item.lay_out_as(&config)?;
    } else {
        item.lay_out(asked.no_comments)?;
    }
    Ok(())
}

/// The level of the outermost nodes, if the row has one.
fn level(case: &Case<'_>) -> Result<Option<usize>, Fault> {
    let Some(text) = case.row.setting("level") else {
        return Ok(None);
    };
    match text.parse::<usize>() {
        Ok(level) => Ok(Some(level)),
        Err(_) => Err(case.differs("a level", text)),
    }
}

/// Checks that what is printed reads back. A node with texts set in its places prints a document of only that node: a
/// slashdashed node may come after it, which a text that is one node can't have there.
fn is_read_back(
    case: &Case<'_>,
    asked: Asked<'_>,
    printed: &str,
    data: &Dump,
) -> Result<(), Fault> {
    let whole = if case.row.has_places() {
        Whole::Document
    } else {
        case.call.whole()
    };
    match Item::parse(case.alloc(), whole, printed) {
        Ok(mut item) => is_same(case, asked, &mut item, printed, data),
        Err(_) => Err(case.differs(asked.line, "refused")),
    }
}

/// Checks that the item that was read back has the same data, and prints the same after layout, unless an entry was
/// kept.
fn is_same(
    case: &Case<'_>,
    asked: Asked<'_>,
    item: &mut Item,
    printed: &str,
    data: &Dump,
) -> Result<(), Fault> {
    has_data(case, data, item)?;
    if asked.is_kept {
        return Ok(());
    }
    prints_laid_out(case, asked, item, printed)
}

/// Checks that the item prints the text after a second layout, or that of the row's other line if an entry was kept.
fn lays_out_again(
    case: &Case<'_>,
    asked: Asked<'_>,
    item: &mut Item,
    printed: &str,
) -> Result<(), Fault> {
    if !asked.is_kept {
        return prints_laid_out(case, asked, item, printed);
    }
    let label = if asked.no_comments { "strip" } else { "fmt" };
    let Some(other) = case.row.setting(label) else {
        return Err(case.differs(label, "no such line in the row"));
    };
    let other = case.fills.decoded(other)?;
    prints_laid_out(case, asked, item, &other)
}

/// Checks that the item prints the text after layout.
fn prints_laid_out(
    case: &Case<'_>,
    asked: Asked<'_>,
    item: &mut Item,
    text: &str,
) -> Result<(), Fault> {
    lay_out(case, asked, item)?;
    prints(case, &item.printed(case.alloc())?, text)
}
