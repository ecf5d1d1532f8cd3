//! Many texts made from one: its prefixes, each read as a document, a node, an entry and an identifier, and the texts
//! with one character replaced, doubled or removed, read as documents.

use crate::answer::answer;
use crate::checks::Case;
use crate::dump::Dump;
use crate::fault::Fault;
use crate::layout::{Asked, lays_out};
use crate::line::{Call, Kind, Line};
use kdl_diagnostics::Whole;

/// Tests each prefix of the text, and the text itself.
pub fn check_fronts(case: &Case<'_>) -> Result<(), Fault> {
    for (at, _) in case.text.char_indices() {
        check_front(case, at)?;
    }
    check_front(case, case.text.len())
}

/// Tests the prefix of that length.
fn check_front(case: &Case<'_>, len: usize) -> Result<(), Fault> {
    let front = Case {
        call: Call::Document,
        text: case.text.get(..len).unwrap_or(case.text),
        ..*case
    };
    let is_document = is_accepted(&front, Whole::Document)?;
    is_accepted(&front, Whole::Node)?;
    is_accepted(&front, Whole::Entry)?;
    is_accepted(&front, Whole::Identifier)?;
    for notation in case.row.lines {
        let line = Line::of(notation);
        match (line.kind(), line.label, line.text) {
            (Kind::Wanted, "refused at", Some(lengths)) => {
                if has_length(case, lengths, len)? == is_document {
                    return Err(front.differs(notation, "another front"));
                }
            }
            (Kind::Wanted, _, _) => check_many(&front, notation, is_document)?,
            (_, _, _) => {}
        }
    }
    Ok(())
}

/// Whether the text is accepted as a whole of the kind.
fn is_accepted(case: &Case<'_>, whole: Whole) -> Result<bool, Fault> {
    let mut dump = Dump::new(case.alloc(), true);
    answer(case, whole, &mut dump)
}

/// Checks what an expected line says about one of many texts: that it is read, or laid out if it is a document.
fn check_many(case: &Case<'_>, line: &str, is_document: bool) -> Result<(), Fault> {
    match line {
        "answered" => Ok(()),
        "fmts" | "strips" => match Asked::of(line) {
            Some(asked) if is_document => lays_out(case, asked),
            _ => Ok(()),
        },
        _ => Err(case.differs(line, "no such line for this call")),
    }
}

/// Whether the length is among those of the line, each of which is the length of a prefix.
fn has_length(case: &Case<'_>, lengths: &str, len: usize) -> Result<bool, Fault> {
    let mut is_there = false;
    for word in lengths.split_whitespace() {
        let (first, last) = match word.split_once("..") {
            Some((first, last)) => (first, last),
            None => (word, word),
        };
        let (first, last) = (front_of(case, first)?, front_of(case, last)?);
        is_there = is_there || (first <= len && len <= last);
    }
    Ok(is_there)
}

/// The length of a prefix that the word says.
fn front_of(case: &Case<'_>, word: &str) -> Result<usize, Fault> {
    match word.parse::<usize>() {
        Ok(len) if case.text.is_char_boundary(len) => Ok(len),
        _ => Err(case.differs("the length of a front", word)),
    }
}

/// Tests each text in which one character is replaced by one of the given ones, doubled or removed.
pub fn check_replaced(case: &Case<'_>) -> Result<(), Fault> {
    let Some(by) = case.row.setting("by") else {
        return Err(case.differs("by", "no such line in the row"));
    };
    let by = case.fills.decoded(by)?;
    for (at, old) in case.text.char_indices() {
        check_replaced_at(case, at, old, &by)?;
    }
    Ok(())
}

/// Tests each text in which the character there is replaced, doubled or removed.
fn check_replaced_at(case: &Case<'_>, at: usize, old: char, by: &str) -> Result<(), Fault> {
    let following = at.saturating_add(old.len_utf8());
    for new in by.chars() {
        check_with(case, at, new, following)?;
    }
    check_with(case, at, old, at)?;
    check_without(case, at, following)
}

/// Tests the text with that character in place of what is between the two places.
fn check_with(case: &Case<'_>, at: usize, new: char, following: usize) -> Result<(), Fault> {
    let (front, back) = around(case.text, at, following);
    let text = format!(in case.alloc(); "{front}{new}{back}")?;
    check_new(case, &text)
}

/// Tests the text without what is between the two places.
fn check_without(case: &Case<'_>, at: usize, following: usize) -> Result<(), Fault> {
    let (front, back) = around(case.text, at, following);
    let text = format!(in case.alloc(); "{front}{back}")?;
    check_new(case, &text)
}

/// The text before one place, and the text after the other.
fn around(text: &str, at: usize, following: usize) -> (&str, &str) {
    match (text.get(..at), text.get(following..)) {
        (Some(front), Some(back)) => (front, back),
        (_, _) => (text, ""),
    }
}

/// Tests a text in which one character is replaced.
fn check_new(case: &Case<'_>, text: &str) -> Result<(), Fault> {
    let new = Case {
        call: Call::Document,
        text,
        ..*case
    };
    let is_document = is_accepted(&new, Whole::Document)?;
    for line in case.row.lines {
        if let Kind::Wanted = Line::of(line).kind() {
            check_many(&new, line, is_document)?;
        }
    }
    Ok(())
}
