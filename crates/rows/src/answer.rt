//! The lines that a text yields, and what holds for every text: an accepted item prints the text, and the error of a
//! refused text has spans in it.

use crate::checks::Case;
use crate::dump::Dump;
use crate::fault::Fault;
use crate::item::Item;
use kdl::{KdlDiagnostic, KdlDocument, KdlError, ParseFailure, Steps};
use kdl_diagnostics::{Whole, failure, faults};
use std::alloc::AllocError;

/// Adds the lines that the text yields, and returns whether it is accepted.
pub fn answer(case: &Case<'_>, whole: Whole, dump: &mut Dump) -> Result<bool, Fault> {
    match Item::parse(case.alloc(), whole, case.text) {
        Ok(item) => is_accepted(case, whole, &item, dump),
        Err(failure) => is_refused(case, whole, &failure, dump),
    }
}

/// Checks that the item prints the text, in which no fault is found. Adds the lines of the item.
fn is_accepted(case: &Case<'_>, whole: Whole, item: &Item, dump: &mut Dump) -> Result<bool, Fault> {
    prints(case, &item.printed(case.alloc())?, case.text)?;
    agrees(case, whole, None)?;
    dump.text("accepted", case.text);
    item.add_to(dump);
    Ok(true)
}

/// Checks that the error has a fault, with its span in the text. Adds its diagnostics.
fn is_refused(
    case: &Case<'_>,
    whole: Whole,
    failure: &ParseFailure,
    dump: &mut Dump,
) -> Result<bool, Fault> {
    let ParseFailure::Syntax(error) = failure else {
        return Err(Fault::from(AllocError));
    };
    if !is_told(error, case.text) {
        return Err(case.differs("a place in the text", "none"));
    }
    agrees(case, whole, Some(error))?;
    dump.text("refused", case.text);
    dump.diagnostics(&error.diagnostics);
    Ok(false)
}

/// Checks that what is printed is the text.
pub fn prints(case: &Case<'_>, printed: &str, text: &str) -> Result<(), Fault> {
    if printed == text {
        return Ok(());
    }
    Err(case.differs(text, printed))
}

/// Checks that no fault is found in an accepted text, and those of the error in a refused one.
fn agrees(case: &Case<'_>, whole: Whole, error: Option<&KdlError>) -> Result<(), Fault> {
    match (checked(case, whole), error) {
        (Err(ParseFailure::Memory), _) => Err(Fault::from(AllocError)),
        (Ok(()), None) => Ok(()),
        (Err(ParseFailure::Syntax(found)), Some(error)) if have_one_list(&found, error) => Ok(()),
        (Ok(()), Some(_)) => Err(case.differs("faults", "none")),
        (Err(ParseFailure::Syntax(_)), None) => Err(case.differs("no faults", "some")),
        (Err(ParseFailure::Syntax(_)), Some(_)) => Err(case.differs("its faults", "others")),
    }
}

/// Checks the text, without creating the item.
fn checked(case: &Case<'_>, whole: Whole) -> Result<(), ParseFailure> {
    if let Whole::Document = whole {
        return KdlDocument::check(case.alloc(), case.text);
    }
    if faults(case.alloc(), case.text, whole, &mut Steps::new())?.is_empty() {
        return Ok(());
    }
    Err(failure(case.alloc(), case.text, whole, &mut Steps::new()))
}

/// Whether both errors have the same faults.
fn have_one_list(one: &KdlError, other: &KdlError) -> bool {
    let mut all = one.diagnostics.len() == other.diagnostics.len();
    for (fault, same) in one.diagnostics.iter().zip(other.diagnostics.iter()) {
        all &= fault.span == same.span && fault.message == same.message;
        all &= fault.label == same.label && fault.help == same.help;
    }
    all
}

/// The number of diagnostics whose text is compared: to compare all would take too long for a text with many faults.
const COMPARED: usize = 100;

/// Whether the error has the text and at least one diagnostic, and each diagnostic has the text and a span in it, on
/// character boundaries.
fn is_told(error: &KdlError, text: &str) -> bool {
    for (index, told) in error.diagnostics.iter().enumerate() {
        if !is_inside(told, text) || (index < COMPARED && told.input.as_str() != text) {
            return false;
        }
    }
    !error.diagnostics.is_empty() && error.input.as_str() == text
}

/// Whether the diagnostic has a text of this length, and a span in it on character boundaries.
fn is_inside(diagnostic: &KdlDiagnostic, text: &str) -> bool {
    let start = diagnostic.span.offset;
    let end = start.saturating_add(diagnostic.span.len);
    diagnostic.input.as_str().len() == text.len()
        && text.is_char_boundary(start)
        && text.is_char_boundary(end)
}

/// Checks that the steps of parsing the text are within the bounds.
pub fn takes(case: &Case<'_>, wanted: &str, bounds: &str) -> Result<(), Fault> {
    let mut steps = Steps::new();
    let is_read = KdlDocument::parse_counted(case.alloc(), case.text, &mut steps).is_ok();
    if is_read && is_between(bounds, steps.count()) {
        return Ok(());
    }
    Err(case.differs(wanted, &steps.count().to_string(case.alloc())?))
}

/// Whether the count is between the bounds.
fn is_between(bounds: &str, count: u64) -> bool {
    let Some((least, most)) = bounds.split_once("..") else {
        return false;
    };
    match (least.parse::<u64>(), most.parse::<u64>()) {
        (Ok(least), Ok(most)) => least <= count && count <= most,
        (_, _) => false,
    }
}
