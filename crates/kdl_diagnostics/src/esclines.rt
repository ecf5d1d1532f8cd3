//! Backslashes in strings that begin an escline together with the text after the string.

ghost use Rattle.kdl_diagnostics.specs.Internal.Noted.{Always, Keeps};
ghost use Rattle.kdl_diagnostics.specs.Internal.Reading.{Reads};

use crate::notes::{Fault, Notes};
use kdl_text::chars::{is_newline_char, is_space};
use kdl_text::cursor::Cursor;
use std::alloc::{AllocError, Global};

/// A backslash in a string, before a block comment that the string does not close. It begins an
/// escline if the text after the string closes the comment and an escline ends there.
#[derive(Clone, Copy)]
pub(crate) struct Candidate {
    /// Where the backslash is, in bytes from the start of the text.
    pub at: usize,
    /// The index of the string's fault among the faults of the text.
    pub number: usize,
    /// The string's fault if the backslash begins an escline.
    pub fault: Fault,
}

/// Ends the faults of the candidates that begin an escline at their backslashes. The candidates are in the order of the
/// text. The cursor begins before the first one, and advances to the end of the text.
///
/// A backslash is never a part of `/*` or `*/`, and block comments nest. So one pass reads the block
/// comments of all candidates.
pub(crate) fn settle_all(
    alloc: Global,
    cursor: &mut Cursor,
    notes: &mut Notes,
) -> Result<(), AllocError>
    ensures keeps { Keeps Always notes.old notes.new }
    ensures reads { Reads 4 1 cursor.old cursor.new }
{
    // The number of candidates before the place.
    let mut next: usize = 0;
    // For each open block comment the candidate before it, if only spaces and block comments are between.
    let mut open: Vec<Option<usize>> = Vec::new(alloc);
    // The candidate before the place, if only spaces and block comments are between.
    let mut last: Option<usize> = None;
    'characters: loop {
        let at = cursor.at();
        let candidate = last;
        let Some(c) = cursor.take() else {
            notes.settle(candidate);
            return Ok(());
        };
        if is_space(c) {
            continue 'characters;
        }
        last = None;
        match c {
            '\\' if next < notes.candidates.len() && notes.candidates[next].at == at => {
                last = Some(next);
                next += 1;
            }
            '/' => {
                if cursor.eat('*') {
                    open.push(candidate)?;
                } else if cursor.look() == Some('/') {
                    notes.settle(candidate);
                }
            }
            '*' => {
                if cursor.eat('/') {
                    last = open.pop().flatten();
                }
            }
            c if is_newline_char(c) => notes.settle(candidate),
            _ => {}
        }
    }
}
