//! How many newlines a text around nodes lacks for whatever follows it not to become part of it.

ghost use Rattle.kdl_layout.specs.Internal.Reading.{place_view};
ghost use Rattle.kdl_layout.specs.Lacks.{AreNodeSpaces, GapLacks, PlaceLacks, TerminatorLacks};
ghost use Rattle.std.specs.Prelude.{◌↔◌, IfOk, IsTrue};
ghost use Rattle.std.specs.Str.{chars};

use crate::places::{read_gap, read_place};
use crate::spaces::{Ending, Place, Start, after_char, break_ending, only_spaces, start_of};
use std::alloc::{AllocError, Global};

/// Returns whether the text is node-spaces, whatever follows it: spaces, block comments, and esclines that end with a
/// newline. An escline whose newline is a CR at the end of the text does not count, since an LF after it is part of
/// that newline.
///
/// Returns an error if an allocation fails.
///
/// ```
/// assert!(is_node_spaces(alloc, " /* a */ ")?);
/// assert!(!is_node_spaces(alloc, " \\ ")?);
/// ```
pub fn is_node_spaces(alloc: Global, text: &str) -> Result<bool, AllocError>
    ensures { IfOk result (λ b. IsTrue b ↔ AreNodeSpaces (chars text.now)) }
{
    let mut items = None;
    only_spaces(alloc, text, &mut items)
}

/// Returns how many newlines the text of a gap lacks, at most two, for it to add nothing to the nodes that follow,
/// whatever they are: one if it ends in a line comment or an escline without a newline, and one if its last slashdashed
/// node has no terminator. Returns `None` if the text is not a gap.
///
/// Returns an error if an allocation fails.
///
/// ```
/// assert_eq!(gap_lacks(alloc, "/-x // a")?, Some(1));
/// assert_eq!(gap_lacks(alloc, "/-x \\")?, Some(2));
/// ```
pub fn gap_lacks(alloc: Global, text: &str) -> Result<Option<usize>, AllocError>
    ensures { IfOk result (λ o. GapLacks (chars text.now) o) }
{
    let mut items = None;
    read_gap(alloc, text, &mut items)
}

/// Returns how many newlines a terminator and the gap after it lack to end the node before them and to add nothing to
/// the nodes that follow, whatever they are. Without a terminator they lack one. Returns `None` if the text is not a
/// terminator followed by a gap.
///
/// Returns an error if an allocation fails.
///
/// ```
/// assert_eq!(terminator_lacks(alloc, "; // a\n")?, Some(0));
/// assert_eq!(terminator_lacks(alloc, "// a")?, Some(1));
/// ```
pub fn terminator_lacks(alloc: Global, text: &str) -> Result<Option<usize>, AllocError>
    ensures { IfOk result (λ o. TerminatorLacks (chars text.now) o) }
{
    let mut items = None;
    if let Some(gap) = after_char(text, ';') {
        return read_gap(alloc, gap, &mut items);
    }
    match start_of(alloc, text)? {
        Start::Break(_, rest) => match break_ending(text, rest) {
            Ending::Before(gap) => read_gap(alloc, gap, &mut items),
            Ending::InReturn => Ok(Some(0)),
            Ending::Open => Ok(Some(1)),
        },
        Start::End => Ok(Some(1)),
        _ => Ok(None),
    }
}

/// Returns whether the text before a node's terminator, before its block or after it, ends in an escline that lacks a
/// newline: with an LF after it, it may come before each terminator. A CR at its end does not count as a newline, since
/// an LF after it is part of it. Returns `None` if the text can't be in that place. For a place before an entry the
/// result is unspecified.
///
/// Returns an error if an allocation fails.
///
/// ```
/// assert_eq!(place_lacks(alloc, Place::BeforeBlock, " /-1")?, Some(false));
/// assert_eq!(place_lacks(alloc, Place::BeforeBlock, " \\ // a")?, Some(true));
/// ```
pub fn place_lacks(alloc: Global, place: Place, text: &str) -> Result<Option<bool>, AllocError>
    ensures { IfOk result (λ o. PlaceLacks (place_view place) (chars text.now) o) }
{
    let mut items = None;
    read_place(alloc, place, text, &mut items)
}
