//! The paths that a query selects, and the fault of a text that is not a query.

ghost use Rattle.kdl_c.specs.Queries.{flat, IsQueryFault};
ghost use Rattle.c_calls.specs.Answers.{IsAmong};
ghost use Rattle.c_calls.specs.Listed.{AreListed, Fault, ListsNothing};
ghost use Rattle.c_calls.specs.Rows.{AreTold};
ghost use Rattle.kdl.specs.Words.{InText};
ghost use Rattle.kdl_query.specs.Data.{Query as QueryData};
ghost use Rattle.kdl_query.specs.QueryText.{IsQuery};
ghost use Rattle.std.specs.Prelude.{◌≡◌, ◌++◌, ◌<◌, ◌∷◌, [], IfOk, List, drop, length, map};
ghost use Rattle.std.specs.Str.{chars};

use c_calls::faults::KdlFault;
use c_calls::status::{FAULTS, OK, OUT_OF_MEMORY, TOO_SMALL};
use c_calls::text::put_string;
use kdl_query::{Query, QueryError, QueryFailure};
use std::alloc::{AllocError, Global};

/// Returns the paths one after another: each as its length, and then its indices.
fn flat(alloc: Global, paths: &[Vec<usize>]) -> Result<Vec<usize>, AllocError>
    ensures { IfOk result (λ all. all.items ≡ flat (map (λ p. p.items) paths.now)) }
{
    let mut all = Vec::new(alloc);
    for path in paths {
        all.push(path.len())?;
        all.extend_from_slice(path)?;
    }
    Ok(all)
}

/// Writes the numbers at the start of `out`, and sets `needed` to their count.
///
/// If they do not fit, returns `TOO_SMALL`, and leaves `out` unchanged.
pub(crate) fn put_numbers(numbers: &[usize], out: &mut [usize], needed: &mut usize) -> u32
    ensures whole { needed.new ≡ length numbers.now }
    ensures fits { result ≡ 0 → out.new ≡ numbers.now ++ drop (length numbers.now) out.old }
    ensures small { (result ≡ 0 → ⊥) → (result ≡ 4) × (length out.old < length numbers.now) }
    ensures kept { (result ≡ 0 → ⊥) → out.new ≡ out.old }
{
    *needed = numbers.len();
    if out.len() < numbers.len() {
        return TOO_SMALL;
    }
    let (head, _) = out.split_at_mut(numbers.len());
    head.copy_from_slice(numbers);
    OK
}

/// Writes the paths one after another at the start of `out`. Sets `count` to the number of paths, and `needed` to the
/// number of `usize` that they take.
///
/// If they do not fit, returns `TOO_SMALL`, and leaves `out` unchanged. If an allocation fails, everything is unchanged.
pub(crate) fn put_paths(
    alloc: Global,
    paths: &[Vec<usize>],
    out: &mut [usize],
    count: &mut usize,
    needed: &mut usize,
) -> u32
    ensures fits { result ≡ 0 → out.new ≡ flat (map (λ p. p.items) paths.now)
        ++ drop (length (flat (map (λ p. p.items) paths.now))) out.old }
    ensures counted { (result ≡ 3 → ⊥) → (count.new ≡ length paths.now)
        × (needed.new ≡ length (flat (map (λ p. p.items) paths.now))) }
    ensures small { result ≡ 4 → length out.old < needed.new }
    ensures kept { (result ≡ 0 → ⊥) → out.new ≡ out.old }
    ensures refused { result ≡ 3 → (count.new ≡ count.old) × (needed.new ≡ needed.old) }
    ensures statuses { IsAmong (0 ∷ 3 ∷ 4 ∷ []) result }
{
    match flat(alloc, paths) {
        Err(_) => OUT_OF_MEMORY,
        Ok(all) => {
            *count = paths.len();
            put_numbers(&all, out, needed)
        }
    }
}

/// Writes the fault of a text that is not a query, as far as there is room.
///
/// Sets `count` to 1, and `used` to the number of bytes of the message.
fn put_query_fault(
    error: &QueryError,
    text: &str,
    out: &mut [KdlFault],
    count: &mut usize,
    strings: &mut [u8],
    used: &mut usize,
)
    requires { InText (chars text.now) error.now.span }
    ensures counted { count.new ≡ 1 }
    ensures told { AreTold text.now out.new count.new strings.new used.new }
    ensures listed { (fs : List Fault) × IsQueryFault text.now fs
        × AreListed fs out.old out.new count.new strings.old strings.new used.new }
{
    *used = 0;
    let place = put_string(error.message, strings, used);
    let row = KdlFault {
        start: error.span.offset,
        len: error.span.len,
        message_start: place.start,
        message_len: place.len,
    };
    if !out.is_empty() {
        out[0] = row;
    }
    *count = 1;
}

/// Lists the fault of a text that is not a query, as far as there is room. Returns `OK` and lists nothing if it is one.
pub(crate) fn put_query_faults(
    alloc: Global,
    text: &str,
    out: &mut [KdlFault],
    count: &mut usize,
    strings: &mut [u8],
    used: &mut usize,
) -> u32
    requires { (count.old ≡ 0) × (used.old ≡ 0) }
    ensures some { result ≡ 1 → count.new ≡ 1 }
    ensures told { result ≡ 1 → AreTold text.now out.new count.new strings.new used.new }
    ensures listed { result ≡ 1 → (fs : List Fault) × IsQueryFault text.now fs
        × AreListed fs out.old out.new count.new strings.old strings.new used.new }
    ensures nothing { (result ≡ 1 → ⊥)
        → ListsNothing out.old out.new count.new strings.old strings.new used.new }
    ensures refused { result ≡ 1 → (q : QueryData) → IsQuery (chars text.now) q → ⊥ }
    ensures accepted { result ≡ 0 → (q : QueryData) × IsQuery (chars text.now) q }
    ensures statuses { IsAmong (0 ∷ 1 ∷ 3 ∷ []) result }
{
    match Query::parse(alloc, text) {
        Ok(_) => OK,
        Err(QueryFailure::Syntax(error)) => {
            put_query_fault(&error, text, out, count, strings, used);
            FAULTS
        }
        Err(QueryFailure::Memory) => OUT_OF_MEMORY,
    }
}
