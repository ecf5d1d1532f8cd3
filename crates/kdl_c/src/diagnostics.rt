//! Lists of the faults of a text.

ghost use Rattle.kdl.specs.Words.{IsDocument, Nodes};
ghost use Rattle.c_calls.specs.Answers.{IsAmong};
ghost use Rattle.c_calls.specs.Listed.{AreFaultsOf, AreListed, AreReportsListed, Fault, ListsNothing};
ghost use Rattle.kdl_c.specs.Queries.{AreFaultsOfKind, IsOfKind};
ghost use Rattle.c_calls.specs.Reports.{AreReported};
ghost use Rattle.c_calls.specs.Rows.{AreTold};
ghost use Rattle.std.specs.Prelude.{◌≡◌, ◌<◌, ◌≤◌, ◌∷◌, [], List};
ghost use Rattle.std.specs.Str.{IsUtf8, chars};

use crate::selection::put_query_faults;
use c_calls::faults::{KdlFault, put_faults};
use c_calls::given_faults::{Reading, put_not_value, read};
use c_calls::reports::{KdlReport, put_reports};
use c_calls::status::{FAULTS, NOT_FOUND, NOT_UTF8, OK, OUT_OF_MEMORY};
use kdl::{KdlDocument, ParseFailure};
use std::alloc::Global;

/// The kind of a text that is read as a query. `c_calls::given_faults` has the others.
const AS_QUERY: u32 = 4;

/// Lists the faults of a text, in the order in which they are found. Writes as many faults as `out` has room for, and
/// their messages into `strings`, up to the first that does not fit.
///
/// Sets `count` and `string_len` to the whole counts of faults and bytes, even if not all of them fit. Returns `FAULTS`
/// if there are any faults, and `OK` if there are none. After any other status, both counts are 0.
#[unsafe(no_mangle)]
pub extern "C" fn kdl_faults(
    alloc: Global,
    text: &[u8],
    out: &mut [KdlFault],
    count: &mut usize,
    strings: &mut [u8],
    string_len: &mut usize,
) -> u32
    ensures some { result ≡ 1 → 0 < count.new }
    ensures told { result ≡ 1 → AreTold text.now out.new count.new strings.new string_len.new }
    ensures listed { result ≡ 1 → (fs : List Fault) × AreFaultsOf text.now fs
        × AreListed fs out.old out.new count.new strings.old strings.new string_len.new }
    ensures none { result ≡ 0 → count.new ≡ 0 }
    ensures nothing { (result ≡ 1 → ⊥) → ListsNothing
        out.old out.new count.new strings.old strings.new string_len.new }
    ensures utf8 { result ≡ 2 → IsUtf8 text.now → ⊥ }
    ensures refused { result ≡ 1 → (x : Nodes) → IsDocument (chars text.now) x → ⊥ }
    ensures accepted { result ≡ 0 → (x : Nodes) × IsDocument (chars text.now) x }
    ensures statuses { IsAmong (0 ∷ 1 ∷ 2 ∷ 3 ∷ []) result }
{
    *count = 0;
    *string_len = 0;
    let Ok(text) = std::str::from_utf8(text) else {
        return NOT_UTF8;
    };
    match KdlDocument::check(alloc, text) {
        Err(ParseFailure::Memory) => OUT_OF_MEMORY,
        Err(ParseFailure::Syntax(error)) => {
            put_faults(&error.diagnostics, out, count, strings, string_len);
            FAULTS
        }
        Ok(()) => OK,
    }
}

/// Lists the faults of a text of the given kind, as `kdl_faults` does for a document. Reads the text as `kdl_parse`
/// does for kind 0, as `kdl_insert_node` for 1, as `kdl_insert_entry` for 2, as `kdl_set_value` for 3, and as `kdl_query`
/// for 4.
///
/// Returns `NOT_FOUND` for any other kind.
#[unsafe(no_mangle)]
pub extern "C" fn kdl_faults_of(
    alloc: Global,
    kind: u32,
    text: &[u8],
    out: &mut [KdlFault],
    count: &mut usize,
    strings: &mut [u8],
    string_len: &mut usize,
) -> u32
    ensures some { result ≡ 1 → 0 < count.new }
    ensures told { result ≡ 1 → AreTold text.now out.new count.new strings.new string_len.new }
    ensures listed { result ≡ 1 → (fs : List Fault) × AreFaultsOfKind kind text.now fs
        × AreListed fs out.old out.new count.new strings.old strings.new string_len.new }
    ensures none { result ≡ 0 → count.new ≡ 0 }
    ensures nothing { (result ≡ 1 → ⊥) → ListsNothing
        out.old out.new count.new strings.old strings.new string_len.new }
    ensures utf8 { result ≡ 2 → IsUtf8 text.now → ⊥ }
    ensures refused { result ≡ 1 → IsOfKind kind (chars text.now) → ⊥ }
    ensures accepted { result ≡ 0 → IsOfKind kind (chars text.now) }
    ensures kinds { result ≡ 6 → 5 ≤ kind }
    ensures statuses { IsAmong (0 ∷ 1 ∷ 2 ∷ 3 ∷ 6 ∷ []) result }
{
    *count = 0;
    *string_len = 0;
    let Ok(text) = std::str::from_utf8(text) else {
        return NOT_UTF8;
    };
    if kind == AS_QUERY {
        return put_query_faults(alloc, text, out, count, strings, string_len);
    }
    let Some(reading) = read(alloc, kind, text) else {
        return NOT_FOUND;
    };
    match reading {
        Reading::Read => OK,
        Reading::NotValue => {
            put_not_value(text, out, count, strings, string_len);
            FAULTS
        }
        Reading::Memory => OUT_OF_MEMORY,
        Reading::Refused(error) => {
            put_faults(&error.diagnostics, out, count, strings, string_len);
            FAULTS
        }
    }
}

/// Lists the faults of a text with their messages, labels and helps, in the order in which they are found. Writes as
/// many faults as `out` has room for, and their strings into `strings`, up to the first that does not fit.
///
/// Sets `count` and `string_len` to the whole counts of faults and bytes, even if not all of them fit. Returns `FAULTS`
/// if there are any faults, and `OK` if there are none. After any other status, both counts are 0.
#[unsafe(no_mangle)]
pub extern "C" fn kdl_reports(
    alloc: Global,
    text: &[u8],
    out: &mut [KdlReport],
    count: &mut usize,
    strings: &mut [u8],
    string_len: &mut usize,
) -> u32
    ensures some { result ≡ 1 → 0 < count.new }
    ensures told { result ≡ 1 → AreReported text.now out.new count.new strings.new string_len.new }
    ensures listed { result ≡ 1 → (fs : List Fault) × AreFaultsOf text.now fs
        × AreReportsListed fs out.old out.new count.new strings.old strings.new string_len.new }
    ensures none { result ≡ 0 → count.new ≡ 0 }
    ensures nothing { (result ≡ 1 → ⊥) → ListsNothing
        out.old out.new count.new strings.old strings.new string_len.new }
    ensures utf8 { result ≡ 2 → IsUtf8 text.now → ⊥ }
    ensures refused { result ≡ 1 → (x : Nodes) → IsDocument (chars text.now) x → ⊥ }
    ensures accepted { result ≡ 0 → (x : Nodes) × IsDocument (chars text.now) x }
    ensures statuses { IsAmong (0 ∷ 1 ∷ 2 ∷ 3 ∷ []) result }
{
    *count = 0;
    *string_len = 0;
    let Ok(text) = std::str::from_utf8(text) else {
        return NOT_UTF8;
    };
    match KdlDocument::check(alloc, text) {
        Err(ParseFailure::Memory) => OUT_OF_MEMORY,
        Err(ParseFailure::Syntax(error)) => {
            put_reports(&error.diagnostics, out, count, strings, string_len);
            FAULTS
        }
        Ok(()) => OK,
    }
}
