//! The nodes and entries that PATHs name.

ghost use Rattle.kdl.specs.Words.{document_says, said_nodes};
ghost use Rattle.c_calls.specs.Answers.{IsAmong};
ghost use Rattle.c_calls.specs.Says.{IsWithin, SaysEntry};
ghost use Rattle.kdl_path.specs.PathText.{IsPath, PathData, path_says};
ghost use Rattle.kdl_path.specs.Paths.{AreIndices, entry_at, node_at};
ghost use Rattle.kdl_path.specs.declared.path.Path.{Path as HeldPath};
ghost use Rattle.std.specs.Prelude.{◌≡◌, ◌++◌, ◌<◌, ◌≤◌, ◌∷◌, [], IfErr, IfOk, IsNone, IsSome, IsSomeAnd, List, None, drop, length, take, ℕ};
ghost use Rattle.std.specs.Str.{IsUtf8, chars};

use crate::selection::put_numbers;
use c_calls::held::Handle;
use c_calls::row::{KdlRow, put_found};
use c_calls::status::{FAULTS, NO_DOCUMENT, NOT_FOUND, NOT_UTF8, OUT_OF_MEMORY};
use kdl::KdlDocument;
use kdl_path::{Path, PathFailure, find, find_entry};
use std::alloc::Global;

/// Reads a PATH. Returns `NOT_UTF8` if the text is not UTF-8, `FAULTS` if it is not a PATH, and `OUT_OF_MEMORY` if an
/// allocation fails.
fn path_of(alloc: Global, place: &[u8]) -> Result<Path, u32>
    ensures path { IfOk result (λ p. IsPath (chars place.now) (path_says p)) }
    ensures refused { IfErr result (λ s. s ≡ 1 → (x : PathData) → IsPath (chars place.now) x → ⊥) }
    ensures utf8 { IfErr result (λ s. s ≡ 2 → IsUtf8 place.now → ⊥) }
    ensures statuses { IfErr result (IsAmong (1 ∷ 2 ∷ 3 ∷ [])) }
{
    let Ok(text) = std::str::from_utf8(place) else {
        return Err(NOT_UTF8);
    };
    match Path::parse(alloc, text) {
        Ok(path) => Ok(path),
        Err(PathFailure::Syntax(_, _)) => Err(FAULTS),
        Err(PathFailure::Memory) => Err(OUT_OF_MEMORY),
    }
}

/// Writes the indices of the node that the PATH leads to at the start of `indices`, and sets `needed` to their number.
///
/// If they do not fit, returns `TOO_SMALL`, and leaves `indices` unchanged. Returns `NOT_FOUND` if there is no such node.
/// After any status but `OK` and `TOO_SMALL`, everything is unchanged.
fn put_place(
    alloc: Global,
    document: &KdlDocument,
    path: &Path,
    indices: &mut [usize],
    needed: &mut usize,
) -> u32
    ensures found { IsAmong (0 ∷ 4 ∷ []) result → (is : List ℕ)
        × AreIndices path.now.steps.items is (said_nodes (document_says document.now))
        × (needed.new ≡ length is)
        × (result ≡ 0 → indices.new ≡ is ++ drop (length is) indices.old) }
    ensures absent { result ≡ 6
        → node_at path.now.steps.items (said_nodes (document_says document.now)) ≡ None }
    ensures small { result ≡ 4 → length indices.old < needed.new }
    ensures kept { (result ≡ 0 → ⊥) → indices.new ≡ indices.old }
    ensures uncounted { IsAmong (3 ∷ 6 ∷ []) result → needed.new ≡ needed.old }
    ensures statuses { IsAmong (0 ∷ 3 ∷ 4 ∷ 6 ∷ []) result }
{
    match find(alloc, document, path) {
        Err(_) => OUT_OF_MEMORY,
        Ok(None) => NOT_FOUND,
        Ok(Some(found)) => put_numbers(&found.indices, indices, needed),
    }
}

/// Writes the row of the entry that the PATH names, and appends its texts to the strings. Returns `NOT_FOUND` if there is
/// no such entry.
fn put_entry_at(
    alloc: Global,
    document: &KdlDocument,
    path: &Path,
    row: &mut KdlRow,
    strings: &mut [u8],
    string_len: &mut usize,
) -> u32
    ensures there { IsAmong (0 ∷ 4 ∷ []) result
        → IsSome (entry_at path.now (document_says document.now)) }
    ensures says { result ≡ 0 → IsSomeAnd (entry_at path.now (document_says document.now)) (λ e.
        SaysEntry (take string_len.new strings.new) row.new e) }
    ensures absent { result ≡ 6 → entry_at path.now (document_says document.now) ≡ None }
    ensures within { result ≡ 0 → IsWithin string_len.new row.new }
    ensures strings { result ≡ 0 → string_len.new ≤ length strings.old }
    ensures small { result ≡ 4 → length strings.old < string_len.new }
    ensures statuses { IsAmong (0 ∷ 3 ∷ 4 ∷ 6 ∷ []) result }
{
    match find_entry(alloc, document, path) {
        Err(_) => OUT_OF_MEMORY,
        Ok(None) => NOT_FOUND,
        Ok(Some(entry)) => put_found(alloc, entry, row, strings, string_len),
    }
}

/// Finds the node that a PATH leads to. Writes its indices at the start of `indices`, and sets `needed` to their number.
///
/// If they do not fit, returns `TOO_SMALL`, and leaves `indices` unchanged. Returns `FAULTS` if the text is not a PATH,
/// and `NOT_FOUND` if the document has no such node. After any status but `OK` and `TOO_SMALL`, `needed` is 0.
#[unsafe(no_mangle)]
pub extern "C" fn kdl_find_path(
    alloc: Global,
    document: &mut Handle,
    place: &[u8],
    indices: &mut [usize],
    needed: &mut usize,
) -> u32
    ensures found { IsAmong (0 ∷ 4 ∷ []) result → IsSomeAnd document.old.held.document (λ d.
        (p : HeldPath) × IsPath (chars place.now) (path_says p) × (is : List ℕ)
        × AreIndices p.steps.items is (said_nodes (document_says d)) × (needed.new ≡ length is)
        × (result ≡ 0 → indices.new ≡ is ++ drop (length is) indices.old)) }
    ensures absent { result ≡ 6 → IsSomeAnd document.old.held.document (λ d. (p : HeldPath)
        × IsPath (chars place.now) (path_says p)
        × (node_at p.steps.items (said_nodes (document_says d)) ≡ None)) }
    ensures refused { result ≡ 1 → (x : PathData) → IsPath (chars place.now) x → ⊥ }
    ensures small { result ≡ 4 → length indices.old < needed.new }
    ensures kept { (result ≡ 0 → ⊥) → indices.new ≡ indices.old }
    ensures cleared { (result ≡ 0 → ⊥) → (result ≡ 4 → ⊥) → needed.new ≡ 0 }
    ensures same { document.new.held.document ≡ document.old.held.document }
    ensures utf8 { result ≡ 2 → IsUtf8 place.now → ⊥ }
    ensures missing { result ≡ 5 → IsNone document.old.held.document }
    ensures statuses { IsAmong (0 ∷ 1 ∷ 2 ∷ 3 ∷ 4 ∷ 5 ∷ 6 ∷ []) result }
{
    *needed = 0;
    let path = match path_of(alloc, place) {
        Ok(path) => path,
        Err(status) => return status,
    };
    let Some(held) = document.take(alloc) else {
        return NO_DOCUMENT;
    };
    let status = put_place(alloc, &held, &path, indices, needed);
    document.put(held);
    status
}

/// Writes the row of the entry that a PATH names.
///
/// Returns `FAULTS` if the text is not a PATH, and `NOT_FOUND` if the document has no such entry.
#[unsafe(no_mangle)]
pub extern "C" fn kdl_get_path(
    alloc: Global,
    document: &mut Handle,
    place: &[u8],
    row: &mut KdlRow,
    strings: &mut [u8],
    string_len: &mut usize,
) -> u32
    ensures says { result ≡ 0 → IsSomeAnd document.old.held.document (λ d. (p : HeldPath)
        × IsPath (chars place.now) (path_says p)
        × IsSomeAnd (entry_at p (document_says d)) (λ e.
        SaysEntry (take string_len.new strings.new) row.new e)) }
    ensures absent { result ≡ 6 → IsSomeAnd document.old.held.document (λ d. (p : HeldPath)
        × IsPath (chars place.now) (path_says p)
        × (entry_at p (document_says d) ≡ None)) }
    ensures refused { result ≡ 1 → (x : PathData) → IsPath (chars place.now) x → ⊥ }
    ensures within { result ≡ 0 → IsWithin string_len.new row.new }
    ensures strings { result ≡ 0 → string_len.new ≤ length strings.old }
    ensures small { result ≡ 4 → length strings.old < string_len.new }
    ensures same { document.new.held.document ≡ document.old.held.document }
    ensures utf8 { result ≡ 2 → IsUtf8 place.now → ⊥ }
    ensures missing { result ≡ 5 → IsNone document.old.held.document }
    ensures statuses { IsAmong (0 ∷ 1 ∷ 2 ∷ 3 ∷ 4 ∷ 5 ∷ 6 ∷ []) result }
{
    *string_len = 0;
    let path = match path_of(alloc, place) {
        Ok(path) => path,
        Err(status) => return status,
    };
    let Some(held) = document.take(alloc) else {
        return NO_DOCUMENT;
    };
    let status = put_entry_at(alloc, &held, &path, row, strings, string_len);
    document.put(held);
    status
}
