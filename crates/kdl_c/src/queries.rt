//! Queries.

ghost use Rattle.c_calls.specs.Answers.{IsAmong};
ghost use Rattle.kdl.specs.Words.{document_says};
ghost use Rattle.kdl_c.specs.Queries.{AreSelectedBy, flat};
ghost use Rattle.kdl_query.specs.Data.{Query as QueryData};
ghost use Rattle.kdl_query.specs.QueryText.{IsQuery};
ghost use Rattle.kdl_query.specs.Selects.{Path};
ghost use Rattle.std.specs.Prelude.{◌≡◌, ◌++◌, ◌<◌, ◌∷◌, [], IsNone, IsSomeAnd, List, drop, length};
ghost use Rattle.std.specs.Str.{IsUtf8, chars};

use crate::selection::put_paths;
use c_calls::held::Handle;
use c_calls::status::{FAULTS, NO_DOCUMENT, NOT_UTF8, OUT_OF_MEMORY};
use kdl_query::{Query, QueryFailure, query_paths};
use std::alloc::Global;

/// Writes the paths of the nodes that the query selects into `indices`, in the order of the document: each path as its
/// length, and then its indices. Sets `count` to the number of paths, and `needed` to the number of `usize` that they
/// take.
///
/// If they do not fit, returns `TOO_SMALL`, and leaves `indices` unchanged. Returns `FAULTS` if the text is not a query.
/// After any status but `OK` and `TOO_SMALL`, both counts are 0.
#[unsafe(no_mangle)]
pub extern "C" fn kdl_query(
    alloc: Global,
    document: &mut Handle,
    query: &[u8],
    indices: &mut [usize],
    count: &mut usize,
    needed: &mut usize,
) -> u32
    ensures written { result ≡ 0 → IsSomeAnd document.old.held.document (λ d. (ps : List Path)
        × AreSelectedBy (chars query.now) (document_says d) ps
        × (indices.new ≡ flat ps ++ drop (length (flat ps)) indices.old)
        × (count.new ≡ length ps) × (needed.new ≡ length (flat ps))) }
    ensures small { result ≡ 4 → IsSomeAnd document.old.held.document (λ d. (ps : List Path)
        × AreSelectedBy (chars query.now) (document_says d) ps
        × (count.new ≡ length ps) × (needed.new ≡ length (flat ps))
        × (length indices.old < needed.new)) }
    ensures kept { (result ≡ 0 → ⊥) → indices.new ≡ indices.old }
    ensures cleared { (result ≡ 0 → ⊥) → (result ≡ 4 → ⊥) → (count.new ≡ 0) × (needed.new ≡ 0) }
    ensures same { document.new.held.document ≡ document.old.held.document }
    ensures utf8 { result ≡ 2 → IsUtf8 query.now → ⊥ }
    ensures refused { result ≡ 1 → (q : QueryData) → IsQuery (chars query.now) q → ⊥ }
    ensures missing { result ≡ 5 → IsNone document.old.held.document }
    ensures statuses { IsAmong (0 ∷ 1 ∷ 2 ∷ 3 ∷ 4 ∷ 5 ∷ []) result }
{
    *count = 0;
    *needed = 0;
    let Ok(text) = std::str::from_utf8(query) else {
        return NOT_UTF8;
    };
    let query = match Query::parse(alloc, text) {
        Ok(query) => query,
        Err(QueryFailure::Syntax(_)) => return FAULTS,
        Err(QueryFailure::Memory) => return OUT_OF_MEMORY,
    };
    let Some(held) = document.take(alloc) else {
        return NO_DOCUMENT;
    };
    let status = match query_paths(alloc, &held, &query) {
        Err(_) => OUT_OF_MEMORY,
        Ok(paths) => put_paths(alloc, &paths, indices, count, needed),
    };
    document.put(held);
    status
}
