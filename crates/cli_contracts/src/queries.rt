//! What is shown of the nodes that a query selects.

ghost use Rattle.cli_shown.specs.Nodes.{ShowsSelected};
ghost use Rattle.kdl_query.specs.Tree.{query_says};
ghost use Rattle.std.specs.Prelude.{IfOk, string_bytes};

use cli_shown::View;
use kdl::KdlDocument;
use kdl_query::Query;
use std::alloc::{AllocError, Global};

/// Returns what a view shows of the nodes that the query selects, and how many they are.
pub fn shown(
    alloc: Global,
    document: &KdlDocument,
    query: &Query,
    view: View,
) -> Result<(String, usize), AllocError>
    ensures { IfOk result (λ r. ShowsSelected view (query_says query.now) document.now
        (string_bytes r.0) r.1) }
{
    cli_shown::shown(alloc, document, query, view)
}
