//! Edits of nodes that a query selects.

ghost use Rattle.kdl.specs.Words.{document_says, identifier_tree};
ghost use Rattle.kdl_query.specs.Edits.{changed_at};
ghost use Rattle.kdl_query.specs.Selects.{IsFirstPath, IsSelected, Path};
ghost use Rattle.kdl_query.specs.Tree.{query_says};
ghost use Rattle.std.specs.Prelude.{◌≡◌, IfOk, false, true};
ghost use Rattle.use_theorems.specs.Edits.{renamed};

use kdl::{KdlDocument, KdlIdentifier};
use kdl_query::laws::{selected_paths_have_nodes, selections_begin_with_the_first};
use kdl_query::{Query, edit_at, query_paths};
use std::alloc::{AllocError, Global};

/// Renames the first node that a query selects, and returns whether it selects one.
pub fn rename_first(
    alloc: Global,
    document: &mut KdlDocument,
    query: &Query,
    name: KdlIdentifier,
) -> Result<bool, AllocError>
    // The node at the first path that the query selects has the name; all other data are unchanged.
    ensures renames { IfOk result (λ done. done ≡ true → (p : Path)
        × IsFirstPath (document_says document.old) (query_says query.now) p
        × (document_says document.new ≡ changed_at p (renamed (identifier_tree name).value)
        (document_says document.old))) }
    // Else the query selects no node, and all data are unchanged.
    ensures stays { IfOk result (λ done. done ≡ false
        → ((p : Path) → IsSelected (document_says document.old) (query_says query.now) p → ⊥)
        × (document_says document.new ≡ document_says document.old)) }
{
    selections_begin_with_the_first();
    selected_paths_have_nodes();
    let paths = query_paths(alloc, document, query)?;
    let Some(path) = paths.first() else {
        drop(name);
        return Ok(false);
    };
    edit_at(alloc, document, path, |node| node.set_name(name))?;
    Ok(true)
}
