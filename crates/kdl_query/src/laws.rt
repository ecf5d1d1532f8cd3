//! Laws: functions without code, whose clauses a caller's proof uses.

ghost use Rattle.kdl_grammar.specs.Data.{Nodes};
ghost use Rattle.kdl_query.specs.Data.{Query};
ghost use Rattle.kdl_query.specs.Selects.{IsFirstPath, IsSelected, IsSelection, Path, node_at};
ghost use Rattle.std.specs.Prelude.{[], ◌∷◌, IsSome, List};

/// The first path of a selection is the first path that the query selects. Where a selection is empty, the query selects
/// no path.
pub fn selections_begin_with_the_first()
    ensures first { (x : Nodes) (q : Query) (p : Path) (ps : List Path)
        → IsSelection x q (p ∷ ps) → IsFirstPath x q p }
    ensures none { (x : Nodes) (q : Query) (p : Path)
        → IsSelection x q [] → IsSelected x q p → ⊥ }
{}

/// A path that a query selects is that of a node.
pub fn selected_paths_have_nodes()
    ensures { (x : Nodes) (q : Query) (p : Path) → IsSelected x q p → IsSome (node_at p x) }
{}
