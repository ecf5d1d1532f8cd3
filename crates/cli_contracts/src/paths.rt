//! Values at a PATH.

ghost use Rattle.kdl.specs.Words.{IsDocument, Nodes, document_says, value_tree};
ghost use Rattle.kdl_path.specs.Each.{IsSetAtEach, SetEachFails};
ghost use Rattle.kdl_path.specs.Edits.{IsMadeAt, IsSetAt};
ghost use Rattle.kdl_path.specs.Failures.{IsMissing, SetFails};
ghost use Rattle.kdl_path.specs.Paths.{at_path};
ghost use Rattle.kdl_query.specs.Tree.{query_says};
ghost use Rattle.kdl_value.specs.Tree.{text_of};
ghost use Rattle.std.specs.Prelude.{◌≡◌, IfErr, IfOk, IsSome, None, Some};
ghost use Rattle.std.specs.Str.{chars};

use kdl::{KdlDocument, KdlValue};
use kdl_path::{EditFailure, GetFailure, Path, Target};
use kdl_query::Query;
use std::alloc::Global;

/// Returns the value at the PATH.
pub fn get<'a>(
    alloc: Global,
    document: &'a KdlDocument,
    path: &Path,
) -> Result<&'a KdlValue, GetFailure>
    ensures found { IfOk result (λ v.
        at_path path.now (document_says document.now) ≡ Some (value_tree v.now)) }
    ensures missing { IfErr result (λ e. IsMissing e
        → at_path path.now (document_says document.now) ≡ None) }
{
    kdl_path::get(alloc, document, path)
}

/// Returns the text with VALUE in place of the value at the PATH, or, with `create`, made there if it is missing.
pub fn set(
    alloc: Global,
    text: &str,
    path: &Path,
    value: &str,
    create: bool,
) -> Result<String, EditFailure>
    ensures set { IfOk result (λ out. (x : Nodes) → IsDocument (chars text.now) x
        → IsSome (at_path path.now x)
        → IsSetAt path.now (chars value.now) (chars text.now) (text_of out)) }
    ensures made { IfOk result (λ out. (x : Nodes) → IsDocument (chars text.now) x
        → at_path path.now x ≡ None
        → IsMadeAt path.now (chars value.now) (chars text.now) (text_of out)) }
    ensures fails { IfErr result (SetFails path.now value.now text.now create) }
{
    kdl_path::set(alloc, text, path, value, create)
}

/// Returns the text with VALUE in place of the value that the target names in each node that the query selects.
pub fn set_each(
    alloc: Global,
    text: &str,
    query: &Query,
    target: &Target,
    value: &str,
) -> Result<String, EditFailure>
    ensures set { IfOk result (λ out. (x : Nodes) × IsDocument (chars text.now) x
        × IsSetAtEach x (query_says query.now) target.now (chars value.now) (chars text.now)
        (text_of out)) }
    ensures fails { IfErr result
        (SetEachFails (query_says query.now) target.now value.now text.now) }
{
    kdl_path::set_each(alloc, text, query, target, value)
}
