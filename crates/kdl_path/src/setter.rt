//! A value that is set at a PATH.

ghost use Rattle.kdl.specs.Words.{DocumentReadsBack, IsDocument, Nodes, document_says, entries_of, node_says, value_tree};
ghost use Rattle.c_calls.specs.Entries.{IsValueText};
ghost use Rattle.kdl_path.specs.Edits.{IsMadeAt, IsSetAt, new_entry, node_with_entry};
ghost use Rattle.kdl_path.specs.Internal.Failing.{MissesIf};
ghost use Rattle.kdl_path.specs.Failures.{IsUnset, SetFails};
ghost use Rattle.kdl_path.specs.Internal.Done.{IsDoneAt, SetsValue};
ghost use Rattle.kdl_path.specs.Internal.Located.{makes_new, makes_there};
ghost use Rattle.kdl_path.specs.Internal.Made.{IsNewNode, IsValueMade, PushesNew};
ghost use Rattle.kdl_path.specs.Paths.{at_path, value_in};
ghost use Rattle.kdl_value.specs.Tree.{text_of};
ghost use Rattle.std.specs.Prelude.{◌≡◌, ◌&&◌, ◌∷◌, ◌++◌, [], IfErr, IfNone, IfOk, IfSome, IsSome, None, drop, false, true};
ghost use Rattle.std.specs.Str.{chars};

use crate::change::{Change, change_at};
use crate::create::{is_next, new_entry, new_node};
use crate::failure::{EditFailure, Missing};
use crate::insertion::put_node;
use crate::locate::{Lost, entry_place, is_next_entry, locate, missing_entry, missing_node};
use crate::path::{Path, Step, Target};
use crate::value::{Spelled, read_value};
use kdl::{KdlDocument, KdlEntry, KdlNode};
use std::alloc::Global;

/// Returns the text with VALUE in place of the value at the PATH. VALUE is written as it is given, and every byte
/// outside the former value is unchanged.
///
/// With `create`, the argument, the property or the nodes that the PATH names are made if they are missing: an argument
/// or a property after the other entries of its node, and a node at the end of its block, which is made too. An index
/// that is not the next one is not made.
///
/// Fails with `Value` if VALUE is not one value without a type, with `Text` if the text is not a document, with
/// `Missing` if it has no value at the PATH and none is made there, and with `Memory` if an allocation fails.
///
/// ```
/// let path = Path::parse(alloc, "server/port")?;
/// let text = "server { port 80 /* here */; }";
/// let changed = set(alloc, text, &path, "0x1F", false)?; // "server { port 0x1F /* here */; }"
/// ```
pub fn set(
    alloc: Global,
    text: &str,
    path: &Path,
    value: &str,
    create: bool,
) -> Result<String, EditFailure>
    // A value that is there is replaced, and no other byte.
    ensures set { IfOk result (λ out. (x : Nodes) → IsDocument (chars text.now) x
        → IsSome (at_path path.now x)
        → IsSetAt path.now (chars value.now) (chars text.now) (text_of out)) }
    // A value that is missing is made at the PATH, and all other data are those of the text.
    ensures made { IfOk result (λ out. (x : Nodes) → IsDocument (chars text.now) x
        → at_path path.now x ≡ None
        → IsMadeAt path.now (chars value.now) (chars text.now) (text_of out)) }
    // The text is a document, and without `create` it has a value there.
    ensures found { IfOk result (λ out. (x : Nodes) × IsDocument (chars text.now) x
        × (create ≡ false → IsSome (at_path path.now x))) }
    // A failure is `Value` only if VALUE is not a value, `Text` with the faults of the text only if it is not a document,
    // `Missing` only if it is one without a value at the PATH, and with `create` none can be made there, or else `Memory`.
    ensures fails { IfErr result (SetFails path.now value.now text.now create) }
{
    let value = read_value(alloc, value)?;
    let document = KdlDocument::parse(alloc, text)?;
    let changed = set_in(alloc, document, path, value, create)?;
    Ok(changed.to_string(alloc)?)
}

/// Returns the document with the value at the PATH.
fn set_in(
    alloc: Global,
    document: KdlDocument,
    path: &Path,
    value: Spelled,
    create: bool,
) -> Result<KdlDocument, EditFailure>
    ensures set { IfOk result (λ d. DocumentReadsBack document
        → IsValueText (text_of value.spelling) (value_tree value.value)
        → IsSome (at_path path.now (document_says document))
        → IsDoneAt path.now.steps.items path.now.target (text_of value.spelling) document d) }
    ensures made { IfOk result (λ d. DocumentReadsBack document
        → IsValueText (text_of value.spelling) (value_tree value.value)
        → at_path path.now (document_says document) ≡ None
        → IsValueMade path.now (value_tree value.value) document d) }
    ensures found { create ≡ false → IfOk result (λ d.
        IsSome (at_path path.now (document_says document))) }
    ensures missing { IfErr result (λ e.
        MissesIf (IsUnset path.now create (document_says document)) e) }
{
    match locate(alloc, &document, &path.steps) {
        Ok(located) => {
            let change = entry_change(alloc, located.node, &path.target, value, create)?;
            let indices = located.indices;
            Ok(change_at(alloc, document, &indices, change)?)
        }
        Err(Lost::Step(indices, nodes)) => {
            let node = made_node(alloc, nodes, path, indices.len(), value, create)?;
            put_node(alloc, document, &indices, node)
        }
        Err(Lost::Document) => Err(EditFailure::Missing(Missing::Document)),
        Err(Lost::Memory) => Err(EditFailure::Memory),
    }
}

/// The node of the step at that index, which is not among the nodes, with the value in it or below it.
fn made_node(
    alloc: Global,
    nodes: &[KdlNode],
    path: &Path,
    number: usize,
    value: Spelled,
    create: bool,
) -> Result<KdlNode, EditFailure>
    ensures created { IfOk result (λ n. (create ≡ true)
        × (makes_new (drop number path.now.steps.items) path.now.target nodes.now ≡ true)) }
    ensures made { IfOk result (λ n. IsValueText (text_of value.spelling) (value_tree value.value)
        → IsNewNode [] (drop number path.now.steps.items)
        (node_with_entry (new_entry path.now.target (value_tree value.value))) n) }
    ensures missing { IfErr result (λ e. MissesIf (create ≡ true
        → makes_new (drop number path.now.steps.items) path.now.target nodes.now ≡ false) e) }
{
    let rest = steps_from(&path.steps, number);
    let Some((last, above)) = steps_to_make(create, nodes, rest, &path.target) else {
        return Err(EditFailure::Missing(missing_node(alloc, nodes, path, number)?));
    };
    let entry = new_entry(alloc, &path.target, value)?;
    new_node(alloc, above, last, entry, number)
}

/// The last of the steps and those above it, if the node of the first one, which is missing, is made after the nodes.
fn steps_to_make<'a>(
    create: bool,
    nodes: &[KdlNode],
    steps: &'a [Step],
    target: &Target,
) -> Option<(&'a Step, &'a [Step])>
    ensures some { IfSome result (λ (last, above). (create ≡ true)
        × (makes_new steps.now target.now nodes.now ≡ true) × (steps.now ≡ above.now ++ last.now ∷ [])) }
    ensures none { IfNone result (create ≡ true → makes_new steps.now target.now nodes.now ≡ false) }
{
    if create && is_next(nodes, steps, target) {
        steps.split_last()
    } else {
        None
    }
}

/// The steps from that index on.
fn steps_from(steps: &[Step], index: usize) -> &[Step]
    ensures { result.now ≡ drop index steps.now }
{
    if index <= steps.len() {
        steps.split_at(index).1
    } else {
        &[]
    }
}

/// The change that gives the entry of the target the value.
fn entry_change(
    alloc: Global,
    node: &KdlNode,
    target: &Target,
    value: Spelled,
    create: bool,
) -> Result<Change, EditFailure>
    ensures set { IfOk result (λ c. IsSome (value_in target.now (node_says node.now))
        → SetsValue target.now value (entries_of node.now) c) }
    ensures made { IfOk result (λ c. value_in target.now (node_says node.now) ≡ None
        → IsValueText (text_of value.spelling) (value_tree value.value)
        → PushesNew target.now (value_tree value.value) (entries_of node.now) c) }
    ensures found { create ≡ false → IfOk result (λ c.
        IsSome (value_in target.now (node_says node.now))) }
    ensures missing { IfErr result (λ e.
        MissesIf ((value_in target.now (node_says node.now) ≡ None)
        × (create ≡ true → makes_there target.now (entries_of node.now) ≡ false)) e) }
{
    let entries = node.entries();
    if let Some(at) = entry_place(entries, target) {
        return Ok(Change::SetValue(at, value));
    }
    if !may_make_entry(create, entries, target) {
        return Err(EditFailure::Missing(missing_entry(alloc, node, target)?));
    }
    Ok(Change::PushEntry(new_entry(alloc, target, value)?))
}

/// Whether the entry of the target, which is missing, is made after the entries.
fn may_make_entry(create: bool, entries: &[KdlEntry], target: &Target) -> bool
    ensures { result ≡ (create && makes_there target.now entries.now) }
{
    if create {
        is_next_entry(entries, target)
    } else {
        false
    }
}
