//! The rows of a node and of an entry.

ghost use Rattle.kdl.specs.Words.{entry_data, entry_tree, node_says, said_type, value_tree};
ghost use Rattle.kdl.specs.declared.node.KdlNode.{out-KdlNode};
ghost use Rattle.c_calls.specs.Answers.{IsAmong};
ghost use Rattle.c_calls.specs.Says.{IsWithin, Grown, SaysEntry, SaysInteger, SaysKey, SaysNode, SaysType, SaysValue, flag_of};
ghost use Rattle.std.specs.Prelude.{◌≡◌, ◌≤◌, ◌<◌, ◌+◌, ◌∷◌, [], IfOk, is_some, length, take};

use crate::status::{OUT_OF_MEMORY, room};
use crate::text::{Place, put_string};
use kdl::{KdlEntry, KdlNode, KdlValue};
use std::alloc::{AllocError, Global};

/// The kind of the row of a node.
pub const NODE: u32 = 1;

/// The kind of the row of an argument.
pub const ARGUMENT: u32 = 2;

/// The kind of the row of a property.
pub const PROPERTY: u32 = 3;

/// The kind of the row that ends a block of children.
pub const END: u32 = 4;

/// The row has no value: it is the row of a node, or of the end of a block.
pub const NO_VALUE: u32 = 0;

/// The kind of a string value. The row has its text.
pub const STRING: u32 = 1;

/// The kind of an integer value that fits in an `i64`. The row has it in `integer`.
pub const INTEGER: u32 = 2;

/// The kind of an integer value that does not fit in an `i64`. The row has its decimal text.
pub const LARGE_INTEGER: u32 = 3;

/// The kind of a float value. The row has its text.
pub const FLOAT: u32 = 4;

/// The kind of a boolean value. The row has 0 or 1 in `integer`.
pub const BOOL: u32 = 5;

/// The kind of the value null.
pub const NULL: u32 = 6;

/// A node, an argument, a property, or the end of a block. Each text is a range of bytes in the strings. The fields of
/// what the row does not have are 0.
#[repr(C)]
#[derive(Clone, Copy)]
pub struct KdlRow {
    /// `NODE`, `ARGUMENT`, `PROPERTY` or `END`.
    pub kind: u32,
    /// The kind of the value, or `NO_VALUE`.
    pub value: u32,
    /// 1 if the node or the entry has a type, else 0.
    pub has_type: u32,
    /// 1 if the node has a block of children, else 0.
    pub has_block: u32,
    /// The number of an `INTEGER`, or 0 or 1 for a `BOOL`.
    pub integer: i64,
    /// Where the name of the node, or the key of the property, starts in the strings.
    pub name_start: usize,
    /// The length of the name or key in bytes.
    pub name_len: usize,
    /// Where the type starts in the strings.
    pub type_start: usize,
    /// The length of the type in bytes.
    pub type_len: usize,
    /// Where the text of a `STRING`, a `LARGE_INTEGER` or a `FLOAT` starts in the strings.
    pub text_start: usize,
    /// The length of that text in bytes.
    pub text_len: usize,
    /// The offset of the span of the node or the entry, in bytes.
    pub start: usize,
    /// The length of that span, in bytes.
    pub len: usize,
}

/// The part of a row that describes a value.
#[derive(Clone, Copy)]
struct ValueParts {
    value: u32,
    integer: i64,
    text: Place,
}

/// The place of a text that a row does not have.
const NOWHERE: Place = Place { start: 0, len: 0 };

/// A number of a row, and the place of the text that belongs to it.
#[derive(Clone, Copy)]
struct Part {
    kind: u32,
    place: Place,
}

/// Appends the key of an entry, if it has one, to the strings. Returns the kind of the row of the entry, and the place
/// of the key.
fn put_key(entry: &KdlEntry, strings: &mut [u8], used: &mut usize) -> Part
    ensures more { used.old ≤ used.new }
    ensures within { used.new ≤ length strings.old
        → result.place.start + result.place.len ≤ used.new }
    ensures grown { Grown strings.old used.old strings.new used.new }
    ensures says { used.new ≤ length strings.old → SaysKey
        (take used.new strings.new) result.kind result.place.start result.place.len
        (entry_data (entry_tree entry.now)).key }
{
    match entry.name() {
        Some(identifier) => Part {
            kind: PROPERTY,
            place: put_string(identifier.value(), strings, used),
        },
        None => Part {
            kind: ARGUMENT,
            place: NOWHERE,
        },
    }
}

/// Appends the type of an entry to the strings. Returns 1 and the place of the type, or 0 if there is none.
fn put_type(entry: &KdlEntry, strings: &mut [u8], used: &mut usize) -> Part
    ensures more { used.old ≤ used.new }
    ensures within { used.new ≤ length strings.old
        → result.place.start + result.place.len ≤ used.new }
    ensures grown { Grown strings.old used.old strings.new used.new }
    ensures says { used.new ≤ length strings.old → SaysType
        (take used.new strings.new) result.kind result.place.start result.place.len
        (entry_data (entry_tree entry.now)).ty }
{
    match entry.ty() {
        Some(identifier) => Part {
            kind: 1,
            place: put_string(identifier.value(), strings, used),
        },
        None => Part {
            kind: 0,
            place: NOWHERE,
        },
    }
}

/// Appends the type of a node to the strings. Returns 1 and the place of the type, or 0 if there is none.
fn put_node_type(node: &KdlNode, strings: &mut [u8], used: &mut usize) -> Part
    ensures more { used.old ≤ used.new }
    ensures within { used.new ≤ length strings.old
        → result.place.start + result.place.len ≤ used.new }
    ensures grown { Grown strings.old used.old strings.new used.new }
    ensures says { used.new ≤ length strings.old → SaysType
        (take used.new strings.new) result.kind result.place.start result.place.len
        (said_type (node_says node.now)) }
{
    match node.ty() {
        Some(identifier) => Part {
            kind: 1,
            place: put_string(identifier.value(), strings, used),
        },
        None => Part {
            kind: 0,
            place: NOWHERE,
        },
    }
}

/// Returns 1 for true, and 0 for false.
fn flag(is: bool) -> u32
    ensures { result ≡ flag_of is }
{
    if is { 1 } else { 0 }
}

/// Returns the row of a node, and appends the name and the type to the strings.
///
/// A text that does not fit is not written, but counted in `used`.
pub fn put_node(node: &KdlNode, strings: &mut [u8], used: &mut usize) -> KdlRow
    ensures kind { result.kind ≡ 1 }
    ensures start { result.start ≡ (out-KdlNode node.now).span.offset }
    ensures len { result.len ≡ (out-KdlNode node.now).span.len }
    ensures more { used.old ≤ used.new }
    ensures within { used.new ≤ length strings.old → IsWithin used.new result }
    ensures grown { Grown strings.old used.old strings.new used.new }
    ensures says { used.new ≤ length strings.old
        → SaysNode (take used.new strings.new) result (node_says node.now) }
{
    let name = put_string(node.name().value(), strings, used);
    let ty = put_node_type(node, strings, used);
    let span = node.span();
    KdlRow {
        kind: NODE,
        value: NO_VALUE,
        has_type: ty.kind,
        has_block: flag(node.children().is_some()),
        integer: 0,
        name_start: name.start,
        name_len: name.len,
        type_start: ty.place.start,
        type_len: ty.place.len,
        text_start: 0,
        text_len: 0,
        start: span.offset,
        len: span.len,
    }
}

/// Returns the part of a row that describes an integer. If the integer does not fit in an `i64`, appends its decimal
/// text to the strings.
fn put_integer(
    alloc: Global,
    number: i128,
    strings: &mut [u8],
    used: &mut usize,
) -> Result<ValueParts, AllocError>
    ensures more { used.old ≤ used.new }
    ensures within { IfOk result (λ v. used.new ≤ length strings.old
        → v.text.start + v.text.len ≤ used.new) }
    ensures grown { Grown strings.old used.old strings.new used.new }
    ensures says { IfOk result (λ v. used.new ≤ length strings.old
        → SaysInteger (take used.new strings.new) v.value v.integer v.text.start v.text.len number) }
{
    match i64::try_from(number) {
        Ok(integer) => Ok(ValueParts {
            value: INTEGER,
            integer,
            text: NOWHERE,
        }),
        Err(_) => {
            let printed = number.to_string(alloc)?;
            Ok(ValueParts {
                value: LARGE_INTEGER,
                integer: 0,
                text: put_string(&printed, strings, used),
            })
        }
    }
}

/// Returns the part of a row that describes a value, and appends its text, if it has one, to the strings.
fn put_value(
    alloc: Global,
    value: &KdlValue,
    strings: &mut [u8],
    used: &mut usize,
) -> Result<ValueParts, AllocError>
    ensures more { used.old ≤ used.new }
    ensures within { IfOk result (λ v. used.new ≤ length strings.old
        → v.text.start + v.text.len ≤ used.new) }
    ensures grown { Grown strings.old used.old strings.new used.new }
    ensures says { IfOk result (λ v. used.new ≤ length strings.old
        → SaysValue (take used.new strings.new) v.value v.integer v.text.start v.text.len
        (value_tree value.now)) }
{
    match value {
        KdlValue::Integer(number) => put_integer(alloc, *number, strings, used),
        KdlValue::String(text) => Ok(ValueParts {
            value: STRING,
            integer: 0,
            text: put_string(text.as_str(), strings, used),
        }),
        KdlValue::Float(float) => Ok(ValueParts {
            value: FLOAT,
            integer: 0,
            text: put_string(float.as_str(), strings, used),
        }),
        KdlValue::Bool(is) => Ok(ValueParts {
            value: BOOL,
            integer: i64::from(*is),
            text: NOWHERE,
        }),
        KdlValue::Null => Ok(ValueParts {
            value: NULL,
            integer: 0,
            text: NOWHERE,
        }),
    }
}

/// Returns the row of an entry, and appends the key, the type and the text of the value to the strings. Returns an
/// error if an allocation fails.
///
/// A text that does not fit is not written, but counted in `used`.
pub fn put_entry(
    alloc: Global,
    entry: &KdlEntry,
    strings: &mut [u8],
    used: &mut usize,
) -> Result<KdlRow, AllocError>
    ensures start { IfOk result (λ r. r.start ≡ (entry_tree entry.now).span.offset) }
    ensures len { IfOk result (λ r. r.len ≡ (entry_tree entry.now).span.len) }
    ensures more { used.old ≤ used.new }
    ensures within { IfOk result (λ r. used.new ≤ length strings.old → IsWithin used.new r) }
    ensures grown { Grown strings.old used.old strings.new used.new }
    ensures says { IfOk result (λ r. used.new ≤ length strings.old
        → SaysEntry (take used.new strings.new) r (entry_data (entry_tree entry.now))) }
{
    let name = put_key(entry, strings, used);
    let ty = put_type(entry, strings, used);
    let value = put_value(alloc, entry.value(), strings, used)?;
    let span = entry.span();
    Ok(KdlRow {
        kind: name.kind,
        value: value.value,
        has_type: ty.kind,
        has_block: 0,
        integer: value.integer,
        name_start: name.place.start,
        name_len: name.place.len,
        type_start: ty.place.start,
        type_len: ty.place.len,
        text_start: value.text.start,
        text_len: value.text.len,
        start: span.offset,
        len: span.len,
    })
}

/// Writes the row of an entry that was found, and appends its texts to the strings.
///
/// Returns `OK` if the texts fit, and `TOO_SMALL` if not; the row is written in both cases. Returns `OUT_OF_MEMORY` if
/// an allocation fails.
pub fn put_found(
    alloc: Global,
    entry: &KdlEntry,
    row: &mut KdlRow,
    strings: &mut [u8],
    string_len: &mut usize,
) -> u32
    ensures within { result ≡ 0 → IsWithin string_len.new row.new }
    ensures strings { result ≡ 0 → string_len.new ≤ length strings.old }
    ensures small { result ≡ 4 → length strings.old < string_len.new }
    ensures says { result ≡ 0 → SaysEntry (take string_len.new strings.new) row.new
        (entry_data (entry_tree entry.now)) }
    ensures statuses { IsAmong (0 ∷ 3 ∷ 4 ∷ []) result }
{
    match put_entry(alloc, entry, strings, string_len) {
        Err(_) => OUT_OF_MEMORY,
        Ok(found) => {
            *row = found;
            room(0, 0, strings.len(), *string_len)
        }
    }
}
