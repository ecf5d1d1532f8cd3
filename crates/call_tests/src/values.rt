//! Values, identifiers and entries: printed texts, the order of values, what equality and hashes compare, their parts,
//! and copies.

use crate::edits::entry;
use crate::reading::{
    differ, equal, float, hash_of, holds, identifier, is_copy, prints, string, text,
};
use kdl::{KdlEntry, KdlEntryFormat, KdlIdentifier, KdlValue, SourceSpan};
use std::alloc::Global;
use std::cmp::Ordering;
use std::fmt::Debug;
use std::hash::Hash;
use std::process::Abort;

const SPAN: SourceSpan = SourceSpan { offset: 3, len: 2 };

/// Values, each with the text that it prints.
fn values(rt: &impl Abort, alloc: Global) -> Vec<(KdlValue, &'static str)> {
    let least = "-170141183460469231731687303715884105728";
    vec![in alloc;
        (KdlValue::from(-17), "-17"),
        (KdlValue::from(1234567890), "1234567890"),
        (KdlValue::from(i128::MIN), least),
        (KdlValue::from(true), "#true"),
        (KdlValue::from(false), "#false"),
        (KdlValue::Null, "#null"),
        (KdlValue::from(None), "#null"),
        (KdlValue::from(Some(KdlValue::from(1))), "1"),
        (KdlValue::from(float(rt, alloc, "1.03e2")), "1.03e2"),
        (KdlValue::from(text(rt, alloc, "a b")), "\"a b\""),
        (string(rt, alloc, "foo\n"), "\"foo\\n\""),
    ]
    .expect(rt, "memory")
}

#[test]
fn printed_values(rt: HostRuntime) {
    let alloc = rt.alloc();
    for (value, text) in values(&rt, alloc).iter() {
        is_copy(&rt, value.clone().ok(), value);
        prints(&rt, alloc, value, text);
    }
    let float = float(&rt, alloc, "1234567890.12345");
    is_copy(&rt, float.clone().ok(), &float);
    prints(&rt, alloc, &float, "1234567890.12345");
}

/// Values in their order.
fn ascending(rt: &impl Abort, alloc: Global) -> Vec<KdlValue> {
    vec![in alloc;
        string(rt, alloc, "1"),
        string(rt, alloc, "ab"),
        string(rt, alloc, "b"),
        KdlValue::from(-5),
        KdlValue::from(1),
        KdlValue::from(3),
        KdlValue::from(float(rt, alloc, "1.0")),
        KdlValue::from(float(rt, alloc, "10.0")),
        KdlValue::from(float(rt, alloc, "9.0")),
        KdlValue::from(false),
        KdlValue::from(true),
        KdlValue::Null,
    ]
    .expect(rt, "memory")
}

/// Asserts that the value compares with each of the values as its index does with theirs, and so do the hashes for
/// equality.
fn compares_with_each(rt: &impl Abort, index: usize, value: &KdlValue, values: &[KdlValue]) {
    for (at, other) in values.iter().enumerate() {
        equal(rt, &value.cmp(other), &index.cmp(&at));
        equal(rt, &(value == other), &(index == at));
        equal(rt, &(hash_of(value) == hash_of(other)), &(index == at));
    }
}

#[test]
fn ordered_values(rt: HostRuntime) {
    let alloc = rt.alloc();
    let values = ascending(&rt, alloc);
    let others = ascending(&rt, alloc);
    for (index, value) in values.iter().enumerate() {
        compares_with_each(&rt, index, value, others.as_slice());
    }
}

/// The kinds of a value: a string, a whole number, a float, a boolean, null.
fn kinds(value: &KdlValue) -> [bool; 5] {
    [
        value.is_string(),
        value.is_integer(),
        value.is_float(),
        value.is_bool(),
        value.is_null(),
    ]
}

#[test]
fn kinds_of_values(rt: HostRuntime) {
    let alloc = rt.alloc();
    let values = vec![in alloc;
        string(&rt, alloc, "a"),
        KdlValue::from(3),
        KdlValue::from(float(&rt, alloc, "3.0")),
        KdlValue::from(true),
        KdlValue::Null,
    ]
    .expect(&rt, "memory");
    for (index, value) in values.iter().enumerate() {
        let wanted = [index == 0, index == 1, index == 2, index == 3, index == 4];
        equal(&rt, &kinds(value), &wanted);
        let text = if index == 0 { Some("a") } else { None };
        equal(&rt, &value.as_string(), &text);
        let whole = if index == 1 { Some(3) } else { None };
        equal(&rt, &value.as_integer(), &whole);
        let truth = if index == 3 { Some(true) } else { None };
        equal(&rt, &value.as_bool(), &truth);
    }
}

/// Asserts that both are equal, and so are their hashes.
pub fn are_one<T: PartialEq + Debug + Hash>(rt: &impl Abort, a: &T, b: &T) {
    equal(rt, a, b);
    equal(rt, &hash_of(a), &hash_of(b));
}

#[test]
fn floats_by_their_texts(rt: HostRuntime) {
    let alloc = rt.alloc();
    let long = float(&rt, alloc, "103.0");
    let short = float(&rt, alloc, "1.03e2");
    differ(&rt, &short, &long);
    equal(&rt, &short.cmp(&long), &Ordering::Less);
    drop(short);
    let again = float(&rt, alloc, "103.0");
    are_one(&rt, &again, &long);
    equal(&rt, &again.cmp(&long), &Ordering::Equal);
    drop(again);
    drop(long);
    equal(&rt, &float(&rt, alloc, "#nan"), &float(&rt, alloc, "#nan"));
}

/// Asserts that the identifier has this value and spelling, and that it and an equal copy with the same span print this
/// text.
fn is_name(
    rt: &impl Abort,
    alloc: Global,
    name: &KdlIdentifier,
    value: &str,
    repr: Option<&str>,
    text: &str,
) {
    equal(rt, &name.value(), &value);
    equal(rt, &name.repr(), &repr);
    let copy = name.clone().expect(rt, "memory");
    equal(rt, &copy, name);
    equal(rt, &copy.span(), &name.span());
    prints(rt, alloc, &copy, text);
    equal(rt, &name.len(alloc).expect(rt, "memory"), &text.len());
    let is_empty = name.is_empty(alloc).expect(rt, "memory");
    equal(rt, &is_empty, &text.is_empty());
}

#[test]
fn printed_identifiers(rt: HostRuntime) {
    let alloc = rt.alloc();
    let mut name = identifier(&rt, alloc, "\u{e9}");
    is_name(&rt, alloc, &name, "\u{e9}", None, "\u{e9}");
    name.set_repr(text(&rt, alloc, "\"\\u{e9}\""));
    name.set_span(SPAN);
    let repr = "\"\\u{e9}\"";
    is_name(&rt, alloc, &name, "\u{e9}", Some(repr), repr);
    name.autoformat();
    is_name(&rt, alloc, &name, "\u{e9}", None, "\u{e9}");
    equal(&rt, &name.span(), &SPAN);
    name.set_repr(text(&rt, alloc, ""));
    is_name(&rt, alloc, &name, "\u{e9}", Some(""), "");
    drop(name);
}

#[test]
fn identifiers_of_other_values(rt: HostRuntime) {
    let alloc = rt.alloc();
    let empty = identifier(&rt, alloc, "");
    is_name(&rt, alloc, &empty, "", None, "\"\"");
    let quoted = identifier(&rt, alloc, "foo\"bar");
    is_name(&rt, alloc, &quoted, "foo\"bar", None, "\"foo\\\"bar\"");
    let mut owned = KdlIdentifier::from(text(&rt, alloc, "a b"));
    is_name(&rt, alloc, &owned, "a b", None, "\"a b\"");
    owned.set_repr(text(&rt, alloc, "\"a\\sb\""));
    is_name(&rt, alloc, &owned, "a b", Some("\"a\\sb\""), "\"a\\sb\"");
    equal(&rt, &String::from(owned).as_str(), &"a b");
}

/// Values of identifiers, and their spellings.
const NAMES: &[(&str, Option<&str>)] = &[
    ("a", None),
    ("a", Some("a")),
    ("a", Some("\"a\"")),
    ("b", None),
    ("b", Some("a")),
];

/// The identifier with that value and spelling. The value is set after the spelling.
fn spelled(rt: &impl Abort, alloc: Global, value: &str, repr: Option<&str>) -> KdlIdentifier {
    let mut name = identifier(rt, alloc, "c");
    if let Some(repr) = repr {
        name.set_repr(text(rt, alloc, repr));
    }
    name.set_value(text(rt, alloc, value));
    name
}

/// Asserts that the identifier, also with another span, equals that of the value and the spelling, or does not, and so
/// do their hashes.
fn compares_with(rt: &impl Abort, name: &KdlIdentifier, other: &mut KdlIdentifier, is_same: bool) {
    other.set_span(SPAN);
    equal(rt, &(name == other), &is_same);
    equal(rt, &(hash_of(name) == hash_of(other)), &is_same);
}

#[test]
fn identifiers_by_value_and_spelling(rt: HostRuntime) {
    let alloc = rt.alloc();
    for (value, repr) in NAMES {
        let name = spelled(&rt, alloc, value, *repr);
        equal(&rt, &(name.value(), name.repr()), &(*value, *repr));
        for (other, spelling) in NAMES {
            let is_same = value == other && repr == spelling;
            let mut other = spelled(&rt, alloc, other, *spelling);
            compares_with(&rt, &name, &mut other, is_same);
        }
    }
    let mut bare = KdlIdentifier::parse(alloc, "a").expect(&rt, "no name");
    equal(&rt, &bare, &spelled(&rt, alloc, "a", Some("a")));
    bare.clear_format();
    equal(&rt, &bare, &identifier(&rt, alloc, "a"));
}

/// The entry `k=(t)1`, with texts around it.
fn property(rt: &impl Abort, alloc: Global) -> KdlEntry {
    let key = identifier(rt, alloc, "k");
    let mut entry = KdlEntry::from((key, KdlValue::from(1)));
    entry.set_ty(identifier(rt, alloc, "t"));
    let mut format = KdlEntryFormat::new(alloc);
    format.leading.push_str("  ").expect(rt, "memory");
    format.value_repr.push_str("0x1").expect(rt, "memory");
    format.after_eq.push_str(" ").expect(rt, "memory");
    format.trailing.push_str(" ").expect(rt, "memory");
    entry.set_format(format);
    entry
}

/// Asserts that the entry prints the text, and has its length.
fn entry_prints(rt: &impl Abort, alloc: Global, entry: &KdlEntry, text: &str) {
    prints(rt, alloc, entry, text);
    equal(rt, &entry.len(alloc).expect(rt, "memory"), &text.len());
    let is_empty = entry.is_empty(alloc).expect(rt, "memory");
    equal(rt, &is_empty, &text.is_empty());
}

#[test]
fn formats_of_entries(rt: HostRuntime) {
    let alloc = rt.alloc();
    let mut entry = property(&rt, alloc);
    let mut other = property(&rt, alloc);
    equal(&rt, &entry, &other);
    entry_prints(&rt, alloc, &entry, "  k= (t)0x1 ");
    entry.keep_format();
    entry.autoformat();
    entry_prints(&rt, alloc, &entry, "  k=(t)0x1");
    entry.autoformat();
    entry_prints(&rt, alloc, &entry, "k=(t)1");
    differ(&rt, &entry, &other);
    other.clear_format();
    equal(&rt, &entry, &other);
    drop(entry);
    drop(other);
}

#[test]
fn lent_parts_of_an_entry(rt: HostRuntime) {
    let alloc = rt.alloc();
    let mut entry = property(&rt, alloc);
    if let Some(name) = entry.name_mut() {
        name.set_value(text(&rt, alloc, "key"));
    }
    if let Some(ty) = entry.ty_mut() {
        ty.set_value(text(&rt, alloc, "type"));
    }
    if let Some(format) = entry.format_mut() {
        format.after_ty.push_str(" ").expect(&rt, "memory");
    }
    *entry.value_mut() = KdlValue::Null;
    entry_prints(&rt, alloc, &entry, "  key= (type) 0x1 ");
    entry.clear_format();
    entry_prints(&rt, alloc, &entry, "key=(type)#null");
    drop(entry);
}

/// Asserts that the entry has the value 42, without a type and a format, and prints the text.
fn is_built(rt: &impl Abort, alloc: Global, entry: &KdlEntry, text: &str) {
    equal(rt, &entry.value().as_integer(), &Some(42));
    holds(rt, entry.ty().is_none(), "no type");
    holds(rt, entry.format().is_none(), "no format");
    equal(rt, &entry.span(), &SourceSpan { offset: 0, len: 0 });
    entry_prints(rt, alloc, entry, text);
}

#[test]
fn built_entries(rt: HostRuntime) {
    let alloc = rt.alloc();
    let argument = KdlEntry::new(KdlValue::from(42));
    equal(&rt, &argument.name(), &None);
    is_built(&rt, alloc, &argument, "42");
    drop(argument);
    let name = identifier(&rt, alloc, "name");
    let property = KdlEntry::new_prop(name, KdlValue::from(42));
    let wanted = identifier(&rt, alloc, "name");
    equal(&rt, &property.name(), &Some(&wanted));
    is_built(&rt, alloc, &property, "name=42");
    drop(property);
}

#[test]
fn entries_by_their_spellings(rt: HostRuntime) {
    let alloc = rt.alloc();
    let mut decimal = entry(&rt, alloc, " 16");
    let mut hexadecimal = entry(&rt, alloc, " 0x10");
    equal(&rt, hexadecimal.value(), decimal.value());
    differ(&rt, &hexadecimal, &decimal);
    hexadecimal.clear_format();
    decimal.clear_format();
    are_one(&rt, &hexadecimal, &decimal);
    decimal.set_span(SPAN);
    are_one(&rt, &hexadecimal, &decimal);
    drop(hexadecimal);
    drop(decimal);
}
