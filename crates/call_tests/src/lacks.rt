//! How many newlines a text around nodes lacks for what follows it not to become part of it.

use crate::reading::equal;
use kdl_layout::{Place, gap_lacks, is_node_spaces, place_lacks, terminator_lacks};

/// Texts, and how many newlines each lacks as a gap, or `None` if it is not a gap.
const GAPS: &[(&str, Option<usize>)] = &[
    ("", Some(0)),
    (" /* x */", Some(0)),
    ("// c\n", Some(0)),
    ("\r", Some(0)),
    ("// c", Some(1)),
    ("\n\\", Some(1)),
    ("\\ // c", Some(1)),
    ("\\ /* x */", Some(1)),
    ("\\\r", Some(0)),
    ("x", None),
    ("\\ x", None),
    // After a dropped node its terminator is lacking too.
    ("/-x;", Some(0)),
    ("/-x\n", Some(0)),
    ("/-x\r", Some(0)),
    ("/-x", Some(1)),
    ("/-x ", Some(1)),
    ("/-x // c", Some(1)),
    ("/-x;/-y {}", Some(1)),
    ("/-x \\\n", Some(1)),
    ("/-x \\", Some(2)),
    ("/-x \\ // c", Some(2)),
    ("/-x \\\r", Some(2)),
    ("/-", None),
];

/// The same for a terminator and a gap.
const TERMINATORS: &[(&str, Option<usize>)] = &[
    (";", Some(0)),
    ("\n", Some(0)),
    ("\r", Some(0)),
    ("// c\n", Some(0)),
    (";// c\n", Some(0)),
    ("", Some(1)),
    ("// c", Some(1)),
    (";// c", Some(1)),
    ("\n\\", Some(1)),
    ("\n/-x", Some(1)),
    ("\n/-x \\", Some(2)),
    (";;", None),
    (" \n", None),
];

/// Places before a terminator, texts, and whether each lacks the newline of an escline, or `None` if it can't be there.
const PLACES: &[(Place, &str, Option<bool>)] = &[
    (Place::BeforeBlock, "", Some(false)),
    (Place::BeforeBlock, " /-3", Some(false)),
    (Place::BeforeBlock, " /-{}", Some(false)),
    (Place::BeforeBlock, " \\\n", Some(false)),
    (Place::BeforeBlock, " \\", Some(true)),
    (Place::BeforeBlock, " \\ // c", Some(true)),
    (Place::BeforeBlock, " \\ /* x */", Some(true)),
    (Place::AfterBlock, " \\\r", Some(true)),
    (Place::AfterBlock, "/-{} ", Some(false)),
    (Place::AfterBlock, "/-3", None),
    (Place::BeforeBlock, " // c", None),
];

/// Texts, and whether each is spaces that end with the newline of each escline.
const SPACES: &[(&str, bool)] = &[
    ("", true),
    (" /* a */ ", true),
    (" \\\n", true),
    (" \\ // a\n", true),
    (" \\\r ", true),
    (" \\", false),
    (" \\\r", false),
    (" \\ // a", false),
    ("// a\n", false),
    ("a", false),
];

#[test]
fn texts_lack_newlines(rt: HostRuntime) {
    let alloc = rt.alloc();
    for (text, lacks) in GAPS {
        equal(&rt, &gap_lacks(alloc, text).expect(&rt, "memory"), lacks);
    }
    for (text, lacks) in TERMINATORS {
        let found = terminator_lacks(alloc, text).expect(&rt, "memory");
        equal(&rt, &found, lacks);
    }
    for (place, text, lacks) in PLACES {
        let found = place_lacks(alloc, *place, text).expect(&rt, "memory");
        equal(&rt, &found, lacks);
    }
    for (text, is_whole) in SPACES {
        let found = is_node_spaces(alloc, text).expect(&rt, "memory");
        equal(&rt, &found, is_whole);
    }
}
