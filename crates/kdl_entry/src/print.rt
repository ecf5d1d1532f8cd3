//! Printed types and keys.

ghost use Rattle.kdl_entry.specs.Print.{print_type, print_key};
ghost use Rattle.kdl_entry.specs.Tree.{identifier_tree};
ghost use Rattle.std.specs.Fmt.{WritesOnOk};
ghost use Rattle.std.specs.Prelude.{Some, option_map};
ghost use Rattle.std.specs.Str.{chars, encode_utf8_all};

use crate::identifier::KdlIdentifier;
use kdl_value::{write_char, write_text};
use std::fmt;
use std::fmt::{Display, Formatter, Write};

/// Writes a type between parentheses, with a text before it and one after it. Writes nothing if there is no type.
///
/// ```
/// write_type(&None, " ", "", f)?; // writes nothing; of the type `u16` it writes "( u16)"
/// ```
#[inline(always)]
pub fn write_type<W: Write>(
    ty: &Option<KdlIdentifier>,
    before: &str,
    after: &str,
    f: &mut Formatter<W>,
) -> fmt::Result
    ensures { WritesOnOk W.write_str_gives f.old result
        (encode_utf8_all (print_type (option_map identifier_tree ty.now) (chars before.now)
        (chars after.now))) f.new }
{
    match ty {
        Some(ty) => write_a_type(ty, before, after, f),
        None => Ok(()),
    }
}

/// Writes a type between parentheses, with a text before it and one after it.
fn write_a_type<W: Write>(
    ty: &KdlIdentifier,
    before: &str,
    after: &str,
    f: &mut Formatter<W>,
) -> fmt::Result
    ensures { WritesOnOk W.write_str_gives f.old result
        (encode_utf8_all (print_type (Some (identifier_tree ty.now)) (chars before.now)
        (chars after.now))) f.new }
{
    write_char('(', f)?;
    write_text(before, f)?;
    ty.fmt(f)?;
    write_text(after, f)?;
    write_char(')', f)
}

/// Writes the key of a property and `=`, with a text after each. Writes nothing if there is no key.
pub(crate) fn write_key<W: Write>(
    name: &Option<KdlIdentifier>,
    after_key: &str,
    after_eq: &str,
    f: &mut Formatter<W>,
) -> fmt::Result
    ensures { WritesOnOk W.write_str_gives f.old result
        (encode_utf8_all (print_key (option_map identifier_tree name.now) (chars after_key.now)
        (chars after_eq.now))) f.new }
{
    if let Some(name) = name {
        name.fmt(f)?;
        write_text(after_key, f)?;
        write_char('=', f)?;
        write_text(after_eq, f)?;
    }
    Ok(())
}
