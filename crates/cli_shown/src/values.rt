//! Values on lines.

ghost use Rattle.cli_shown.specs.Values.{line_of, shown_value};
ghost use Rattle.kdl.specs.Words.{value_tree};
ghost use Rattle.std.specs.List.{flat_map};
ghost use Rattle.std.specs.Prelude.{◌≡◌, ◌++◌, IfOk, OnOk, encode_utf8_all, map, string_bytes, true};

use kdl::KdlValue;
use std::alloc::{AllocError, Global};

/// Returns a line for each value: a string without quotes and escapes if `raw`. Returns an error if an allocation fails.
pub fn lines_of(alloc: Global, values: &[&KdlValue], raw: bool) -> Result<String, AllocError>
    ensures { IfOk result (λ s. string_bytes s
        ≡ flat_map (line_of raw) (map (λ v. value_tree v.now) values.now)) }
{
    let mut lines = String::new(alloc);
    for value in values {
        push_value(alloc, &mut lines, *value, raw)?;
    }
    Ok(lines)
}

/// Appends a line with the value: a string without quotes and escapes if `raw`. Returns an error if an allocation fails.
pub fn push_value(
    alloc: Global,
    out: &mut String,
    value: &KdlValue,
    raw: bool,
) -> Result<(), AllocError>
    ensures { OnOk result (string_bytes out.new
        ≡ string_bytes out.old ++ line_of raw (value_tree value.now)) }
{
    let text = if raw {
        unquoted(alloc, value)?
    } else {
        value.to_string(alloc)?
    };
    out.push_str(&text)?;
    out.push('\n')
}

/// Returns the value as it is printed, but a string without quotes and escapes.
fn unquoted(alloc: Global, value: &KdlValue) -> Result<String, AllocError>
    ensures { IfOk result (λ s. string_bytes s
        ≡ encode_utf8_all (shown_value true (value_tree value.now))) }
{
    match value {
        KdlValue::String(text) => String::from_str(alloc, text),
        _ => value.to_string(alloc),
    }
}
