//! Floats as they are read. They are in a separate file, since no contract in the file of `KdlFloat` can cite specs
//! that name the type.

ghost use Rattle.kdl_text.specs.Numbers.{FloatText};
ghost use Rattle.kdl_value.specs.Tree.{float_text_of};
ghost use Rattle.std.specs.Prelude.{◌≡◌, string_bytes};
ghost use Rattle.std.specs.Str.{chars};

use super::KdlFloat;

/// Returns a float with this text, which has to be a float's.
///
/// ```
/// let float = parsed_float(String::from_str(alloc, "1.5")?); // the caller knows that this is a float's text
/// ```
pub fn parsed_float(text: String) -> KdlFloat
    requires { FloatText (chars (string_bytes text)) }
    ensures { float_text_of result ≡ chars (string_bytes text) }
{
    KdlFloat { text }
}
