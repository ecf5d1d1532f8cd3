//! Lines and columns of a text.

ghost use Rattle.c_calls.specs.Answers.{IsAmong};
ghost use Rattle.c_calls.specs.Positions.{IsNoPosition, IsPosition};
ghost use Rattle.std.specs.Prelude.{◌≡◌, ◌∷◌, []};
ghost use Rattle.std.specs.Str.{IsUtf8, chars};

use c_calls::place;
use c_calls::status::{NOT_FOUND, NOT_UTF8, OK};

/// Finds the line and the column of a byte of the text, both counted from 1. A line ends at a newline of KDL, such as
/// CR LF, which is one newline. A column is counted in characters. The end of the text has a position too.
///
/// Returns `NOT_FOUND` for an offset after the end or inside a character.
#[unsafe(no_mangle)]
pub extern "C" fn kdl_position(
    text: &[u8],
    offset: usize,
    line: &mut usize,
    column: &mut usize,
) -> u32
    ensures found { result ≡ 0 → IsPosition (chars text.now) offset line.new column.new }
    ensures missing { result ≡ 6 → IsNoPosition (chars text.now) offset }
    ensures utf8 { result ≡ 2 → IsUtf8 text.now → ⊥ }
    ensures cleared { (result ≡ 0 → ⊥) → (line.new ≡ 0) × (column.new ≡ 0) }
    ensures statuses { IsAmong (0 ∷ 2 ∷ 6 ∷ []) result }
{
    *line = 0;
    *column = 0;
    let Ok(text) = std::str::from_utf8(text) else {
        return NOT_UTF8;
    };
    let Some(place) = place::position(text, offset) else {
        return NOT_FOUND;
    };
    *line = place.line;
    *column = place.column;
    OK
}
