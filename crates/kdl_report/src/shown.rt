//! How text is shown in a terminal, and how many columns it takes there.

ghost use Rattle.kdl_report.specs.Shown.{Appends, carets, columns, is_hidden, shown, shown_bytes, shown_char, visible};
ghost use Rattle.kdl_report.specs.Windows.{room};
ghost use Rattle.kdl_text.specs.Chars.{times};
ghost use Rattle.std.specs.Prelude.{◌≡◌, ◌==◌, ◌≤◌, ◌∷◌, [], IfOk, IsTrue, chars, decimal, encode_utf8_all, length, string_bytes};

use itoa::Buffer;
use kdl_text::chars::{is_banned, is_newline_char};
use std::alloc::{AllocError, Global};
use unicode_width::UnicodeWidthChar;

/// The columns of a tab.
const TAB_COLUMNS: usize = 4;

/// The character that is shown in place of one that a terminal may act on.
const HIDDEN: char = '\u{fffd}';

/// Whether a terminal may act on the character: a control character, a newline, or one of those that KDL bans, such as
/// marks that reorder a line.
fn is_hidden(c: char) -> bool
    ensures { result ≡ is_hidden c }
{
    is_banned(c) || is_newline_char(c) || c.width().is_none()
}

/// The character that is shown for one that is no tab.
fn visible(c: char) -> char
    ensures { result ≡ visible c }
{
    if is_hidden(c) { HIDDEN } else { c }
}

/// The columns of what is shown for a character.
fn columns_of(c: char) -> usize
    ensures value { result ≡ columns (shown_char c) }
    ensures bound { result ≤ 4 }
{
    if c == '\t' {
        return TAB_COLUMNS;
    }
    visible(c).width().unwrap_or(0)
}

/// The columns that a character takes in a line that is cut: at least one.
pub(crate) fn room_of(c: char) -> usize
    ensures { result ≡ room c }
{
    columns_of(c).max(1)
}

/// Appends the text as it is.
pub(crate) fn put(out: &mut String, text: &str) -> Result<(), AllocError>
    ensures { Appends result out.old out.new (chars text.now) }
{
    out.push_str(text)
}

/// Appends the character.
pub(crate) fn put_char(out: &mut String, c: char) -> Result<(), AllocError>
    ensures { Appends result out.old out.new (c ∷ []) }
{
    out.push(c)
}

/// Appends the number, in decimal.
pub(crate) fn put_number(out: &mut String, n: usize) -> Result<(), AllocError>
    ensures { Appends result out.old out.new (decimal n) }
{
    let mut buffer = Buffer::new();
    put(out, buffer.format(n))
}

/// Returns the number of digits of a number in decimal.
pub(crate) fn digits(n: usize) -> usize
    ensures { result ≡ length (decimal n) }
{
    let mut buffer = Buffer::new();
    buffer.format(n).len()
}

/// Appends a character n times.
pub(crate) fn put_times(out: &mut String, n: usize, c: char) -> Result<(), AllocError>
    ensures { Appends result out.old out.new (times n c) }
{
    for _k in 0..n {
        put_char(out, c)?;
    }
    Ok(())
}

/// Returns what is shown for a character: in the buffer, but for a tab.
pub fn shown_char(c: char, buffer: &mut [u8; 4]) -> &str
    ensures { result.now ≡ encode_utf8_all (shown_char c) }
{
    if c == '\t' {
        "    "
    } else {
        visible(c).encode_utf8(buffer)
    }
}

/// Returns whether the text is shown as it is.
pub fn is_shown_as_is(text: &str) -> bool
    ensures { IsTrue result → shown_bytes text.now ≡ text.now }
{
    for c in text.chars() {
        if c == '\t' || is_hidden(c) {
            return false;
        }
    }
    true
}

/// Returns what is shown for the text.
pub fn shown_text(alloc: Global, text: &str) -> Result<String, AllocError>
    ensures { IfOk result (λ out. string_bytes out ≡ shown_bytes text.now) }
{
    let mut out = String::new(alloc);
    put_shown(&mut out, text)?;
    Ok(out)
}

/// Appends what is shown for a character.
fn put_shown_char(out: &mut String, c: char) -> Result<(), AllocError>
    ensures { Appends result out.old out.new (shown_char c) }
{
    if c == '\t' {
        put_times(out, TAB_COLUMNS, ' ')
    } else {
        put_char(out, visible(c))
    }
}

/// Appends what is shown for the text.
pub(crate) fn put_shown(out: &mut String, text: &str) -> Result<(), AllocError>
    ensures { Appends result out.old out.new (shown (chars text.now)) }
{
    for c in text.chars() {
        put_shown_char(out, c)?;
    }
    Ok(())
}

/// Appends a mark for each column of what is shown for the text, and returns whether there is none.
pub(crate) fn put_columns(out: &mut String, text: &str, mark: char) -> Result<bool, AllocError>
    ensures bare { IfOk result (λ bare. bare ≡ (columns (shown (chars text.now)) == 0)) }
    ensures marks { Appends result out.old out.new (times (columns (shown (chars text.now))) mark) }
{
    let mut bare = true;
    for c in text.chars() {
        let n = columns_of(c);
        bare = bare & (n == 0);
        put_times(out, n, mark)?;
    }
    Ok(bare)
}

/// Appends a caret for each column of what is shown for the text, and at least one.
pub(crate) fn put_carets(out: &mut String, text: &str) -> Result<(), AllocError>
    ensures { Appends result out.old out.new (carets (chars text.now)) }
{
    let bare = put_columns(out, text, '^')?;
    if bare {
        return put_char(out, '^');
    }
    Ok(())
}
