//! A fault on one line.

ghost use Rattle.kdl_report.specs.Picture.{labelled, one_line};
ghost use Rattle.kdl_report.specs.Shown.{Appends, text_of};
ghost use Rattle.std.specs.Prelude.{◌≡◌, IfOk, chars, option_map};

use crate::picture::put_location;
use crate::places::Lines;
use crate::shown::{put, put_char, put_shown};
use crate::words::{message_of, optional, word_of};
use kdl_text::error::KdlDiagnostic;
use std::alloc::{AllocError, Global};

/// Returns a fault of the text on one line: `config.kdl:2:6: error: Expected keyword: not keyword`, and a newline. What a
/// terminal may act on is U+FFFD, as in a picture.
pub fn short(
    alloc: Global,
    name: &str,
    lines: &Lines<'_>,
    fault: &KdlDiagnostic,
) -> Result<String, AllocError>
    ensures { IfOk result (λ out. text_of out ≡ one_line (chars name.now) lines.now fault.now) }
{
    let mut out = String::new(alloc);
    put_location(&mut out, name, lines.place(fault.span.offset))?;
    put(&mut out, ": ")?;
    put(&mut out, word_of(fault.severity))?;
    put(&mut out, ": ")?;
    put_shown(&mut out, message_of(fault))?;
    put_label(&mut out, optional(&fault.label))?;
    put_char(&mut out, '\n')?;
    Ok(out)
}

/// Appends the label, if there is one.
fn put_label(out: &mut String, label: Option<&str>) -> Result<(), AllocError>
    ensures { Appends result out.old out.new (labelled (option_map (λ s. chars s.now) label.entry)) }
{
    match label {
        Some(label) => {
            put(out, ": ")?;
            put_shown(out, label)
        }
        None => Ok(()),
    }
}
