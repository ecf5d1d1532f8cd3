//! The manual page, made from the table of words.

ghost use Rattle.cli_words.specs.Template.{IsManual};
ghost use Rattle.std.specs.Prelude.{IfOk, string_bytes};

use crate::template::FlagPart::{Help, Long, Short, Value};
use crate::template::{Between, FlagPart, Template, WordPart, write};
use crate::words::{ABOUT, VERSION, words};
use std::alloc::{AllocError, Global};

/// Returns the manual page, as `man` reads it.
pub fn manual(alloc: Global) -> Result<String, AllocError>
    ensures { IfOk result (λ s. IsManual (string_bytes s)) }
{
    write(alloc, &PAGE, words())
}

/// The manual page.
const PAGE: Template = Template {
    escapes: &[('-', "\\-"), ('\\', "\\e"), ('.', "\\&."), ('\'', "\\(aq")],
    title: ".TH KDL 1 ",
    head: &[
        "\"\" \"kdl ",
        VERSION,
        "\"\n.SH NAME\nkdl \\- ",
        ABOUT,
        "\n.SH SYNOPSIS\n",
    ],
    list: &[
        WordPart::Text(".B kdl "),
        WordPart::Name,
        WordPart::Text("\n\\fI"),
        WordPart::IfFlags("[FLAGS] "),
        WordPart::Usage,
        WordPart::Text("\\fR\n.br\n"),
    ],
    middle: ".SH WORDS\n",
    section: &[
        WordPart::Text(".SS "),
        WordPart::Name,
        WordPart::Text("\n"),
        WordPart::About,
        WordPart::Text(".\n"),
        WordPart::Flags(&[
            FlagPart::Text(".TP\n\\fB"),
            Short("\\-", "\\fR, \\fB"),
            FlagPart::Text("\\-\\-"),
            Long,
            FlagPart::Text("\\fR"),
            Value(" \\fI", "\\fR"),
            FlagPart::Text("\n"),
            Help,
            FlagPart::Text("\n"),
        ]),
        WordPart::Operands(Between {
            before: ".TP\n.I ",
            between: "\n.nf\n",
            after: "\n.fi\n",
        }),
        WordPart::Text(".PP\n.nf\n"),
        WordPart::Examples,
        WordPart::Text("\n.fi\n"),
    ],
    end: ".SH EXIT STATUS
.TP
.B 0
All is well.
.TP
.B 1
A text has a fault, a file differs, or what was asked for was not found.
.TP
.B 2
The command line or the settings are wrong.
.TP
.B 3
Reading, writing or memory failed.
",
};
