//! The faults that a text can have, and the messages that report them.

use kdl_text::numbers::{NumberFault, Radix};

/// What is wrong at a place of a text.
#[derive(Clone, Copy)]
pub enum Kind {
    /// A `{` where a node's name is expected.
    Nameless,
    /// No string where a node's name is expected.
    Name,
    /// A bare string without a value end after it.
    BareEnd,
    /// Identifier characters that are not a bare string: a keyword without its `#`, or a point and a digit.
    Bare,
    /// A quoted string without a value end after it.
    QuotedEnd,
    /// A quoted string that is unclosed, or that has a character or an escape that it can't have.
    Quoted,
    /// A newline in a single-line quoted string.
    QuotedNewline,
    /// Three quotes with no newline after them.
    Opening,
    /// A line of a multi-line string that lacks the last line's spaces.
    Prefix,
    /// A raw string without a value end after it.
    RawEnd,
    /// A single-line raw string whose content is one quote or begins with two.
    RawQuotes,
    /// A raw string that is unclosed, or that has a character or lines that it can't have.
    Raw,
    /// A faulty number: its fault is that it is trailing if no value end is after it.
    Number(NumberFault),
    /// A `#` without a keyword after it.
    Keyword,
    /// Anything but exactly one string between `(` and `)`.
    Type,
    /// A `=` without a value after it.
    Value,
    /// An unclosed block.
    Block,
    /// An unclosed block comment.
    Comment,
    /// Anything else that can't be where it is.
    Misplaced,
}

/// The message and label of a faulty number.
fn message_of_number(fault: NumberFault) -> (&'static str, &'static str) {
    match fault {
        NumberFault::Trailing(radix) | NumberFault::MissingDigits(radix) => match radix {
            Radix::Decimal => ("Expected integer", "not integer"),
            Radix::Hexadecimal => ("Expected hexadecimal number", "not hexadecimal number"),
            Radix::Octal => ("Expected octal number", "not octal number"),
            Radix::Binary => ("Expected binary number", "not binary number"),
        },
        NumberFault::TrailingDecimal => ("Expected float", "not float"),
        NumberFault::MissingFraction => (
            "Non-digit character found after the '.' of a float",
            "not float",
        ),
        NumberFault::MissingExponent => (
            "Non-digit character found in the exponent part of a float",
            "not float",
        ),
        NumberFault::OutOfRange => ("Whole number out of range", "not integer"),
    }
}

impl Kind {
    /// The message and label for the kind.
    pub(crate) fn message(self) -> (&'static str, &'static str) {
        match self {
            Kind::BareEnd | Kind::Bare => ("Expected identifier string", "not identifier string"),
            Kind::QuotedEnd | Kind::Quoted => ("Expected quoted string", "not quoted string"),
            Kind::QuotedNewline => (
                "Unexpected newline in single-line quoted string",
                "not quoted string",
            ),
            Kind::Opening => (
                "Multi-line string opening quotes must be immediately followed by a newline",
                "not quoted string",
            ),
            Kind::Prefix => ("matching multiline string prefix", "not quoted string"),
            Kind::RawEnd | Kind::Raw => ("Expected raw string", "not raw string"),
            Kind::RawQuotes => (
                "Single-line raw strings cannot look like multi-line ones",
                "not raw string",
            ),
            Kind::Number(fault) => message_of_number(fault),
            Kind::Keyword => ("Expected keyword", "not keyword"),
            _ => self.message_of_place(),
        }
    }

    /// The message and label of a fault in a name, a type, a property, a block or a comment, and of anything misplaced.
    fn message_of_place(self) -> (&'static str, &'static str) {
        match self {
            Kind::Nameless => ("Found child block instead of node name", "not node name"),
            Kind::Name => ("Found invalid node name", "not node name"),
            Kind::Type => ("invalid contents inside type annotation", "not type name"),
            Kind::Value => ("Expected property value", "not property value"),
            Kind::Block => ("No closing '}' for child block", "not closed"),
            Kind::Comment => (
                "Expected closing of multi-line comment",
                "not closing of multi-line comment",
            ),
            _ => ("Expected end of document", "not EOF"),
        }
    }

    /// The hint for the kind.
    pub(crate) fn help(self) -> Option<&'static str> {
        match self {
            Kind::BareEnd
            | Kind::QuotedEnd
            | Kind::RawEnd
            | Kind::Number(NumberFault::Trailing(_) | NumberFault::TrailingDecimal) => Some(
                "A valid value was partially parsed, but was not followed by a value terminator. Did you want a space here?",
            ),
            Kind::Nameless => Some(
                "Did you forget to add the node name itself? Or perhaps terminated the node before its child block?",
            ),
            Kind::Name => Some(
                "This can be any string type, including a quoted, raw, or multiline string, as well as a plain identifier string.",
            ),
            Kind::RawQuotes => Some(
                "Consider using a regular escaped string if all you want is a single quote: \"\\\"\"",
            ),
            Kind::QuotedNewline => Some(
                "You can make a string multi-line by wrapping it in '\"\"\"', with a newline immediately after the opening quotes.",
            ),
            Kind::Prefix => Some(
                "Multi-line string bodies must be prefixed by the exact same whitespace as the leading whitespace before the closing '\"\"\"'",
            ),
            Kind::Number(NumberFault::MissingExponent) => {
                Some("Floats with exponent parts should look like '2.0e123', or '43.3E-4'.")
            }
            Kind::Keyword => Some(
                "Available keywords in KDL are '#true', '#false', '#null', '#nan', '#inf', and '#-inf'; they are case-sensitive.",
            ),
            _ => None,
        }
    }
}
