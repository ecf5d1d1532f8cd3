//! The error of a refused query text.

ghost use Rattle.kdl_query.specs.declared.error.Refusal.TheVariants.{Memory};
ghost use Rattle.std.specs.Prelude.{◌≡◌};

use kdl_text::span::SourceSpan;
use std::alloc::{AllocError, AllocFailed};
use thiserror::Error;

/// Why a text is no query, and where.
#[derive(Clone, Copy, Debug, PartialEq, Eq, Error)]
#[error("{message}")]
pub struct QueryError {
    /// The span of the fault, in bytes, on character boundaries of the text.
    pub span: SourceSpan,
    /// A message that says what is wrong.
    pub message: &'static str,
    /// A hint that may help.
    pub help: Option<&'static str>,
}

/// Why a query was not read from a text.
#[derive(Clone, Copy, Debug, PartialEq, Eq, Error)]
pub enum QueryFailure {
    /// The text is no query.
    #[error(transparent)]
    Syntax(QueryError),
    /// An allocation failed.
    #[error("out of memory")]
    Memory,
}

impl<T: Drop> From<AllocFailed<T>> for QueryFailure {
    ghost use Rattle.kdl_query.specs.declared.error.QueryFailure.TheVariants.{Memory as OutOfMemory};

    ghost from_gives = { λ _ e. e ≡ OutOfMemory };

    fn from(_: AllocFailed<T>) -> QueryFailure {
        QueryFailure::Memory
    }
}

impl From<AllocError> for QueryFailure {
    ghost use Rattle.kdl_query.specs.declared.error.QueryFailure.TheVariants.{Memory as OutOfMemory};

    ghost from_gives = { λ _ e. e ≡ OutOfMemory };

    fn from(_: AllocError) -> QueryFailure {
        QueryFailure::Memory
    }
}

/// What is wrong at a place in a text.
#[derive(Clone, Copy)]
pub(crate) enum Fault {
    /// No node begins there.
    Node,
    /// No operator is there, and the text does not end.
    Operator,
    /// The same, after a name with the characters of an operator in it.
    JoinedOperator,
    /// `//` is there.
    Slashes,
    /// An operator is there as a name.
    OperatorName,
    /// The name there has a `(` after it, and is not that of a function.
    Function,
    /// Neither a type nor `)` is there.
    Type,
    /// No name is there.
    Name,
    /// No `)` is there.
    Parenthesis,
    /// No accessor is there.
    Accessor,
    /// No index is there.
    Index,
    /// The key there is bare, has the first character of a comparison at its end, and `=` after it.
    JoinedComparison,
    /// Neither a comparison nor `]` is there.
    Comparison,
    /// Nothing that a comparison may have at its right is there.
    Value,
    /// What is there does not fit the comparison or the accessor before it.
    Unfit,
    /// No `]` is there.
    Bracket,
}

impl Fault {
    /// The message.
    pub(crate) fn message(self) -> &'static str {
        match self {
            Fault::Node => "Expected a node",
            Fault::Operator | Fault::JoinedOperator => "Expected an operator",
            Fault::Slashes => "Unexpected `//`",
            Fault::OperatorName => "Unexpected operator",
            Fault::Function => "Unknown function",
            Fault::Type => "Expected a type or `)`",
            Fault::Name => "Expected a name",
            Fault::Parenthesis => "Expected `)`",
            Fault::Accessor => "Expected a property, a function or `]`",
            Fault::Index => "Expected an index or `)`",
            Fault::JoinedComparison => "Expected a space before the comparison",
            Fault::Comparison => "Expected a comparison or `]`",
            Fault::Value => "Expected a value or a type",
            Fault::Unfit => "Invalid value for this comparison",
            Fault::Bracket => "Expected `]`",
        }
    }

    /// A hint that may help.
    pub(crate) fn help(self) -> Option<&'static str> {
        match self {
            Fault::Node => Some(
                "A node is a type, a name or tests, or these in a row: `(type)name[property]`",
            ),
            Fault::Operator => {
                Some(
                    "Write `>>`, `>`, `++` or `+` between two nodes, and `||` between two selectors",
                )
            }
            Fault::JoinedOperator => {
                Some("A bare name may contain `>`, `+` and `|`: write a space before an operator")
            }
            Fault::Slashes => Some(
                "Write `>>` before a descendant; a query has no line comments, but has `/* */`",
            ),
            Fault::OperatorName => Some("As a name, write it between quotes"),
            Fault::Function => Some(
                "`top()` begins a selector; tests have `val()`, `prop()`, `name()`, `tag()`, `values()` and `props()`",
            ),
            Fault::Index => Some("An index is a whole number in base 10, from 0 on"),
            Fault::JoinedComparison => {
                Some("A bare name may contain `!`, `>`, `<`, `^`, `$` and `*`: write `[a != 1]`")
            }
            Fault::Comparison => {
                Some("Comparisons are `=`, `!=`, `>`, `>=`, `<`, `<=`, `^=`, `$=` and `*=`")
            }
            Fault::Unfit => Some(
                "`>`, `>=`, `<` and `<=` compare numbers; `^=`, `$=`, `*=`, `name()` and `tag()` compare strings",
            ),
            _ => None,
        }
    }
}

/// Why a piece of a query was not read.
#[derive(Clone, Copy)]
pub(crate) enum Refusal {
    /// No such piece is in the text, for a fault where the cursor is.
    Fault(Fault),
    /// An allocation failed.
    Memory,
}

impl<T: Drop> From<AllocFailed<T>> for Refusal {
    ghost from_gives = { λ _ e. e ≡ Memory };

    fn from(_: AllocFailed<T>) -> Refusal {
        Refusal::Memory
    }
}

impl From<AllocError> for Refusal {
    ghost from_gives = { λ _ e. e ≡ Memory };

    fn from(_: AllocError) -> Refusal {
        Refusal::Memory
    }
}
