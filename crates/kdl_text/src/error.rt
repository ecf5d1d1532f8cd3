//! The error of a refused text.

ghost use Rattle.kdl_text.specs.declared.error.ParseFailure.TheVariants.{Memory};
ghost use Rattle.std.specs.Prelude.{◌≡◌};

use crate::span::{Severity, SourceSpan};
use std::alloc::{AllocError, AllocFailed};
use std::rc::RcStr;
use thiserror::Error;

/// A parse error: the text does not match the grammar. It has at least one diagnostic.
#[derive(Clone, Debug, Drop, PartialEq, Eq, Error)]
#[error("Failed to parse KDL document")]
pub struct KdlError {
    /// The text that was read.
    pub input: RcStr,
    /// The faults that were found, in the order in which reading meets them.
    pub diagnostics: Vec<KdlDiagnostic>,
}

/// A fault in a text.
#[derive(Clone, Debug, Drop, PartialEq, Eq, Error)]
#[error("{}", .message.as_ref().map_or("Unexpected error", |text| text.as_str()))]
pub struct KdlDiagnostic {
    /// The text that was read.
    pub input: RcStr,
    /// The span of the fault, in bytes, on character boundaries of the text.
    pub span: SourceSpan,
    /// A message that says what is wrong.
    pub message: Option<String>,
    /// A label for the span.
    pub label: Option<String>,
    /// A hint that may help.
    pub help: Option<String>,
    pub severity: Severity,
}

/// Why a text was not parsed.
#[derive(Clone, Debug, Drop, PartialEq, Eq, Error)]
pub enum ParseFailure {
    /// The text does not match the grammar.
    #[error(transparent)]
    Syntax(KdlError),
    /// An allocation failed.
    #[error("out of memory")]
    Memory,
}

impl<T: Drop> From<AllocFailed<T>> for ParseFailure {
    ghost from_gives = { λ _ e. e ≡ Memory };

    fn from(_: AllocFailed<T>) -> ParseFailure {
        ParseFailure::Memory
    }
}

impl From<AllocError> for ParseFailure {
    ghost from_gives = { λ _ e. e ≡ Memory };

    fn from(_: AllocError) -> ParseFailure {
        ParseFailure::Memory
    }
}
