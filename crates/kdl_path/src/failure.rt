//! Why a value was not found, and why an edit was not made.

ghost use Rattle.kdl_path.specs.Failures.{edit_of};
ghost use Rattle.kdl_path.specs.declared.failure.EditFailure.TheVariants.{Memory};
ghost use Rattle.kdl_path.specs.declared.failure.GetFailure.TheVariants.{Memory as OutOfMemory};
ghost use Rattle.std.specs.Prelude.{◌≡◌};

use c_calls::status::Refused;
use kdl::{KdlError, ParseFailure};
use std::alloc::{AllocError, AllocFailed};
use std::fmt;

/// The part of a PATH that a document does not have, or what a query does not select.
#[derive(Debug, Drop)]
pub enum Missing {
    /// No node has the name of the step at that index: the name, and the nearest name of a node that is there.
    Node {
        step: usize,
        name: String,
        nearest: Option<String>,
    },
    /// Fewer nodes have the name of the step at that index: the name, the index that is asked for, and their number.
    Index {
        step: usize,
        name: String,
        index: usize,
        count: usize,
    },
    /// The node has no property of that name: the name, and the nearest name of a property that is there.
    Property {
        name: String,
        nearest: Option<String>,
    },
    /// The node has fewer arguments: the index that is asked for, and their number.
    Argument {
        index: usize,
        count: usize,
    },
    /// The PATH is `/`, which is no node and has no value.
    Document,
    /// The query selects no node.
    Selection,
}

/// Writes the nearest name, if there is one.
fn write_nearest<W: fmt::Write>(
    nearest: &Option<String>,
    f: &mut fmt::Formatter<W>,
) -> fmt::Result {
    match nearest {
        Some(name) => write!(f, "; did you mean `{name}`?"),
        None => Ok(()),
    }
}

impl fmt::Display for Missing {
    fn fmt<W: fmt::Write>(&self, f: &mut fmt::Formatter<W>) -> fmt::Result {
        match self {
            Missing::Node {
                step: _,
                name,
                nearest,
            } => {
                write!(f, "no node `{name}`")?;
                write_nearest(nearest, f)
            }
            Missing::Index {
                step: _,
                name,
                index,
                count,
            } => write!(
                f,
                "no node `{name}[{index}]`; nodes of that name: {count}, counted from 0"
            ),
            Missing::Property { name, nearest } => {
                write!(f, "no property `{name}`")?;
                write_nearest(nearest, f)
            }
            Missing::Argument { index, count } => write!(
                f,
                "no argument {index}; arguments of the node: {count}, counted from 0"
            ),
            Missing::Document => write!(f, "the path `/` is the document"),
            Missing::Selection => write!(f, "the query selects no node"),
        }
    }
}

/// Why a value was not found.
#[derive(Debug, Drop)]
pub enum GetFailure {
    /// The document has no value at the PATH.
    Missing(Missing),
    /// An allocation failed.
    Memory,
}

/// Why an edit was not made.
#[derive(Debug, Drop)]
pub enum EditFailure {
    /// The text is not a document.
    Text(KdlError),
    /// VALUE is not one value without a type.
    Value,
    /// NODE is not one node.
    Node(KdlError),
    /// The PATH names an argument or a property where it has to name a node.
    NotNode,
    /// The document does not have what the PATH names, or what the query selects.
    Missing(Missing),
    /// An allocation failed.
    Memory,
}

impl fmt::Display for GetFailure {
    fn fmt<W: fmt::Write>(&self, f: &mut fmt::Formatter<W>) -> fmt::Result {
        match self {
            GetFailure::Missing(missing) => write!(f, "{missing}"),
            GetFailure::Memory => write!(f, "out of memory"),
        }
    }
}

impl fmt::Display for EditFailure {
    fn fmt<W: fmt::Write>(&self, f: &mut fmt::Formatter<W>) -> fmt::Result {
        match self {
            EditFailure::Text(error) => write!(f, "{error}"),
            EditFailure::Value => write!(f, "expected one value without a type"),
            EditFailure::Node(_) => write!(f, "expected one node"),
            EditFailure::NotNode => write!(f, "the path names no node: it has `#` or `@`"),
            EditFailure::Missing(missing) => write!(f, "{missing}"),
            EditFailure::Memory => write!(f, "out of memory"),
        }
    }
}

impl std::error::Error for GetFailure {}

impl std::error::Error for EditFailure {}

impl From<AllocError> for GetFailure {
    ghost from_gives = { λ _ e. e ≡ OutOfMemory };

    fn from(_error: AllocError) -> GetFailure {
        GetFailure::Memory
    }
}

impl From<AllocError> for EditFailure {
    ghost from_gives = { λ _ e. e ≡ Memory };

    fn from(_error: AllocError) -> EditFailure {
        EditFailure::Memory
    }
}

impl<T: Drop> From<AllocFailed<T>> for GetFailure {
    ghost from_gives = { λ _ e. e ≡ OutOfMemory };

    fn from(_error: AllocFailed<T>) -> GetFailure {
        GetFailure::Memory
    }
}

impl<T: Drop> From<AllocFailed<T>> for EditFailure {
    ghost from_gives = { λ _ e. e ≡ Memory };

    fn from(_error: AllocFailed<T>) -> EditFailure {
        EditFailure::Memory
    }
}

/// The failure of a text that is no document.
impl From<ParseFailure> for EditFailure {
    ghost from_gives = { λ f e. e ≡ edit_of f };

    fn from(failure: ParseFailure) -> EditFailure {
        match failure {
            ParseFailure::Syntax(error) => EditFailure::Text(error),
            ParseFailure::Memory => EditFailure::Memory,
        }
    }
}

impl From<Refused> for EditFailure {
    ghost from_gives = { λ _ e. e ≡ Memory };

    fn from(_refused: Refused) -> EditFailure {
        EditFailure::Memory
    }
}
