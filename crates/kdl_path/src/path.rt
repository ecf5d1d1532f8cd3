//! PATHs: what they name, and how they are read from a text.

ghost use Rattle.std.specs.Prelude.{◌≡◌, [], MatchBool};

use kdl::KdlIdentifier;
use std::alloc::{AllocError, AllocFailed, Global};
use std::fmt;

/// One node on the way: its name, and its index among the nodes of that name.
#[derive(Debug, Drop)]
pub struct Step {
    /// The name of the node.
    pub name: String,
    /// The index among the nodes of that name, from 0. Without one, the first node of that name, or each of them for
    /// `get_all`.
    pub index: Option<usize>,
}

/// What a PATH names of its node.
#[derive(Debug, Drop)]
pub enum Target {
    /// The node itself. As a value, its argument 0.
    Node,
    /// The argument at that index among the arguments, from 0.
    Argument(usize),
    /// The last property of that name.
    Property(String),
}

/// A place in a document. Without steps it is the document itself.
#[derive(Debug, Drop)]
pub struct Path {
    /// The nodes from the document down to the one that the PATH names.
    pub steps: Vec<Step>,
    /// What the PATH names of that node.
    pub target: Target,
}

/// What is wrong with a PATH.
#[derive(Clone, Copy, Debug, PartialEq, Eq)]
pub enum PathFault {
    /// A name is missing.
    NoName,
    /// The name is neither a bare string nor a string in quotes.
    NoString,
    /// A string in quotes does not end.
    Unclosed,
    /// After `[` a whole number and `]` are missing.
    NoIndex,
    /// After `#` a whole number is missing.
    NoArgument,
    /// An entry begins with neither `#` nor `@`.
    NoEntry,
    /// The PATH does not end where it has to.
    More,
}

/// Why a text is not a PATH.
#[derive(Clone, Copy, Debug, PartialEq, Eq)]
pub enum PathFailure {
    /// The text is not a PATH: what is wrong, and at which byte of it.
    Syntax(PathFault, usize),
    /// An allocation failed.
    Memory,
}

impl fmt::Display for PathFault {
    fn fmt<W: fmt::Write>(&self, f: &mut fmt::Formatter<W>) -> fmt::Result {
        match self {
            PathFault::NoName => write!(f, "expected a name"),
            PathFault::NoString => write!(f, "not a name; write it in quotes"),
            PathFault::Unclosed => write!(f, "the string does not end"),
            PathFault::NoIndex => write!(f, "expected a whole number and `]`"),
            PathFault::NoArgument => write!(f, "expected a whole number"),
            PathFault::NoEntry => write!(f, "expected `#` or `@`"),
            PathFault::More => write!(f, "expected the end of the path"),
        }
    }
}

impl fmt::Display for PathFailure {
    fn fmt<W: fmt::Write>(&self, f: &mut fmt::Formatter<W>) -> fmt::Result {
        match self {
            PathFailure::Syntax(fault, at) => write!(f, "at byte {at} of the path: {fault}"),
            PathFailure::Memory => write!(f, "out of memory"),
        }
    }
}

impl std::error::Error for PathFailure {}

impl From<AllocError> for PathFailure {
    ghost use Rattle.kdl_path.specs.declared.path.PathFailure.TheVariants.{Memory};

    ghost from_gives = { λ _ e. e ≡ Memory };

    fn from(_error: AllocError) -> PathFailure {
        PathFailure::Memory
    }
}

impl<T: Drop> From<AllocFailed<T>> for PathFailure {
    ghost use Rattle.kdl_path.specs.declared.path.PathFailure.TheVariants.{Memory};

    ghost from_gives = { λ _ e. e ≡ Memory };

    fn from(_error: AllocFailed<T>) -> PathFailure {
        PathFailure::Memory
    }
}

/// Writes a name, in quotes if it begins with `@` or is no bare string: no bare string has another character of PATHs.
fn write_name<W: fmt::Write>(alloc: Global, name: &str, f: &mut fmt::Formatter<W>) -> fmt::Result {
    let name = KdlIdentifier::from_text(alloc, name)?.to_string(alloc)?;
    if name.starts_with('@') {
        return write!(f, "\"{name}\"");
    }
    f.write_str(&name)
}

/// Prints the PATH, with a name in quotes where it has to be.
///
/// ```
/// let path = Path::parse(alloc, "#\"server\"#/port#1")?;
/// let text = path.to_string(alloc)?; // "server/port#1"
/// ```
impl fmt::Display for Path {
    fn fmt<W: fmt::Write>(&self, f: &mut fmt::Formatter<W>) -> fmt::Result {
        let alloc = *self.steps.allocator();
        if self.steps.is_empty() {
            f.write_str("/")?;
        }
        for (i, step) in self.steps.iter().enumerate() {
            if i > 0 {
                f.write_str("/")?;
            }
            write_name(alloc, &step.name, f)?;
            if let Some(index) = step.index {
                write!(f, "[{index}]")?;
            }
        }
        match &self.target {
            Target::Node => Ok(()),
            Target::Argument(index) => write!(f, "#{index}"),
            Target::Property(name) => {
                f.write_str("/@")?;
                write_name(alloc, name, f)
            }
        }
    }
}

impl Path {
    /// Returns whether the PATH is the document.
    pub fn is_document(&self) -> bool
        ensures { MatchBool result (self.now.steps.items ≡ []) (self.now.steps.items ≡ [] → ⊥) }
    {
        self.steps.is_empty()
    }
}
