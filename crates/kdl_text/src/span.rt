//! Spans of a text, and the severity of a diagnostic.

/// A span of a text: the offset of its start and its length, in bytes.
#[derive(Clone, Copy, Debug, PartialEq, Eq)]
pub struct SourceSpan {
    pub offset: usize,
    pub len: usize,
}

/// The severity of a diagnostic.
#[derive(Clone, Copy, Debug, Default, PartialEq, Eq)]
pub enum Severity {
    Advice,
    Warning,
    #[default]
    Error,
}
