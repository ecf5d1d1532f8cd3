//! What a text is read as.

/// What a whole text is read as.
#[derive(Clone, Copy)]
pub enum Whole {
    Document,
    Node,
    Entry,
    Identifier,
}
