//! Queries from texts.
#![tactic(auto, using(crate::proofs::Rules::parse))]

ghost use Rattle.kdl_text.specs.Internal.Here.{Ahead};
ghost use Rattle.kdl_text.specs.Internal.Reading.{Moves};
ghost use Rattle.kdl_text.specs.Chars.{Text};
ghost use Rattle.kdl_text.specs.Spans.{InText};
ghost use Rattle.std.specs.Prelude.{◌≡◌, ◌++◌};

mod literals;
mod names;
mod selectors;
mod tests;

use crate::error::{Fault, QueryError, QueryFailure, Refusal};
use crate::tree::Query;
use kdl_text::chars::Class;
use kdl_text::cursor::{Checkpoint, Cursor, Steps};
use names::skip_ws;
use selectors::read_selectors;
use std::alloc::Global;

/// Advances past the `//`, the word or else the character here, and returns the fault, or that of `//`.
fn at_fault(fault: Fault, cursor: &mut Cursor) -> Fault
    ensures { (p : Text) × (cursor.old.rest ≡ p ++ cursor.new.rest) }
{
    if cursor.eat_two('/', '/') {
        return Fault::Slashes;
    }
    let from = cursor.at();
    cursor.skip(Class::Identifier);
    if cursor.at() == from {
        cursor.step();
    }
    fault
}

/// Advances to the `//` after a backslash here, if only spaces and block comments are between them.
fn skip_to_slashes(cursor: &mut Cursor)
    ensures { Moves cursor.old cursor.new }
{
    let start = cursor.checkpoint();
    if cursor.eat('\\') {
        skip_ws(cursor);
        if cursor.looks_two('/', '/') {
            return;
        }
    }
    cursor.go_to(&start);
}

/// The error of a fault where the cursor is. Its span is the word or the character there, or `//`, which may be in an escline
/// that begins there.
fn error_at<'a>(fault: Fault, start: &Checkpoint<'a>, cursor: &mut Cursor<'a>) -> QueryError
    requires { Ahead start.now record { rest = cursor.old.rest; at = cursor.old.at } }
    ensures { InText start.now.rest result.span }
{
    skip_to_slashes(cursor);
    let from = cursor.checkpoint();
    let fault = at_fault(fault, cursor);
    QueryError {
        span: start.span_between(&from, &cursor.checkpoint()),
        message: fault.message(),
        help: fault.help(),
    }
}

impl Query {
    ghost use Rattle.kdl_query.specs.Data as data';
    ghost use Rattle.kdl_query.specs.Printed.{query_prints};
    ghost use Rattle.kdl_query.specs.QueryText.{IsQuery};
    ghost use Rattle.kdl_query.specs.Refusals.{IsSyntax, LocatesFault};
    ghost use Rattle.kdl_query.specs.Tree.{query_says};
    ghost use Rattle.std.specs.Prelude.{IfOk};
    ghost use Rattle.std.specs.Str.{chars};

    /// Parses a query. Returns `Syntax` if the text is no query, and `Memory` if an allocation fails.
    ///
    /// ```
    /// let query = Query::parse(alloc, "package >> dependencies[platform] || [val() >= 1.5]")?;
    /// let refused = Query::parse(alloc, "a b"); // `Syntax`: an operator is missing
    /// ```
    pub fn parse(alloc: Global, text: &str) -> Result<Query, QueryFailure>
        // The query is what the grammar derives,
        ensures found { IfOk result (λ q. IsQuery (chars text.now) (query_says q)) }
        // and it derives nothing else.
        ensures only { IfOk result (λ q. (x : data'.Query) → IsQuery (chars text.now) x → x ≡ query_says q) }
        // What the query prints is a text of this query too.
        ensures printed { IfOk result (λ q. IsQuery (query_prints q) (query_says q)) }
        // A refused text is not derived, and the span of the fault is in it.
        ensures refused { IsSyntax result → (x : data'.Query) → IsQuery (chars text.now) x → ⊥ }
        ensures located { LocatesFault (chars text.now) result }
    {
        let mut cursor = Cursor::new(text, Steps::new());
        let start = cursor.checkpoint();
        match read_selectors(alloc, &mut cursor) {
            Ok(selectors) => Ok(Query { selectors }),
            Err(Refusal::Fault(fault)) => {
                Err(QueryFailure::Syntax(error_at(fault, &start, &mut cursor)))
            }
            Err(Refusal::Memory) => Err(QueryFailure::Memory),
        }
    }
}
