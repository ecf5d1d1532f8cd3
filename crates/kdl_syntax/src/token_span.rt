//! Where a token is.

ghost use Rattle.kdl_syntax.specs.Internal.Order.{IsEndOf};
ghost use Rattle.kdl_text.specs.Internal.Here.{Ahead};
ghost use Rattle.std.specs.Prelude.{◌≡◌};

use kdl_text::cursor::Checkpoint;

/// The two places of a token: where it begins, and where it ends.
#[derive(Drop)]
pub struct TokenSpan<'a> {
    pub start: Checkpoint<'a>,
    pub end: Checkpoint<'a>,
    pub ghost order: { IsEndOf start.rest end.rest },
}

impl<'a> TokenSpan<'a> {
    /// Creates a span from a place and a later one.
    ///
    /// ```
    /// let mut cursor = Cursor::new("ab=1", Steps::new());
    /// let start = cursor.checkpoint();
    /// let token = lexer::next(&mut cursor, alloc)?;
    /// let at = TokenSpan::new(start, cursor.checkpoint()); // the span of `ab`, as in `token.at`
    /// ```
    #[inline(always)]
    #[tactic(auto, using(crate::proofs::Order::is_end))]
    pub fn new(start: Checkpoint<'a>, end: Checkpoint<'a>) -> TokenSpan<'a>
        requires { Ahead start end }
        ensures start { result.start ≡ start.entry }
        ensures end { result.end ≡ end.entry }
    {
        TokenSpan { start, end }
    }
}
