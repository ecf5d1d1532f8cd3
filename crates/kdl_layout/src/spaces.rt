//! Items, the places in a node where they may be, and the spaces with comments in them.

ghost use Rattle.kdl_layout.specs.Items.{SpaceItems, LineSpaceItems, line_end};
ghost use Rattle.kdl_layout.specs.Internal.Lacking.{LineEnds, OnlySpaces, Spaces};
ghost use Rattle.kdl_layout.specs.Internal.Passed.{Before};
ghost use Rattle.kdl_layout.specs.Internal.Reading.{Cut, Starts, added, found, held};
ghost use Rattle.kdl_syntax.specs.Internal.Handed.{Alone, kind_view};
ghost use Rattle.kdl_text.specs.Chars.{Text};
ghost use Rattle.kdl_text.specs.Spans.{bytes};
ghost use Rattle.kdl_text.specs.Trivia.{Break, LineSpace, NodeSpace};
ghost use Rattle.std.specs.Prelude.{◌≡◌, ◌++◌, ◌∷◌, [], IfOk, MatchBool, MatchOption};
ghost use Rattle.std.specs.Str.{IsUtf8, chars};

use kdl_syntax::{LexFailure, Token, TokenKind, lexer};
use kdl_text::chars::Class;
use kdl_text::cursor::{Cursor, Steps};
use std::alloc::{AllocError, Global};

/// A comment or a slashdashed piece in the text around nodes or entries, as it is written.
#[derive(Clone, Copy)]
pub enum Item<'a> {
    /// A line comment, without the newline that ends it.
    Comment(&'a str),
    /// A block comment, or a slashdashed node, entry or block: from the `/-` on, without a newline at its end.
    Piece(&'a str),
}

/// A place in a node, by what may be there (KDL 2.0.0, Slashdash Comments).
#[derive(Clone, Copy)]
pub enum Place {
    /// Before an entry, and whether a node-space comes directly before what follows. Entries may be slashdashed here.
    BeforeEntry(bool),
    /// Before the node's block, or before the terminator of a node without one. Entries may be slashdashed here, and
    /// then blocks.
    BeforeBlock,
    /// After the node's block, or after a slashdashed block. Blocks may be slashdashed here.
    AfterBlock,
}

/// How the spaces that begin a text end.
#[derive(Clone, Copy)]
pub(crate) enum Ending<'a> {
    /// Before this rest, whatever follows the rest.
    Before(&'a str),
    /// At the end of the text, in a CR: an LF after it is part of its newline.
    InReturn,
    /// At the end of the text, in an escline or a line comment without a newline.
    Open,
}

/// What begins a text, and the text after it.
#[derive(Clone, Copy)]
pub(crate) enum Start<'a> {
    /// Spaces, or a block comment.
    Space(Option<Item<'a>>, &'a str),
    /// A newline, or a line comment with its newline.
    Break(Option<Item<'a>>, &'a str),
    /// A backslash.
    Backslash(&'a str),
    /// `/-`.
    Slashdash,
    /// Nothing: the text is at its end.
    End,
    /// Anything else.
    Other,
}

/// The text before an offset, and the text after it.
#[inline]
pub(crate) fn cut(text: &str, at: usize) -> (&str, &str)
    requires { Cut (chars text.now) at }
    ensures parts { (p r : Text) → chars text.now ≡ p ++ r → bytes p ≡ at
        → (chars result.0.now ≡ p) × (chars result.1.now ≡ r) }
    ensures text { IsUtf8 result.0.now × IsUtf8 result.1.now }
{
    text.split_at(at)
}

/// Returns the same text. After a call, the proof of a loop knows that the text is UTF-8.
#[inline]
pub(crate) fn same(text: &str) -> &str
    ensures { chars result.now ≡ chars text.now }
{
    text
}

/// The text after its first character, if that is c.
pub(crate) fn after_char(text: &str, c: char) -> Option<&str>
    ensures { MatchOption result ((s : Text) → chars text.now ≡ c ∷ s → ⊥)
        (λ rest. chars text.now ≡ c ∷ chars rest.now) }
{
    let mut cursor = Cursor::new(text, Steps::new());
    if cursor.eat(c) {
        let (_, rest) = cut(text, cursor.at());
        Some(rest)
    } else {
        None
    }
}

/// The text before its first newline, and the text from there on.
pub(crate) fn line(text: &str) -> (&str, &str)
    ensures parts { chars text.now ≡ chars result.0.now ++ chars result.1.now }
    ensures end { chars result.1.now ≡ line_end (chars text.now) }
    ensures text { IsUtf8 result.0.now × IsUtf8 result.1.now }
{
    let mut cursor = Cursor::new(text, Steps::new());
    cursor.skip(Class::Line);
    cut(text, cursor.at())
}

/// What the token is that begins the text, which no backslash begins.
fn token_start<'a>(text: &'a str, token: &Token) -> Start<'a>
    requires at { Before (chars text.now) token.now.at.end.at token.now.at.end.rest }
    requires token { Alone (chars text.now) (kind_view token.now.kind) token.now.at.end.rest }
    requires no_backslash { (s : Text) → chars text.now ≡ 92 ∷ s → ⊥ }
    ensures { Starts (chars text.now) result }
{
    let (piece, rest) = cut(text, token.at.end.at());
    match token.kind {
        TokenKind::Space => match after_char(text, '/') {
            Some(_) => Start::Space(Some(Item::Piece(piece)), rest),
            None => Start::Space(None, rest),
        },
        TokenKind::Newline => match after_char(text, '/') {
            Some(_) => {
                let (comment, _) = line(text);
                Start::Break(Some(Item::Comment(comment)), rest)
            }
            None => Start::Break(None, rest),
        },
        TokenKind::Slashdash => Start::Slashdash,
        _ => Start::Other,
    }
}

/// What begins the text: a backslash, or its first token. So the comments after the backslash of an escline are tokens,
/// and each token is read once.
pub(crate) fn start_of(alloc: Global, text: &str) -> Result<Start<'_>, AllocError>
    ensures { IfOk result (λ x. Starts (chars text.now) x) }
{
    if let Some(rest) = after_char(text, '\\') {
        return Ok(Start::Backslash(rest));
    }
    let mut cursor = Cursor::new(text, Steps::new());
    match lexer::next(&mut cursor, alloc) {
        Ok(Some(token)) => Ok(token_start(text, &token)),
        Ok(None) => Ok(Start::End),
        Err(LexFailure::Faulty) => Ok(Start::Other),
        Err(LexFailure::Memory) => Err(AllocError),
    }
}

/// Whether the text is a CR.
pub(crate) fn is_return(text: &str) -> bool
    ensures { MatchBool result (chars text.now ≡ 13 ∷ []) (chars text.now ≡ 13 ∷ [] → ⊥) }
{
    let mut cursor = Cursor::new(text, Steps::new());
    cursor.eat('\r') && cursor.look().is_none()
}

/// How a newline or line comment before the rest ends, whose line ends with this text.
pub(crate) fn line_ending<'a>(end: &str, rest: &'a str) -> Ending<'a>
    requires { (s : Text) × Break s (chars rest.now) × (chars end.now ≡ line_end s) }
    ensures { LineEnds (chars end.now) result }
{
    if end.is_empty() {
        Ending::Open
    } else if is_return(end) {
        Ending::InReturn
    } else {
        Ending::Before(rest)
    }
}

/// How the newline or line comment ends that begins the text before the rest.
pub(crate) fn break_ending<'a>(text: &str, rest: &'a str) -> Ending<'a>
    requires { Break (chars text.now) (chars rest.now) }
    ensures { LineEnds (line_end (chars text.now)) result }
{
    let (_, end) = line(text);
    line_ending(end, rest)
}

/// Adds the item, if there is one and items are asked for.
pub(crate) fn add<'a>(
    item: Option<Item<'a>>,
    items: &mut Option<Vec<Item<'a>>>,
) -> Result<(), AllocError>
    ensures { IfOk result (λ _. held items.new ≡ added (held items.old) (found item.entry)) }
{
    if let Some(item) = item {
        if let Some(items) = items {
            items.push(item)?;
        }
    }
    Ok(())
}

/// Adds the comments of the escline whose backslash comes before the text. Returns how it ends, or `None` if there is
/// no escline.
fn escline<'a>(
    alloc: Global,
    text: &'a str,
    items: &mut Option<Vec<Item<'a>>>,
) -> Result<Option<Ending<'a>>, AllocError>
    ensures { IfOk result (λ o. Spaces NodeSpace SpaceItems (92 ∷ chars text.now) o
        (held items.old) (held items.new)) }
{
    let mut rest = text;
    'comments: loop {
        match start_of(alloc, rest)? {
            Start::Space(item, following) => {
                add(item, items)?;
                rest = same(following);
            }
            Start::Break(item, following) => {
                add(item, items)?;
                return Ok(Some(break_ending(rest, following)));
            }
            Start::End => return Ok(Some(Ending::Open)),
            _ => return Ok(None),
        }
    }
}

/// Adds the comments of the node-spaces that begin a text. Returns how they end, or `None` if there are none.
pub(crate) fn node_spaces<'a>(
    alloc: Global,
    first: Start<'a>,
    items: &mut Option<Vec<Item<'a>>>,
) -> Result<Option<Ending<'a>>, AllocError>
    ensures { IfOk result (λ o. (s : Text) → Starts s first.entry
        → Spaces NodeSpace SpaceItems s o (held items.old) (held items.new)) }
{
    match first {
        Start::Space(item, rest) => {
            add(item, items)?;
            Ok(Some(Ending::Before(rest)))
        }
        Start::Backslash(rest) => escline(alloc, rest, items),
        _ => Ok(None),
    }
}

/// Adds the comments of the line-spaces that begin the text. Returns how they end, or `None` if there are none.
pub(crate) fn line_spaces<'a>(
    alloc: Global,
    text: &str,
    first: Start<'a>,
    items: &mut Option<Vec<Item<'a>>>,
) -> Result<Option<Ending<'a>>, AllocError>
    requires { Starts (chars text.now) first }
    ensures { IfOk result (λ o. Spaces LineSpace LineSpaceItems (chars text.now) o
        (held items.old) (held items.new)) }
{
    if let Start::Break(item, rest) = first {
        add(item, items)?;
        return Ok(Some(break_ending(text, rest)));
    }
    node_spaces(alloc, first, items)
}

/// Adds the comments of the text, if it is node-spaces. Returns whether it is, whatever follows it.
pub(crate) fn only_spaces<'a>(
    alloc: Global,
    text: &'a str,
    items: &mut Option<Vec<Item<'a>>>,
) -> Result<bool, AllocError>
    ensures { IfOk result (λ b. OnlySpaces (chars text.now) b (held items.old) (held items.new)) }
{
    let mut rest = text;
    'spaces: while !rest.is_empty() {
        let first = start_of(alloc, rest)?;
        match node_spaces(alloc, first, items)? {
            Some(Ending::Before(following)) => rest = same(following),
            Some(Ending::InReturn) => return Ok(false),
            Some(Ending::Open) => return Ok(false),
            None => return Ok(false),
        }
    }
    Ok(true)
}
