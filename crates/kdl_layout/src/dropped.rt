//! What a slashdash drops.

ghost use Rattle.kdl_syntax.specs.Internal.Handed.{Cuts, kind_view};
ghost use Rattle.kdl_syntax.specs.Tokens.{newline, semicolon};
ghost use Rattle.kdl_syntax.specs.Control.{at, is_word};
ghost use Rattle.kdl_layout.specs.Internal.Passing.{follows_word, of_spaces, slashdash_in};
ghost use Rattle.kdl_layout.specs.Items.{ItemEnd};
ghost use Rattle.kdl_layout.specs.Internal.Lacking.{EndsNode};
ghost use Rattle.kdl_syntax.specs.Internal.Views.{control_view, ended_view};
ghost use Rattle.kdl_layout.specs.Internal.Passed.{AfterPart, AnswersDroppedNode, AnswersDroppedPart, Before};
ghost use Rattle.kdl_layout.specs.Internal.Reading.{place_view};
ghost use Rattle.kdl_text.specs.Chars.{Text};
ghost use Rattle.std.specs.Prelude.{◌≡◌, ◌⊎◌, IfOk, [], option_map, not, ◌&&◌, if◌then◌else◌};
ghost use Rattle.std.specs.Str.{chars};

use crate::spaces::{Ending, Place, cut, line, line_ending};
use kdl_syntax::{Control, Ended, LexFailure, Phase, Spot, Token, TokenKind, lexer};
use kdl_text::cursor::{Cursor, Steps};
use std::alloc::{AllocError, Global};

/// Whether a string that ends what is dropped comes before the token: a space or `=` after it leaves it a key.
fn ends_word(control: &Control, kind: &TokenKind) -> bool
    ensures { result ≡ (is_word (control_view control.now) && not (follows_word (kind_view kind.now))) }
{
    control.is_word() && !matches!(kind, TokenKind::Space | TokenKind::Equals)
}

/// Where the last token that is not a space ends: this one, or an earlier one.
fn end_after(token: &Token, last: usize) -> usize
    ensures { result ≡ (if of_spaces (kind_view token.now.kind) then last else token.now.at.end.at) }
{
    match token.kind {
        TokenKind::Space => last,
        _ => token.at.end.at(),
    }
}

/// Where the item of a node ends whose terminator is this token, and how the terminator ends: after a `;`, or before
/// the newline of a line.
fn node_end<'a>(text: &'a str, token: &Token) -> (usize, Ending<'a>)
    requires at { Before (chars text.now) token.now.at.start.at token.now.at.start.rest
        × Before (chars text.now) token.now.at.end.at token.now.at.end.rest }
    requires token { Cuts token.now.at.start.rest (kind_view token.now.kind) token.now.at.end.rest }
    requires ends { (kind_view token.now.kind ≡ newline) ⊎ (kind_view token.now.kind ≡ semicolon) }
    ensures { (i : Text) × ItemEnd token.now.at.start.rest token.now.at.end.rest i
        × Before (chars text.now) result.0 i
        × EndsNode token.now.at.end.rest token.now.at.start.rest result.1 }
{
    let following = token.at.end.at();
    let (_, rest) = cut(text, following);
    if let TokenKind::Semicolon = token.kind {
        return (following, Ending::Before(rest));
    }
    let (_, terminator) = cut(text, token.at.start.at());
    let (_, end) = line(terminator);
    (text.len() - end.len(), line_ending(end, rest))
}

/// Where the item of the node ends that a `/-` before the text drops, in bytes, and how its terminator ends, if there
/// is one. Without one, node-spaces come after the item. Returns `None` if the `/-` drops no node.
pub(crate) fn pass_node(
    alloc: Global,
    text: &str,
) -> Result<Option<(usize, Option<Ending<'_>>)>, AllocError>
    ensures { IfOk result (λ o. AnswersDroppedNode (chars text.now) o) }
{
    let mut cursor = Cursor::new(text, Steps::new());
    let mut control = Control::new(alloc, Phase::NodeSlashdash);
    let mut last = 0;
    'tokens: loop {
        let token = match lexer::next(&mut cursor, alloc) {
            Ok(Some(token)) => token,
            Ok(None) => return Ok(control.may_end().then_some((last, None))),
            Err(LexFailure::Faulty) => return Ok(None),
            Err(LexFailure::Memory) => return Err(AllocError),
        };
        if !control.take(&token.kind)? {
            return Ok(None);
        }
        if control.is_between_nodes() {
            let (item, ending) = node_end(text, &token);
            return Ok(Some((item, Some(ending))));
        }
        last = end_after(&token, last);
        drop(token);
    }
}

/// The phase after the `/-` in a place.
fn slashdash_phase(place: Place) -> Phase
    ensures { at result [] ≡ slashdash_in (place_view place) }
{
    match place {
        Place::BeforeEntry(_) | Place::BeforeBlock => Phase::EntrySlashdash,
        Place::AfterBlock => Phase::BlockSlashdash,
    }
}

/// The place after an entry or a block that is slashdashed in it, or `None` if no block may be slashdashed there.
pub(crate) fn after_part(place: Place, ended: Ended) -> Option<Place>
    ensures { AfterPart (place_view place) (ended_view ended) (option_map place_view result) }
{
    match (place, ended) {
        (Place::BeforeEntry(_), Ended::Block) => None,
        (Place::BeforeEntry(_), Ended::Entry) => Some(Place::BeforeEntry(false)),
        (_, Ended::Block) => Some(Place::AfterBlock),
        (_, Ended::Entry) => Some(place),
    }
}

/// Where the entry or block ends that a `/-` before the text drops in the place, in bytes, and which of the two it is.
/// Returns `None` if the `/-` drops neither.
pub(crate) fn pass_part(
    alloc: Global,
    place: Place,
    text: &str,
) -> Result<Option<(usize, Ended)>, AllocError>
    ensures { IfOk result (λ o. AnswersDroppedPart (place_view place) (chars text.now) o) }
{
    let mut cursor = Cursor::new(text, Steps::new());
    let mut control = Control::new(alloc, slashdash_phase(place));
    let mut last = 0;
    'tokens: loop {
        let token = match lexer::next(&mut cursor, alloc) {
            Ok(Some(token)) => token,
            Ok(None) => return Ok(control.is_word().then_some((last, Ended::Entry))),
            Err(LexFailure::Faulty) => return Ok(None),
            Err(LexFailure::Memory) => return Err(AllocError),
        };
        if ends_word(&control, &token.kind) {
            return Ok(Some((last, Ended::Entry)));
        }
        if !control.take(&token.kind)? {
            return Ok(None);
        }
        last = end_after(&token, last);
        drop(token);
        if let Some(ended) = control.over() {
            return Ok(Some((last, ended)));
        }
    }
}
