//! The readers of a text that is a gap, or that is in a place of a node: its items, and how it ends.

ghost use Rattle.kdl_layout.specs.Items.{may_end, spaced};
ghost use Rattle.kdl_layout.specs.Internal.Lacking.{GapPieceEnds, GapRead, PlacePieceEnds, PlaceRead, piece_of};
ghost use Rattle.kdl_layout.specs.Internal.Reading.{Cut, IsGapWith, IsPlaceWith, held, items_view, place_view};
ghost use Rattle.kdl_entry.specs.Places.{between};
ghost use Rattle.kdl_text.specs.Chars.{Text};
ghost use Rattle.kdl_text.specs.Spans.{bytes};
ghost use Rattle.std.specs.Prelude.{◌≡◌, ◌++◌, ◌∷◌, IfOk, [], option_map, true};
ghost use Rattle.std.specs.Str.{chars};

use crate::dropped::{after_part, pass_node, pass_part};
use crate::spaces::{
    Ending, Item, Place, Start, add, cut, line_spaces, node_spaces, only_spaces, same, start_of,
};
use std::alloc::{AllocError, Global};
use std::ops::ControlFlow;

/// How a piece of a gap that ends so goes on: with this rest, whatever follows that; or it is the whole text, and lacks
/// this many newlines.
fn piece_of(ending: Ending<'_>) -> ControlFlow<usize, &str>
    ensures { result ≡ piece_of ending.entry }
{
    match ending {
        Ending::Before(rest) => ControlFlow::Continue(rest),
        Ending::InReturn => ControlFlow::Break(0),
        Ending::Open => ControlFlow::Break(1),
    }
}

/// The text after its `/-`.
fn after_dash(text: &str) -> &str
    requires { (t : Text) × (chars text.now ≡ 47 ∷ 45 ∷ t) }
    ensures { chars text.now ≡ 47 ∷ 45 ∷ chars result.now }
{
    let (_, following) = cut(text, 2);
    following
}

/// The text up to so many bytes after its `/-`, and the text after that.
fn piece<'a>(text: &'a str, following: &'a str, at: usize) -> (&'a str, &'a str)
    requires dash { chars text.now ≡ 47 ∷ 45 ∷ chars following.now }
    requires at { Cut (chars following.now) at }
    ensures { (p r : Text) → chars following.now ≡ p ++ r → bytes p ≡ at
        → (chars result.0.now ≡ between (47 ∷ 45 ∷ chars following.now) r) × (chars result.1.now ≡ r) }
{
    let (_, rest) = cut(following, at);
    let (piece, _) = cut(text, text.len() - rest.len());
    (piece, rest)
}

/// Adds the items of the first piece of the text of a gap: line-spaces, or a slashdashed node. Returns how it goes on,
/// as `piece_of` does, or `None` if the text is not a gap. After a node without a terminator, the node-spaces at the
/// end of the text are in the piece, and not in the node's item.
fn gap_piece<'a>(
    alloc: Global,
    text: &'a str,
    items: &mut Option<Vec<Item<'a>>>,
) -> Result<Option<ControlFlow<usize, &'a str>>, AllocError>
    requires { chars text.now ≡ [] → ⊥ }
    ensures { IfOk result (λ o. GapPieceEnds (chars text.now) o
        (held items.old) (held items.new)) }
{
    let first = start_of(alloc, text)?;
    let Start::Slashdash = first else {
        return match line_spaces(alloc, text, first, items)? {
            Some(ending) => Ok(Some(piece_of(ending))),
            None => Ok(None),
        };
    };
    let following = after_dash(text);
    let Some((item, ending)) = pass_node(alloc, following)? else {
        return Ok(None);
    };
    let (node, rest) = piece(text, following, item);
    add(Some(Item::Piece(node)), items)?;
    if let Some(ending) = ending {
        return Ok(Some(piece_of(ending)));
    }
    if only_spaces(alloc, rest, items)? {
        Ok(Some(ControlFlow::Break(1)))
    } else {
        Ok(Some(ControlFlow::Break(2)))
    }
}

/// Adds the items of the text of a gap. Returns how many newlines it lacks, or `None` if the text is not a gap.
pub(crate) fn read_gap<'a>(
    alloc: Global,
    text: &'a str,
    items: &mut Option<Vec<Item<'a>>>,
) -> Result<Option<usize>, AllocError>
    ensures { IfOk result (λ o. GapRead (chars text.now) o (held items.old) (held items.new)) }
{
    let mut rest = text;
    'pieces: while !rest.is_empty() {
        match gap_piece(alloc, rest, items)? {
            Some(ControlFlow::Continue(following)) => rest = same(following),
            Some(ControlFlow::Break(lacks)) => return Ok(Some(lacks)),
            None => return Ok(None),
        }
    }
    Ok(Some(0))
}

/// Returns the items of the text, in order, each a slice of it, or `None` if the text is not a gap: line-spaces and
/// slashdashed nodes (KDL 2.0.0, Document). The last slashdashed node may end with the text; the spaces and comments
/// after it are not part of it.
///
/// Returns an error if an allocation fails.
#[inline(never)]
pub fn gap_items<'a>(alloc: Global, text: &'a str) -> Result<Option<Vec<Item<'a>>>, AllocError>
    ensures { IfOk result (λ o. IsGapWith (chars text.now)
        (option_map (λ v. items_view v.items) o)) }
{
    let mut items = Some(Vec::new(alloc));
    match read_gap(alloc, text, &mut items)? {
        Some(_) => Ok(items),
        None => Ok(None),
    }
}

/// The place after a node-space.
pub(crate) fn spaced(place: Place) -> Place
    ensures { place_view result ≡ spaced true (place_view place) }
{
    match place {
        Place::BeforeEntry(_) => Place::BeforeEntry(true),
        _ => place,
    }
}

/// Whether the place may end here.
pub(crate) fn may_end(place: Place) -> bool
    ensures { result ≡ may_end (place_view place) }
{
    match place {
        Place::BeforeEntry(spaced) => spaced,
        _ => true,
    }
}

/// Adds the items of the first piece of the text in a place: node-spaces, or a slashdashed entry or block. Goes on with
/// the rest, and the place that it is in, or breaks if the piece is the whole text, and ends in an escline with no
/// newline or only a CR. Returns `None` if the text can't be there.
fn place_piece<'a>(
    alloc: Global,
    place: Place,
    text: &'a str,
    items: &mut Option<Vec<Item<'a>>>,
) -> Result<Option<ControlFlow<(), (Place, &'a str)>>, AllocError>
    requires { chars text.now ≡ [] → ⊥ }
    ensures { IfOk result (λ o. PlacePieceEnds place (chars text.now) o
        (held items.old) (held items.new)) }
{
    let first = start_of(alloc, text)?;
    let Start::Slashdash = first else {
        return match node_spaces(alloc, first, items)? {
            Some(Ending::Before(rest)) => Ok(Some(ControlFlow::Continue((spaced(place), rest)))),
            Some(Ending::InReturn) => Ok(Some(ControlFlow::Break(()))),
            Some(Ending::Open) => Ok(Some(ControlFlow::Break(()))),
            None => Ok(None),
        };
    };
    let following = after_dash(text);
    let Some((end, ended)) = pass_part(alloc, place, following)? else {
        return Ok(None);
    };
    let Some(next) = after_part(place, ended) else {
        return Ok(None);
    };
    let (part, rest) = piece(text, following, end);
    add(Some(Item::Piece(part)), items)?;
    Ok(Some(ControlFlow::Continue((next, rest))))
}

/// Adds the items of the text in a place. Returns whether it ends in an escline that lacks a newline, or `None` if the
/// text can't be in the place.
pub(crate) fn read_place<'a>(
    alloc: Global,
    place: Place,
    text: &'a str,
    items: &mut Option<Vec<Item<'a>>>,
) -> Result<Option<bool>, AllocError>
    ensures { IfOk result (λ o. PlaceRead (place_view place) (chars text.now) o
        (held items.old) (held items.new)) }
{
    let mut rest = text;
    let mut place = place;
    'pieces: while !rest.is_empty() {
        match place_piece(alloc, place, rest, items)? {
            Some(ControlFlow::Continue((next, following))) => {
                place = next;
                rest = same(following);
            }
            Some(ControlFlow::Break(())) => return Ok(Some(true)),
            None => return Ok(None),
        }
    }
    if may_end(place) {
        Ok(Some(false))
    } else {
        Ok(None)
    }
}

/// Returns the items of the text in a place of a node, in order, each a slice of it, or `None` if the text can't be in
/// the place.
///
/// Returns an error if an allocation fails.
#[inline(never)]
pub fn place_items<'a>(
    alloc: Global,
    place: Place,
    text: &'a str,
) -> Result<Option<Vec<Item<'a>>>, AllocError>
    ensures { IfOk result (λ o. IsPlaceWith (place_view place) (chars text.now)
        (option_map (λ v. items_view v.items) o)) }
{
    let mut items = Some(Vec::new(alloc));
    match read_place(alloc, place, text, &mut items)? {
        Some(_) => Ok(items),
        None => Ok(None),
    }
}
