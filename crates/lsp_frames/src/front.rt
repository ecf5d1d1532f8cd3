//! What bytes begin with.

ghost use Rattle.lsp_frames.specs.Frames.{IsFrontOf};

use crate::head::{HEAD_END, length_in, place_of};

/// The greatest length of a head, in bytes.
pub(crate) const MAX_HEAD: usize = 4096;

/// What a list of bytes begins with.
#[derive(Clone, Copy)]
pub enum Front<'a> {
    /// A frame, with its message and what follows it.
    Whole { message: &'a [u8], rest: &'a [u8] },
    /// No whole frame yet.
    Part,
    /// No frame, however the bytes go on.
    Bad,
}

/// Returns what the bytes begin with.
pub fn first_frame(bytes: &[u8]) -> Front<'_>
    ensures { IsFrontOf bytes.now result }
{
    let limit = MAX_HEAD + HEAD_END.len();
    let Some(size) = place_of(HEAD_END, &bytes[..limit.min(bytes.len())]) else {
        return if bytes.len() < limit {
            Front::Part
        } else {
            Front::Bad
        };
    };
    let (head, tail) = bytes.split_at(size);
    let Some(length) = length_in(head) else {
        return Front::Bad;
    };
    let (_, body) = tail.split_at(HEAD_END.len());
    match body.split_at_checked(length) {
        Some((message, rest)) => Front::Whole { message, rest },
        None => Front::Part,
    }
}
