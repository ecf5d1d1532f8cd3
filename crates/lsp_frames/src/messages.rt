//! The messages of an input that comes in parts.

ghost use Rattle.lsp_frames.specs.Frames.{AreMessages, TakesAll};
ghost use Rattle.std.specs.Prelude.{IfOk, OnOk, map};
ghost use Rattle.std.specs.List.{concat};

use crate::frames::Frames;
use std::alloc::{AllocError, Global};

/// Returns the messages of the parts of an input: those whose frames are whole. How the input is parted makes no
/// difference.
pub fn messages_of(alloc: Global, parts: &[Vec<u8>]) -> Result<Vec<Vec<u8>>, AllocError>
    ensures { IfOk result (λ ms. AreMessages (concat (map (λ p. p.items) parts.now)) (map (λ m. m.items) ms.items)) }
{
    let mut frames = Frames::new(alloc);
    let mut messages = Vec::new(alloc);
    for part in parts {
        frames.push(part.as_slice())?;
        take_all(alloc, &mut frames, &mut messages)?;
    }
    Ok(messages)
}

/// Takes all whole frames, and appends their messages.
fn take_all(
    alloc: Global,
    frames: &mut Frames,
    messages: &mut Vec<Vec<u8>>,
) -> Result<(), AllocError>
    ensures { OnOk result (TakesAll frames.old (map (λ m. m.items) messages.old.items) frames.new (map (λ m. m.items) messages.new.items)) }
{
    while let Some(message) = frames.next_message() {
        messages.push(Vec::from_slice(alloc, message)?)?;
    }
    Ok(())
}
