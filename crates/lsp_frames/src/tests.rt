//! Frames in pieces, heads, and failing allocations.

use crate::frames::Frames;
use crate::messages::messages_of;
use crate::write::write_frame;
use std::alloc::{AllocError, Global};
use std::test::Fail;

/// Returns the messages of an input that comes in parts of at most the given length.
fn messages_in_parts(
    alloc: Global,
    input: &[u8],
    length: usize,
) -> Result<Vec<Vec<u8>>, AllocError> {
    let mut parts = Vec::new(alloc);
    let mut rest = input;
    for _ in 0..input.len() {
        if rest.is_empty() {
            break;
        }
        let (part, after) = rest.split_at(rest.len().min(length));
        parts.push(Vec::from_slice(alloc, part)?)?;
        rest = after;
    }
    messages_of(alloc, &parts)
}

/// Two frames with fields in any order and names in any case, and the front of a third.
const INPUT: &[u8] =
    b"content-LENGTH: 2\r\nContent-Type: a:b\r\n\r\n{}X: 1\r\nContent-Length:\t03 \r\n\r\n[1]Content-Length: 9\r\n\r\n[";

#[test]
fn parts_make_no_difference(rt: HostRuntime) -> Result<(), Fail> {
    for length in [1, 2, 7, 4096] {
        let messages = messages_in_parts(rt.alloc(), INPUT, length)?;
        assert_eq!(rt; messages.len(), 2);
        assert_eq!(rt; messages[0].as_slice(), b"{}".as_slice());
        assert_eq!(rt; messages[1].as_slice(), b"[1]".as_slice());
    }
    Ok(())
}

#[test]
fn heads_without_a_length_are_bad(rt: HostRuntime) -> Result<(), Fail> {
    for input in [
        b"\r\n\r\n".as_slice(),
        b"Content-Length: +1\r\n\r\na".as_slice(),
        b"Content-Length: 18446744073709551616\r\n\r\na".as_slice(),
        b"X-Content-Length: 1\r\n\r\na".as_slice(),
    ] {
        let mut frames = Frames::new(rt.alloc());
        frames.push(input)?;
        assert!(rt; frames.next_message().is_none());
        assert!(rt; frames.is_bad());
    }
    Ok(())
}

/// Returns a frame whose head has the given length, and the message `a`.
fn with_long_head(alloc: Global, length: usize) -> Result<Vec<u8>, AllocError> {
    let mut input = Vec::from_slice(alloc, b"Content-Length: 1\r\nX: ")?;
    for _ in input.len()..length {
        input.push(b'x')?;
    }
    input.extend_from_slice(b"\r\n\r\na")?;
    Ok(input)
}

#[test]
fn long_heads_are_bad_in_any_parts(rt: HostRuntime) -> Result<(), Fail> {
    for part in [512, 4096, 8192] {
        for (length, count) in [(4096, 1), (4097, 0)] {
            let input = with_long_head(rt.alloc(), length)?;
            let messages = messages_in_parts(rt.alloc(), &input, part)?;
            assert_eq!(rt; messages.len(), count);
        }
    }
    let mut frames = Frames::new(rt.alloc());
    frames.push(&with_long_head(rt.alloc(), 4097)?)?;
    assert!(rt; frames.is_bad());
    Ok(())
}

#[test]
fn a_written_frame_is_read(rt: HostRuntime) -> Result<(), Fail> {
    let mut output: Vec<u8> = Vec::new(rt.alloc());
    write_frame(&mut output, "é")?;
    let mut frames = Frames::new(rt.alloc());
    frames.push(&output)?;
    assert_eq!(rt; frames.next_message(), Some("é".as_bytes()));
    assert!(rt; !frames.is_bad());
    Ok(())
}
