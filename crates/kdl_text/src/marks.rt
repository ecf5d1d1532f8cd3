//! Searches for the bytes at which a comment or a line may end, 16 bytes at a time.

ghost use Rattle.kdl_text.specs.Internal.Marks.{is_comment_mark, is_newline_mark, is_mark};
ghost use Rattle.kdl_text.specs.Internal.Tables.{Until};
ghost use Rattle.std.specs.Prelude.{◌≡◌, map};
ghost use Rattle.std.specs.Simd.Lanes.{mask_l};

use std::simd::prelude::*;

/// The bytes at which a search stops.
#[derive(Clone, Copy)]
pub enum Marks {
    /// `*` and `/`, at which block comments begin and end.
    Comment,
    /// The bytes with which newlines begin.
    Newline,
}

/// A bit for each byte that is `*` or `/`.
#[inline(always)]
fn comment_marks(v: u8x16) -> u64
    ensures { result ≡ mask_l (map is_comment_mark v) }
{
    let stars = v.simd_eq(u8x16::splat(b'*')).to_bitmask();
    let slashes = v.simd_eq(u8x16::splat(b'/')).to_bitmask();
    stars | slashes
}

/// A bit for each byte with which a newline begins: LF to CR, and 0xC2 and 0xE2, with which the
/// newlines beyond ASCII begin.
#[inline(always)]
fn newline_marks(v: u8x16) -> u64
    ensures { result ≡ mask_l (map is_newline_mark v) }
{
    let low = (v - u8x16::splat(b'\n'))
        .simd_lt(u8x16::splat(4))
        .to_bitmask();
    let high = (v | u8x16::splat(0x20))
        .simd_eq(u8x16::splat(0xe2))
        .to_bitmask();
    low | high
}

impl Marks {
    /// A bit for each byte that is a mark.
    #[inline(always)]
    fn found(self, v: u8x16) -> u64
        ensures { result ≡ mask_l (map (is_mark self) v) }
    {
        match self {
            Marks::Comment => comment_marks(v),
            Marks::Newline => newline_marks(v),
        }
    }

    /// Whether the byte is a mark.
    #[inline(always)]
    fn has(self, byte: u8) -> bool
        ensures { result ≡ is_mark self byte }
    {
        match self {
            Marks::Comment => matches!(byte, b'*' | b'/'),
            Marks::Newline => matches!(byte, b'\n'..=b'\r' | 0xc2 | 0xe2),
        }
    }
}

/// Returns the number of bytes before the first mark.
#[inline(always)]
pub fn unmarked_len(bytes: &[u8], marks: Marks) -> usize
    ensures { Until (is_mark marks) bytes.now result }
{
    let room = bytes.len().saturating_sub(15);
    let mut count = 0;
    'vectors: while count < room {
        let found = marks.found(u8x16::from_slice(&bytes[count..]));
        if found != 0 {
            return count + found.trailing_zeros() as usize;
        }
        count += 16;
    }
    'rest: while count < bytes.len() && !marks.has(bytes[count]) {
        count += 1;
    }
    count
}
