//! Runs of ASCII characters of a class, 16 bytes at a time.

ghost use Rattle.kdl_text.specs.Internal.Tables.{outside, column_of, row_of, InsideLen};
ghost use Rattle.std.specs.Prelude.{◌≡◌, ◌<◌, length, map, not};
ghost use Rattle.std.specs.Simd.Lanes.{mask_l};

use std::simd::prelude::*;

/// The bit of each row of a table of ASCII characters. A byte above ASCII is in no row.
const ROW_BITS: [u8; 16] = [1, 2, 4, 8, 16, 32, 64, 128, 0, 0, 0, 0, 0, 0, 0, 0];

/// A byte that is in no table.
const OUTSIDE: u8 = 255;

#[inline(always)]
fn columns(v: u8x16, table: u8x16) -> u8x16
    ensures { result ≡ map (column_of table) v }
{
    table.swizzle_dyn(v & u8x16::splat(15))
}

#[inline(always)]
fn rows(v: u8x16) -> u8x16
    ensures { result ≡ map row_of v }
{
    u8x16::from_array(ROW_BITS).swizzle_dyn(v >> u8x16::splat(4))
}

/// A bit for each byte that is not in the table.
#[inline(always)]
fn outsiders(v: u8x16, table: u8x16) -> u64
    ensures { result ≡ mask_l (map (outside table) v) }
{
    (columns(v, table) & rows(v))
        .simd_eq(u8x16::splat(0))
        .to_bitmask()
}

/// Returns whether the byte is in the table.
#[inline(always)]
pub fn is_inside(byte: u8, table: &[u8; 16]) -> bool
    ensures { result ≡ not (outside table.now byte) }
{
    table[(byte & 15) as usize] & ROW_BITS[(byte >> 4) as usize] != 0
}

/// Returns the number of bytes at the front that are in the table.
#[inline(always)]
pub fn inside_len(bytes: &[u8], table: &[u8; 16]) -> usize
    ensures { InsideLen table.now bytes.now result }
{
    let columns = u8x16::from_array(*table);
    let room = bytes.len().saturating_sub(15);
    let mut count = 0;
    'vectors: while count < room {
        let found = outsiders(u8x16::from_slice(&bytes[count..]), columns);
        if found != 0 {
            return count + found.trailing_zeros() as usize;
        }
        count += 16;
    }
    count + inside_front(&bytes[count..], columns)
}

/// Returns the number of bytes at the front that are in the table, of fewer than 16 bytes.
#[inline(always)]
fn inside_front(bytes: &[u8], columns: u8x16) -> usize
    requires { length bytes.now < 16 }
    ensures { InsideLen columns bytes.now result }
{
    let mut lanes = [OUTSIDE; 16];
    lanes[..bytes.len()].copy_from_slice(bytes);
    outsiders(u8x16::from_array(lanes), columns).trailing_zeros() as usize
}
