ghost use Rattle.std.specs.Prelude.{◌≡◌, ◌==◌, ◌+◌, ◌≤◌, length, slice_range, count_by};

use std::simd::prelude::*;

// How many bytes are looked at together.
const LANES: usize = 32;

/// How many of the bytes equal `byte`.
pub(crate) fn count_of_byte(bytes: &[u8], byte: u8) -> usize
    ensures { result ≡ count_by (λ b. b == byte) bytes.now }
{
    let blocks = bytes.len() / LANES;
    let mut total = 0usize;
    for block in 0..blocks {
        total += count_in_block(bytes, LANES * block, byte) as usize;
    }
    total + count_one_by_one(&bytes[LANES * blocks..], byte)
}

// How often the byte stands in the bytes.
fn count_one_by_one(bytes: &[u8], byte: u8) -> usize
    ensures { result ≡ count_by (λ b. b == byte) bytes.now }
{
    let mut total = 0usize;
    for found in bytes {
        if *found == byte {
            total += 1;
        }
    }
    total
}

// How many of the 32 bytes from `at` on equal `byte`, by one comparison of vectors.
#[inline(always)]
fn count_in_block(bytes: &[u8], at: usize, byte: u8) -> u32
    requires { at + 32 ≤ length bytes.now }
    ensures { result ≡ count_by (λ b. b == byte) (slice_range bytes.now at (at + 32)) }
{
    let lanes = u8x32::from_slice(&bytes[at..]);
    lanes.simd_eq(u8x32::splat(byte)).to_bitmask().count_ones()
}
