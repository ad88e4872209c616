//! Steps on vectors of 32 bytes.
ghost use Rattle.std.specs.Prelude.{◌≡◌, ◌+◌, ◌-◌, ◌≤◌, ◌==◌, nat_le, nat_eq, bit_or, bit_and, bit_xor, length, slice_index};
ghost use Rattle.std.specs.Prelude.{count_by, if◌then◌else◌};
ghost use Rattle.memchr.specs.Lanes.{HasLanes};
ghost use Rattle.item_actions.specs.Bytes.{is_space};

use std::simd::prelude::*;

/// The 32 bytes from `at` on.
#[inline(always)]
pub(crate) fn load(bytes: &[u8], at: usize) -> u8x32
    requires { at + 32 ≤ length bytes.now }
    ensures { HasLanes result (λ k. slice_index bytes.now (at + k)) }
{
    u8x32::from_slice(&bytes[at..])
}

/// All ones where the lane is a space byte, and zero elsewhere.
#[inline(always)]
pub(crate) fn spaces(lanes: u8x32) -> u8x32
    ensures { HasLanes result (λ k. if is_space (slice_index lanes k) then 255 else 0) }
{
    either(equal_to(lanes, b' '), tabs(lanes))
}

// All ones where the lane is `byte`, and zero elsewhere.
#[inline(always)]
fn equal_to(lanes: u8x32, byte: u8) -> u8x32
    ensures { HasLanes result (λ k. if slice_index lanes k == byte then 255 else 0) }
{
    lanes
        .simd_eq(u8x32::splat(byte))
        .select(u8x32::splat(255), u8x32::splat(0))
}

// 255 at each byte from a tab to a carriage return, and else 0.
#[inline(always)]
fn tabs(lanes: u8x32) -> u8x32
    ensures { HasLanes result (λ k. bit_and (if nat_le 9 (slice_index lanes k) then 255 else 0) (if nat_le (slice_index lanes k) 13 then 255 else 0)) }
{
    both(at_least(lanes, 9), at_most(lanes, 13))
}

// 255 at each byte that isn't below `low`, and else 0.
#[inline(always)]
fn at_least(lanes: u8x32, low: u8) -> u8x32
    ensures { HasLanes result (λ k. if nat_le low (slice_index lanes k) then 255 else 0) }
{
    lanes
        .simd_ge(u8x32::splat(low))
        .select(u8x32::splat(255), u8x32::splat(0))
}

// 255 at each byte that isn't above `high`, and else 0.
#[inline(always)]
fn at_most(lanes: u8x32, high: u8) -> u8x32
    ensures { HasLanes result (λ k. if nat_le (slice_index lanes k) high then 255 else 0) }
{
    lanes
        .simd_le(u8x32::splat(high))
        .select(u8x32::splat(255), u8x32::splat(0))
}

/// The bits that are set in both.
#[inline(always)]
pub(crate) fn both(left: u8x32, right: u8x32) -> u8x32
    ensures { HasLanes result (λ k. bit_and (slice_index left k) (slice_index right k)) }
{
    left & right
}

// At each place the bits of both.
#[inline(always)]
fn either(left: u8x32, right: u8x32) -> u8x32
    ensures { HasLanes result (λ k. bit_or (slice_index left k) (slice_index right k)) }
{
    left | right
}

/// The lanes of `here` one place later, the last of `before` first.
#[inline(always)]
pub(crate) fn later(before: u8x32, here: u8x32) -> u8x32
    ensures { HasLanes result (λ k. if nat_eq k 0 then slice_index before 31 else slice_index here (k - 1)) }
{
    before.shuffle(
        here,
        [
            31, 32, 33, 34, 35, 36, 37, 38, 39, 40, 41, 42, 43, 44, 45, 46, 47, 48, 49, 50, 51, 52,
            53, 54, 55, 56, 57, 58, 59, 60, 61, 62,
        ],
    )
}

/// All bits turned round.
#[inline(always)]
pub(crate) fn flipped(lanes: u8x32) -> u8x32
    ensures { HasLanes result (λ k. bit_xor (slice_index lanes k) 255) }
{
    lanes ^ u8x32::splat(255)
}

/// How many lanes have their top bit set.
#[inline(always)]
pub(crate) fn count_of_tops(lanes: u8x32) -> u32
    ensures { result ≡ count_by (λ x. nat_le 128 x) lanes }
{
    lanes.simd_ge(u8x32::splat(128)).to_bitmask().count_ones()
}
