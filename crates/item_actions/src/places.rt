ghost use Rattle.std.specs.Prelude.{◌≡◌, ◌+◌, ◌<◌, ◌≤◌, ◌==◌, length, take, drop, map, count_by};
ghost use Rattle.std.specs.List.{range_with_len};
ghost use Rattle.std.specs.Simd.Lanes.{mask_l};
ghost use Rattle.memchr.specs.Find.{occurs_at};
ghost use Rattle.item_actions.specs.Bytes.{FirstIsAlone, agrees, occurrences};

use std::simd::prelude::*;

// How many places are looked at together.
const LANES: usize = 32;

// A bit for each of the places that are looked at together.
const ALL_PLACES: u64 = 0xffff_ffff;

/// How often a needle is found of which no two occurrences can overlap: at how many places it stands.
pub(crate) fn count_of_places(bytes: &[u8], needle: &[u8]) -> usize
    requires several { 2 ≤ length needle.now }
    requires alone { FirstIsAlone needle.now }
    ensures { result ≡ occurrences needle.now bytes.now }
{
    let places = (bytes.len() + 1).saturating_sub(needle.len());
    let blocks = places / LANES;
    let mut total = 0usize;
    for block in 0..blocks {
        total += count_in_block(bytes, needle, LANES * block) as usize;
    }
    for place in LANES * blocks..places {
        if occurs_at(bytes, needle, place) {
            total += 1;
        }
    }
    total
}

// Whether the needle stands at the place, behind which there are bytes enough.
fn occurs_at(bytes: &[u8], needle: &[u8], place: usize) -> bool
    requires { place + length needle.now ≤ length bytes.now }
    ensures { result ≡ occurs_at bytes.now needle.now place }
{
    &bytes[place..place + needle.len()] == needle
}

// At how many of the 32 places from `at` on the needle stands. Most often its first two bytes tell.
#[inline(always)]
fn count_in_block(bytes: &[u8], needle: &[u8], at: usize) -> u32
    requires several { 2 ≤ length needle.now }
    requires room { at + 31 + length needle.now ≤ length bytes.now }
    ensures { result ≡ count_by (occurs_at bytes.now needle.now) (range_with_len at 32) }
{
    let places = still_agreeing(bytes, needle, at, 0, ALL_PLACES);
    let mut places = still_agreeing(bytes, needle, at, 1, places);
    let mut agreed = 2;
    while places != 0 && agreed < needle.len() {
        places = still_agreeing(bytes, needle, at, agreed, places);
        agreed += 1;
    }
    places.count_ones()
}

// Of the 32 places from `at` on, a bit each, those where `agreed` bytes of the needle agree, and then those
// where one more does. A mask of bits is what the compiler keeps in one register from one byte to the next.
#[inline(always)]
fn still_agreeing(bytes: &[u8], needle: &[u8], at: usize, agreed: usize, places: u64) -> u64
    requires within { agreed < length needle.now }
    requires room { at + 31 + length needle.now ≤ length bytes.now }
    requires places { places ≡ mask_l (map (agrees bytes.now needle.now agreed) (range_with_len at 32)) }
    ensures { result ≡ mask_l (map (agrees bytes.now needle.now (agreed + 1)) (range_with_len at 32)) }
{
    places & places_of(bytes, at + agreed, needle[agreed])
}

// The places of a byte among the 32 from `at` on.
#[inline(always)]
fn places_of(bytes: &[u8], at: usize, byte: u8) -> u64
    requires { at + 32 ≤ length bytes.now }
    ensures { result ≡ mask_l (map (λ b. b == byte) (take 32 (drop at bytes.now))) }
{
    let lanes = u8x32::from_slice(&bytes[at..]);
    lanes.simd_eq(u8x32::splat(byte)).to_bitmask()
}
