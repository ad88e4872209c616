ghost use Rattle.std.specs.Prelude.{◌≡◌, ◌+◌, ◌<◌, ◌≤◌, length, slice_index, count_by, if◌then◌else◌};
ghost use Rattle.std.specs.List.{range_with_len};
ghost use Rattle.item_actions.specs.Bytes.{begins_word, follows_space, word_count};

use crate::lanes::{both, count_of_tops, flipped, later, load, spaces};
use crate::separators::is_space;
use std::simd::prelude::*;

// How many bytes are looked at together.
const LANES: usize = 32;

/// How many maximal runs there are of bytes that aren't space bytes.
pub(crate) fn count_of_words(bytes: &[u8]) -> usize
    ensures { result ≡ word_count bytes.now }
{
    let blocks = bytes.len() / LANES;
    let mut total = 0usize;
    let mut before = u8x32::splat(255);
    for block in 0..blocks {
        let (begun, here) = count_in_block(bytes, LANES * block, before);
        total += begun as usize;
        before = here;
    }
    for place in LANES * blocks..bytes.len() {
        if begins_word(bytes, place) {
            total += 1;
        }
    }
    total
}

// How many words begin in the 32 bytes from `at` on, and which of these are space bytes. `before` is the
// latter of the 32 bytes that come before.
#[inline(always)]
fn count_in_block(bytes: &[u8], at: usize, before: u8x32) -> (u32, u8x32)
    requires room { at + 32 ≤ length bytes.now }
    requires last { slice_index before 31 ≡ (if follows_space bytes.now at then 255 else 0) }
    ensures counted { result.0 ≡ count_by (begins_word bytes.now) (range_with_len at 32) }
    ensures last { slice_index result.1 31 ≡ (if follows_space bytes.now (at + 32) then 255 else 0) }
{
    let here = spaces(load(bytes, at));
    let begins = both(later(before, here), flipped(here));
    (count_of_tops(begins), here)
}

// Whether a word begins at the place.
fn begins_word(bytes: &[u8], place: usize) -> bool
    requires { place < length bytes.now }
    ensures { result ≡ begins_word bytes.now place }
{
    !is_space(bytes[place]) && (place == 0 || is_space(bytes[place - 1]))
}
