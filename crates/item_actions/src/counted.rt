//! Needles in bytes that others may come behind.
ghost use Rattle.std.specs.Prelude.{◌≡◌, ◌<◌, ◌≤◌, ◌+◌, length};
ghost use Rattle.item_actions.specs.Bytes.{FirstIsAlone};
ghost use Rattle.item_actions.specs.declared.limits.TheConstants.{MAX_NEEDLE_BYTES};
ghost use Rattle.item_actions.specs.NeedleMatches.{CountsOn};

use crate::numbers::needles_in;
use crate::{Needle, counting_goes_on_behind_the_first};
use memchr::memmem::Finder;

/// How often the needle is found from the left, none overlapping an earlier one, and the place from which on the bytes may still be
/// a part of one. Fewer bytes stand from there on than the needle has.
pub(crate) fn count_on(bytes: &[u8], needle: &Needle) -> (u64, usize)
    ensures counted { CountsOn needle.now bytes.now result.0 result.1 }
    ensures short { length bytes.now < result.1 + length needle.now }
    ensures few { length bytes.now < result.1 + MAX_NEEDLE_BYTES }
{
    match needle.bytes() {
        [first, rest @ ..] if !rest.contains(first) => count_alone(bytes, needle),
        several => find_each(bytes, several),
    }
}

// `count_on` for a needle of which no two overlap. What was found before another one doesn't matter.
fn count_alone(bytes: &[u8], needle: &Needle) -> (u64, usize)
    requires { FirstIsAlone needle.now }
    ensures counted { CountsOn needle.now bytes.now result.0 result.1 }
    ensures short { length bytes.now < result.1 + length needle.now }
{
    counting_goes_on_behind_the_first();
    let tail_start = (bytes.len() + 1).saturating_sub(needle.bytes().len());
    (needles_in(bytes, needle), tail_start)
}

// `count_on` for a needle of these bytes, by one search after the other. Behind the last one it stands nowhere.
fn find_each(bytes: &[u8], needle: &[u8]) -> (u64, usize)
    requires { 1 ≤ length needle.now }
    ensures counted { CountsOn needle.now bytes.now result.0 result.1 }
    ensures short { length bytes.now < result.1 + length needle.now }
{
    counting_goes_on_behind_the_first();
    let finder = Finder::new(needle);
    let mut found = 0u64;
    let mut end = 0usize;
    while let Some(place) = finder.find(&bytes[end..]) {
        found += 1;
        end += place + needle.len();
    }
    let tail_start = (bytes.len() + 1).saturating_sub(needle.len());
    (found, end.max(tail_start))
}
