//! What the actions that count give on one piece, by the definitions of the whole. Each gives a number, so no other arm is reached.
ghost use Rattle.std.specs.Prelude.{◌≡◌, ◌==◌, count_by};
ghost use Rattle.item_actions.specs.Bytes.{longest, occurrences, word_count};

use crate::{ItemAction, Needle, Outcome, act};

/// How many line ends there are.
pub(crate) fn line_ends_in(bytes: &[u8]) -> u64
    ensures { result ≡ count_by (λ b. b == 10) bytes.now }
{
    match act(&ItemAction::Lines, bytes) {
        Outcome::Number(number) => number,
        _ => 0,
    }
}

/// How many words there are.
pub(crate) fn words_in(bytes: &[u8]) -> u64
    ensures { result ≡ word_count bytes.now }
{
    match act(&ItemAction::Words, bytes) {
        Outcome::Number(number) => number,
        _ => 0,
    }
}

/// The length of the longest run without a line end.
pub(crate) fn longest_in(bytes: &[u8]) -> u64
    ensures { result ≡ longest bytes.now }
{
    match act(&ItemAction::Longest, bytes) {
        Outcome::Number(number) => number,
        _ => 0,
    }
}

/// How often the needle is found from the left, none overlapping an earlier one.
pub(crate) fn needles_in(bytes: &[u8], needle: &Needle) -> u64
    ensures { result ≡ occurrences needle.now bytes.now }
{
    match act(&ItemAction::Count(*needle), bytes) {
        Outcome::Number(number) => number,
        _ => 0,
    }
}
