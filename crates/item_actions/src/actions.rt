//! The actions, and what each gives.
ghost use Rattle.std.specs.Prelude.{◌≡◌};
ghost use Rattle.item_actions.specs.Value.{act_on};

use crate::counting::count_of_byte;
use crate::needles::Needle;
use crate::occurrences::count_of_needle;
use crate::outcomes::Outcome;
use crate::pieces::longest_piece;
use crate::separators::LINE_END;
use crate::word_counts::count_of_words;
use sha2::{Digest, Sha256};

/// What is worked out of a file's bytes.
#[derive(Clone, Copy)]
pub enum ItemAction {
    /// How many bytes are line ends, 0x0A.
    Lines,
    /// How many maximal runs there are of bytes that aren't space bytes, 0x09 to 0x0D and 0x20.
    Words,
    /// How many bytes there are.
    Bytes,
    /// The greatest length of a piece when the bytes are split at each line end.
    Longest,
    /// How often the needle is found from the left, none overlapping an earlier one.
    Count(Needle),
    /// The SHA-256 of the bytes, after FIPS 180-4.
    Sha256,
}

/// The outcome of an action on bytes. It takes no memory.
pub fn act(action: &ItemAction, bytes: &[u8]) -> Outcome
    ensures { result ≡ act_on action.now bytes.now }
{
    match action {
        ItemAction::Lines => Outcome::Number(count_of_byte(bytes, LINE_END) as u64),
        ItemAction::Words => Outcome::Number(count_of_words(bytes) as u64),
        ItemAction::Bytes => Outcome::Number(bytes.len() as u64),
        ItemAction::Longest => Outcome::Number(longest_piece(bytes) as u64),
        ItemAction::Count(needle) => Outcome::Number(count_of_needle(bytes, needle) as u64),
        ItemAction::Sha256 => Outcome::Digest(Sha256::digest(bytes)),
    }
}
