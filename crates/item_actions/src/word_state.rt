//! Words in pieces.
ghost use Rattle.std.specs.Prelude.{◌≡◌, ◌<◌, ◌+◌, ◌++◌, ◌^◌, ℕ, List, [], length};
ghost use Rattle.item_actions.specs.Bytes.{word_count};
ghost use Rattle.item_actions.specs.WordPieces.{HasWords, can_begin, starts_word, words_after};

use crate::is_space;
use crate::numbers::words_in;

/// The words of the pieces that came: how many begin in them, and whether a byte that comes next can begin one.
#[derive(Clone, Copy)]
pub struct WordState {
    begun: u64,
    can_begin: bool,
}

impl WordState {
    /// No piece came.
    pub fn new() -> WordState
        ensures { HasWords result [] }
    {
        WordState {
            begun: 0,
            can_begin: true,
        }
    }

    /// The words of one piece more. A word that goes on from the piece before isn't counted again.
    pub fn add(&mut self, piece: &[u8])
        ensures { (bytes : List ℕ) → length bytes + length piece.now < 2 ^ 64
            → HasWords self.old bytes → HasWords self.new (bytes ++ piece.now) }
    {
        let begun = begun_in(piece, self.can_begin);
        self.begun = self.begun.saturating_add(begun);
        self.can_begin = can_begin_behind(piece, self.can_begin);
    }

    /// How many words there are.
    pub fn number(&self) -> u64
        ensures { (bytes : List ℕ) → HasWords self.now bytes → result ≡ word_count bytes }
    {
        self.begun
    }
}

// How many words begin in the piece, where `can` says whether its first byte can begin one.
fn begun_in(piece: &[u8], can: bool) -> u64
    ensures { result ≡ words_after can piece.now }
{
    let words = words_in(piece);
    if can {
        return words;
    }
    if starts_word(piece) { words - 1 } else { words }
}

// Whether the first byte is one of a word.
fn starts_word(piece: &[u8]) -> bool
    ensures { result ≡ starts_word piece.now }
{
    match piece {
        [first, ..] => !is_space(*first),
        [] => false,
    }
}

// Whether a byte behind the piece can begin a word, where `can` says so of the first one of the piece.
fn can_begin_behind(piece: &[u8], can: bool) -> bool
    ensures { result ≡ can_begin can piece.now }
{
    let len = piece.len();
    if len == 0 {
        return can;
    }
    is_space(piece[len - 1])
}
