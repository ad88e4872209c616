//! Needles in pieces.
ghost use Rattle.std.specs.Prelude.{◌≡◌, ◌<◌, ◌+◌, ◌++◌, ◌^◌, ℕ, List, [], length, drop};
ghost use Rattle.item_actions.specs.Bytes.{occurrences};
ghost use Rattle.item_actions.specs.declared.limits.TheConstants.{MAX_NEEDLE_BYTES};
ghost use Rattle.item_actions.specs.NeedleMatches.{HasNeedles};

use crate::counted::count_on;
use crate::edge::Edge;
use crate::needle_state::NeedleState;
use crate::{Needle, counting_goes_on_behind_the_first};

impl NeedleState {
    /// No piece came.
    pub fn new(needle: Needle) -> NeedleState
        ensures { HasNeedles result needle [] }
    {
        NeedleState {
            needle,
            found: 0,
            tail: Edge::new(),
        }
    }

    /// The needles of one piece more, those that begin in the pieces before it included.
    pub fn add(&mut self, piece: &[u8])
        ensures { (needle bytes : List ℕ) → length bytes + length piece.now < 2 ^ 64
            → HasNeedles self.old needle bytes → HasNeedles self.new needle (bytes ++ piece.now) }
    {
        let overlap = piece.len().min(self.needle.bytes().len() - 1);
        self.add_edge(&piece[..overlap]);
        if overlap < piece.len() {
            // The last bytes that count now stand in the piece.
            let from = overlap - self.tail.bytes().len();
            self.add_joined(&piece[from..]);
        }
    }

    // The needles of bytes more, fewer than a needle may have.
    fn add_edge(&mut self, front: &[u8])
        requires { length front.now < MAX_NEEDLE_BYTES }
        ensures needles { (needle bytes : List ℕ) → length bytes + length front.now < 2 ^ 64
            → HasNeedles self.old needle bytes → HasNeedles self.new needle (bytes ++ front.now) }
        ensures same { self.new.needle ≡ self.old.needle }
        ensures tail { (k : ℕ) × (self.new.tail ≡ drop k (self.old.tail ++ front.now)) }
    {
        let mut edge = Edge::of(self.tail.bytes());
        edge.push(front);
        self.add_joined(edge.bytes());
    }

    // The needles of bytes more, which come joined to the last ones.
    fn add_joined(&mut self, joined: &[u8])
        ensures needles { (needle bytes more : List ℕ) → joined.now ≡ self.old.tail ++ more → length bytes + length more < 2 ^ 64
            → HasNeedles self.old needle bytes → HasNeedles self.new needle (bytes ++ more) }
        ensures same { self.new.needle ≡ self.old.needle }
        ensures tail { (k : ℕ) × (self.new.tail ≡ drop k joined.now) }
    {
        counting_goes_on_behind_the_first();
        let (found, end) = count_on(joined, &self.needle);
        self.found = self.found.saturating_add(found);
        self.tail = Edge::of(&joined[end..]);
    }

    /// How many were found.
    pub fn number(&self) -> u64
        ensures { (needle bytes : List ℕ) → HasNeedles self.now needle bytes → result ≡ occurrences needle bytes }
    {
        counting_goes_on_behind_the_first();
        self.found
    }
}
