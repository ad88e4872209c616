//! The bytes whose places in a file the action `count` counts.
//!
//! A needle whose first byte stands in it once can't overlap itself, so a piece is searched by the action of the whole. Any other one is
//! searched place by place, since it matters where the last one ended. Between two pieces the last bytes, fewer than the needle has, are
//! joined to as many of the next (edge.rt).
ghost use Rattle.std.specs.Prelude.{◌≡◌, ◌<◌, ◌≤◌, ◌⊎◌, length, MatchOption};

use crate::limits::MAX_NEEDLE_BYTES;
use std::marker::Model;

/// What is searched for: 1 to 64 bytes.
// An array in place of a `Vec`: so an action is copied like a number.
#[derive(Clone, Copy)]
pub struct Needle {
    bytes: [u8; MAX_NEEDLE_BYTES],
    len: usize,
}

impl Model for Needle {
    ghost use Rattle.std.specs.Prelude.{ℕ, List, length, take};

    ghost Value = { List ℕ };

    ghost use Rattle.item_actions.specs.Needles.{padded, IsPadded};

    ghost view = { λ n. take n.len n.bytes };

    ghost invariant = { IsPadded };

    ghost inverse = { padded };

    ghost inverse_ok = { λ _ h. h.zeros };
}

impl Needle {
    /// A needle of these bytes; None exactly where their number is outside 1 to 64.
    pub fn of(bytes: &[u8]) -> Option<Needle>
        ensures { MatchOption result (MAX_NEEDLE_BYTES < length bytes.now ⊎ (length bytes.now ≡ 0)) (λ n. n ≡ bytes.now) }
    {
        let len = bytes.len();
        if len == 0 || MAX_NEEDLE_BYTES < len {
            return None;
        }
        let mut kept = [0; MAX_NEEDLE_BYTES];
        kept[..len].copy_from_slice(bytes);
        Some(Needle { bytes: kept, len })
    }

    /// The bytes.
    pub fn bytes(&self) -> &[u8]
        ensures bytes { result.now ≡ self.now }
        ensures some { 1 ≤ length result.now }
        ensures few { length result.now ≤ MAX_NEEDLE_BYTES }
    {
        &self.bytes[..self.len]
    }
}
