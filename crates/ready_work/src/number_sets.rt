//! Sets of numbers.
ghost use Rattle.std.specs.Prelude.{◌≡◌, ◌≢◌, ◌+◌, ◌<◌, ◌≤◌, ◌^◌, ℕ, false, not, IfNone, IfOk, IfSome};
ghost use Rattle.ready_work.specs.Lowest.{IsFrom, IsLowest, IsNone};
ghost use Rattle.ready_work.specs.NumberSetView.{has, room_of, IsMember};

use crate::bits::Bits;
use std::alloc::{AllocError, Global};
use std::marker::Model;

/// A set of numbers below a length that it is made with. Nothing but making it takes memory, and
/// the lowest member is found in a few steps.
#[derive(Drop)]
pub struct NumberSet {
    /// A bit for each number, set where it is a member.
    members: Bits,
    /// A bit for each word of `members`, set where it isn't 0.
    filled: Bits,
    /// A bit for each word of `filled`, set where it isn't 0.
    blocks: Bits,
}

impl Model for NumberSet {
    ghost use Rattle.ready_work.specs.NumberSetView.{NumberSetView};
    ghost use Rattle.ready_work.specs.NumberSet.{number_set_view, IsSummarized};

    ghost Value = { NumberSetView };

    ghost view = { number_set_view };

    ghost invariant = { IsSummarized };
}

impl NumberSet {
    /// No number, with room for those below the length.
    pub fn new(alloc: Global, len: u32) -> Result<NumberSet, AllocError>
        ensures room { IfOk result (λ set. len ≤ room_of set) }
        ensures empty { IfOk result (λ set. (k : ℕ) → has set k ≡ false) }
    {
        let members = Bits::clear(alloc, len as usize)?;
        let filled = Bits::clear(alloc, members.word_count())?;
        let blocks = Bits::clear(alloc, filled.word_count())?;
        Ok(NumberSet {
            members,
            filled,
            blocks,
        })
    }

    /// Makes a number a member, or none.
    pub fn put(&mut self, number: u32, is_member: bool)
        requires { number < room_of self.old }
        ensures room { room_of self.new ≡ room_of self.old }
        ensures put { has self.new number ≡ is_member }
        ensures others { (k : ℕ) → k ≢ number → has self.new k ≡ has self.old k }
    {
        // Most numbers are as they are to be.
        if self.has(number) != is_member {
            self.flip(number);
        }
    }

    // Makes a number a member where it is none, and none where it is one.
    fn flip(&mut self, number: u32)
        requires { number < room_of self.old }
        ensures room { room_of self.new ≡ room_of self.old }
        ensures flipped { has self.new number ≡ not (has self.old number) }
        ensures others { (k : ℕ) → k ≢ number → has self.new k ≡ has self.old k }
    {
        if self.members.flip(number as usize) {
            let place = number as usize / 64;
            self.filled.flip_with(&mut self.blocks, place);
        }
    }

    /// Whether a number is a member, of those that there is room for.
    pub(crate) fn has(&self, number: u32) -> bool
        requires { number < room_of self.now }
        ensures { result ≡ has self.now number }
    {
        self.members.has(number as usize)
    }

    /// The lowest member.
    pub fn first(&self) -> Option<u32>
        ensures some { IfSome result (IsLowest (IsMember self.now)) }
        ensures none { IfNone result (IsNone (IsMember self.now)) }
    {
        self.next_from(0)
    }

    /// The lowest member that isn't below a number.
    pub fn next_from(&self, from: u32) -> Option<u32>
        ensures some { IfSome result (IsLowest (IsFrom from (IsMember self.now))) }
        ensures none { IfNone result (IsNone (IsFrom from (IsMember self.now))) }
    {
        let number = self.next_member(from as usize)?;
        Some(number as u32)
    }

    /// The lowest member above a number.
    pub(crate) fn next_above(&self, number: u32) -> Option<u32>
        ensures some { IfSome result (IsLowest (IsFrom (number + 1) (IsMember self.now))) }
        ensures none { IfNone result (IsNone (IsFrom (number + 1) (IsMember self.now))) }
    {
        if number == u32::MAX {
            // No larger number is a member, by the set's invariant.
            let _ = &self.members;
            return None;
        }
        self.next_from(number + 1)
    }

    // The lowest member that isn't below a number: in the number's own word, or else in the next
    // word that isn't 0.
    fn next_member(&self, from: usize) -> Option<usize>
        requires { from < 2 ^ 32 }
        ensures few { IfSome result (λ k. k < 2 ^ 32) }
        ensures some { IfSome result (IsLowest (IsFrom from (IsMember self.now))) }
        ensures none { IfNone result (IsNone (IsFrom from (IsMember self.now))) }
    {
        if let Some(number) = self.members.next_in_word(from) {
            return Some(number);
        }
        let place = self.filled.next_by(&self.blocks, from / 64 + 1)?;
        Some(self.members.lowest_in(place))
    }
}
