//! Lists of numbers, one behind the other.
ghost use Rattle.std.specs.Prelude.{◌≡◌, ◌<◌, ◌≤◌, ◌+◌, ◌∷◌, ◌++◌, [], IfOk, OnErr, OnOk, length, slice_index_or, slice_range, vec_capacity, vec_len};
ghost use Rattle.resource_lock.specs.NumberLists.{AreEnds, lists_from, start_at};

use std::alloc::{AllocError, Global};
use std::marker::Model;

/// Lists of numbers of 32 bits, as ranges of one vector: a list takes 4 bytes, and 4 for each number. Contracts see a list of lists.
#[derive(Drop)]
pub struct NumberLists {
    // Where each list ends. It begins where the one before it ends.
    ends: Vec<u32>,
    numbers: Vec<u32>,
}

impl Model for NumberLists {
    ghost use Rattle.std.specs.Prelude.{ℕ, List, length};
    ghost use Rattle.resource_lock.specs.NumberLists.{AreEnds, lists_from};

    ghost Value = { List (List ℕ) };

    ghost view = { λ l. lists_from l.numbers.items 0 l.ends.items };

    ghost invariant = { λ l. AreEnds (length l.numbers.items) 0 l.ends.items };
}

impl NumberLists {
    /// No list. It takes no memory.
    pub fn none(alloc: Global) -> NumberLists
        ensures { result ≡ [] }
    {
        NumberLists {
            ends: Vec::new(alloc),
            numbers: Vec::new(alloc),
        }
    }

    /// The lists that end at these places of the numbers, each of which begins where the one before it ends.
    pub fn from_ranges(ends: Vec<u32>, numbers: Vec<u32>) -> NumberLists
        requires { AreEnds (length numbers.items) 0 ends.items }
        ensures { result ≡ lists_from numbers.items 0 ends.items }
    {
        NumberLists { ends, numbers }
    }

    /// Puts a list behind the others. It fails for want of memory, and where there would be 2^32 numbers in all, or more. The lists are
    /// as before then.
    pub fn push(&mut self, list: &[u32]) -> Result<(), AllocError>
        ensures ok { OnOk result (self.new ≡ self.old ++ list.now ∷ []) }
        ensures kept { OnErr result (self.new ≡ self.old) }
    {
        let end = end_of(self.numbers.len() + list.len())?;
        self.ends.try_reserve(1)?;
        self.numbers.try_reserve(list.len())?;
        append(&mut self.numbers, list);
        self.ends.push_reserved(end);
        Ok(())
    }

    /// How many lists there are.
    pub fn len(&self) -> usize
        ensures { result ≡ length self.now }
    {
        self.ends.len()
    }

    /// The list at a place.
    pub fn at(&self, place: usize) -> &[u32]
        requires { place < length self.now }
        ensures { result.now ≡ slice_index_or self.now place [] }
    {
        let start = start_at(&self.ends, place);
        let end = self.ends[place];
        part(&self.numbers, start, end)
    }
}

// Puts numbers behind the others, where there is room for them.
fn append(numbers: &mut Vec<u32>, list: &[u32])
    requires { vec_len numbers.old + length list.now ≤ vec_capacity numbers.old }
    ensures items { numbers.new.items ≡ numbers.old.items ++ list.now }
    ensures capacity { vec_capacity numbers.new ≡ vec_capacity numbers.old }
{
    for number in list {
        numbers.push_reserved(*number);
    }
}

// The end of so many numbers. An error is that it has more than 32 bits.
fn end_of(count: usize) -> Result<u32, AllocError>
    ensures { IfOk result (λ end. end ≡ count) }
{
    match u32::try_from(count) {
        Ok(end) => Ok(end),
        Err(_) => Err(AllocError),
    }
}

// The numbers from one place on up to another.
fn part(numbers: &[u32], start: u32, end: u32) -> &[u32]
    requires ordered { start ≤ end }
    requires bounded { end ≤ length numbers.now }
    ensures { result.now ≡ slice_range numbers.entry.now start end }
{
    &numbers[start as usize..end as usize]
}

// Where the list at a place begins.
fn start_at(ends: &[u32], place: usize) -> u32
    requires { place < length ends.now }
    ensures { result ≡ start_at 0 ends.now place }
{
    if place == 0 { 0 } else { ends[place - 1] }
}
