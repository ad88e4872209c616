//! Lists of numbers that grow side by side.
ghost use Rattle.std.specs.Prelude.{◌≡◌, ◌≤◌, ◌<◌, ◌∷◌, ◌++◌, [], ℕ, IfOk, OnOk, length, slice_set};
ghost use Rattle.ready_work.specs.LinkedLists.{AreNextsBefore, list_from};
ghost use Rattle.ready_work.specs.Rank.{after};

use resource_lock::NumberLists;
use std::alloc::{AllocError, Global};
use std::marker::Model;

/// A number of a list.
#[derive(Clone, Copy)]
pub struct Link {
    pub number: u32,
    /// Which link stands behind it in its list: one more than that one's place, or 0 at the end of the list.
    pub next: u32,
}

/// Lists of numbers, which grow at their fronts. The numbers of all lists stand in one row, so that no list takes memory of its own.
#[derive(Drop)]
pub(crate) struct LinkedLists {
    // For each list its first link: one more than that one's place, or 0 where the list is empty.
    firsts: Vec<u32>,
    links: Vec<Link>,
}

impl Model for LinkedLists {
    ghost use Rattle.ready_work.specs.LinkedLists.{AreLinked, lists_by};
    ghost use Rattle.ready_work.specs.Rank.{Dependencies};

    ghost Value = { Dependencies };

    ghost view = { λ l. lists_by l.links.items l.firsts.items };

    ghost invariant = { λ l. AreLinked l.links.items l.firsts.items };
}

impl LinkedLists {
    /// So many empty lists. It fails for want of memory alone.
    pub(crate) fn empty(alloc: Global, count: usize) -> Result<LinkedLists, AllocError>
        ensures count { IfOk result (λ lists. length lists ≡ count) }
        ensures empty { IfOk result (λ lists. (u : ℕ) → after lists u ≡ []) }
    {
        let firsts = vec![in alloc; 0; count]?;
        Ok(LinkedLists {
            firsts,
            links: Vec::new(alloc),
        })
    }

    /// Puts a number before those of a list. It fails for want of memory, and where there are 2^32 - 1 numbers in all.
    pub(crate) fn push(&mut self, list: usize, number: u32) -> Result<(), AllocError>
        requires { list < length self.old }
        ensures { OnOk result (self.new ≡ slice_set self.old list (number ∷ after self.old list)) }
    {
        let first = number_of(self.links.len() + 1)?;
        let next = self.firsts[list];
        self.links.push(Link { number, next })?;
        self.firsts[list] = first;
        Ok(())
    }

    /// The same lists, as ranges of one vector. It fails for want of memory alone.
    pub(crate) fn lists(&self, alloc: Global) -> Result<NumberLists, AllocError>
        ensures { IfOk result (λ lists. lists ≡ self.now) }
    {
        let mut ends = Vec::with_capacity(alloc, self.firsts.len())?;
        let mut numbers = Vec::with_capacity(alloc, self.links.len())?;
        for first in &self.firsts {
            append(&mut numbers, &self.links, *first)?;
            ends.push(number_of(numbers.len())?)?;
        }
        Ok(NumberLists::from_ranges(ends, numbers))
    }
}

// The number, where it has no more than 32 bits.
fn number_of(count: usize) -> Result<u32, AllocError>
    ensures { IfOk result (λ number. number ≡ count) }
{
    match u32::try_from(count) {
        Ok(number) => Ok(number),
        Err(_) => Err(AllocError),
    }
}

// Puts the numbers of the list that begins with a link behind the others.
fn append(numbers: &mut Vec<u32>, links: &[Link], first: u32) -> Result<(), AllocError>
    requires within { first ≤ length links.now }
    requires nexts { AreNextsBefore links.now }
    ensures { OnOk result (numbers.new.items ≡ numbers.old.items ++ list_from links.now first) }
{
    let mut next = first;
    while next > 0 {
        let link = links[next as usize - 1];
        numbers.push(link.number)?;
        next = link.next;
    }
    Ok(())
}
