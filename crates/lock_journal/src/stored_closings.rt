//! What is stored of closings.
ghost use Rattle.std.specs.Prelude.{◌≡◌, ◌≤◌, ◌<◌, ◌+◌, ◌-◌, ◌∷◌, ◌++◌, [], IfOk, OnErr, OnOk, length, take, vec_capacity, vec_len};
ghost use Rattle.lock_journal.specs.StoredClosing.{IsDigestWithin, IsLastDigest, closing_from, digest_of, digests_until, plain_outcome};
ghost use Rattle.lock_journal.specs.StoredEntry.{closing_at};
ghost use Rattle.lock_journal.specs.declared.stored_entries.TheConstants.{MOST_PLACES};

use crate::stored_entries::{free_places, place_behind};
use item_actions::Outcome;
use lock_transforms::Closed;
use std::alloc::{AllocError, Global};
use std::marker::Model;

/// What is stored of a closing: the unit, and its outcome. A digest stands in a row of its own, at this place.
#[derive(Clone, Copy)]
pub enum StoredClosing {
    Number(u32, u64),
    Digest(u32, u32),
    Plain(u32, PlainOutcome),
}

// The unit stands before the number, since fields lie in the order of the source.
const _: () = prove!(size_of::<StoredClosing>() == 16);

/// An outcome that is a word alone.
#[derive(Clone, Copy)]
pub enum PlainOutcome {
    NotThere,
    TooLong,
    Fault,
    NoMemory,
    Skipped,
}

/// Closings in order. Those of 32 bytes have them in a second row, so that the others take 16 bytes each.
#[derive(Drop)]
pub struct StoredClosings {
    stored: Vec<StoredClosing>,
    digests: Vec<[u8; 32]>,
}

impl Model for StoredClosings {
    ghost use Rattle.lock_journal.specs.StoredClosings.{AreSoundClosings, ClosingsView, closings_view};

    ghost Value = { ClosingsView };

    ghost view = { closings_view };

    ghost invariant = { AreSoundClosings };
}

impl StoredClosings {
    /// No closings, with room for at least so many. It fails for want of memory alone.
    pub fn with_room(alloc: Global, count: usize) -> Result<StoredClosings, AllocError>
        requires few { count ≤ MOST_PLACES }
        ensures none { IfOk result (λ closings. closings.items ≡ []) }
        ensures room { IfOk result (λ closings. count ≤ closings.spare) }
    {
        let stored = Vec::with_capacity(alloc, count)?;
        let digests = Vec::with_capacity(alloc, count)?;
        Ok(StoredClosings { stored, digests })
    }

    /// How many there are.
    #[inline]
    pub fn len(&self) -> usize
        ensures value { result ≡ length self.now.items }
        ensures few { result ≤ MOST_PLACES }
    {
        self.stored.len()
    }

    /// How many more there is room for, also where each has a digest.
    #[inline]
    pub fn spare(&self) -> u64
        ensures { result ≡ self.now.spare }
    {
        let closings = (self.stored.capacity() - self.stored.len()) as u64;
        let digests = (self.digests.capacity() - self.digests.len()) as u64;
        let closings = closings.min(free_places(self.stored.len()));
        closings.min(digests.min(free_places(self.digests.len())))
    }

    /// Makes room for so many more. It fails for want of memory, and where there would be 2^32 closings or digests then, or more.
    pub fn reserve(&mut self, count: usize) -> Result<(), AllocError>
        ensures same { self.new.items ≡ self.old.items }
        ensures more { self.old.spare ≤ self.new.spare }
        ensures room { OnOk result (count ≤ self.new.spare) }
        ensures full { OnErr result (self.old.spare < count) }
    {
        if count as u64 > free_places(self.stored.len())
            || count as u64 > free_places(self.digests.len())
        {
            return Err(AllocError);
        }
        self.stored.try_reserve(count)?;
        self.digests.try_reserve(count)
    }

    /// The closing at a place.
    pub fn at(&self, place: usize) -> Closed
        requires { place < length self.now.items }
        ensures { result ≡ closing_at self.now.items place }
    {
        closing_from(&self.digests, self.stored[place])
    }

    /// Puts a closing behind the others, where there is room for it.
    #[inline]
    pub fn push_reserved(&mut self, closed: Closed)
        requires { 0 < self.old.spare }
        ensures items { self.new.items ≡ self.old.items ++ closed ∷ [] }
        ensures few { length self.new.items ≤ MOST_PLACES }
        ensures spare { self.old.spare ≤ self.new.spare + 1 }
    {
        let stored = store_closing(closed, &mut self.digests);
        self.stored.push_reserved(stored);
    }

    /// Removes the closings from a place on, which is that of the last or the one behind it, with its digest if it has one.
    pub fn pop_from(&mut self, place: usize)
        requires { length self.old.items ≤ place + 1 }
        ensures items { self.new.items ≡ take place self.old.items }
        ensures spare { self.old.spare ≤ self.new.spare }
    {
        if place < self.len() {
            self.pop();
        }
    }

    // Removes the last closing, with its digest if it has one.
    fn pop(&mut self)
        ensures items { self.new.items ≡ take (length self.old.items - 1) self.old.items }
        ensures spare { self.old.spare ≤ self.new.spare }
    {
        if let Some(last) = self.stored.pop() {
            self.digests
                .truncate(digests_until(last, self.digests.len()));
        }
    }

    /// Removes them all. The room for others stays.
    pub fn clear(&mut self)
        ensures items { self.new.items ≡ [] }
        ensures spare { self.old.spare ≤ self.new.spare }
    {
        self.stored.clear();
        self.digests.clear();
    }
}

// What is stored of a closing. Its digest, if it has one, comes last in the digests.
#[inline]
fn store_closing(closed: Closed, digests: &mut Vec<[u8; 32]>) -> StoredClosing
    requires room { vec_len digests.old < vec_capacity digests.old }
    requires few { vec_len digests.old < MOST_PLACES }
    ensures closing { closing_from digests.new.items result ≡ closed }
    ensures last { IsLastDigest (length digests.new.items) result }
    ensures until { digests_until result (length digests.new.items) ≡ length digests.old.items }
    ensures items { digests.new.items ≡ digests.old.items ++ digest_of closed.outcome }
    ensures len { vec_len digests.new ≤ vec_len digests.old + 1 }
    ensures capacity { vec_capacity digests.new ≡ vec_capacity digests.old }
{
    match closed.outcome {
        Outcome::Number(number) => StoredClosing::Number(closed.unit, number),
        Outcome::Digest(digest) => {
            let place = place_behind(digests.len());
            digests.push_reserved(digest);
            StoredClosing::Digest(closed.unit, place)
        }
        Outcome::NotThere => StoredClosing::Plain(closed.unit, PlainOutcome::NotThere),
        Outcome::TooLong => StoredClosing::Plain(closed.unit, PlainOutcome::TooLong),
        Outcome::Fault => StoredClosing::Plain(closed.unit, PlainOutcome::Fault),
        Outcome::NoMemory => StoredClosing::Plain(closed.unit, PlainOutcome::NoMemory),
        Outcome::Skipped => StoredClosing::Plain(closed.unit, PlainOutcome::Skipped),
    }
}

// The closing that is stored so, where these are the digests.
fn closing_from(digests: &[[u8; 32]], stored: StoredClosing) -> Closed
    requires { IsDigestWithin (length digests.now) stored }
    ensures { result ≡ closing_from digests.now stored }
{
    match stored {
        StoredClosing::Number(unit, number) => Closed {
            unit,
            outcome: Outcome::Number(number),
        },
        StoredClosing::Digest(unit, place) => Closed {
            unit,
            outcome: Outcome::Digest(digests[place as usize]),
        },
        StoredClosing::Plain(unit, plain) => Closed {
            unit,
            outcome: plain_outcome(plain),
        },
    }
}

// The outcome that is a word alone.
fn plain_outcome(plain: PlainOutcome) -> Outcome
    ensures { result ≡ plain_outcome plain }
{
    match plain {
        PlainOutcome::NotThere => Outcome::NotThere,
        PlainOutcome::TooLong => Outcome::TooLong,
        PlainOutcome::Fault => Outcome::Fault,
        PlainOutcome::NoMemory => Outcome::NoMemory,
        PlainOutcome::Skipped => Outcome::Skipped,
    }
}

// How many digests stand before that of a closing, where its own is the last of so many, if it has one.
fn digests_until(stored: StoredClosing, digests: usize) -> usize
    ensures { result ≡ digests_until stored digests }
{
    match stored {
        StoredClosing::Digest(_, place) => place as usize,
        _ => digests,
    }
}
