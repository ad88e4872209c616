//! Entries one after another: those that a book keeps, and those that it gave away.
ghost use Rattle.std.specs.Prelude.{◌≡◌, ◌<◌, ◌≤◌, ◌+◌, ◌-◌, ◌⊎◌, ◌∷◌, ◌++◌, [], ℕ, length, take, IsTrue};
ghost use Rattle.std.specs.Prelude.{Some, None, OnOk, OnErr, IfOk, IfSome, All, slice_get, slice_index_or};
ghost use Rattle.std.specs.List.{AllByRecursion};
ghost use Rattle.lock_journal.specs.Bounds.{IsFitKind, IsFitOutcome};
ghost use Rattle.lock_transforms.specs.Entry.{entry};
ghost use Rattle.lock_journal.specs.Changes.{changes_left};
ghost use Rattle.lock_journal.specs.Shown.{entry_shown};
ghost use Rattle.lock_journal.specs.Closings.{closing_of, outcome_in, ClosesWithin};
ghost use Rattle.lock_journal.specs.StoredEntry.{IsNumberOf, closing_at, kind_from, place_after, place_by};
ghost use Rattle.lock_journal.specs.SegmentView.{IsBegunBehind, IsCleared, SameSegment};
ghost use Rattle.lock_journal.specs.LastChanges.{last_changes};
ghost use Rattle.lock_journal.specs.StoredChange.{IsOwnChange};
ghost use Rattle.lock_journal.specs.declared.segments.TheConstants.{MOST_BEFORE, NOWHERE};
ghost use Rattle.lock_journal.specs.declared.stored_entries.TheConstants.{MOST_PLACES};

use crate::shown_changes::Changes;
use crate::shown_entries::Shown;
use crate::stored_changes::{StoredChange, store_changes};
use crate::stored_closings::StoredClosings;
use crate::stored_entries::{
    MOST_PLACES, StoredEntry, changes_of, closings_until, end_before, free_places, kind_of,
    place_behind, store_kind,
};
use item_actions::Outcome;
use lock_transforms::Kind;
use resource_lock::{Change, WorkerId};
use std::alloc::{AllocError, Global};
use std::marker::Model;

/// Where a unit's closing stands that has none: behind all places.
const NOWHERE: u32 = u32::MAX;

/// The most entries that can come before a segment: so many that their number and that of its own stay below 2^64.
pub(crate) const MOST_BEFORE: u64 = 1 << 62;

/// Entries of a history that stand one after another, with the number of those before them. A service gives its history
/// away in segments, and takes an empty one for each.
///
/// The changes of all entries stand in a row, and so do the closings that their kinds carry, and the digests of those. Of each unit it is
/// kept where its last closing among them stands.
#[derive(Drop)]
pub struct Segment {
    stored: Vec<StoredEntry>,
    changes: Vec<StoredChange>,
    closings: StoredClosings,
    closed_at: Vec<u32>,
    before: u64,
}

impl Model for Segment {
    ghost use Rattle.lock_journal.specs.SegmentView.{SegmentView};

    ghost Value = { SegmentView };

    ghost use Rattle.lock_journal.specs.Segment.{segment_view, IsSoundSegment};

    ghost view = { segment_view };

    ghost invariant = { IsSoundSegment };
}

impl Segment {
    /// A segment without entries, for a graph of so many units, with room for at least so many entries and changes. It fails for want of
    /// memory, and where one of the two numbers is 2^32 or more: a segment has at most 2^32 - 1 changes, and as many closings.
    pub fn opening(
        alloc: Global,
        units: u32,
        entries: u64,
        changes: u64,
    ) -> Result<Segment, AllocError>
        ensures none { IfOk result (λ segment. segment.entries ≡ []) }
        ensures before { IfOk result (λ segment. segment.before ≡ 0) }
        ensures units { IfOk result (λ segment. segment.units ≡ units) }
        ensures entries { IfOk result (λ segment. entries ≤ segment.spare_entries) }
        ensures changes { IfOk result (λ segment. changes ≤ segment.spare_changes) }
    {
        if entries > MOST_PLACES || changes > MOST_PLACES {
            return Err(AllocError);
        }
        Ok(Segment {
            stored: Vec::with_capacity(alloc, entries as usize)?,
            changes: Vec::with_capacity(alloc, changes as usize)?,
            closings: StoredClosings::with_room(alloc, entries as usize)?,
            closed_at: vec![in alloc; NOWHERE; units as usize]?,
            before: 0,
        })
    }

    /// How many entries of the history come before these.
    pub fn before(&self) -> u64
        ensures value { result ≡ self.now.before }
        ensures few { result ≤ MOST_BEFORE }
    {
        self.before
    }

    /// How many entries there are.
    #[tactic(auto, using(crate::proofs::Stored::length_of_entries))]
    pub fn len(&self) -> u64
        ensures { result ≡ length self.now.entries }
    {
        self.stored.len() as u64
    }

    /// How many entries the history has with these.
    #[tactic(auto, using(crate::proofs::Stored::length_of_entries))]
    pub fn end(&self) -> u64
        ensures { result ≡ self.now.before + length self.now.entries }
    {
        self.before + self.stored.len() as u64
    }

    /// How many units the graph has.
    pub fn units(&self) -> usize
        ensures { result ≡ self.now.units }
    {
        self.closed_at.len()
    }

    /// How many more entries there is room for, also where each has a closing.
    pub fn spare_entries(&self) -> u64
        ensures { result ≡ self.now.spare_entries }
    {
        let entries = (self.stored.capacity() - self.stored.len()) as u64;
        entries.min(self.closings.spare())
    }

    /// How many more changes there is room for.
    pub fn spare_changes(&self) -> u64
        ensures { result ≡ self.now.spare_changes }
    {
        let changes = (self.changes.capacity() - self.changes.len()) as u64;
        changes.min(free_places(self.changes.len()))
    }

    /// Makes room for so many more entries and changes. It fails for want of memory, and where the segment would have 2^32 changes or
    /// closings then, or more.
    pub(crate) fn reserve(&mut self, entries: usize, changes: usize) -> Result<(), AllocError>
        ensures same { SameSegment self.old self.new }
        ensures entries { OnOk result (entries ≤ self.new.spare_entries) }
        ensures changes { OnOk result (changes ≤ self.new.spare_changes) }
        ensures full { OnErr result ((self.old.spare_entries < entries) ⊎ (self.old.spare_changes < changes)) }
    {
        if changes as u64 > free_places(self.changes.len()) {
            return Err(AllocError);
        }
        self.stored.try_reserve(entries)?;
        self.closings.reserve(entries)?;
        self.changes.try_reserve(changes)
    }

    /// The entry at a place among these, counted from 0.
    #[tactic(auto, using(crate::proofs::Stored::length_of_entries))]
    pub fn entry(&self, place: u64) -> Shown<'_>
        requires { place < length self.now.entries }
        ensures shown { slice_get self.now.entries place ≡ Some (entry_shown result) }
        ensures no_changes { IsTrue result.failed → changes_left result.changes ≡ [] }
    {
        let place = place as usize;
        let stored = self.stored[place];
        let end = end_before(&self.stored[place + 1..], self.changes.len());
        Shown {
            worker: stored.worker,
            kind: kind_of(stored, &self.closings),
            failed: stored.failed,
            changes: changes_of(stored, end, &self.changes),
        }
    }

    /// The changes of the last entry. Where it failed, or there is no entry, there are none.
    pub(crate) fn last_changes(&self) -> Changes<'_>
        ensures { changes_left result ≡ last_changes self.now.entries }
    {
        match self.stored.last() {
            Some(last) => changes_of(*last, self.changes.len(), &self.changes),
            None => Changes::none(),
        }
    }

    /// A unit's outcome by its closing entry among these, or Skipped where it has none here.
    pub fn outcome(&self, unit: u32) -> Outcome
        requires { unit < self.now.units }
        ensures { result ≡ outcome_in self.now.entries unit }
    {
        outcome_at(&self.closings, self.closed_at[unit as usize] as usize)
    }

    /// Adds a finished entry, whose changes are the worker's own.
    #[inline(always)]
    pub(crate) fn push_finished(&mut self, worker: WorkerId, kind: &Kind, changes: &[Change])
        requires some_entry { 0 < self.old.spare_entries }
        requires some_changes { length changes.now ≤ self.old.spare_changes }
        requires own { AllByRecursion (IsOwnChange worker) changes.now }
        requires closes { ClosesWithin self.old.units kind.now }
        ensures entries { self.new.entries ≡ self.old.entries ++ entry worker kind.now (Some changes.now) ∷ [] }
        ensures before { self.new.before ≡ self.old.before }
        ensures units { self.new.units ≡ self.old.units }
        ensures spare_entries { self.old.spare_entries ≤ self.new.spare_entries + 1 }
        ensures spare_changes { self.old.spare_changes ≤ self.new.spare_changes + length changes.now }
        ensures fit { IsFitKind kind.now }
    {
        note_bounds(kind);
        let start = place_behind(self.changes.len());
        store_changes(changes, &mut self.changes);
        let (stored_kind, number) = store_kind(kind, &mut self.closings);
        let earlier = set_place(&mut self.closed_at, kind, number);
        self.stored.push_reserved(StoredEntry {
            start,
            number,
            earlier,
            worker,
            kind: stored_kind,
            failed: false,
        });
    }

    /// Adds a failed entry.
    pub(crate) fn push_failed(&mut self, worker: WorkerId, kind: &Kind)
        requires { 0 < self.old.spare_entries }
        ensures entries { self.new.entries ≡ self.old.entries ++ entry worker kind.now None ∷ [] }
        ensures before { self.new.before ≡ self.old.before }
        ensures units { self.new.units ≡ self.old.units }
        ensures spare_entries { self.old.spare_entries ≤ self.new.spare_entries + 1 }
        ensures spare_changes { self.new.spare_changes ≡ self.old.spare_changes }
        ensures fit { IsFitKind kind.now }
    {
        note_bounds(kind);
        let (kind, number) = store_kind(kind, &mut self.closings);
        self.stored.push_reserved(StoredEntry {
            start: place_behind(self.changes.len()),
            number,
            earlier: NOWHERE,
            worker,
            kind,
            failed: true,
        });
    }

    /// Removes the last entry. Where it closed a unit, the unit's earlier closing, if it has one, is its
    /// last again.
    pub(crate) fn pop(&mut self)
        requires some_entry { 0 < length self.old.entries }
        requires closes { IfSome (slice_get self.old.entries (length self.old.entries - 1)) (λ e. ClosesWithin self.old.units e.kind) }
        ensures entries { self.new.entries ≡ take (length self.old.entries - 1) self.old.entries }
        ensures before { self.new.before ≡ self.old.before }
        ensures units { self.new.units ≡ self.old.units }
        ensures spare_entries { self.old.spare_entries ≤ self.new.spare_entries }
        ensures spare_changes { self.old.spare_changes ≤ self.new.spare_changes }
    {
        if let Some(last) = self.stored.pop() {
            put_back(&mut self.closed_at, last, &self.closings);
            self.closings
                .pop_from(closings_until(last, self.closings.len()));
            self.changes.truncate(last.start as usize);
        }
    }

    /// Forgets the entries. The room for others stays, so an old segment serves again. It goes through the units.
    pub fn clear(&mut self)
        ensures { IsCleared self.old self.new }
    {
        self.stored.clear();
        self.changes.clear();
        self.closings.clear();
        self.closed_at.fill(NOWHERE);
        self.before = 0;
    }

    /// Notes how many entries come before. There are no entries yet.
    pub(crate) fn begin_behind(&mut self, before: u64)
        requires few { before ≤ MOST_BEFORE }
        ensures { IsBegunBehind before self.old self.new }
    {
        self.before = before;
    }
}

// The outcome of the closing at a place, or Skipped where there is none.
fn outcome_at(closings: &StoredClosings, place: usize) -> Outcome
    ensures { result ≡ (closing_at closings.now.items place).outcome }
{
    if place < closings.len() {
        closings.at(place).outcome
    } else {
        Outcome::Skipped
    }
}

// Sets the place of the closing of the unit that a finished entry of the kind closes, if it closes one,
// and answers where it stood.
fn set_place(all: &mut [u32], kind: &Kind, place: u32) -> u32
    requires { ClosesWithin (length all.old) kind.now }
    ensures len { length all.new ≡ length all.old }
    ensures places { (u : ℕ) → slice_index_or all.new u NOWHERE ≡ place_after (closing_of u kind.now) place (slice_index_or all.old u NOWHERE) }
    ensures earlier { (u : ℕ) → place_after (closing_of u kind.now) result (slice_index_or all.new u NOWHERE) ≡ slice_index_or all.old u NOWHERE }
{
    match *kind {
        Kind::Close(closed) | Kind::Unblock(Some(closed)) => {
            let earlier = all[closed.unit as usize];
            all[closed.unit as usize] = place;
            earlier
        }
        _ => NOWHERE,
    }
}

// Sets where the closing stood before of the unit that a stored entry closed, if it closed one.
fn put_back(all: &mut [u32], stored: StoredEntry, closings: &StoredClosings)
    requires number { IsNumberOf (length closings.now.items) stored.kind stored.number }
    requires closes { ClosesWithin (length all.old) (kind_from closings.now.items stored.kind stored.number) }
    ensures len { length all.new ≡ length all.old }
    ensures places { (u : ℕ) → slice_index_or all.new u NOWHERE ≡ place_by closings.now.items stored stored.earlier u (slice_index_or all.old u NOWHERE) }
{
    if !stored.failed {
        set_place(all, &kind_of(stored, closings), stored.earlier);
    }
}

// Does nothing. Its contract is what the type of a kind holds.
fn note_bounds(kind: &Kind)
    ensures { IsFitKind kind.now }
{
    match *kind {
        Kind::Close(closed) | Kind::Unblock(Some(closed)) => note_outcome_bounds(closed.outcome),
        _ => {}
    }
}

// Does nothing. Its contract is what the type of an outcome holds.
fn note_outcome_bounds(outcome: Outcome)
    ensures { IsFitOutcome outcome }
{
    match outcome {
        Outcome::Number(number) => {
            let _ = number;
        }
        Outcome::Digest(digest) => note_byte_bounds(&digest),
        _ => {}
    }
}

// Does nothing. Its contract is what the type of bytes holds.
fn note_byte_bounds(bytes: &[u8])
    ensures { All (λ b. b < 256) bytes.now }
{}
