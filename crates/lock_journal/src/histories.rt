//! The history of a book.
ghost use Rattle.std.specs.Prelude.{◌≡◌, ◌<◌, ◌≤◌, ◌+◌, ◌-◌, ◌⊎◌, ◌∷◌, ◌++◌, [], length, take, true, IsTrue};
ghost use Rattle.std.specs.Prelude.{Some, None, OnOk, OnErr, IfOk, IfSome, slice_get};
ghost use Rattle.std.specs.List.{AllByRecursion};
ghost use Rattle.lock_journal.specs.Bounds.{IsFitKind};
ghost use Rattle.lock_transforms.specs.Entry.{entry};
ghost use Rattle.lock_journal.specs.Changes.{changes_left};
ghost use Rattle.lock_journal.specs.Shown.{entry_shown};
ghost use Rattle.lock_journal.specs.Closings.{outcome_in, ClosesWithin};
ghost use Rattle.lock_journal.specs.HistoryView.{GivesAway, SameHistory};
ghost use Rattle.lock_journal.specs.LastChanges.{last_changes};
ghost use Rattle.lock_journal.specs.StoredChange.{IsOwnChange};
ghost use Rattle.lock_journal.specs.declared.segments.TheConstants.{MOST_BEFORE};

use crate::pasts::Past;
use crate::segments::Segment;
use crate::shown_changes::Changes;
use crate::shown_entries::Shown;
use item_actions::Outcome;
use lock_transforms::Kind;
use resource_lock::{Change, WorkerId};
use std::alloc::{AllocError, Global};
use std::marker::Model;
use std::mem::swap;

/// The entries so far. Those that were given away are known to contracts alone; the segment has the others.
#[derive(Drop)]
pub(crate) struct History {
    past: Past,
    kept: Segment,
    // How many more entries and changes there is surely room for: what the last look found (`note_room`), less what was added since.
    sure_entries: u64,
    sure_changes: u64,
}

impl Model for History {
    ghost use Rattle.std.specs.Prelude.{◌≡◌, ◌≤◌, ◌++◌, length};
    ghost use Rattle.lock_journal.specs.HistoryView.{HistoryView, history_of};

    ghost Value = { HistoryView };

    ghost view = { λ h. history_of h.past h.kept };

    ghost invariant = { λ h. (h.kept.before ≡ length h.past) × (h.sure_entries ≤ h.kept.spare_entries)
        × (h.sure_changes ≤ h.kept.spare_changes) };
}

impl History {
    /// No entries, with room for so many entries and changes. No unit has an outcome yet.
    pub(crate) fn opening(
        alloc: Global,
        units: u32,
        entries: u64,
        changes: u64,
    ) -> Result<History, AllocError>
        ensures none { IfOk result (λ history. history.entries ≡ []) }
        ensures given { IfOk result (λ history. history.given ≡ 0) }
        ensures units { IfOk result (λ history. history.units ≡ units) }
        ensures entries { IfOk result (λ history. entries ≤ history.spare_entries) }
        ensures changes { IfOk result (λ history. changes ≤ history.spare_changes) }
    {
        let kept = Segment::opening(alloc, units, entries, changes)?;
        Ok(History {
            past: Past::none(),
            kept,
            sure_entries: 0,
            sure_changes: 0,
        })
    }

    /// How many entries there are.
    pub(crate) fn len(&self) -> u64
        ensures value { result ≡ length self.now.entries }
        ensures given { self.now.given ≤ length self.now.entries }
    {
        self.kept.end()
    }

    /// How many of them were given away.
    pub(crate) fn given(&self) -> u64
        ensures value { result ≡ self.now.given }
        ensures few { result ≤ MOST_BEFORE }
    {
        self.kept.before()
    }

    /// How many more entries there is room for, also where each has a closing.
    pub(crate) fn spare_entries(&self) -> u64
        ensures { result ≡ self.now.spare_entries }
    {
        self.kept.spare_entries()
    }

    /// How many more changes there is room for.
    pub(crate) fn spare_changes(&self) -> u64
        ensures { result ≡ self.now.spare_changes }
    {
        self.kept.spare_changes()
    }

    /// Whether it is known that there is room for so many more entries and changes. False says nothing.
    #[inline(always)]
    pub(crate) fn surely_has_room(&self, entries: u64, changes: u64) -> bool
        ensures entries { result ≡ true → entries ≤ self.now.spare_entries }
        ensures changes { result ≡ true → changes ≤ self.now.spare_changes }
    {
        entries <= self.sure_entries && changes <= self.sure_changes
    }

    /// Looks at how much room there is, so that it is known.
    pub(crate) fn note_room(&mut self)
        ensures { self.new ≡ self.old }
    {
        self.sure_entries = self.kept.spare_entries();
        self.sure_changes = self.kept.spare_changes();
    }

    /// Makes room for so many more entries and changes.
    pub(crate) fn reserve(&mut self, entries: usize, changes: usize) -> Result<(), AllocError>
        ensures same { SameHistory self.old self.new }
        ensures entries { OnOk result (entries ≤ self.new.spare_entries) }
        ensures changes { OnOk result (changes ≤ self.new.spare_changes) }
        ensures full { OnErr result ((self.old.spare_entries < entries) ⊎ (self.old.spare_changes < changes)) }
    {
        self.kept.reserve(entries, changes)
    }

    /// The entry at a place, counted from 0, which wasn't given away.
    pub(crate) fn entry(&self, place: u64) -> Shown<'_>
        requires kept { self.now.given ≤ place }
        requires within { place < length self.now.entries }
        ensures shown { slice_get self.now.entries place ≡ Some (entry_shown result) }
        ensures no_changes { IsTrue result.failed → changes_left result.changes ≡ [] }
    {
        self.kept.entry(place - self.kept.before())
    }

    /// The changes of the last entry, which wasn't given away. Where it failed there are none.
    pub(crate) fn last_changes(&self) -> Changes<'_>
        requires { self.now.given < length self.now.entries }
        ensures { changes_left result ≡ last_changes self.now.entries }
    {
        self.kept.last_changes()
    }

    /// A unit's outcome by its closing entry, or Skipped where it has none. No entry was given away.
    pub(crate) fn outcome(&self, unit: u32) -> Outcome
        requires whole { self.now.given ≡ 0 }
        requires within { unit < self.now.units }
        ensures { result ≡ outcome_in self.now.entries unit }
    {
        self.kept.outcome(unit)
    }

    /// Adds a finished entry, whose changes are the worker's own.
    #[inline(always)]
    pub(crate) fn push_finished(&mut self, worker: WorkerId, kind: &Kind, changes: &[Change])
        requires some_entry { 0 < self.old.spare_entries }
        requires some_changes { length changes.now ≤ self.old.spare_changes }
        requires own { AllByRecursion (IsOwnChange worker) changes.now }
        requires closes { ClosesWithin self.old.units kind.now }
        ensures entries { self.new.entries ≡ self.old.entries ++ entry worker kind.now (Some changes.now) ∷ [] }
        ensures given { self.new.given ≡ self.old.given }
        ensures units { self.new.units ≡ self.old.units }
        ensures spare_entries { self.old.spare_entries ≤ self.new.spare_entries + 1 }
        ensures spare_changes { self.old.spare_changes ≤ self.new.spare_changes + length changes.now }
        ensures fit { IsFitKind kind.now }
    {
        self.kept.push_finished(worker, kind, changes);
        self.sure_entries = self.sure_entries.saturating_sub(1);
        self.sure_changes = self.sure_changes.saturating_sub(changes.len() as u64);
    }

    /// Adds a failed entry.
    pub(crate) fn push_failed(&mut self, worker: WorkerId, kind: &Kind)
        requires { 0 < self.old.spare_entries }
        ensures entries { self.new.entries ≡ self.old.entries ++ entry worker kind.now None ∷ [] }
        ensures given { self.new.given ≡ self.old.given }
        ensures units { self.new.units ≡ self.old.units }
        ensures spare_entries { self.old.spare_entries ≤ self.new.spare_entries + 1 }
        ensures spare_changes { self.new.spare_changes ≡ self.old.spare_changes }
        ensures fit { IsFitKind kind.now }
    {
        self.kept.push_failed(worker, kind);
        self.sure_entries = self.sure_entries.saturating_sub(1);
    }

    /// Removes the last entry, which wasn't given away.
    pub(crate) fn pop(&mut self)
        requires some_entry { self.old.given < length self.old.entries }
        requires closes { IfSome (slice_get self.old.entries (length self.old.entries - 1)) (λ e. ClosesWithin self.old.units e.kind) }
        ensures entries { self.new.entries ≡ take (length self.old.entries - 1) self.old.entries }
        ensures given { self.new.given ≡ self.old.given }
        ensures units { self.new.units ≡ self.old.units }
        ensures spare_entries { self.old.spare_entries ≤ self.new.spare_entries }
        ensures spare_changes { self.old.spare_changes ≤ self.new.spare_changes }
    {
        self.kept.pop();
    }

    /// Gives the entries away that are kept: they change places with the segment, which has none. The past is the whole history.
    pub(crate) fn give(&mut self, whole: Past, segment: &mut Segment)
        requires whole { whole ≡ self.old.entries }
        requires few { length self.old.entries ≤ MOST_BEFORE }
        requires empty { segment.old.entries ≡ [] }
        ensures { GivesAway self.old self.new segment.old segment.new }
    {
        segment.begin_behind(self.kept.end());
        swap(&mut self.kept, segment);
        self.past = whole;
        self.sure_entries = 0;
        self.sure_changes = 0;
    }
}
