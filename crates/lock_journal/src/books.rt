//! The book: a state, and the history of the transforms that made it.
ghost use Rattle.std.specs.Prelude.{◌≡◌, ◌↔◌, ◌<◌, ◌≤◌, ◌+◌, ◌⊎◌, true, [], List, length, IsTrue, Some, OnOk, OnErr};
ghost use Rattle.std.specs.Prelude.{IfNone, IfOk, IfSome, All, slice_get};
ghost use Rattle.resource_lock.specs.declared.changes.Change.{Change};
ghost use Rattle.resource_lock.specs.declared.ids.WorkerId.{WorkerId};
ghost use Rattle.resource_lock.specs.Fits.{Fits};
ghost use Rattle.resource_lock.specs.Good.{Good};
ghost use Rattle.resource_lock.specs.Marks.{has_ended};
ghost use Rattle.resource_lock.specs.Opening.{opening_of};
ghost use Rattle.resource_lock.specs.Shape.{BelongsTo};
ghost use Rattle.ready_work.specs.Choices.{CanSkip, CanStart, IsOpenUnit, IsQueued, has_queued};
ghost use Rattle.ready_work.specs.Lowest.{IsFrom, IsLowest, IsNone};
ghost use Rattle.ready_work.specs.ReadyWork.{IsIndexOf};
ghost use Rattle.lock_journal.specs.Book.{FollowsEntry};
ghost use Rattle.lock_journal.specs.BookView.{begun};
ghost use Rattle.lock_transforms.specs.Entry.{entry, replay};
ghost use Rattle.lock_journal.specs.Changes.{changes_left};
ghost use Rattle.lock_journal.specs.Shown.{entry_shown};
ghost use Rattle.lock_journal.specs.Closings.{outcome_of};
ghost use Rattle.lock_journal.specs.LastChanges.{last_changes};
ghost use Rattle.lock_transforms.specs.Allowed.{Lawful};
ghost use Rattle.lock_journal.specs.Bounds.{IsFitKind};
ghost use Rattle.lock_journal.specs.Ran.{FinishesIn, FailsIn, IsToRetry};
ghost use Rattle.lock_journal.specs.declared.segments.TheConstants.{MOST_BEFORE};
ghost use Rattle.lock_transforms.specs.MostChanges.{IsRoomFor};
ghost use Rattle.lock_transforms.specs.TentativeView.{TentativeView};

use crate::histories::History;
use crate::shown_changes::Changes;
use crate::shown_entries::Shown;
use item_actions::Outcome;
use lock_transforms::kinds::room_for_any;
use lock_transforms::{Disposition, Kind, Tentative, Transform};
use ready_work::ReadyWork;
use resource_lock::{Graph, LockId, Mark, MarkId, State, WorkerId};
use std::alloc::{AllocError, Global};
use std::marker::Model;

mod admitting;
mod giving;
mod taking_back;

/// A graph, the state, and the history that led to it. Of every book the history is lawful, and
/// the state is what it leads to. An index of the state tells in a few steps what can be done next.
///
/// The entries so far can be given away (`give`): the history is then as it was, but those entries can't be read here.
pub struct Book {
    tentative: Tentative,
    history: History,
    ready: ReadyWork,
}

// By hand, so that crates that let one go call this, in place of proving what it does anew.
impl Drop for Book {
    fn drop(self) {
        let Book {
            tentative: _,
            history: _,
            ready: _,
        } = self;
    }
}

impl Model for Book {
    ghost use Rattle.lock_journal.specs.BookView.{BookView};

    ghost Value = { BookView };

    ghost use Rattle.lock_journal.specs.Book.{book_view, IsSound};

    ghost view = { book_view };

    ghost invariant = { IsSound };
}

impl Book {
    ghost use Rattle.lock_journal.specs.BookView.{SameBook};

    /// A book of the graph without entries, with room for at least so many entries and changes. It fails for want of memory, and where
    /// one of the two numbers is 2^32 or more.
    pub fn opening(
        alloc: Global,
        graph: Graph,
        entries: u64,
        changes: u64,
    ) -> Result<Book, AllocError>
        ensures graph { IfOk result (λ book. book.graph ≡ graph) }
        ensures state { IfOk result (λ book. book.state ≡ opening_of graph) }
        ensures history { IfOk result (λ book. book.history ≡ []) }
        ensures given { IfOk result (λ book. book.given ≡ 0) }
        ensures entries { IfOk result (λ book. entries ≤ book.spare_entries) }
        ensures changes { IfOk result (λ book. changes ≤ book.spare_changes) }
    {
        let history = History::opening(alloc, graph.units(), entries, changes)?;
        let room = changes.max(room_for_any(&graph));
        let tentative = Tentative::opening(alloc, graph, room as usize)?;
        Book::begin(alloc, tentative, history)
    }

    // A book of a state that a run begins in, and of no entries.
    fn begin(alloc: Global, tentative: Tentative, history: History) -> Result<Book, AllocError>
        requires state { tentative.state ≡ opening_of tentative.graph }
        requires made { tentative.made ≡ [] }
        requires room { IsRoomFor tentative.graph tentative.room }
        requires none { history.entries ≡ [] }
        requires units { history.units ≡ tentative.graph.units }
        ensures { IfOk result (λ book. book ≡ begun tentative history) }
    {
        let ready = ReadyWork::of(alloc, tentative.graph(), tentative.state())?;
        Ok(Book {
            tentative,
            history,
            ready,
        })
    }

    /// The graph of the state.
    pub fn graph(&self) -> &Graph
        ensures value { result.now ≡ self.now.graph }
        ensures fits { Fits self.now.graph }
        ensures belongs { BelongsTo self.now.graph self.now.state }
    {
        self.tentative.graph()
    }

    /// The state, which the history leads to.
    pub fn state(&self) -> &State
        ensures value { result.now ≡ self.now.state }
        ensures belongs { BelongsTo self.now.graph self.now.state }
        ensures replays { self.now.state ≡ replay self.now.graph self.now.history }
        ensures lawful { Lawful self.now.graph self.now.history }
        ensures fit { All (λ e. IsFitKind e.kind) self.now.history }
        ensures good { Good self.now.state }
    {
        self.tentative.state()
    }

    /// How many entries the history has.
    pub fn len(&self) -> u64
        ensures value { result ≡ length self.now.history }
        ensures given { self.now.given ≤ length self.now.history }
    {
        self.history.len()
    }

    /// How many of them were given away.
    pub fn given(&self) -> u64
        ensures value { result ≡ self.now.given }
        ensures few { result ≤ MOST_BEFORE }
    {
        self.history.given()
    }

    /// The entry at a place of the history, counted from 0. It is one that wasn't given away.
    pub fn entry(&self, place: u64) -> Shown<'_>
        requires kept { self.now.given ≤ place }
        requires within { place < length self.now.history }
        ensures shown { slice_get self.now.history place ≡ Some (entry_shown result) }
        ensures no_changes { IsTrue result.failed → changes_left result.changes ≡ [] }
    {
        self.history.entry(place)
    }

    /// The changes of the history's last entry, in order. Where it failed there are none. It wasn't given away.
    pub fn last_changes(&self) -> Changes<'_>
        requires { self.now.given < length self.now.history }
        ensures { changes_left result ≡ last_changes self.now.history }
    {
        let made = self.tentative.made();
        if made.is_empty() {
            self.history.last_changes()
        } else {
            Changes::given(made)
        }
    }

    /// A unit's outcome: that of its closing entry, or Skipped where it was skipped. None where it
    /// hasn't ended. No entry was given away: else a unit's outcome is that of the segment which has its closing entry.
    pub fn outcome(&self, unit: u32) -> Option<Outcome>
        requires whole { self.now.given ≡ 0 }
        requires within { unit < self.now.graph.units }
        ensures { result ≡ outcome_of self.now.state self.now.history unit }
    {
        match self.state().mark(MarkId::Unit(unit)) {
            Mark::Passed | Mark::Failed => Some(self.history.outcome(unit)),
            Mark::Skipped => Some(Outcome::Skipped),
            Mark::Waiting | Mark::Queued | Mark::Running(_) => None,
        }
    }

    /// The lowest unit from a number on that hasn't ended.
    pub fn first_open_unit(&self, from: u32) -> Option<u32>
        ensures some { IfSome result (IsLowest (IsFrom from (IsOpenUnit self.now.graph self.now.state))) }
        ensures none { IfNone result (IsNone (IsFrom from (IsOpenUnit self.now.graph self.now.state))) }
    {
        self.ready.first_open_unit(from)
    }

    /// Has the index tell the lowest queued unit in a few steps from now on (`lowest_queued`). It fails for want of memory alone, and
    /// the book is as before then too.
    pub fn keep_queued(&mut self, alloc: Global) -> Result<(), AllocError>
        ensures { self.new ≡ self.old }
    {
        self.ready
            .keep_queued(alloc, self.tentative.graph(), self.tentative.state())
    }

    /// The lowest unit that is queued. It takes a few steps behind `keep_queued`, and else one for each unit of the graph.
    pub fn lowest_queued(&self) -> Option<u32>
        ensures some { IfSome result (IsLowest (IsQueued self.now.graph self.now.state)) }
        ensures none { IfNone result (IsNone (IsQueued self.now.graph self.now.state)) }
    {
        self.ready
            .first_queued(self.tentative.graph(), self.tentative.state())
    }

    /// Whether a unit is queued. It takes as many steps as `lowest_queued`.
    pub fn has_queued(&self) -> bool
        ensures { result ≡ has_queued self.now.state }
    {
        // Of the state, that it has a mark for each unit of the graph.
        let _ = self.state();
        self.lowest_queued().is_some()
    }

    /// The lowest task that can be skipped: it waits, and one that it comes after failed or was
    /// skipped.
    pub fn lowest_to_skip(&self) -> Option<u32>
        ensures some { IfSome result (IsLowest (CanSkip self.now.graph self.now.state)) }
        ensures none { IfNone result (IsNone (CanSkip self.now.graph self.now.state)) }
    {
        self.ready.first_to_skip()
    }

    /// The lowest task that can be started: it waits, each that it comes after has passed, and
    /// nobody owns a lock that conflicts with its own.
    pub fn lowest_to_start(&self) -> Option<u32>
        ensures some { IfSome result (IsLowest (CanStart self.now.graph self.now.state)) }
        ensures none { IfNone result (IsNone (CanStart self.now.graph self.now.state)) }
    {
        self.ready.first_to_start(self.tentative.state())
    }

    /// Whether each task has ended.
    pub fn all_tasks_ended(&self) -> bool
        ensures { IsTrue result ↔ All (λ m. has_ended m ≡ true) self.now.state.tasks }
    {
        // Of the state, that it has a mark for each task of the graph.
        let _ = self.tentative.state();
        self.ready.all_ended()
    }

    /// How many more entries there is room for.
    pub fn spare_entries(&self) -> u64
        ensures { result ≡ self.now.spare_entries }
    {
        self.history.spare_entries()
    }

    /// How many more changes there is room for.
    pub fn spare_changes(&self) -> u64
        ensures { result ≡ self.now.spare_changes }
    {
        self.history.spare_changes().min(self.tentative.capacity())
    }

    /// Makes room for at least so many more entries and changes. It fails for want of memory, or where the entries that the book keeps
    /// would have 2^32 changes then, or as many closings; and only where there isn't room for them yet. The graph, the state and the
    /// history stay, also then. A book that gives its entries away (`give`) has room again.
    #[inline]
    pub fn reserve(&mut self, entries: u64, changes: u64) -> Result<(), AllocError>
        ensures same { SameBook self.old self.new }
        ensures entries { OnOk result (entries ≤ self.new.spare_entries) }
        ensures changes { OnOk result (changes ≤ self.new.spare_changes) }
        ensures full { OnErr result ((self.old.spare_entries < entries) ⊎ (self.old.spare_changes < changes)) }
    {
        if self.surely_has_room(entries, changes) {
            return Ok(());
        }
        self.look_for_room(entries, changes)
    }

    // Whether it is known that there is room for so many more entries and changes. Most runs test no more than this.
    #[inline(always)]
    fn surely_has_room(&self, entries: u64, changes: u64) -> bool
        ensures entries { result ≡ true → entries ≤ self.now.spare_entries }
        ensures changes { result ≡ true → changes ≤ self.now.spare_changes }
    {
        changes <= self.tentative.capacity() && self.history.surely_has_room(entries, changes)
    }

    // `reserve`, where that isn't known. Where there is room, it is known then.
    #[inline(never)]
    fn look_for_room(&mut self, entries: u64, changes: u64) -> Result<(), AllocError>
        ensures same { SameBook self.old self.new }
        ensures entries { OnOk result (entries ≤ self.new.spare_entries) }
        ensures changes { OnOk result (changes ≤ self.new.spare_changes) }
        ensures full { OnErr result ((self.old.spare_entries < entries) ⊎ (self.old.spare_changes < changes)) }
    {
        if entries <= self.spare_entries() && changes <= self.spare_changes() {
            self.note_room();
            return Ok(());
        }
        self.grow(entries, changes)
    }

    // Looks at how much room there is, so that it is known.
    fn note_room(&mut self)
        ensures { self.new ≡ self.old }
    {
        self.history.note_room();
    }

    // `reserve`, also where there is room for them. The changes noted are forgotten.
    #[inline(never)]
    fn grow(&mut self, entries: u64, changes: u64) -> Result<(), AllocError>
        ensures same { SameBook self.old self.new }
        ensures entries { OnOk result (entries ≤ self.new.spare_entries) }
        ensures changes { OnOk result (changes ≤ self.new.spare_changes) }
        ensures full { OnErr result ((self.old.spare_entries < entries) ⊎ (self.old.spare_changes < changes)) }
    {
        self.tentative.settle();
        self.history.reserve(entries as usize, changes as usize)?;
        self.tentative.reserve(changes as usize)
    }

    /// Runs a transform for a worker. It happens whole, or leaves the state as it was.
    ///
    /// `own` are the locks that the worker owns, by rising number, as its pass shows them. It may be empty: what the run comes to doesn't depend
    /// on it. But without them a transform that gives back all locks looks at each of the graph.
    ///
    /// Where it finishes or fails, the history has one more entry. Room is made first (`reserve`): the call
    /// fails for want of it, and only where there isn't room for one entry and for the most changes
    /// that the transform makes. Then it wasn't run, and the state and the history are as before.
    pub fn run<T: Transform>(
        &mut self,
        worker: WorkerId,
        own: &[LockId],
        transform: &T,
    ) -> Result<Disposition, AllocError>
        requires { worker.0 < self.old.graph.workers }
        ensures graph { self.new.graph ≡ self.old.graph }
        ensures given { self.new.given ≡ self.old.given }
        ensures within { self.old.given ≤ length self.old.history }
        ensures finished { result ≡ Ok Disposition.Finished
            → (changes : List Change) × FinishesIn (T.makes transform.now) self.old self.new worker (T.kind_of transform.now) changes }
        ensures few { result ≡ Ok Disposition.Finished
            → length (last_changes self.new.history) ≤ T.most transform.now self.old.graph worker self.old.state }
        ensures failed { result ≡ Ok Disposition.Failed
            → FailsIn (T.fails_on transform.now) self.old self.new worker (T.kind_of transform.now) }
        ensures retry { result ≡ Ok Disposition.Retry
            → IsToRetry (T.retries_on transform.now) self.old self.new worker }
        ensures no_memory { OnErr result (SameBook self.old self.new) }
        ensures full { OnErr result ((self.old.spare_entries < 1) ⊎ (self.old.spare_changes < T.most transform.now self.old.graph worker self.old.state)) }
        ensures spare_entries { self.old.spare_entries ≤ self.new.spare_entries + 1 }
        ensures spare_changes { self.old.spare_changes ≤ self.new.spare_changes + T.most transform.now self.old.graph worker self.old.state }
    {
        // Of the length, that no more entries were given away than there are.
        let _ = self.len();
        let most = transform.most_changes(self.graph(), self.state(), worker);
        self.reserve(1, most)?;
        let disposition = self.tentative.attempt(worker, own, transform);
        match disposition {
            Disposition::Finished => {
                let kind = transform.kind();
                self.history
                    .push_finished(worker, &kind, self.tentative.made());
                follow_entry(&mut self.ready, &self.tentative, &kind);
            }
            Disposition::Failed => self.history.push_failed(worker, &transform.kind()),
            Disposition::Retry => {}
        }
        Ok(disposition)
    }
}

// Has the index follow an entry of this kind, whose changes led from the state before it to this one.
#[inline(always)]
fn follow_entry(ready: &mut ReadyWork, work: &Tentative, kind: &Kind)
    requires { (before : TentativeView) × (w : WorkerId) × FollowsEntry before work.now (entry w kind.now (Some work.now.made)) ready.old }
    ensures { IsIndexOf work.now.graph work.now.state ready.new }
{
    let state = work.state();
    match *kind {
        Kind::Claim(unit) => ready.follow_claim(unit),
        Kind::Close(closed) => ready.follow_close(closed.unit),
        _ => ready.follow(work.graph(), state, work.made()),
    }
}
