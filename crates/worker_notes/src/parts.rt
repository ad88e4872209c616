//! What a worker has of a book, kept beside it.
ghost use Rattle.std.specs.Prelude.{◌≡◌, ◌<◌, [], IfOk, IfSome, OnOk, false, length, true, vec_capacity, vec_len};
ghost use Rattle.lock_transforms.specs.declared.entries.Kind.TheVariants as kinds;
ghost use Rattle.resource_lock.specs.GraphView.{action_of, task_of};
ghost use Rattle.resource_lock.specs.Ranges.{lock_with};
ghost use Rattle.resource_lock.specs.declared.graphs.Retention.TheVariants as retentions;
ghost use Rattle.resource_lock.specs.declared.marks.MarkId.TheVariants as ids;
ghost use Rattle.resource_lock.specs.Change.{make_all};
ghost use Rattle.resource_lock.specs.StateView.{StateView, runs_by};
ghost use Rattle.lock_journal.specs.BookView.{BookView};
ghost use Rattle.lock_journal.specs.Changes.{changes_left};
ghost use Rattle.lock_journal.specs.LastChanges.{last_changes};
ghost use Rattle.lock_journal.specs.OwnChanges.{mark_before, with_if, with_member, without_if, without_member};
ghost use Rattle.worker_notes.specs.SortedLists.{IsRising};
ghost use Rattle.worker_notes.specs.Parts.{CanLead, CanNote, Follows, HasHandedBack, HasLockRoom, HasMarks, HasRoom, HasRoomFor, IsAfter, IsFreshPart};
ghost use Rattle.worker_notes.specs.Parts.{IsPartOf, IsSamePart, LeadsOn, LeadsPast, StandsInOrder, parked_with, resumed_with, started};

use crate::sorted_lists::{add, remove};
use lock_journal::{Book, Changes};
use lock_transforms::kinds::action_of;
use lock_transforms::{Disposition, Kind};
use resource_lock::{Change, LockId, Mark, MarkId, Retention, WorkerId};
use std::alloc::{AllocError, Global};

// How many marks a worker runs at most: of a task, of an action and of a unit.
const MOST_MARKS: usize = 3;

/// The worker's part of a book.
pub struct WorkerPart {
    /// The number of its last entry, or 0.
    pub last: u64,
    /// Whether it has a lease.
    pub lease: bool,
    /// Whether it is in a blocking section.
    pub blocked: bool,
    /// The locks that it owns, by rising number.
    pub locks: Vec<LockId>,
    /// The marks that it runs: of tasks, then of actions, then of units, each by rising number.
    pub claimed: Vec<MarkId>,
    /// The locks that it has parked, the last one at the end.
    pub parked: Vec<LockId>,
}

// By hand, so that crates that let one go call this, in place of proving what it does anew.
impl Drop for WorkerPart {
    fn drop(self) {
        let WorkerPart {
            last: _,
            lease: _,
            blocked: _,
            locks: _,
            claimed: _,
            parked: _,
        } = self;
    }
}

impl WorkerPart {
    /// The part of a worker that has nothing, with room for the marks that it can run. Its lists of locks take no memory yet. It fails
    /// for want of memory alone.
    pub fn fresh(alloc: Global, last: u64) -> Result<WorkerPart, AllocError>
        ensures { IfOk result (IsFreshPart last) }
    {
        let claimed = Vec::with_capacity(alloc, MOST_MARKS)?;
        Ok(WorkerPart {
            last,
            lease: false,
            blocked: false,
            locks: Vec::new(alloc),
            claimed,
            parked: Vec::new(alloc),
        })
    }

    /// Makes room for so many locks more, owned or parked. It fails for want of memory alone. The part says what it said, also then.
    #[inline(never)]
    pub fn reserve(&mut self, more: usize) -> Result<(), AllocError>
        requires { HasRoom self.old }
        ensures same { IsSamePart self.old self.new }
        ensures kept { HasRoom self.new }
        ensures room { OnOk result (HasLockRoom more self.new) }
    {
        let owned = self.locks.len();
        self.locks
            .try_reserve(self.parked.len().saturating_add(more))?;
        self.parked.try_reserve(owned.saturating_add(more))
    }

    /// Whether there is room for so many locks more, owned or parked.
    #[inline]
    pub fn has_room_for(&self, more: usize) -> bool
        requires { HasRoom self.now }
        ensures room { result ≡ true → HasLockRoom more self.now }
        ensures no_room { result ≡ false → HasLockRoom more self.now → ⊥ }
    {
        if more == 0 {
            return true;
        }
        let count = self.locks.len() + self.parked.len();
        more <= self.locks.capacity() - count && more <= self.parked.capacity() - count
    }

    /// Follows the book, on which a transform of the kind was run for the worker, with what came of that. It takes no memory.
    #[inline(always)]
    pub fn follow(
        &mut self,
        worker: WorkerId,
        kind: Kind,
        book: &Book,
        ran: &Result<Disposition, AllocError>,
    )
        requires { (before : BookView) × Follows worker kind before book.now ran.now self.old }
        ensures part { IsPartOf book.now worker self.new }
        ensures room { HasRoom self.new }
    {
        match ran {
            Ok(Disposition::Finished) => {
                self.last = book.len();
                match kind {
                    Kind::HandBack => self.note_hand_back(),
                    Kind::Claim(unit) => self.note_claim(unit),
                    Kind::Close(closed) => self.note_close(closed.unit),
                    // What it queues ran by no worker, and runs by none then.
                    Kind::Submit(_) => {}
                    Kind::Start(task) => self.note_start(worker, lock_of(book, task), task),
                    Kind::Park(action) => self.note_park(worker, book, action),
                    Kind::Resume(action) => self.note_resume(worker, book, action),
                    _ => self.note_all(worker, book.last_changes()),
                }
            }
            Ok(Disposition::Failed) => self.last = book.len(),
            Ok(Disposition::Retry) | Err(_) => {}
        }
    }

    // Notes that the worker has handed back all that it had, at once: its changes one after another would each move the locks behind it.
    #[inline]
    fn note_hand_back(&mut self)
        ensures { HasHandedBack self.old self.new }
    {
        self.locks.clear();
        self.lease = false;
    }

    // Notes that the worker has taken a lease and runs a unit.
    #[inline]
    fn note_claim(&mut self, unit: u32)
        requires rises { IsRising mark_before self.old.claimed.items }
        requires room { vec_len self.old.claimed < vec_capacity self.old.claimed }
        ensures { HasMarks true (with_member mark_before (ids.Unit unit) self.old.claimed.items) self.old self.new }
    {
        self.lease = true;
        add(&mut self.claimed, MarkId::Unit(unit));
    }

    // Notes that the worker has given its lease back and runs a unit no more.
    #[inline]
    fn note_close(&mut self, unit: u32)
        requires { IsRising mark_before self.old.claimed.items }
        ensures { HasMarks false (without_member mark_before (ids.Unit unit) self.old.claimed.items) self.old self.new }
    {
        self.lease = false;
        remove(&mut self.claimed, MarkId::Unit(unit));
    }

    // Notes a start: the worker has the task's lock and a lease, and runs the task.
    #[inline]
    fn note_start(&mut self, worker: WorkerId, lock: LockId, task: u32)
        requires { CanLead worker (started worker lock task) self.old }
        ensures leads { LeadsPast worker (started worker lock task) self.old self.new }
        ensures last { self.new.last ≡ self.old.last }
    {
        let running = Mark::Running(worker);
        self.note(worker, Change::Lock(lock));
        self.note(worker, Change::Take);
        self.note(
            worker,
            Change::Move(MarkId::Task(task), Mark::Waiting, running),
        );
    }

    // Notes the beginning of a wait for an action's items.
    #[inline]
    fn note_park(&mut self, worker: WorkerId, book: &Book, action: u32)
        requires { CanNote worker (kinds.Park action) book.now self.old }
        ensures leads { LeadsPast worker (last_changes book.now.history) self.old self.new }
        ensures last { self.new.last ≡ self.old.last }
    {
        match lock_given_back(book, action) {
            Some(lock) => self.note_parked(worker, lock, action),
            None => self.note_all(worker, book.last_changes()),
        }
    }

    // The same where the worker has parked this lock.
    #[inline]
    fn note_parked(&mut self, worker: WorkerId, lock: LockId, action: u32)
        requires { CanLead worker (parked_with worker lock action) self.old }
        ensures leads { LeadsPast worker (parked_with worker lock action) self.old self.new }
        ensures last { self.new.last ≡ self.old.last }
    {
        let running = Mark::Running(worker);
        self.note(worker, Change::Give);
        self.note(worker, Change::Unlock(lock));
        self.note(worker, Change::Park(lock));
        self.note(
            worker,
            Change::Move(MarkId::Action(action), Mark::Queued, running),
        );
    }

    // Notes the end of such a wait.
    #[inline]
    fn note_resume(&mut self, worker: WorkerId, book: &Book, action: u32)
        requires { CanNote worker (kinds.Resume action) book.now self.old }
        ensures leads { LeadsPast worker (last_changes book.now.history) self.old self.new }
        ensures last { self.new.last ≡ self.old.last }
    {
        match lock_given_back(book, action) {
            Some(lock) => self.note_resumed(worker, lock, action),
            None => self.note_all(worker, book.last_changes()),
        }
    }

    // The same where the worker has taken this lock again.
    #[inline]
    fn note_resumed(&mut self, worker: WorkerId, lock: LockId, action: u32)
        requires { CanLead worker (resumed_with worker lock action) self.old }
        ensures leads { LeadsPast worker (resumed_with worker lock action) self.old self.new }
        ensures last { self.new.last ≡ self.old.last }
    {
        let running = Mark::Running(worker);
        self.note(worker, Change::Unpark(lock));
        self.note(worker, Change::Lock(lock));
        self.note(worker, Change::Take);
        self.note(
            worker,
            Change::Move(MarkId::Action(action), running, Mark::Passed),
        );
    }

    // Notes changes of the worker in order.
    #[inline(never)]
    fn note_all(&mut self, worker: WorkerId, changes: Changes<'_>)
        requires { (s : StateView) × LeadsOn s worker self.old (changes_left changes) }
        ensures leads { (s : StateView) → LeadsOn s worker self.old (changes_left changes.entry)
            → LeadsOn (make_all s worker (changes_left changes.entry)) worker self.new [] }
        ensures last { self.new.last ≡ self.old.last }
    {
        for change in changes {
            self.note(worker, change);
        }
    }

    // Notes a change of the worker. Where it is known which, that alone is left of this.
    #[inline(always)]
    fn note(&mut self, worker: WorkerId, change: Change)
        requires room { HasRoomFor worker self.old change }
        requires order { StandsInOrder self.old }
        ensures { IsAfter worker change self.old self.new }
    {
        match change {
            Change::Lock(lock) => add(&mut self.locks, lock),
            Change::Unlock(lock) => remove(&mut self.locks, lock),
            Change::Take => self.lease = true,
            Change::Give => self.lease = false,
            Change::Move(id, from, to) => note_move(&mut self.claimed, worker, id, from, to),
            Change::Park(lock) => self.parked.push_reserved(lock),
            Change::Unpark(_) => {
                let _ = self.parked.pop();
            }
            Change::Enter => self.blocked = true,
            Change::Leave => self.blocked = false,
        }
    }
}

// The lock of a task.
#[inline]
fn lock_of(book: &Book, task: u32) -> LockId
    requires { task < length book.now.graph.tasks }
    ensures { result ≡ (task_of book.now.graph task).lock }
{
    book.graph().tasks().at(task as usize).lock
}

// The lock of an action's task, where that is given back while the action's items are waited for, and taken again.
#[inline]
fn lock_given_back(book: &Book, action: u32) -> Option<LockId>
    requires { action < length book.now.graph.actions }
    ensures again { IfSome result (λ _. (action_of book.now.graph action).retention ≡ retentions.ReleaseAndReacquire) }
    ensures lock { IfSome result (λ lock. lock ≡ lock_with book.now.graph action) }
{
    let waited = action_of(book.graph(), action);
    match waited.retention {
        Retention::ReleaseAndReacquire => Some(lock_of(book, waited.task)),
        Retention::Retain | Retention::Release => None,
    }
}

// The marks that run by a worker, after it has moved one.
#[inline(always)]
fn note_move(claimed: &mut Vec<MarkId>, worker: WorkerId, id: MarkId, from: Mark, to: Mark)
    requires rises { IsRising mark_before claimed.old.items }
    requires room { runs_by worker to ≡ true → length (without_if mark_before (runs_by worker from) id claimed.old.items) < vec_capacity claimed.old }
    ensures items { claimed.new.items ≡ with_if mark_before (runs_by worker to) id (without_if mark_before (runs_by worker from) id claimed.old.items) }
    ensures capacity { vec_capacity claimed.new ≡ vec_capacity claimed.old }
{
    if from.runs_by(worker) {
        remove(claimed, id);
    }
    if to.runs_by(worker) {
        add(claimed, id);
    }
}
