//! What is stored of a change.
ghost use Rattle.std.specs.Prelude.{◌≡◌, ◌≤◌, ◌+◌, ◌-◌, ◌++◌, length, map, vec_capacity, vec_len};
ghost use Rattle.lock_journal.specs.StoredChange.{change_of_worker, mark_of_worker, stored_change, stored_mark};

use resource_lock::{Change, LockId, Mark, MarkId, WorkerId};

/// A change of an entry. It names no worker: where a mark is Running, the worker of the entry runs it.
#[derive(Clone, Copy)]
pub enum StoredChange {
    Lock(LockId),
    Unlock(LockId),
    Take,
    Give,
    MoveTask(StoredMark, StoredMark, u32),
    MoveAction(StoredMark, StoredMark, u32),
    MoveUnit(StoredMark, StoredMark, u32),
    Park(LockId),
    Unpark(LockId),
    Enter,
    Leave,
}

// The marks stand before the number, since fields lie in the order of the source.
const _: () = prove!(size_of::<StoredChange>() == 8);

/// A mark of an entry.
#[derive(Clone, Copy)]
pub enum StoredMark {
    Waiting,
    Queued,
    Running,
    Passed,
    Failed,
    Skipped,
}

/// What is stored of a change.
#[inline(always)]
pub fn stored_change(change: Change) -> StoredChange
    ensures { result ≡ stored_change change }
{
    match change {
        Change::Lock(lock) => StoredChange::Lock(lock),
        Change::Unlock(lock) => StoredChange::Unlock(lock),
        Change::Take => StoredChange::Take,
        Change::Give => StoredChange::Give,
        Change::Move(MarkId::Task(task), from, to) => {
            StoredChange::MoveTask(stored_mark(from), stored_mark(to), task)
        }
        Change::Move(MarkId::Action(action), from, to) => {
            StoredChange::MoveAction(stored_mark(from), stored_mark(to), action)
        }
        Change::Move(MarkId::Unit(unit), from, to) => {
            StoredChange::MoveUnit(stored_mark(from), stored_mark(to), unit)
        }
        Change::Park(lock) => StoredChange::Park(lock),
        Change::Unpark(lock) => StoredChange::Unpark(lock),
        Change::Enter => StoredChange::Enter,
        Change::Leave => StoredChange::Leave,
    }
}

// What is stored of a mark.
#[inline(always)]
fn stored_mark(mark: Mark) -> StoredMark
    ensures { result ≡ stored_mark mark }
{
    match mark {
        Mark::Waiting => StoredMark::Waiting,
        Mark::Queued => StoredMark::Queued,
        Mark::Running(_) => StoredMark::Running,
        Mark::Passed => StoredMark::Passed,
        Mark::Failed => StoredMark::Failed,
        Mark::Skipped => StoredMark::Skipped,
    }
}

/// The change that is stored so, in an entry of the worker.
#[inline(always)]
pub fn change_of_worker(worker: WorkerId, stored: StoredChange) -> Change
    ensures { result ≡ change_of_worker worker stored }
{
    match stored {
        StoredChange::Lock(lock) => Change::Lock(lock),
        StoredChange::Unlock(lock) => Change::Unlock(lock),
        StoredChange::Take => Change::Take,
        StoredChange::Give => Change::Give,
        StoredChange::MoveTask(from, to, task) => move_of(worker, MarkId::Task(task), from, to),
        StoredChange::MoveAction(from, to, action) => {
            move_of(worker, MarkId::Action(action), from, to)
        }
        StoredChange::MoveUnit(from, to, unit) => move_of(worker, MarkId::Unit(unit), from, to),
        StoredChange::Park(lock) => Change::Park(lock),
        StoredChange::Unpark(lock) => Change::Unpark(lock),
        StoredChange::Enter => Change::Enter,
        StoredChange::Leave => Change::Leave,
    }
}

// A move of the worker's between the marks that are stored so.
#[inline(always)]
fn move_of(worker: WorkerId, id: MarkId, from: StoredMark, to: StoredMark) -> Change
    ensures { result ≡ Change.Move id (mark_of_worker worker from) (mark_of_worker worker to) }
{
    Change::Move(id, mark_of_worker(worker, from), mark_of_worker(worker, to))
}

// The mark that is stored so, in an entry of the worker.
#[inline(always)]
fn mark_of_worker(worker: WorkerId, stored: StoredMark) -> Mark
    ensures { result ≡ mark_of_worker worker stored }
{
    match stored {
        StoredMark::Waiting => Mark::Waiting,
        StoredMark::Queued => Mark::Queued,
        StoredMark::Running => Mark::Running(worker),
        StoredMark::Passed => Mark::Passed,
        StoredMark::Failed => Mark::Failed,
        StoredMark::Skipped => Mark::Skipped,
    }
}

/// Puts what is stored of changes behind what there is, where there is room for it.
#[inline(always)]
pub fn store_changes(changes: &[Change], stored: &mut Vec<StoredChange>)
    requires { length changes.now ≤ vec_capacity stored.old - vec_len stored.old }
    ensures items { stored.new.items ≡ stored.old.items ++ map stored_change changes.now }
    ensures len { vec_len stored.new ≡ vec_len stored.old + length changes.now }
    ensures capacity { vec_capacity stored.new ≡ vec_capacity stored.old }
{
    for change in changes {
        stored.push_reserved(stored_change(*change));
    }
}
