//! What a worker can do next, by the index of the book.
ghost use Rattle.std.specs.Prelude.{◌≡◌, ◌<◌, ◌↔◌, ◌&&◌, not, true, IfNone, IfSome, IsTrue, None, All, is_none, length};
ghost use Rattle.std.specs.List.{list_all};
ghost use Rattle.resource_lock.specs.GraphView.{action_of, task_of};
ghost use Rattle.resource_lock.specs.Ranges.{lock_with};
ghost use Rattle.resource_lock.specs.StateView.{IsLockOf, holding_of, kept_from, owner_of, stands_in};
ghost use Rattle.resource_lock.specs.declared.ids.LockId.{LockId};
ghost use Rattle.resource_lock.specs.Trying.{can_lease, can_own};
ghost use Rattle.ready_work.specs.Lowest.{IsLowest, IsNone};
ghost use Rattle.lock_journal.specs.Marks.{IsEnded};
ghost use Rattle.worker_choices.specs.NextSteps.{CanBegin, CanGoOn, can_claim, can_take_again, can_take_up, first_open};

use crate::open_items::first_open;
use lock_journal::Book;
use lock_transforms::kinds::action_of;
use resource_lock::{Retention, State, WorkerId};

/// Whether the worker has a lease or could take one.
pub fn lease_is_free(book: &Book, worker: WorkerId) -> bool
    requires { worker.0 < book.now.graph.workers }
    ensures { result ≡ can_lease book.now.state worker }
{
    let state = book.state();
    state.has_lease(worker) || state.leases_out() < book.graph().max_leases()
}

/// Whether an item can be claimed, where one waits or none does: there has to be a lease for it.
pub fn can_claim(book: &Book, worker: WorkerId, queued: bool) -> bool
    requires { worker.0 < book.now.graph.workers }
    ensures { result ≡ can_claim worker book.now.state queued }
{
    queued && lease_is_free(book, worker)
}

/// The lowest task that can be started, where there is a lease for it.
pub fn task_to_start(book: &Book, worker: WorkerId) -> Option<u32>
    requires { worker.0 < book.now.graph.workers }
    ensures some { IfSome result (IsLowest (CanBegin book.now.graph worker book.now.state)) }
    ensures none { IfNone result (IsNone (CanBegin book.now.graph worker book.now.state)) }
{
    if lease_is_free(book, worker) {
        book.lowest_to_start()
    } else {
        None
    }
}

/// Whether all tasks have ended.
pub fn all_ended(book: &Book) -> bool
    ensures { IsTrue result ↔ All IsEnded book.now.state.tasks }
{
    book.all_tasks_ended()
}

/// Whether all items of an action have ended, and what a worker takes again that is parked in it is
/// free.
pub fn can_go_on(book: &Book, worker: WorkerId, action: u32) -> bool
    requires worker { worker.0 < book.now.graph.workers }
    requires action { action < length book.now.graph.actions }
    ensures { IsTrue result ↔ CanGoOn book.now.graph worker book.now.state action }
{
    is_over(book, action) && can_take_again(book, worker, action)
}

/// Whether the worker can take up what it has parked: it is kept from none of those locks, and a lease is free for it.
pub fn can_take_up(book: &Book, worker: WorkerId) -> bool
    requires { worker.0 < book.now.graph.workers }
    ensures { result ≡ can_take_up worker book.now.state }
{
    all_can_be_owned(book.state(), worker) && lease_is_free(book, worker)
}

// Whether the worker is kept from none of the locks that it has parked.
fn all_can_be_owned(state: &State, worker: WorkerId) -> bool
    requires worker { worker.0 < length state.now.holdings }
    requires locks { (l : LockId) → stands_in l (holding_of state.now worker).parked ≡ true → IsLockOf state.now l }
    ensures { result ≡ list_all (can_own state.now worker) (holding_of state.now worker).parked }
{
    state
        .parked(worker)
        .iter()
        .all(|lock| !state.kept_from(worker, *lock))
}

// Whether all items of an action have ended.
fn is_over(book: &Book, action: u32) -> bool
    requires { action < length book.now.graph.actions }
    ensures { IsTrue result ↔ (first_open book.now.graph book.now.state action ≡ None) }
{
    first_open(book, action).is_none()
}

// Whether what the action's retention takes again is free.
fn can_take_again(book: &Book, worker: WorkerId, action: u32) -> bool
    requires worker { worker.0 < book.now.graph.workers }
    requires action { action < length book.now.graph.actions }
    ensures { result ≡ can_take_again (action_of book.now.graph action).retention (lock_with book.now.graph action) worker book.now.state }
{
    let found = action_of(book.graph(), action);
    match found.retention {
        Retention::Retain => lease_is_free(book, worker),
        Retention::Release => true,
        Retention::ReleaseAndReacquire => {
            lease_is_free(book, worker) && lock_is_free(book, worker, found.task)
        }
    }
}

// Whether nobody owns the lock of a task, and the worker isn't kept from it.
fn lock_is_free(book: &Book, worker: WorkerId, task: u32) -> bool
    requires { task < length book.now.graph.tasks }
    ensures { result ≡ (is_none (owner_of book.now.state (task_of book.now.graph task).lock)
        && not (kept_from book.now.state worker (task_of book.now.graph task).lock)) }
{
    let lock = book.graph().tasks().at(task as usize).lock;
    let state = book.state();
    state.owner(lock).is_none() && !state.kept_from(worker, lock)
}
