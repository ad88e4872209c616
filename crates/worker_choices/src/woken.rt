//! Whom of the workers that sleep the end of a hold of the state lock wakes.
ghost use Rattle.std.specs.Prelude.{◌≡◌, ◌<◌, ◌⊎◌, Bool, Some, All, false, slice_get, true};
ghost use Rattle.resource_lock.specs.declared.ids.WorkerId.{WorkerId};
ghost use Rattle.lock_journal.specs.Marks.{IsEnded};
ghost use Rattle.worker_choices.specs.NextSteps.{HasNothingToDo, StillWait, Waits};
ghost use Rattle.worker_choices.specs.NoWork.{covers, IsFound};
ghost use Rattle.worker_choices.specs.declared.awaited.Awaited.{Awaited};
ghost use Rattle.worker_choices.specs.declared.stances.Stance.TheVariants as stance;
ghost use Rattle.worker_choices.specs.declared.woken.Woken.TheVariants as woken;

use crate::awaited::Awaited;
use crate::choices::has_come;
use crate::next_steps::{all_ended, lease_is_free};
use crate::stances::Stance;
use lock_journal::Book;
use resource_lock::WorkerId;

/// The workers to wake of those that sleep until what they wait for comes.
#[derive(Clone, Copy, PartialEq, Eq)]
pub enum Woken {
    /// None of them.
    Nobody,
    /// This one.
    One(WorkerId),
    /// Each of them.
    All,
}

/// Whom of the workers to wake, by their stances, where nobody looks and an item waits to be claimed or none does.
///
/// All are woken where all tasks have ended. Else it is the first worker for which what it waits for
/// has come; it looks then, and who looks last wakes the next.
pub fn whom_to_wake(book: &Book, queued: bool, stances: &[Stance]) -> Woken
    ensures nobody { result ≡ woken.Nobody → StillWait book.now.graph book.now.state queued stances.now book.now.graph.workers }
    ensures one { (w : WorkerId) → result ≡ woken.One w → (a : Awaited) × (slice_get stances.now w.0 ≡ Some (stance.Sleeps a))
        × (Waits book.now.graph w book.now.state queued a → ⊥) }
    ensures all { result ≡ woken.All → All IsEnded book.now.state.tasks }
{
    if all_ended(book) {
        return Woken::All;
    }
    let mut no_work = NoWork::UNKNOWN;
    for worker in 0..book.graph().workers() {
        if sleeps_in_vain(book, queued, stances, WorkerId(worker), &mut no_work) {
            return Woken::One(WorkerId(worker));
        }
    }
    Woken::Nobody
}

// Whether a worker sleeps though what it waits for has come.
fn sleeps_in_vain(
    book: &Book,
    queued: bool,
    stances: &[Stance],
    worker: WorkerId,
    no_work: &mut NoWork,
) -> bool
    requires worker { worker.0 < book.now.graph.workers }
    requires found { IsFound book.now.graph book.now.state queued no_work.old }
    ensures found { IsFound book.now.graph book.now.state queued no_work.new }
    ensures no { result ≡ false → (a : Awaited) → slice_get stances.now worker.0 ≡ Some (stance.Sleeps a)
        → Waits book.now.graph worker book.now.state queued a }
    ensures yes { result ≡ true → (a : Awaited) × (slice_get stances.now worker.0 ≡ Some (stance.Sleeps a))
        × (Waits book.now.graph worker book.now.state queued a → ⊥) }
{
    match stances.get(worker.0 as usize) {
        Some(Stance::Sleeps(Awaited::Work)) => work_has_come(book, queued, worker, no_work),
        Some(Stance::Sleeps(awaited)) => has_come(book, worker, queued, *awaited),
        Some(Stance::Away | Stance::Looks) | None => false,
    }
}

// Whether there is work for a worker. It is asked where there wasn't found to be none for a worker that is like it.
fn work_has_come(book: &Book, queued: bool, worker: WorkerId, no_work: &mut NoWork) -> bool
    requires worker { worker.0 < book.now.graph.workers }
    requires found { IsFound book.now.graph book.now.state queued no_work.old }
    ensures found { IsFound book.now.graph book.now.state queued no_work.new }
    ensures no { result ≡ false → HasNothingToDo book.now.graph worker book.now.state queued }
    ensures yes { result ≡ true → HasNothingToDo book.now.graph worker book.now.state queued → ⊥ }
{
    let lease = lease_is_free(book, worker);
    if no_work.covers(lease) {
        return false;
    }
    if has_come(book, worker, queued, Awaited::Work) {
        return true;
    }
    no_work.note(lease);
    false
}

/// For which workers there was found to be no work. All for which a lease is free are alike, and all for which none is.
#[derive(Clone, Copy)]
struct NoWork {
    /// For those for which a lease is free.
    with_lease: bool,
    /// For those for which none is.
    without_lease: bool,
}

impl NoWork {
    const UNKNOWN: NoWork = NoWork {
        with_lease: false,
        without_lease: false,
    };

    // Whether there is none where a lease is free, or where none is.
    fn covers(&self, lease: bool) -> bool
        ensures { result ≡ covers self.now lease }
    {
        if lease {
            self.with_lease
        } else {
            self.without_lease
        }
    }

    // Notes that there is none where a lease is free, or where none is.
    fn note(&mut self, lease: bool)
        ensures { (other : Bool) → covers self.new other ≡ true → (covers self.old other ≡ true) ⊎ (other ≡ lease) }
    {
        if lease {
            self.with_lease = true;
        } else {
            self.without_lease = true;
        }
    }
}
