//! What a worker does next, and whether what a sleeper waits for has come. Both are told by the same functions.
ghost use Rattle.std.specs.Prelude.{◌≡◌, ◌<◌, IfNone, IfSome, false, length, true};
ghost use Rattle.worker_choices.specs.Choices.{IsNext, IsNextParked};
ghost use Rattle.worker_choices.specs.NextSteps.{HasNothingToDo, HasToWait, Waits};

use crate::awaited::Awaited;
use crate::next_steps::{all_ended, can_claim, can_go_on, can_take_up, task_to_start};
use lock_journal::Book;
use resource_lock::WorkerId;

/// What an idle worker does next.
#[derive(Clone, Copy)]
pub enum Choice {
    /// It claims an item that waits.
    Claim,
    /// It skips this task, the lowest that can be skipped.
    Skip(u32),
    /// It starts this task, the lowest that can be started.
    Start(u32),
    /// It finishes: all tasks have ended.
    Finish,
}

/// What a parked worker does next.
#[derive(Clone, Copy)]
pub enum ParkedChoice {
    /// It resumes: the items that it waits for have ended, and it can have what it takes again.
    Resume,
    /// It claims an item that waits.
    Claim,
}

/// What an idle worker does next, where an item waits to be claimed or none does. None says that there is nothing to do yet.
pub fn next_of_idle(book: &Book, worker: WorkerId, queued: bool) -> Option<Choice>
    requires { worker.0 < book.now.graph.workers }
    ensures next { IfSome result (IsNext book.now.graph worker book.now.state queued) }
    ensures waits { IfNone result (HasNothingToDo book.now.graph worker book.now.state queued) }
{
    if can_claim(book, worker, queued) {
        return Some(Choice::Claim);
    }
    if let Some(task) = book.lowest_to_skip() {
        return Some(Choice::Skip(task));
    }
    if let Some(task) = task_to_start(book, worker) {
        return Some(Choice::Start(task));
    }
    all_ended(book).then_some(Choice::Finish)
}

/// What a worker does next that is parked in an action, where an item waits to be claimed or none does. None says that there is
/// nothing to do yet.
pub fn next_of_parked(
    book: &Book,
    worker: WorkerId,
    queued: bool,
    action: u32,
) -> Option<ParkedChoice>
    requires worker { worker.0 < book.now.graph.workers }
    requires action { action < length book.now.graph.actions }
    ensures next { IfSome result (IsNextParked book.now.graph worker book.now.state queued action) }
    ensures waits { IfNone result (HasToWait book.now.graph worker book.now.state queued action) }
{
    if can_go_on(book, worker, action) {
        return Some(ParkedChoice::Resume);
    }
    can_claim(book, worker, queued).then_some(ParkedChoice::Claim)
}

/// Whether what a worker waits for has come, where an item waits to be claimed or none does: its question has an answer then.
pub fn has_come(book: &Book, worker: WorkerId, queued: bool, awaited: Awaited) -> bool
    requires { worker.0 < book.now.graph.workers }
    ensures waits { result ≡ false → Waits book.now.graph worker book.now.state queued awaited }
    ensures comes { result ≡ true → Waits book.now.graph worker book.now.state queued awaited → ⊥ }
{
    match awaited {
        Awaited::Work => next_of_idle(book, worker, queued).is_some(),
        Awaited::Items(action) => {
            (action as usize) < book.graph().actions().len()
                && next_of_parked(book, worker, queued, action).is_some()
        }
        Awaited::TakeUp => can_take_up(book, worker),
    }
}
