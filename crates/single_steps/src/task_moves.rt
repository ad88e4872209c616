//! What a worker does next that runs a task and isn't parked in it.
ghost use Rattle.std.specs.Prelude.{◌≡◌, ◌<◌, IfSome, None, length};
ghost use Rattle.single_steps.specs.TaskMoves.{IsNextInTask, can_come, comes_with, first_to_come, step_of_move};

use async_tracker::WorkStep;
use coordination::{Decision, Question};
use lock_journal::Book;
use lock_transforms::kinds::{action_of, actions_of, earlier_passed};
use resource_lock::{Mark, MarkId, WorkerId};
use worker_choices::Awaited;

/// What a worker does next in its task.
#[derive(Clone, Copy, PartialEq, Eq)]
pub enum TaskMove {
    /// It enters a blocking section for this fetch, which waits.
    Fetch(u32),
    /// It queues the items of this action.
    Submit(u32),
    /// It begins to wait for the items of this action, which are queued.
    Park(u32),
    /// It ends the task.
    End,
}

/// What a worker does next that runs the task and isn't parked in it: the fetch of the first action that can come next, or its items,
/// or the wait for them where they are queued already, as where there was no memory for that entry; or the end, where no action can come
/// next or the worker has no lease any more.
///
/// An action can come next that waits, where each earlier one of the task has passed, and each of their units. So behind a unit that
/// failed comes the end.
pub fn next_of_task(book: &Book, worker: WorkerId, task: u32) -> TaskMove
    requires worker { worker.0 < book.now.graph.workers }
    requires task { task < length book.now.graph.tasks }
    ensures { IsNextInTask book.now.graph worker book.now.state task result }
{
    if !book.state().has_lease(worker) {
        return TaskMove::End;
    }
    match first_to_come(book, task) {
        None => TaskMove::End,
        Some(action) => come_with(book, action),
    }
}

// What comes next of an action: the wait for its items where they are queued, or its fetch where that waits, and else its items.
fn come_with(book: &Book, action: u32) -> TaskMove
    requires { action < length book.now.graph.actions }
    ensures { result ≡ comes_with book.now.graph book.now.state action }
{
    let state = book.state();
    if state.mark(MarkId::Action(action)) == Mark::Queued {
        return TaskMove::Park(action);
    }
    let found = action_of(book.graph(), action);
    let unit = found.first_unit;
    if found.fetch && state.mark(MarkId::Unit(unit)) == Mark::Waiting {
        TaskMove::Fetch(unit)
    } else {
        TaskMove::Submit(action)
    }
}

// The first action of a task that can come next.
fn first_to_come(book: &Book, task: u32) -> Option<u32>
    requires { task < length book.now.graph.tasks }
    ensures first { result ≡ first_to_come book.now.graph book.now.state task }
    ensures in_range { IfSome result (λ a. a < length book.now.graph.actions) }
{
    let actions = actions_of(book.graph(), task);
    for action in actions.first..actions.first + actions.count {
        if can_come(book, action) {
            return Some(action);
        }
    }
    None
}

// Whether an action is queued, or waits where each earlier one of its task has passed with its units.
fn can_come(book: &Book, action: u32) -> bool
    requires { action < length book.now.graph.actions }
    ensures { result ≡ can_come book.now.graph book.now.state action }
{
    let state = book.state();
    match state.mark(MarkId::Action(action)) {
        Mark::Queued => true,
        Mark::Waiting => earlier_passed(book.graph(), state, action),
        Mark::Running(_) | Mark::Passed | Mark::Failed | Mark::Skipped => false,
    }
}

/// Asks what a worker does next in its task, and does it. It has an answer at once.
#[derive(Clone, Copy)]
pub struct MoveInTask {
    /// The task.
    pub task: u32,
}

impl Question for MoveInTask {
    type Answer = TaskMove;

    ghost answers = { λ q queued w book next. q.task < length book.graph.tasks → IsNextInTask book.graph w book.state q.task next };

    ghost waits_on = { λ _ _ _ _. ⊥ };

    ghost awaits = { λ _. None };

    fn awaited(&self) -> Option<Awaited> {
        None
    }

    fn ask(&self, worker: WorkerId, book: &Book, _queued: bool) -> Option<TaskMove> {
        if self.task as usize >= book.graph().tasks().len() {
            return Some(TaskMove::End);
        }
        Some(next_of_task(book, worker, self.task))
    }
}

impl Decision for MoveInTask {
    type Step = WorkStep;

    ghost step_of = { λ q. step_of_move q.task };

    ghost more_locks = { λ _. 0 };

    #[inline]
    fn more_locks(&self) -> usize {
        0
    }

    fn step(&self, next: &TaskMove) -> Option<WorkStep> {
        match *next {
            TaskMove::Fetch(unit) => Some(WorkStep::Fetch(unit)),
            TaskMove::Submit(action) => Some(WorkStep::Submit(action)),
            TaskMove::Park(action) => Some(WorkStep::Park(action)),
            TaskMove::End => Some(WorkStep::End(self.task)),
        }
    }
}
