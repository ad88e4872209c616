//! What became of tasks and units.
ghost use Rattle.std.specs.Prelude.{◌≡◌, ◌<◌, length};
ghost use Rattle.resource_lock.specs.StateView.{mark_of};
ghost use Rattle.resource_lock.specs.declared.marks.MarkId.TheVariants as ids;
ghost use Rattle.lock_journal.specs.Closings.{outcome_of};
ghost use Rattle.planned_work.specs.Outcomes.{ended_as, ended_by};

use item_actions::Outcome;
use lock_journal::Book;
use resource_lock::{Mark, MarkId};

/// What became of a task or a unit.
#[derive(Clone, Copy, PartialEq, Eq)]
pub enum Ended {
    /// It hasn't ended.
    NotEnded,
    /// It has passed. A unit did so with this number; for a task it is 0.
    Passed(u64),
    /// It has failed.
    Failed,
    /// It was never run.
    Skipped,
}

/// What became of a task.
pub fn task_outcome(book: &Book, task: u32) -> Ended
    requires { task < length book.now.graph.tasks }
    ensures { result ≡ ended_by (mark_of book.now.state (ids.Task task)) }
{
    // Of the graph, that the state has a mark for each of its tasks.
    let _ = book.graph();
    match book.state().mark(MarkId::Task(task)) {
        Mark::Waiting | Mark::Queued | Mark::Running(_) => Ended::NotEnded,
        Mark::Passed => Ended::Passed(0),
        Mark::Failed => Ended::Failed,
        Mark::Skipped => Ended::Skipped,
    }
}

/// What became of a unit, by a book that has its whole history.
pub fn unit_outcome(book: &Book, unit: u32) -> Ended
    requires whole { book.now.given ≡ 0 }
    requires within { unit < book.now.graph.units }
    ensures { result ≡ ended_as (outcome_of book.now.state book.now.history unit) }
{
    match book.outcome(unit) {
        None => Ended::NotEnded,
        Some(Outcome::Number(number)) => Ended::Passed(number),
        Some(Outcome::Digest(_)) => Ended::Passed(0),
        Some(Outcome::Skipped) => Ended::Skipped,
        Some(Outcome::NotThere | Outcome::TooLong | Outcome::Fault | Outcome::NoMemory) => {
            Ended::Failed
        }
    }
}
