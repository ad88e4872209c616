ghost use Rattle.std.specs.Prelude.{◌≡◌, ◌<◌, length};
ghost use Rattle.lock_journal.specs.Closings.{outcome_in};
ghost use Rattle.lock_journal.specs.Marks.{HasEnded};
ghost use Rattle.history_text.specs.Results.{task_marks};

use item_actions::Outcome;
use lock_journal::{Book, closing_entries_give_the_marks};
use resource_lock::{Mark, MarkId};

/// The mark of a task.
pub(crate) fn mark_of(book: &Book, task: u32) -> Mark
    requires { task < length book.now.graph.tasks }
    ensures { result ≡ task_marks book.now.state task }
{
    book.state().mark(MarkId::Task(task))
}

/// The outcome of a unit, where every mark has ended.
pub(crate) fn outcome_of(book: &Book, unit: u32) -> Outcome
    requires within { unit < book.now.graph.units }
    requires ended { HasEnded book.now.state }
    requires whole { book.now.given ≡ 0 }
    ensures { result ≡ outcome_in book.now.history unit }
{
    // The state is one of the graph, and the lawful history leads to it: a skipped unit was never closed.
    let _ = book.graph();
    let _ = book.state();
    closing_entries_give_the_marks();
    book.outcome(unit).unwrap_or(Outcome::Skipped)
}
