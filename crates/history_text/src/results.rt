ghost use Rattle.std.specs.Prelude.{◌≡◌, ◌+◌, ◌<◌, ◌≤◌, ◌^◌, length, map, if◌then◌else◌};
ghost use Rattle.std.specs.List.{flat_map};
ghost use Rattle.file_access.specs.PageView.{Adds};
ghost use Rattle.lock_journal.specs.Closings.{outcome_in};
ghost use Rattle.plan_reader.specs.PlanView.{plan_task_view};
ghost use Rattle.plan_reader.specs.Units.{task_units, plan_units};
ghost use Rattle.lock_journal.specs.Marks.{HasEnded};
ghost use Rattle.history_text.specs.Results.{task_marks, task_line, task_text, tasks_text, results_text, summary_text};

use crate::changes::write_mark;
use crate::endings::mark_of;
use crate::summaries::write_summary;
use crate::units::{write_actions, write_name};
use file_access::{Page, Sink};
use item_actions::Text;
use lock_journal::Book;
use plan_reader::{Plan, PlanTask};
use resource_lock::Mark;

/// Writes the line of a task.
pub(crate) fn write_task_line<K: Sink>(name: &Text, mark: Mark, page: &mut Page, sink: &mut K)
    ensures { Adds (K.seen sink.old) page.old (K.seen sink.new) page.new (task_line name.now mark) }
{
    page.text(sink, b"task ");
    write_name(name, page, sink);
    write_mark(mark, page, sink);
    page.text(sink, b"\n");
}

// The lines of a task and its units. Returns the number of the unit that comes next.
fn write_task<K: Sink>(
    task: &PlanTask,
    number: u32,
    first: u32,
    book: &Book,
    page: &mut Page,
    sink: &mut K,
) -> u32
    requires task { number < length book.now.graph.tasks }
    requires few { book.now.graph.units < 2 ^ 32 }
    requires within { first + length (task_units (plan_task_view task.now)) ≤ book.now.graph.units }
    requires ended { HasEnded book.now.state }
    requires whole { book.now.given ≡ 0 }
    ensures text { Adds (K.seen sink.old) page.old (K.seen sink.new) page.new
        (task_text (task_marks book.now.state) (outcome_in book.now.history) number first (plan_task_view task.now)) }
    ensures next { result ≡ first + length (task_units (plan_task_view task.now)) }
{
    write_task_line(&task.name, mark_of(book, number), page, sink);
    write_actions(&task.actions, first, book, page, sink)
}

// The lines of tasks and their units.
fn write_tasks<K: Sink>(tasks: &[PlanTask], book: &Book, page: &mut Page, sink: &mut K)
    requires few_tasks { length tasks.now < 2 ^ 32 }
    requires few_units { book.now.graph.units < 2 ^ 32 }
    requires tasks { length book.now.graph.tasks ≡ length tasks.now }
    requires units { book.now.graph.units ≡ length (flat_map task_units (map plan_task_view tasks.now)) }
    requires ended { HasEnded book.now.state }
    requires whole { book.now.given ≡ 0 }
    ensures { Adds (K.seen sink.old) page.old (K.seen sink.new) page.new
        (tasks_text (task_marks book.now.state) (outcome_in book.now.history) 0 0 (map plan_task_view tasks.now)) }
{
    let mut next = 0;
    for (index, task) in tasks.iter().enumerate() {
        next = write_task(task, index as u32, next, book, page, sink);
    }
}

// Writes the results of a run that has ended.
fn write_whole<K: Sink>(plan: &Plan, book: &Book, page: &mut Page, sink: &mut K)
    requires tasks { length book.now.graph.tasks ≡ length plan.now.tasks }
    requires units { book.now.graph.units ≡ length (plan_units plan.now) }
    requires ended { HasEnded book.now.state }
    requires whole { book.now.given ≡ 0 }
    ensures { Adds (K.seen sink.old) page.old (K.seen sink.new) page.new
        (results_text plan.now (task_marks book.now.state) (outcome_in book.now.history)) }
{
    write_tasks(plan.tasks(), book, page, sink);
    write_summary(book, page, sink);
}

/// Writes the results text of a plan whose marks have all ended: a line for each task and each of its
/// units, and three lines of summary; or the summary alone. The book's graph has as many tasks and units
/// as the plan, and the book keeps all entries.
pub fn write_results<K: Sink>(
    plan: &Plan,
    book: &Book,
    summary: bool,
    page: &mut Page,
    sink: &mut K,
)
    requires tasks { length book.now.graph.tasks ≡ length plan.now.tasks }
    requires units { book.now.graph.units ≡ length (plan_units plan.now) }
    requires ended { HasEnded book.now.state }
    requires whole { book.now.given ≡ 0 }
    ensures { Adds (K.seen sink.old) page.old (K.seen sink.new) page.new
        ((if summary then summary_text else results_text) plan.now (task_marks book.now.state) (outcome_in book.now.history)) }
{
    if summary {
        write_summary(book, page, sink);
    } else {
        write_whole(plan, book, page, sink);
    }
}
