//! The report of a run: its text, and how it went.
ghost use Rattle.std.specs.Prelude.{◌≡◌, ◌≤◌, ℕ, [], None, Some, length};
ghost use Rattle.std.specs.List.{list_all, range_with_len};
ghost use Rattle.resource_lock.specs.StateView.{mark_of};
ghost use Rattle.resource_lock.specs.declared.marks.MarkId.TheVariants as ids;
ghost use Rattle.lock_transforms.specs.Table.{has_passed};
ghost use Rattle.lock_journal.specs.Marks.{HasEnded};
ghost use Rattle.file_access.specs.PageView.{Adds};
ghost use Rattle.file_access.specs.SinkView.{Prints};
ghost use Rattle.daemon_manager.specs.Events.{IsLegal, NoneIdle};
ghost use Rattle.plan_reader.specs.Units.{plan_units};
ghost use Rattle.build_workers.specs.Desks.{DeskView};
ghost use Rattle.build_workers.specs.Run.{IsRunOf};
ghost use Rattle.build_workers.specs.RunDesks.{known_by};
ghost use Rattle.command_answers.specs.Answered.{AreEventsOf, all_pass, book_of, events_asked, have_all_passed, history_asked, options_of};
ghost use Rattle.command_answers.specs.Answered.{run_text, text_by_book, values_or_closings, watches_asked};
ghost use Rattle.command_answers.specs.Reported.{IsReported};

use crate::ended::Ended;
use crate::status::Status;
use crate::watches::write_watches;
use build_workers::RunEnd;
use command_words::RunWords;
use daemon_manager::Event;
use file_access::{Failed, Page, Sink};
use history_text::{results_go_by_number, write_events, write_history, write_results};
use lock_journal::{Book, outcomes_go_by_number};
use plan_reader::Plan;
use resource_lock::{Mark, MarkId, State};
use run_watch::Watch;

// Writes the history of a run, where the words ask for it.
fn write_history_asked<O: Sink>(asked: &RunWords, book: &Book, page: &mut Page, out: &mut O)
    requires { book.now.given ≡ 0 }
    ensures { Adds (O.seen out.old) page.old (O.seen out.new) page.new (history_asked asked.now book.now) }
{
    if asked.history {
        write_history(book, asked.parallel, page, out);
    }
}

// Writes what happened to the daemons of a run, where the words ask for it.
fn write_events_asked<O: Sink>(asked: &RunWords, events: &[Event], page: &mut Page, out: &mut O)
    ensures { Adds (O.seen out.old) page.old (O.seen out.new) page.new (events_asked asked.now events.now) }
{
    if asked.daemons {
        write_events(events, page, out);
    }
}

// Writes what the workers of a run saw, where the words ask for it.
fn write_watches_asked<O: Sink>(asked: &RunWords, watch: &[Watch], page: &mut Page, out: &mut O)
    ensures { Adds (O.seen out.old) page.old (O.seen out.new) page.new (watches_asked asked.now watch.now) }
{
    if asked.watch {
        write_watches(watch, page, out);
    }
}

// Prints what the words ask for of a run.
fn print_run<O: Sink>(
    asked: &RunWords,
    plan: &Plan,
    end: &RunEnd,
    out: &mut O,
) -> Result<(), Failed>
    requires tasks { length end.now.book.value.graph.tasks ≡ length plan.now.tasks }
    requires units { end.now.book.value.graph.units ≡ length (plan_units plan.now) }
    requires ended { HasEnded end.now.book.value.state }
    ensures { Prints (O.seen out.old) (O.seen out.new) (text_by_book asked.now plan.now end.now.book.value end.now.events.items end.now.watch.items) result }
{
    let mut page = Page::new();
    write_results(plan, &end.book, asked.summary, &mut page, out);
    write_history_asked(asked, &end.book, &mut page, out);
    write_events_asked(asked, &end.events, &mut page, out);
    write_watches_asked(asked, &end.watch, &mut page, out);
    page.end(out)
}

// Whether each of the first so many tasks has passed.
fn have_passed(state: &State, tasks: u32) -> bool
    requires { tasks ≤ length state.now.tasks }
    ensures { result ≡ list_all (λ t. has_passed (mark_of state.now (ids.Task t))) (range_with_len 0 tasks) }
{
    (0..tasks).all(|task| state.mark(MarkId::Task(task)) == Mark::Passed)
}

// Whether every task has passed.
fn all_passed(book: &Book) -> bool
    ensures { result ≡ have_all_passed book.now }
{
    have_passed(book.state(), book.graph().tasks().len() as u32)
}

// Prints a run, and says how it went.
fn report<O: Sink>(asked: &RunWords, plan: &Plan, end: RunEnd, out: &mut O) -> Ended
    requires tasks { length end.book.value.graph.tasks ≡ length plan.now.tasks }
    requires units { end.book.value.graph.units ≡ length (plan_units plan.now) }
    requires ended { HasEnded end.book.value.state }
    requires legal { IsLegal end.events.items }
    requires none_idle { NoneIdle end.events.items }
    ensures book { result.book ≡ Some end.book }
    ensures events { AreEventsOf (book_of result.book) result.events.items }
    ensures watch { result.book ≡ None → result.watch.items ≡ [] }
    ensures status { IsReported (have_all_passed end.book.value) (O.seen out.old) (O.seen out.new)
        (text_by_book asked.now plan.now end.book.value result.events.items result.watch.items) result.status }
    ensures kept { (result.events ≡ end.events) × (result.watch ≡ end.watch) }
{
    let passed = all_passed(&end.book);
    let status = match print_run(asked, plan, &end, out) {
        Ok(()) if passed => Status::Passed,
        Ok(()) => Status::TaskFailed,
        Err(Failed) => Status::SinkFault,
    };
    Ended {
        status,
        book: Some(end.book),
        events: end.events,
        watch: end.watch,
    }
}

/// Prints a run of the plan, and says how it went by the plan: Passed where all its tasks passed, else TaskFailed, and SinkFault where
/// the sink took only the beginning.
pub fn report_run<O: Sink>(asked: &RunWords, plan: &Plan, end: RunEnd, out: &mut O) -> Ended
    requires run { (before : ℕ → DeskView) × (after : ℕ → DeskView) × IsRunOf plan.now (options_of asked.now) before after end.book.value }
    requires legal { IsLegal end.events.items }
    requires none_idle { NoneIdle end.events.items }
    ensures book { result.book ≡ Some end.book }
    ensures events { AreEventsOf (book_of result.book) result.events.items }
    ensures watch { result.book ≡ None → result.watch.items ≡ [] }
    ensures status { (before after : ℕ → DeskView) → IsRunOf plan.now (options_of asked.now) before after end.book.value
        → IsReported (all_pass plan.now end.book.value.graph (values_or_closings plan.now (known_by asked.now.threads before) end.book.value.history))
        (O.seen out.old) (O.seen out.new)
        (run_text asked.now plan.now (known_by asked.now.threads before) end.book.value result.events.items result.watch.items) result.status }
    ensures kept { (result.events ≡ end.events) × (result.watch ≡ end.watch) }
{
    // Of the graph, that it fits.
    let _ = end.book.graph();
    outcomes_go_by_number();
    results_go_by_number();
    report(asked, plan, end, out)
}
