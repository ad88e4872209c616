ghost use Rattle.std.specs.Prelude.{◌≡◌, ◌++◌, length, codes, decimal};
ghost use Rattle.std.specs.List.{sum_by};
ghost use Rattle.file_access.specs.PageView.{Adds};
ghost use Rattle.lock_journal.specs.Closings.{outcome_in};
ghost use Rattle.lock_journal.specs.Marks.{HasEnded};
ghost use Rattle.history_text.specs.Results.{task_marks, number_in, task_counts, unit_counts, counts_text, summary_of, below};

use crate::counts::Counts;
use crate::endings::{mark_of, outcome_of};
use file_access::{Page, Sink};
use item_actions::Outcome;
use lock_journal::Book;

// How many tasks passed, failed and were skipped.
fn count_tasks(book: &Book) -> Counts
    ensures { result ≡ task_counts (below (length book.now.graph.tasks) (task_marks book.now.state)) }
{
    let mut counts = Counts::NONE;
    for task in 0..book.graph().tasks().len() as u32 {
        counts.add_task(mark_of(book, task));
    }
    counts
}

// How many units passed, failed and were skipped.
fn count_units(book: &Book) -> Counts
    requires ended { HasEnded book.now.state }
    requires whole { book.now.given ≡ 0 }
    ensures { result ≡ unit_counts (below book.now.graph.units (outcome_in book.now.history)) }
{
    let mut counts = Counts::NONE;
    for unit in 0..book.graph().units() {
        counts.add_unit(&outcome_of(book, unit));
    }
    counts
}

// The sum of the Number outcomes, which can pass 64 bits.
fn total_of(book: &Book) -> u128
    requires ended { HasEnded book.now.state }
    requires whole { book.now.given ≡ 0 }
    ensures { result ≡ sum_by number_in (below book.now.graph.units (outcome_in book.now.history)) }
{
    let mut total = 0;
    for unit in 0..book.graph().units() {
        total += u128::from(number_in(&outcome_of(book, unit)));
    }
    total
}

// The number of an outcome, or 0 where it has none.
fn number_in(outcome: &Outcome) -> u64
    ensures { result ≡ number_in outcome.now }
{
    match outcome {
        Outcome::Number(number) => *number,
        _ => 0,
    }
}

/// Writes what `tasks: ` or `units: ` stands before.
pub(crate) fn write_counts<K: Sink>(counts: Counts, page: &mut Page, sink: &mut K)
    ensures { Adds (K.seen sink.old) page.old (K.seen sink.new) page.new (counts_text counts) }
{
    page.number(sink, counts.passed);
    page.text(sink, b" passed, ");
    page.number(sink, counts.failed);
    page.text(sink, b" failed, ");
    page.number(sink, counts.skipped);
    page.text(sink, b" skipped\n");
}

// Writes the line with the counts of tasks.
fn write_tasks_line<K: Sink>(book: &Book, page: &mut Page, sink: &mut K)
    ensures { Adds (K.seen sink.old) page.old (K.seen sink.new) page.new
        (codes "tasks: " ++ counts_text (task_counts (below (length book.now.graph.tasks) (task_marks book.now.state)))) }
{
    page.text(sink, b"tasks: ");
    write_counts(count_tasks(book), page, sink);
}

// Writes the line with the counts of units.
fn write_units_line<K: Sink>(book: &Book, page: &mut Page, sink: &mut K)
    requires ended { HasEnded book.now.state }
    requires whole { book.now.given ≡ 0 }
    ensures { Adds (K.seen sink.old) page.old (K.seen sink.new) page.new
        (codes "units: " ++ counts_text (unit_counts (below book.now.graph.units (outcome_in book.now.history)))) }
{
    page.text(sink, b"units: ");
    write_counts(count_units(book), page, sink);
}

// Writes the line with the sum of all numbers.
fn write_total_line<K: Sink>(book: &Book, page: &mut Page, sink: &mut K)
    requires ended { HasEnded book.now.state }
    requires whole { book.now.given ≡ 0 }
    ensures { Adds (K.seen sink.old) page.old (K.seen sink.new) page.new
        (codes "total: " ++ decimal (sum_by number_in (below book.now.graph.units (outcome_in book.now.history))) ++ codes "\n") }
{
    page.text(sink, b"total: ");
    page.number128(sink, total_of(book));
    page.text(sink, b"\n");
}

/// Writes the three lines of summary of a book whose marks have ended.
pub(crate) fn write_summary<K: Sink>(book: &Book, page: &mut Page, sink: &mut K)
    requires ended { HasEnded book.now.state }
    requires whole { book.now.given ≡ 0 }
    ensures { Adds (K.seen sink.old) page.old (K.seen sink.new) page.new
        (summary_of (below (length book.now.graph.tasks) (task_marks book.now.state)) (below book.now.graph.units (outcome_in book.now.history))) }
{
    write_tasks_line(book, page, sink);
    write_units_line(book, page, sink);
    write_total_line(book, page, sink);
}
