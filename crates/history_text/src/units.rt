ghost use Rattle.std.specs.Prelude.{◌≡◌, ◌+◌, ◌<◌, ◌≤◌, ◌^◌, length, map};
ghost use Rattle.std.specs.List.{flat_map};
ghost use Rattle.file_access.specs.PageView.{Adds};
ghost use Rattle.lock_journal.specs.Closings.{outcome_in};
ghost use Rattle.plan_reader.specs.PlanView.{work_view, plan_action_view};
ghost use Rattle.plan_reader.specs.Units.{item_unit, fetch_units, action_units};
ghost use Rattle.lock_journal.specs.Marks.{HasEnded};
ghost use Rattle.history_text.specs.Text.{numbered};
ghost use Rattle.history_text.specs.Results.{unit_line, unit_text};

use crate::endings::outcome_of;
use crate::outcomes::write_value;
use daemon_requirements::Work;
use file_access::{Page, Sink};
use item_actions::{Outcome, Text};
use lock_journal::Book;
use plan_reader::PlanAction;

/// Writes a task's name or a file.
pub(crate) fn write_name<K: Sink>(name: &Text, page: &mut Page, sink: &mut K)
    ensures { Adds (K.seen sink.old) page.old (K.seen sink.new) page.new name.now }
{
    page.text(sink, name.bytes());
}

/// Writes the line of a unit: `fetch` or its action's word, its file and its outcome.
pub(crate) fn write_unit<K: Sink>(
    word: &[u8],
    file: &Text,
    outcome: &Outcome,
    page: &mut Page,
    sink: &mut K,
)
    ensures { Adds (K.seen sink.old) page.old (K.seen sink.new) page.new (unit_line word.now file.now outcome.now) }
{
    page.text(sink, b"  ");
    page.text(sink, word);
    page.text(sink, b" ");
    write_name(file, page, sink);
    page.text(sink, b" ");
    write_value(outcome, page, sink);
    page.text(sink, b"\n");
}

// Writes the line of an item.
fn write_item<K: Sink>(work: &Work, number: u32, book: &Book, page: &mut Page, sink: &mut K)
    requires within { number < book.now.graph.units }
    requires ended { HasEnded book.now.state }
    requires whole { book.now.given ≡ 0 }
    ensures { Adds (K.seen sink.old) page.old (K.seen sink.new) page.new
        (unit_text (outcome_in book.now.history) number (item_unit (work_view work.now))) }
{
    let outcome = outcome_of(book, number);
    let word = work.action.kind().word().as_bytes();
    write_unit(word, &work.file, &outcome, page, sink);
}

// The lines of an action's items, whose units are numbered from the first on.
fn write_items<K: Sink>(items: &[Work], first: u32, book: &Book, page: &mut Page, sink: &mut K)
    requires few { book.now.graph.units < 2 ^ 32 }
    requires within { first + length items.now ≤ book.now.graph.units }
    requires ended { HasEnded book.now.state }
    requires whole { book.now.given ≡ 0 }
    ensures { Adds (K.seen sink.old) page.old (K.seen sink.new) page.new
        (numbered (unit_text (outcome_in book.now.history)) first (map item_unit (map work_view items.now))) }
{
    for (index, work) in items.iter().enumerate() {
        write_item(work, first + index as u32, book, page, sink);
    }
}

// The line of an action's fetch, where it has one. Returns the number of the unit that comes next.
fn write_fetch<K: Sink>(
    fetch: &Option<Text>,
    first: u32,
    book: &Book,
    page: &mut Page,
    sink: &mut K,
) -> u32
    requires few { book.now.graph.units < 2 ^ 32 }
    requires within { first + length (fetch_units fetch.now) ≤ book.now.graph.units }
    requires ended { HasEnded book.now.state }
    requires whole { book.now.given ≡ 0 }
    ensures text { Adds (K.seen sink.old) page.old (K.seen sink.new) page.new
        (numbered (unit_text (outcome_in book.now.history)) first (fetch_units fetch.now)) }
    ensures next { result ≡ first + length (fetch_units fetch.now) }
{
    match fetch {
        None => first,
        Some(file) => {
            let outcome = outcome_of(book, first);
            write_unit(b"fetch", file, &outcome, page, sink);
            first + 1
        }
    }
}

// The lines of an action's units, which are numbered from the first on. Returns the number of the
// unit that comes next.
fn write_action<K: Sink>(
    action: &PlanAction,
    first: u32,
    book: &Book,
    page: &mut Page,
    sink: &mut K,
) -> u32
    requires few { book.now.graph.units < 2 ^ 32 }
    requires within { first + length (action_units (plan_action_view action.now)) ≤ book.now.graph.units }
    requires ended { HasEnded book.now.state }
    requires whole { book.now.given ≡ 0 }
    ensures text { Adds (K.seen sink.old) page.old (K.seen sink.new) page.new
        (numbered (unit_text (outcome_in book.now.history)) first (action_units (plan_action_view action.now))) }
    ensures next { result ≡ first + length (action_units (plan_action_view action.now)) }
{
    let first_item = write_fetch(&action.fetch, first, book, page, sink);
    write_items(&action.items, first_item, book, page, sink);
    first_item + action.items.len() as u32
}

/// Writes the lines of a task's units, which are numbered from the first on. Returns the number of the
/// unit that comes next.
pub(crate) fn write_actions<K: Sink>(
    actions: &[PlanAction],
    first: u32,
    book: &Book,
    page: &mut Page,
    sink: &mut K,
) -> u32
    requires few { book.now.graph.units < 2 ^ 32 }
    requires within { first + length (flat_map action_units (map plan_action_view actions.now)) ≤ book.now.graph.units }
    requires ended { HasEnded book.now.state }
    requires whole { book.now.given ≡ 0 }
    ensures text { Adds (K.seen sink.old) page.old (K.seen sink.new) page.new
        (numbered (unit_text (outcome_in book.now.history)) first (flat_map action_units (map plan_action_view actions.now))) }
    ensures next { result ≡ first + length (flat_map action_units (map plan_action_view actions.now)) }
{
    let mut next = first;
    for action in actions {
        next = write_action(action, next, book, page, sink);
    }
    next
}
