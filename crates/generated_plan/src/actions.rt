ghost use Rattle.std.specs.Prelude.{◌≡◌};
ghost use Rattle.file_access.specs.PageView.{Adds};
ghost use Rattle.generated_plan.specs.Draws.{after_draws};
ghost use Rattle.generated_plan.specs.Made.{action_text, first_wait, item_text, items_text, kind_drawn, second_wait, wait_text};

use crate::draws::Draws;
use file_access::{Page, Sink};
use item_actions::{ActionKind, Text};
use resource_lock::Retention;

// How many items an action has.
const ITEMS: u32 = 4;

// What an item does, by a number drawn.
fn kind_drawn(number: u64) -> ActionKind
    ensures { result ≡ kind_drawn number }
{
    match number % 5 {
        0 => ActionKind::Lines,
        1 => ActionKind::Words,
        2 => ActionKind::Bytes,
        3 => ActionKind::Longest,
        _ => ActionKind::Sha256,
    }
}

// How a task's first action waits, by a number drawn.
fn first_wait(number: u64) -> Retention
    ensures { result ≡ first_wait number }
{
    match number % 2 {
        0 => Retention::Retain,
        _ => Retention::ReleaseAndReacquire,
    }
}

// How a task's second action waits, by a number drawn.
fn second_wait(number: u64) -> Retention
    ensures { result ≡ second_wait number }
{
    match number % 3 {
        0 => Retention::Retain,
        1 => Retention::ReleaseAndReacquire,
        _ => Retention::Release,
    }
}

// Writes an item, whose action is drawn.
fn write_item<K: Sink>(file: &Text, draws: &mut Draws, page: &mut Page, sink: &mut K)
    ensures text { Adds (K.seen sink.old) page.old (K.seen sink.new) page.new (item_text file.now draws.old.number) }
    ensures drawn { draws.new.number ≡ after_draws 1 draws.old.number }
{
    page.text(sink, b"[[task.action.item]]\ndo = \"");
    page.text(sink, kind_drawn(draws.next()).word().as_bytes());
    page.text(sink, b"\"\nfile = \"");
    page.text(sink, file.bytes());
    page.text(sink, b"\"\n");
}

// Writes the items of an action.
fn write_items<K: Sink>(file: &Text, draws: &mut Draws, page: &mut Page, sink: &mut K)
    ensures text { Adds (K.seen sink.old) page.old (K.seen sink.new) page.new (items_text file.now draws.old.number) }
    ensures drawn { draws.new.number ≡ after_draws 4 draws.old.number }
{
    for _ in 0..ITEMS {
        write_item(file, draws, page, sink);
    }
}

// Writes the head of an action, with its retention.
fn write_wait<K: Sink>(wait: Retention, page: &mut Page, sink: &mut K)
    ensures { Adds (K.seen sink.old) page.old (K.seen sink.new) page.new (wait_text wait) }
{
    page.text(sink, b"[[task.action]]\nwait = \"");
    page.text(sink, wait.word().as_bytes());
    page.text(sink, b"\"\n");
}

/// Writes a task's first action.
pub(crate) fn write_first<K: Sink>(file: &Text, draws: &mut Draws, page: &mut Page, sink: &mut K)
    ensures text { Adds (K.seen sink.old) page.old (K.seen sink.new) page.new (action_text first_wait file.now draws.old.number) }
    ensures drawn { draws.new.number ≡ after_draws 5 draws.old.number }
{
    write_wait(first_wait(draws.next()), page, sink);
    write_items(file, draws, page, sink);
}

/// Writes a task's second action.
pub(crate) fn write_second<K: Sink>(file: &Text, draws: &mut Draws, page: &mut Page, sink: &mut K)
    ensures text { Adds (K.seen sink.old) page.old (K.seen sink.new) page.new (action_text second_wait file.now draws.old.number) }
    ensures drawn { draws.new.number ≡ after_draws 5 draws.old.number }
{
    write_wait(second_wait(draws.next()), page, sink);
    write_items(file, draws, page, sink);
}
