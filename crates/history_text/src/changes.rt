ghost use Rattle.std.specs.Prelude.{◌++◌, codes, decimal, if◌then◌else◌, Some, None};
ghost use Rattle.std.specs.List.{flat_map};
ghost use Rattle.file_access.specs.PageView.{Adds};
ghost use Rattle.lock_journal.specs.Changes.{changes_left};
ghost use Rattle.history_text.specs.Text.{mark_text, id_text, change_text, further_text, changes_text, effect_text};

use file_access::{Page, Sink};
use lock_journal::Changes;
use resource_lock::{Change, Mark, MarkId};

/// Writes a word and a number.
#[inline(always)]
pub(crate) fn write_numbered<K: Sink>(word: &[u8], number: u32, page: &mut Page, sink: &mut K)
    ensures { Adds (K.seen sink.old) page.old (K.seen sink.new) page.new (word.now ++ decimal number) }
{
    page.text(sink, word);
    page.number(sink, u64::from(number));
}

/// Writes a space and a mark.
#[inline(always)]
pub fn write_mark<K: Sink>(mark: Mark, page: &mut Page, sink: &mut K)
    ensures { Adds (K.seen sink.old) page.old (K.seen sink.new) page.new (codes " " ++ mark_text mark) }
{
    match mark {
        Mark::Waiting => page.text(sink, b" waiting"),
        Mark::Queued => page.text(sink, b" queued"),
        Mark::Running(_) => page.text(sink, b" running"),
        Mark::Passed => page.text(sink, b" passed"),
        Mark::Failed => page.text(sink, b" failed"),
        Mark::Skipped => page.text(sink, b" skipped"),
    }
}

// Writes which mark it is.
#[inline(always)]
fn write_id<K: Sink>(id: MarkId, page: &mut Page, sink: &mut K)
    ensures { Adds (K.seen sink.old) page.old (K.seen sink.new) page.new (id_text id) }
{
    match id {
        MarkId::Task(task) => write_numbered(b"task ", task, page, sink),
        MarkId::Action(action) => write_numbered(b"action ", action, page, sink),
        MarkId::Unit(unit) => write_numbered(b"unit ", unit, page, sink),
    }
}

// Writes a move of a mark.
#[inline(always)]
fn write_move<K: Sink>(id: MarkId, from: Mark, to: Mark, page: &mut Page, sink: &mut K)
    ensures { Adds (K.seen sink.old) page.old (K.seen sink.new) page.new (change_text (Change.Move id from to)) }
{
    write_id(id, page, sink);
    write_mark(from, page, sink);
    write_mark(to, page, sink);
}

// Inlined, as what it calls is: a call would cost as much as the few bytes that are written.
#[inline(always)]
fn write_change<K: Sink>(change: Change, page: &mut Page, sink: &mut K)
    ensures { Adds (K.seen sink.old) page.old (K.seen sink.new) page.new (change_text change) }
{
    match change {
        Change::Lock(lock) => write_numbered(b"lock ", lock.0, page, sink),
        Change::Unlock(lock) => write_numbered(b"unlock ", lock.0, page, sink),
        Change::Take => page.text(sink, b"take"),
        Change::Give => page.text(sink, b"give"),
        Change::Move(id, from, to) => write_move(id, from, to, page, sink),
        Change::Park(lock) => write_numbered(b"park ", lock.0, page, sink),
        Change::Unpark(lock) => write_numbered(b"unpark ", lock.0, page, sink),
        Change::Enter => page.text(sink, b"enter"),
        Change::Leave => page.text(sink, b"leave"),
    }
}

// Writes the changes behind the first, each behind a comma.
fn write_further<K: Sink>(changes: Changes<'_>, page: &mut Page, sink: &mut K)
    ensures { Adds (K.seen sink.old) page.old (K.seen sink.new) page.new (flat_map further_text (changes_left changes.entry)) }
{
    for change in changes {
        page.text(sink, b", ");
        write_change(change, page, sink);
    }
}

// Writes the changes of an entry, or that there are none.
fn write_changes<K: Sink>(mut changes: Changes<'_>, page: &mut Page, sink: &mut K)
    ensures { Adds (K.seen sink.old) page.old (K.seen sink.new) page.new (changes_text (changes_left changes.entry)) }
{
    match changes.next() {
        None => page.text(sink, b"nothing"),
        Some(first) => {
            write_change(first, page, sink);
            write_further(changes, page, sink);
        }
    }
}

/// Writes the changes that an entry made, or that it failed.
pub fn write_effect<K: Sink>(failed: bool, changes: Changes<'_>, page: &mut Page, sink: &mut K)
    ensures { Adds (K.seen sink.old) page.old (K.seen sink.new) page.new (effect_text (if failed then None else Some (changes_left changes.entry))) }
{
    if failed {
        page.text(sink, b"failed");
    } else {
        write_changes(changes, page, sink);
    }
}
