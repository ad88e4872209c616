ghost use Rattle.std.specs.Prelude.{◌≡◌, ◌++◌, codes};
ghost use Rattle.file_access.specs.PageView.{Adds};
ghost use Rattle.lock_journal.specs.Shown.{entry_shown};
ghost use Rattle.history_text.specs.Text.{closed_text, kind_text, entry_text, numbered};

use crate::changes::{write_effect, write_numbered};
use crate::outcomes::write_outcome;
use file_access::{Page, Sink};
use lock_journal::{Book, Shown};
use lock_transforms::{Closed, Kind};

// Writes the word, and the unit and the outcome that an entry closes.
fn write_closed<K: Sink>(word: &[u8], closed: &Closed, page: &mut Page, sink: &mut K)
    ensures { Adds (K.seen sink.old) page.old (K.seen sink.new) page.new (word.now ++ closed_text closed.now) }
{
    write_numbered(word, closed.unit, page, sink);
    page.text(sink, b" ");
    write_outcome(&closed.outcome, page, sink);
}

/// Writes a space and what an entry is for.
pub fn write_kind<K: Sink>(kind: &Kind, page: &mut Page, sink: &mut K)
    ensures { Adds (K.seen sink.old) page.old (K.seen sink.new) page.new (codes " " ++ kind_text kind.now) }
{
    match kind {
        Kind::Start(task) => write_numbered(b" start ", *task, page, sink),
        Kind::Skip(task) => write_numbered(b" skip ", *task, page, sink),
        Kind::Submit(action) => write_numbered(b" submit ", *action, page, sink),
        Kind::Park(action) => write_numbered(b" park ", *action, page, sink),
        Kind::Resume(action) => write_numbered(b" resume ", *action, page, sink),
        Kind::Claim(unit) => write_numbered(b" claim ", *unit, page, sink),
        Kind::Close(closed) => write_closed(b" close ", closed, page, sink),
        Kind::Block(None) => page.text(sink, b" block -"),
        Kind::Block(Some(unit)) => write_numbered(b" block ", *unit, page, sink),
        Kind::Unblock(None) => page.text(sink, b" unblock -"),
        Kind::Unblock(Some(closed)) => write_closed(b" unblock ", closed, page, sink),
        Kind::End(task) => write_numbered(b" end ", *task, page, sink),
        Kind::Acquire => page.text(sink, b" acquire"),
        Kind::HandBack => page.text(sink, b" handback"),
    }
}

/// Writes the line of an entry, which is numbered from 1.
pub fn write_entry<K: Sink>(number: u64, entry: &Shown<'_>, page: &mut Page, sink: &mut K)
    ensures { Adds (K.seen sink.old) page.old (K.seen sink.new) page.new (entry_text number (entry_shown entry.now)) }
{
    page.number(sink, number);
    write_numbered(b" w", entry.worker.0, page, sink);
    write_kind(&entry.kind, page, sink);
    page.text(sink, b" | ");
    write_effect(entry.failed, entry.changes, page, sink);
    page.text(sink, b"\n");
}

/// Writes a line for each entry of a book that keeps all, numbered from 1.
pub(crate) fn write_entries<K: Sink>(book: &Book, page: &mut Page, sink: &mut K)
    requires { book.now.given ≡ 0 }
    ensures { Adds (K.seen sink.old) page.old (K.seen sink.new) page.new (numbered entry_text 1 book.now.history) }
{
    for place in 0..book.len() {
        write_entry(place + 1, &book.entry(place), page, sink);
    }
}
