//! What is told where one points at a bar.
ghost use Rattle.std.specs.Prelude.{◌≡◌, ◌++◌, codes, decimal, map};
ghost use Rattle.file_access.specs.PageView.{Adds};
ghost use Rattle.history_text.specs.HistoryView.{entry_read};
ghost use Rattle.history_text.specs.Text.{mark_text, outcome_text};
ghost use Rattle.run_picture.specs.Titles.{over_text, note_text, at_worker, kind_at, is_fetch};

use crate::shapes::{write_number, write_short};
use file_access::{Page, Sink};
use history_text::{HistoryEntry, write_mark, write_outcome};
use lock_transforms::Kind;
use resource_lock::Mark;
use run_spans::Span;

/// What the entry of a number is for.
pub(crate) fn kind_at(entries: &[HistoryEntry], number: u64) -> Option<Kind>
    ensures { result ≡ kind_at (map entry_read entries.now) number }
{
    let entry = entries.get(number.saturating_sub(1) as usize)?;
    Some(entry.kind)
}

/// Whether an item is a fetch, by what the entry that began it is for.
pub(crate) fn is_fetch(begun: Option<Kind>) -> bool
    ensures { result ≡ is_fetch begun }
{
    matches!(begun, Some(Kind::Block(_)))
}

/// Writes over which entries a span goes.
pub(crate) fn write_over<K: Sink>(span: &Span, page: &mut Page, sink: &mut K)
    ensures { Adds (K.seen sink.old) page.old (K.seen sink.new) page.new (over_text span.now) }
{
    if span.until.saturating_sub(span.from) > 1 {
        write_number(b", entries ", span.from, page, sink);
        write_number(b" to ", span.until - 1, page, sink);
    } else {
        write_number(b", entry ", span.from, page, sink);
    }
}

/// Writes how an item ended: its outcome, or its mark where no outcome was told.
pub(crate) fn write_note<K: Sink>(ended: Option<Kind>, mark: Mark, page: &mut Page, sink: &mut K)
    ensures { Adds (K.seen sink.old) page.old (K.seen sink.new) page.new (note_text ended mark) }
{
    page.text(sink, b":");
    match ended {
        Some(Kind::Close(closed)) | Some(Kind::Unblock(Some(closed))) => {
            page.text(sink, b" ");
            write_outcome(&closed.outcome, page, sink);
        }
        _ => write_mark(mark, page, sink),
    }
}

/// Writes a number and whose it is, each behind its word, and over which entries.
pub(crate) fn write_at_worker<K: Sink>(
    word: &[u8],
    number: u32,
    between: &[u8],
    span: &Span,
    page: &mut Page,
    sink: &mut K,
)
    ensures { Adds (K.seen sink.old) page.old (K.seen sink.new) page.new (at_worker word.now number between.now span.now) }
{
    write_short(word, number, page, sink);
    write_short(between, span.worker.0, page, sink);
    write_over(span, page, sink);
}

/// Writes what a worker does, and over which entries.
pub(crate) fn write_worker<K: Sink>(does: &[u8], span: &Span, page: &mut Page, sink: &mut K)
    ensures { Adds (K.seen sink.old) page.old (K.seen sink.new) page.new (codes "w" ++ decimal span.now.worker.0 ++ does.now ++ over_text span.now) }
{
    write_short(b"w", span.worker.0, page, sink);
    page.text(sink, does);
    write_over(span, page, sink);
}
