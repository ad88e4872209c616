//! The lines of the entries that a segment or a book holds.
ghost use Rattle.std.specs.Prelude.{◌+◌, drop};
ghost use Rattle.file_access.specs.PageView.{Adds};
ghost use Rattle.history_text.specs.Text.{entry_text, numbered};

use file_access::{Page, Sink};
use history_text::write_entry;
use lock_journal::{Book, Segment};

/// Writes a line for each entry of a segment, numbered on from those before it.
///
/// The head and the lines of all segments of a history in order, those of the entries that its book still keeps, and the line behind them are the
/// history's text (`segments_are_one_text`).
pub fn write_segment<K: Sink>(segment: &Segment, page: &mut Page, sink: &mut K)
    ensures { Adds (K.seen sink.old) page.old (K.seen sink.new) page.new (numbered entry_text (segment.now.before + 1) segment.now.entries) }
{
    let start = segment.before();
    for place in start..segment.end() {
        write_entry(place + 1, &segment.entry(place - start), page, sink);
    }
}

/// Writes a line for each entry that a book keeps, numbered on from those that it gave away.
pub fn write_kept<K: Sink>(book: &Book, page: &mut Page, sink: &mut K)
    ensures { Adds (K.seen sink.old) page.old (K.seen sink.new) page.new (numbered entry_text (book.now.given + 1) (drop book.now.given book.now.history)) }
{
    for place in book.given()..book.len() {
        write_entry(place + 1, &book.entry(place), page, sink);
    }
}
