ghost use Rattle.std.specs.Prelude.{◌≡◌, length, Some};
ghost use Rattle.file_access.specs.PageView.{Adds};
ghost use Rattle.history_text.specs.Text.{parallel_text, head_text, end_text, history_text};

use crate::changes::write_numbered;
use crate::entries::write_entries;
use file_access::{Page, Sink};
use lock_journal::Book;

// Writes whether projects run beside each other.
fn write_parallel<K: Sink>(parallel: bool, page: &mut Page, sink: &mut K)
    ensures { Adds (K.seen sink.old) page.old (K.seen sink.new) page.new (parallel_text parallel) }
{
    if parallel {
        page.text(sink, b"yes");
    } else {
        page.text(sink, b"no");
    }
}

/// Writes the two lines before the entries. They are those of version 2, which name how many locks there are.
pub fn write_head_lines<K: Sink>(
    workers: u32,
    max_leases: u32,
    parallel: bool,
    locks: u32,
    page: &mut Page,
    sink: &mut K,
)
    ensures { Adds (K.seen sink.old) page.old (K.seen sink.new) page.new (head_text workers max_leases parallel (Some locks)) }
{
    write_numbered(b"history 2\nworkers ", workers, page, sink);
    write_numbered(b" max ", max_leases, page, sink);
    page.text(sink, b" parallel ");
    write_parallel(parallel, page, sink);
    write_numbered(b" locks ", locks, page, sink);
    page.text(sink, b"\n");
}

/// Writes the two lines before a book's entries.
pub fn write_head<K: Sink>(book: &Book, parallel: bool, page: &mut Page, sink: &mut K)
    ensures { Adds (K.seen sink.old) page.old (K.seen sink.new) page.new
        (head_text book.now.graph.workers book.now.graph.max_leases parallel (Some book.now.graph.locks)) }
{
    let graph = book.graph();
    write_head_lines(
        graph.workers(),
        graph.max_leases(),
        parallel,
        graph.locks(),
        page,
        sink,
    );
}

/// Writes the line behind a book's entries.
pub fn write_end<K: Sink>(book: &Book, page: &mut Page, sink: &mut K)
    ensures { Adds (K.seen sink.old) page.old (K.seen sink.new) page.new (end_text (length book.now.history)) }
{
    page.text(sink, b"end ");
    page.number(sink, book.len());
    page.text(sink, b"\n");
}

/// Writes the history text of a book, of version 2: how many workers there are and how many leases may be out,
/// whether each project has a lock of its own, how many locks there are, and each entry. The book keeps all entries.
pub fn write_history<K: Sink>(book: &Book, parallel: bool, page: &mut Page, sink: &mut K)
    requires { book.now.given ≡ 0 }
    ensures { Adds (K.seen sink.old) page.old (K.seen sink.new) page.new
        (history_text book.now.graph.workers book.now.graph.max_leases parallel (Some book.now.graph.locks) book.now.history) }
{
    write_head(book, parallel, page, sink);
    write_entries(book, page, sink);
    write_end(book, page, sink);
}
