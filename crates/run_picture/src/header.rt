//! The head of a picture.
ghost use Rattle.std.specs.Prelude.{◌++◌, ◌≡◌, ◌<◌, ◌^◌, codes, decimal};
ghost use Rattle.file_access.specs.PageView.{Adds};
ghost use Rattle.history_text.specs.Text.{locks_text, parallel_text};
ghost use Rattle.run_picture.specs.Header.{many_text, title_text, average_text, second_text, size_text, opening_text, desc_text};

use crate::shapes::{write_number, write_short};
use file_access::{Page, Sink};

/// Writes a number, and a word that gets an s but for one.
pub(crate) fn write_many<K: Sink>(number: u64, word: &[u8], page: &mut Page, sink: &mut K)
    ensures { Adds (K.seen sink.old) page.old (K.seen sink.new) page.new (many_text number word.now) }
{
    page.number(sink, number);
    page.text(sink, word);
    if number != 1 {
        page.text(sink, b"s");
    }
}

/// Writes a width and a height, each behind its word.
fn write_size<K: Sink>(
    word: &[u8],
    width: u64,
    between: &[u8],
    height: u64,
    page: &mut Page,
    sink: &mut K,
)
    ensures { Adds (K.seen sink.old) page.old (K.seen sink.new) page.new (size_text word.now width between.now height) }
{
    write_number(word, width, page, sink);
    write_number(between, height, page, sink);
}

/// Writes the element that the picture is, for a width and a height, and its white ground.
pub(crate) fn write_opening<K: Sink>(width: u64, height: u64, page: &mut Page, sink: &mut K)
    ensures { Adds (K.seen sink.old) page.old (K.seen sink.new) page.new (opening_text width height) }
{
    write_size(
        b"<svg xmlns=\"http://www.w3.org/2000/svg\" viewBox=\"0 0 ",
        width,
        b" ",
        height,
        page,
        sink,
    );
    write_size(b"\" width=\"", width, b"\" height=\"", height, page, sink);
    page.text(
        sink,
        b"\" font-family=\"DejaVu Sans, Verdana, Arial, sans-serif\">\n",
    );
    write_size(
        b"<rect class=\"z\" width=\"",
        width,
        b"\" height=\"",
        height,
        page,
        sink,
    );
    page.text(sink, b"\"/>\n");
}

fn write_yes_no<K: Sink>(parallel: bool, page: &mut Page, sink: &mut K)
    ensures { Adds (K.seen sink.old) page.old (K.seen sink.new) page.new (parallel_text parallel) }
{
    if parallel {
        page.text(sink, b"yes");
    } else {
        page.text(sink, b"no");
    }
}

// Writes how many locks there are, where the history says it.
fn write_lock_count<K: Sink>(locks: Option<u32>, page: &mut Page, sink: &mut K)
    ensures { Adds (K.seen sink.old) page.old (K.seen sink.new) page.new (locks_text locks) }
{
    if let Some(locks) = locks {
        write_short(b" locks ", locks, page, sink);
    }
}

/// Writes the settings of the run, for whoever reads the picture aloud.
pub(crate) fn write_desc<K: Sink>(
    workers: u64,
    max: u64,
    parallel: bool,
    locks: Option<u32>,
    page: &mut Page,
    sink: &mut K,
)
    ensures { Adds (K.seen sink.old) page.old (K.seen sink.new) page.new (desc_text workers max parallel locks) }
{
    write_number(b"<desc>workers ", workers, page, sink);
    write_number(b" max ", max, page, sink);
    page.text(sink, b" parallel ");
    write_yes_no(parallel, page, sink);
    write_lock_count(locks, page, sink);
    page.text(sink, b"</desc>\n");
}

/// Writes the title.
pub(crate) fn write_title<K: Sink>(
    workers: u64,
    max: u64,
    count: u64,
    page: &mut Page,
    sink: &mut K,
)
    ensures { Adds (K.seen sink.old) page.old (K.seen sink.new) page.new (title_text workers max count) }
{
    page.text(sink, b"<text class=\"title\" x=\"8\" y=\"25\">");
    write_many(workers, b" worker", page, sink);
    page.text(sink, b", at most ");
    write_many(max, b" lease", page, sink);
    write_number(b", ", count, page, sink);
    page.text(sink, b" entries</text>\n");
}

/// Writes a number of hundredths as a decimal fraction of two places.
fn write_hundredths<K: Sink>(hundredths: u128, page: &mut Page, sink: &mut K)
    ensures { Adds (K.seen sink.old) page.old (K.seen sink.new) page.new (average_text hundredths) }
{
    page.number128(sink, hundredths / 100);
    page.text(sink, b".");
    page.number128(sink, hundredths / 10 % 10);
    page.number128(sink, hundredths % 10);
}

/// What the second line tells.
#[derive(Clone, Copy)]
pub(crate) struct Totals {
    pub(crate) passed: u64,
    pub(crate) failed: u64,
    pub(crate) skipped: u64,
    pub(crate) units: u64,
    pub(crate) failed_units: u64,
    /// The leases out on average, in hundredths.
    pub(crate) hundredths: u128,
}

/// Writes the second line.
pub(crate) fn write_second<K: Sink>(totals: Totals, page: &mut Page, sink: &mut K)
    ensures { Adds (K.seen sink.old) page.old (K.seen sink.new) page.new (second_text totals) }
{
    write_number(
        b"<text class=\"second\" x=\"8\" y=\"42\">tasks: ",
        totals.passed,
        page,
        sink,
    );
    write_number(b" passed, ", totals.failed, page, sink);
    write_number(b" failed, ", totals.skipped, page, sink);
    write_number(b" skipped.  units: ", totals.units, page, sink);
    write_number(b" worked on, ", totals.failed_units, page, sink);
    page.text(sink, b" failed.  leases out: ");
    write_hundredths(totals.hundredths, page, sink);
    page.text(
        sink,
        b" on average.  Colours say who, shapes say what.  The axis counts entries: a history has no times.</text>\n",
    );
}
