//! What the workers of a run saw of its history, as a text.
ghost use Rattle.std.specs.Prelude.{◌≡◌};
ghost use Rattle.std.specs.List.{flat_map};
ghost use Rattle.file_access.specs.PageView.{Adds};
ghost use Rattle.command_answers.specs.Watches.{watch_text, watches_text};

use file_access::{Page, Sink};
use run_watch::Watch;

// Writes the line of a watch.
fn write_watch<K: Sink>(watch: &Watch, page: &mut Page, sink: &mut K)
    ensures { Adds (K.seen sink.old) page.old (K.seen sink.new) page.new (watch_text watch.now) }
{
    page.text(sink, b"watch unit ");
    page.number(sink, u64::from(watch.unit));
    page.text(sink, b" at ");
    page.number(sink, watch.entries);
    page.text(sink, b" leases ");
    page.number(sink, u64::from(watch.leases));
    page.text(sink, b"\n");
}

// Writes a line for each watch.
fn write_lines<K: Sink>(watches: &[Watch], page: &mut Page, sink: &mut K)
    ensures { Adds (K.seen sink.old) page.old (K.seen sink.new) page.new (flat_map watch_text watches.now) }
{
    for watch in watches {
        write_watch(watch, page, sink);
    }
}

/// Writes how many watches there are, and a line for each.
pub(crate) fn write_watches<K: Sink>(watches: &[Watch], page: &mut Page, sink: &mut K)
    ensures { Adds (K.seen sink.old) page.old (K.seen sink.new) page.new (watches_text watches.now) }
{
    page.text(sink, b"watch ");
    page.number(sink, watches.len() as u64);
    page.text(sink, b"\n");
    write_lines(watches, page, sink);
}
