//! A tick for each entry, whose title is the entry's line.
ghost use Rattle.std.specs.Prelude.{◌≡◌, ◌<◌, map, option_map};
ghost use Rattle.file_access.specs.PageView.{Adds};
ghost use Rattle.history_text.specs.Text.{numbered, effect_text};
ghost use Rattle.history_text.specs.HistoryView.{entry_read};
ghost use Rattle.run_picture.specs.Ticks.{line_of, line_title, tick_area, tick_bar, cross_at, cross_text, skip_step, skip_area, skip_bar, skip_where};
ghost use Rattle.run_picture.specs.Ticks.{more_marks, marks_of};

use crate::shapes::{Area, begin_rect, write_number, write_short};
use file_access::{Page, Sink};
use history_text::{HistoryEntry, write_effect, write_kind};
use lock_journal::Changes;
use lock_transforms::Kind;
use picture_layout::Layout;
use resource_lock::Change;

/// Writes what an entry did.
fn write_done<K: Sink>(changes: &Option<Vec<Change>>, page: &mut Page, sink: &mut K)
    ensures { Adds (K.seen sink.old) page.old (K.seen sink.new) page.new (effect_text (option_map (λ cs. cs.items) changes.now)) }
{
    match changes {
        None => write_effect(true, Changes::none(), page, sink),
        Some(changes) => write_effect(false, Changes::given(changes), page, sink),
    }
}

/// Writes the line of an entry, without its end.
fn write_line<K: Sink>(number: u64, entry: &HistoryEntry, page: &mut Page, sink: &mut K)
    ensures { Adds (K.seen sink.old) page.old (K.seen sink.new) page.new (line_of number (entry_read entry.now)) }
{
    page.number(sink, number);
    write_short(b" w", entry.worker.0, page, sink);
    write_kind(&entry.kind, page, sink);
    page.text(sink, b" | ");
    write_done(&entry.changes, page, sink);
}

fn write_line_title<K: Sink>(number: u64, entry: &HistoryEntry, page: &mut Page, sink: &mut K)
    ensures { Adds (K.seen sink.old) page.old (K.seen sink.new) page.new (line_title number (entry_read entry.now)) }
{
    page.text(sink, b"><title>");
    write_line(number, entry, page, sink);
    page.text(sink, b"</title>");
}

/// Where the tick of an entry lies.
fn tick_area(layout: &Layout, number: u64, worker: u32) -> Area
    ensures { result ≡ tick_area layout.now number worker }
{
    let rows = layout.rows();
    Area {
        x: layout.x_of(number),
        y: layout.row_y(worker) + u64::from(rows.tick_y),
        width: u64::from(layout.per / 2).max(1),
        height: u64::from(rows.tick_height),
    }
}

/// Writes the tick of an entry.
fn write_tick<K: Sink>(area: Area, number: u64, entry: &HistoryEntry, page: &mut Page, sink: &mut K)
    ensures { Adds (K.seen sink.old) page.old (K.seen sink.new) page.new (tick_bar area number (entry_read entry.now)) }
{
    begin_rect(b"t", area, page, sink);
    write_line_title(number, entry, page, sink);
    page.text(sink, b"</rect>\n");
}

/// Writes a red cross at a place.
fn write_cross_at<K: Sink>(
    x: u64,
    y: u64,
    number: u64,
    entry: &HistoryEntry,
    page: &mut Page,
    sink: &mut K,
)
    ensures { Adds (K.seen sink.old) page.old (K.seen sink.new) page.new (cross_at x y number (entry_read entry.now)) }
{
    write_number(b"<path class=\"s\" d=\"M", x, page, sink);
    write_number(b" ", y, page, sink);
    page.text(sink, b"l6 6m0-6l-6 6\"");
    write_line_title(number, entry, page, sink);
    page.text(sink, b"</path>\n");
}

/// Writes the red cross of an entry that failed.
fn write_cross<K: Sink>(
    layout: &Layout,
    number: u64,
    entry: &HistoryEntry,
    page: &mut Page,
    sink: &mut K,
)
    ensures { Adds (K.seen sink.old) page.old (K.seen sink.new) page.new (cross_text layout.now number (entry_read entry.now)) }
{
    let rows = layout.rows();
    let row_y = layout.row_y(entry.worker.0);
    let y = row_y + u64::from(rows.lane_y) + u64::from(rows.lane_height / 2);
    write_cross_at(
        layout.x_of(number),
        y.saturating_sub(3),
        number,
        entry,
        page,
        sink,
    );
}

/// How much lower a skip begins: where an entry has no room for a gap, every other one does.
fn skip_step(layout: &Layout, number: u64) -> u64
    ensures is { result ≡ skip_step layout.now number }
    ensures few { result < 2 }
{
    if layout.per <= 1 { number % 2 } else { 0 }
}

/// Where the grey bar of an entry lies that skips a task: apart from those beside it.
fn skip_area(layout: &Layout, number: u64, worker: u32) -> Area
    ensures { result ≡ skip_area layout.now number worker }
{
    let rows = layout.rows();
    let step = skip_step(layout, number);
    Area {
        x: layout.x_of(number),
        y: layout.row_y(worker) + u64::from(rows.task_y) + step,
        width: u64::from(layout.per).saturating_sub(1).max(1),
        height: u64::from(rows.task_height).saturating_sub(step),
    }
}

/// Writes the grey bar of an entry that skips a task.
fn write_skip<K: Sink>(
    area: Area,
    number: u64,
    worker: u32,
    task: u32,
    page: &mut Page,
    sink: &mut K,
)
    ensures { Adds (K.seen sink.old) page.old (K.seen sink.new) page.new (skip_bar area number worker task) }
{
    begin_rect(b"n", area, page, sink);
    write_short(b"><title>task ", task, page, sink);
    write_short(b" is skipped by w", worker, page, sink);
    write_number(b", entry ", number, page, sink);
    page.text(sink, b"</title></rect>\n");
}

/// Writes that bar where the entry is for skipping a task.
fn write_skip_where<K: Sink>(
    layout: &Layout,
    number: u64,
    worker: u32,
    kind: Kind,
    page: &mut Page,
    sink: &mut K,
)
    ensures { Adds (K.seen sink.old) page.old (K.seen sink.new) page.new (skip_where layout.now number worker kind) }
{
    if let Kind::Skip(task) = kind {
        write_skip(
            skip_area(layout, number, worker),
            number,
            worker,
            task,
            page,
            sink,
        );
    }
}

/// Writes a cross where the entry failed, and a grey bar where it skips a task.
fn write_more<K: Sink>(
    layout: &Layout,
    number: u64,
    entry: &HistoryEntry,
    page: &mut Page,
    sink: &mut K,
)
    ensures { Adds (K.seen sink.old) page.old (K.seen sink.new) page.new (more_marks layout.now number (entry_read entry.now)) }
{
    if entry.changes.is_some() {
        write_skip_where(layout, number, entry.worker.0, entry.kind, page, sink);
    } else {
        write_cross(layout, number, entry, page, sink);
    }
}

/// Writes what an entry itself shows.
fn write_marks<K: Sink>(
    layout: &Layout,
    number: u64,
    entry: &HistoryEntry,
    page: &mut Page,
    sink: &mut K,
)
    ensures { Adds (K.seen sink.old) page.old (K.seen sink.new) page.new (marks_of layout.now number (entry_read entry.now)) }
{
    write_tick(
        tick_area(layout, number, entry.worker.0),
        number,
        entry,
        page,
        sink,
    );
    write_more(layout, number, entry, page, sink);
}

/// Writes what the entries of a panel show.
pub(crate) fn write_ticks<K: Sink>(
    layout: &Layout,
    entries: &[HistoryEntry],
    page: &mut Page,
    sink: &mut K,
)
    ensures { Adds (K.seen sink.old) page.old (K.seen sink.new) page.new (numbered (marks_of layout.now) layout.now.first (map entry_read entries.now)) }
{
    for place in 0..entries.len() {
        let number = u64::from(layout.first) + place as u64;
        write_marks(layout, number, &entries[place], page, sink);
    }
}
