//! The bars of the workers' rows.
ghost use Rattle.std.specs.Prelude.{◌≡◌, ◌<◌, ◌≤◌, ◌^◌, ◌++◌, codes, decimal, length, map, [], if◌then◌else◌};
ghost use Rattle.std.specs.List.{flat_map};
ghost use Rattle.file_access.specs.PageView.{Adds};
ghost use Rattle.history_text.specs.HistoryView.{entry_read};
ghost use Rattle.run_picture.specs.WorkerBars.{bar, room_for, cap_text, task_label, ended_text, task_title, task_bar, task_text};
ghost use Rattle.run_picture.specs.WorkerBars.{lane_area, parked_bar, blocked_bar, lease_bar, hued_number, fails_within};
ghost use Rattle.run_picture.specs.Layers.{bar_text, bars_text};

use crate::item_bars::write_item;
use crate::shapes::{
    Area, begin_hued, begin_rect, write_hue, write_hued, write_number, write_rect, write_short,
};
use crate::titles::{write_at_worker, write_over, write_worker};
use file_access::{Page, Sink};
use history_text::{HistoryEntry, write_mark};
use itoa::Buffer;
use picture_layout::Layout;
use resource_lock::{Mark, MarkId, WorkerId};
use run_spans::{Span, Subject};

/// The bars of a row, from below to above.
#[derive(Clone, Copy)]
pub(crate) enum Layer {
    Tasks,
    Parked,
    Blocked,
    Leases,
    Items,
}

/// The bar of a span in its worker's row, so far down in it and so high.
pub(crate) fn bar(layout: &Layout, span: &Span, down: u8, height: u8) -> Area
    ensures is { result ≡ bar layout.now span.now down height }
    ensures x { result.x < 2 ^ 32 }
    ensures y { result.y < 2 ^ 63 }
    ensures width { result.width < 2 ^ 32 }
    ensures height { result.height < 2 ^ 8 }
{
    let x = layout.x_of(span.from.max(u64::from(layout.first)));
    let end = layout.x_of(span.until.min(u64::from(layout.behind)));
    Area {
        x,
        y: layout.row_y(span.worker.0) + u64::from(down),
        width: end.saturating_sub(x),
        height: u64::from(height),
    }
}

/// How many digits a number has.
pub(crate) fn digits_of(number: u64) -> u64
    ensures is { result ≡ length (decimal number) }
    ensures few { result ≤ 20 }
{
    let mut digits = Buffer::new();
    digits.format(number).len() as u64
}

/// Whether so many characters fit, each so wide.
pub(crate) fn room_for(count: u64, wide: u64, room: u64) -> bool
    requires count { count < 2 ^ 32 }
    requires wide { wide < 2 ^ 8 }
    ensures { result ≡ room_for count wide room }
{
    count * wide + 4 <= room
}

/// Writes the red end of a bar, behind a white line where there is room.
fn write_cap<K: Sink>(area: Area, page: &mut Page, sink: &mut K)
    requires x { area.x < 2 ^ 32 }
    requires width { area.width < 2 ^ 32 }
    ensures { Adds (K.seen sink.old) page.old (K.seen sink.new) page.new (cap_text area) }
{
    let end = area.x + area.width;
    if area.width > 5 {
        let gap = Area {
            x: end - 5,
            width: 1,
            ..area
        };
        write_rect(b"z", gap, page, sink);
    }
    let width = area.width.min(4);
    let cap = Area {
        x: end - width,
        width,
        ..area
    };
    write_rect(b"r", cap, page, sink);
}

/// Whether a bar ends with a failure, within the panel.
pub(crate) fn fails_within(layout: &Layout, span: &Span) -> bool
    ensures { result ≡ fails_within layout.now span.now }
{
    span.mark == Mark::Failed && span.until <= u64::from(layout.behind)
}

/// Writes a number in a worker's hue at the left upper corner of an area.
pub(crate) fn write_hued_number<K: Sink>(
    area: Area,
    word: &[u8],
    number: u32,
    worker: WorkerId,
    page: &mut Page,
    sink: &mut K,
)
    ensures { Adds (K.seen sink.old) page.old (K.seen sink.new) page.new (hued_number area word.now number worker.0) }
{
    page.text(sink, b"<text class=\"");
    write_hue(b"a d", worker.0, page, sink);
    write_number(b"\" x=\"", area.x, page, sink);
    write_number(b"\" y=\"", area.y, page, sink);
    page.text(sink, b"\">");
    write_short(word, number, page, sink);
    page.text(sink, b"</text>\n");
}

/// Writes a task's number in its bar, where it fits.
fn write_task_label<K: Sink>(
    area: Area,
    number: u32,
    worker: WorkerId,
    page: &mut Page,
    sink: &mut K,
)
    requires x { area.x < 2 ^ 32 }
    requires y { area.y < 2 ^ 63 }
    requires height { area.height < 2 ^ 8 }
    ensures { Adds (K.seen sink.old) page.old (K.seen sink.new) page.new (task_label area number worker.0) }
{
    let place = Area {
        x: area.x + 4,
        y: (area.y + area.height).saturating_sub(2),
        ..area
    };
    let digits = digits_of(u64::from(number));
    if room_for(5 + digits, 6, area.width) {
        write_hued_number(place, b"task ", number, worker, page, sink);
    } else if room_for(digits, 6, area.width) {
        write_hued_number(place, b"", number, worker, page, sink);
    }
}

/// Writes how a task ended.
fn write_ended<K: Sink>(mark: Mark, page: &mut Page, sink: &mut K)
    ensures { Adds (K.seen sink.old) page.old (K.seen sink.new) page.new (ended_text mark) }
{
    page.text(sink, b",");
    write_mark(mark, page, sink);
}

/// Writes the title of a task, and how it ended.
fn write_task_title<K: Sink>(span: &Span, task: u32, page: &mut Page, sink: &mut K)
    ensures { Adds (K.seen sink.old) page.old (K.seen sink.new) page.new (task_title span.now task) }
{
    page.text(sink, b"><title>");
    write_at_worker(b"task ", task, b" of w", span, page, sink);
    write_ended(span.mark, page, sink);
    page.text(sink, b"</title></rect>\n");
}

/// Writes the bar of a task, with a dark line on top and at its begin.
fn write_task_bar<K: Sink>(span: &Span, task: u32, area: Area, page: &mut Page, sink: &mut K)
    ensures { Adds (K.seen sink.old) page.old (K.seen sink.new) page.new (task_bar span.now task area) }
{
    begin_hued(b"p", span.worker, area, page, sink);
    write_task_title(span, task, page, sink);
    write_hued(b"d", span.worker, Area { height: 1, ..area }, page, sink);
    write_hued(b"d", span.worker, Area { width: 1, ..area }, page, sink);
}

/// Writes the cap of a bar that fails within the panel.
pub(crate) fn write_cap_where<K: Sink>(fails: bool, area: Area, page: &mut Page, sink: &mut K)
    requires x { area.x < 2 ^ 32 }
    requires width { area.width < 2 ^ 32 }
    ensures { Adds (K.seen sink.old) page.old (K.seen sink.new) page.new (if fails then cap_text area else []) }
{
    if fails {
        write_cap(area, page, sink);
    }
}

/// Writes a task's number in its bar, where there is room for words.
fn write_task_label_where<K: Sink>(
    is_large: bool,
    area: Area,
    number: u32,
    worker: WorkerId,
    page: &mut Page,
    sink: &mut K,
)
    requires x { area.x < 2 ^ 32 }
    requires y { area.y < 2 ^ 63 }
    requires height { area.height < 2 ^ 8 }
    ensures { Adds (K.seen sink.old) page.old (K.seen sink.new) page.new (if is_large then task_label area number worker.0 else []) }
{
    if is_large {
        write_task_label(area, number, worker, page, sink);
    }
}

fn write_task<K: Sink>(layout: &Layout, span: &Span, task: u32, page: &mut Page, sink: &mut K)
    ensures { Adds (K.seen sink.old) page.old (K.seen sink.new) page.new (task_text layout.now span.now task) }
{
    let rows = layout.rows();
    let area = bar(layout, span, rows.task_y, rows.task_height);
    write_task_bar(span, task, area, page, sink);
    write_cap_where(fails_within(layout, span), area, page, sink);
    write_task_label_where(rows.large, area, task, span.worker, page, sink);
}

/// The bar of a span in its worker's lane.
fn lane_area(layout: &Layout, span: &Span) -> Area
    ensures { result ≡ lane_area layout.now span.now }
{
    let rows = layout.rows();
    bar(layout, span, rows.lane_y, rows.lane_height)
}

fn write_parked<K: Sink>(area: Area, span: &Span, action: u32, page: &mut Page, sink: &mut K)
    ensures { Adds (K.seen sink.old) page.old (K.seen sink.new) page.new (parked_bar area span.now action) }
{
    begin_hued(b"k", span.worker, area, page, sink);
    page.text(sink, b"><title>");
    write_short(b"w", span.worker.0, page, sink);
    write_short(b" is parked at action ", action, page, sink);
    write_over(span, page, sink);
    page.text(sink, b"</title></rect>\n");
}

fn write_blocked<K: Sink>(area: Area, span: &Span, page: &mut Page, sink: &mut K)
    ensures { Adds (K.seen sink.old) page.old (K.seen sink.new) page.new (blocked_bar area span.now) }
{
    begin_rect(b"b", area, page, sink);
    page.text(sink, b"><title>");
    write_worker(b" is blocked", span, page, sink);
    page.text(sink, b"</title></rect>\n");
}

fn write_lease<K: Sink>(area: Area, span: &Span, page: &mut Page, sink: &mut K)
    ensures { Adds (K.seen sink.old) page.old (K.seen sink.new) page.new (lease_bar area span.now) }
{
    begin_hued(b"m", span.worker, area, page, sink);
    page.text(sink, b"><title>");
    write_worker(b" has a lease", span, page, sink);
    page.text(sink, b"</title></rect>\n");
}

/// Writes the bar of a span, where it is of the layer.
fn write_bar<K: Sink>(
    layer: Layer,
    layout: &Layout,
    entries: &[HistoryEntry],
    span: &Span,
    page: &mut Page,
    sink: &mut K,
)
    ensures { Adds (K.seen sink.old) page.old (K.seen sink.new) page.new (bar_text layer layout.now (map entry_read entries.now) span.now) }
{
    match (layer, span.subject) {
        (Layer::Tasks, Subject::Running(MarkId::Task(task))) => {
            write_task(layout, span, task, page, sink);
        }
        (Layer::Parked, Subject::Running(MarkId::Action(action))) => {
            write_parked(lane_area(layout, span), span, action, page, sink);
        }
        (Layer::Blocked, Subject::Blocked(_)) => {
            write_blocked(lane_area(layout, span), span, page, sink);
        }
        (Layer::Leases, Subject::Lease(_)) => {
            write_lease(lane_area(layout, span), span, page, sink);
        }
        (Layer::Items, Subject::Running(MarkId::Unit(unit))) => {
            write_item(layout, span, unit, entries, page, sink);
        }
        _ => {}
    }
}

/// Writes the bars of a layer.
fn write_layer<K: Sink>(
    layer: Layer,
    layout: &Layout,
    entries: &[HistoryEntry],
    shown: &[Span],
    page: &mut Page,
    sink: &mut K,
)
    ensures { Adds (K.seen sink.old) page.old (K.seen sink.new) page.new (flat_map (bar_text layer layout.now (map entry_read entries.now)) shown.now) }
{
    for span in shown {
        write_bar(layer, layout, entries, span, page, sink);
    }
}

/// Writes the bars of the workers' rows in a panel, layer by layer.
pub(crate) fn write_bars<K: Sink>(
    layout: &Layout,
    entries: &[HistoryEntry],
    shown: &[Span],
    page: &mut Page,
    sink: &mut K,
)
    ensures { Adds (K.seen sink.old) page.old (K.seen sink.new) page.new (bars_text layout.now (map entry_read entries.now) shown.now) }
{
    write_layer(Layer::Tasks, layout, entries, shown, page, sink);
    write_layer(Layer::Parked, layout, entries, shown, page, sink);
    write_layer(Layer::Blocked, layout, entries, shown, page, sink);
    write_layer(Layer::Leases, layout, entries, shown, page, sink);
    write_layer(Layer::Items, layout, entries, shown, page, sink);
}
