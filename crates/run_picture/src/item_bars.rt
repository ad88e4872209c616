//! The bars of items and fetches.
ghost use Rattle.std.specs.Prelude.{◌≡◌, ◌<◌, ◌^◌, map};
ghost use Rattle.file_access.specs.PageView.{Adds};
ghost use Rattle.history_text.specs.HistoryView.{entry_read};
ghost use Rattle.run_picture.specs.ItemBars.{label_area, item_title, item_bar, inner, fetch_bar, item_label, fetch_label};
ghost use Rattle.run_picture.specs.ItemBars.{fetch_text, worked_text, item_text};

use crate::shapes::{Area, Point, begin_hued, begin_rect, write_label_number};
use crate::titles::{is_fetch, kind_at, write_at_worker, write_note};
use crate::worker_bars::{
    bar, digits_of, fails_within, room_for, write_cap_where, write_hued_number,
};
use file_access::{Page, Sink};
use history_text::HistoryEntry;
use lock_transforms::Kind;
use picture_layout::{Layout, Rows};
use resource_lock::WorkerId;
use run_spans::Span;

/// Writes the title of a unit, and what it gave.
fn write_item_title<K: Sink>(
    word: &[u8],
    span: &Span,
    unit: u32,
    ended: Option<Kind>,
    page: &mut Page,
    sink: &mut K,
)
    ensures { Adds (K.seen sink.old) page.old (K.seen sink.new) page.new (item_title word.now span.now unit ended) }
{
    page.text(sink, b"><title>");
    write_at_worker(word, unit, b", at w", span, page, sink);
    write_note(ended, span.mark, page, sink);
    page.text(sink, b"</title></rect>\n");
}

/// Writes the bar of a unit.
fn write_item_bar<K: Sink>(
    span: &Span,
    unit: u32,
    ended: Option<Kind>,
    area: Area,
    page: &mut Page,
    sink: &mut K,
)
    ensures { Adds (K.seen sink.old) page.old (K.seen sink.new) page.new (item_bar span.now unit ended area) }
{
    begin_hued(b"d", span.worker, area, page, sink);
    write_item_title(b"item, unit ", span, unit, ended, page, sink);
}

/// What is within the layout of a bar.
fn inner(area: Area) -> Area
    requires x { area.x < 2 ^ 32 }
    requires y { area.y < 2 ^ 63 }
    ensures { result ≡ inner area }
{
    Area {
        x: area.x + 1,
        y: area.y + 1,
        width: area.width.saturating_sub(2),
        height: area.height.saturating_sub(2),
    }
}

/// Writes the bar of a fetch, white in a dark layout.
fn write_fetch_bar<K: Sink>(
    span: &Span,
    unit: u32,
    ended: Option<Kind>,
    area: Area,
    page: &mut Page,
    sink: &mut K,
)
    requires x { area.x < 2 ^ 32 }
    requires y { area.y < 2 ^ 63 }
    ensures { Adds (K.seen sink.old) page.old (K.seen sink.new) page.new (fetch_bar span.now unit ended area) }
{
    begin_hued(b"d", span.worker, area, page, sink);
    write_item_title(b"fetch, unit ", span, unit, ended, page, sink);
    begin_rect(b"z", inner(area), page, sink);
    write_item_title(b"fetch, unit ", span, unit, ended, page, sink);
}

/// Writes a unit's number in its bar, where it fits.
fn write_item_label<K: Sink>(rows: &Rows, area: Area, unit: u32, page: &mut Page, sink: &mut K)
    requires x { area.x < 2 ^ 32 }
    requires y { area.y < 2 ^ 63 }
    requires height { area.height < 2 ^ 8 }
    ensures { Adds (K.seen sink.old) page.old (K.seen sink.new) page.new (item_label rows.now area unit) }
{
    let unit = u64::from(unit);
    let x = area.x + 3;
    let y = (area.y + area.height).saturating_sub(u64::from(rows.item_foot));
    if rows.large && room_for(digits_of(unit), 6, area.width) {
        write_label_number(b"i", Point { x, y }, b"", unit, page, sink);
    } else if !rows.large && room_for(digits_of(unit), 5, area.width) {
        write_label_number(b"j", Point { x, y }, b"", unit, page, sink);
    }
}

/// Writes a fetch's number in its bar, where it fits.
fn write_fetch_label<K: Sink>(
    rows: &Rows,
    area: Area,
    unit: u32,
    worker: WorkerId,
    page: &mut Page,
    sink: &mut K,
)
    requires x { area.x < 2 ^ 32 }
    requires y { area.y < 2 ^ 63 }
    requires height { area.height < 2 ^ 8 }
    ensures { Adds (K.seen sink.old) page.old (K.seen sink.new) page.new (fetch_label rows.now area unit worker.0) }
{
    let place = Area {
        x: area.x + 3,
        y: (area.y + area.height).saturating_sub(u64::from(rows.item_foot)),
        ..area
    };
    if rows.large && room_for(digits_of(u64::from(unit)), 6, area.width) {
        write_hued_number(place, b"", unit, worker, page, sink);
    }
}

/// Where the number of a bar may stand: left of the red end, if there is one.
fn label_area(area: Area, fails: bool) -> Area
    ensures { result ≡ label_area area fails }
{
    if fails {
        Area {
            width: area.width.saturating_sub(5),
            ..area
        }
    } else {
        area
    }
}

/// Writes a fetch: its bar, its red end where it failed, and its number.
fn write_fetch<K: Sink>(
    layout: &Layout,
    span: &Span,
    unit: u32,
    ended: Option<Kind>,
    page: &mut Page,
    sink: &mut K,
)
    ensures { Adds (K.seen sink.old) page.old (K.seen sink.new) page.new (fetch_text layout.now span.now unit ended) }
{
    let rows = layout.rows();
    let area = bar(layout, span, rows.item_y, rows.item_height);
    let fails = fails_within(layout, span);
    write_fetch_bar(span, unit, ended, area, page, sink);
    write_cap_where(fails, area, page, sink);
    write_fetch_label(
        &rows,
        label_area(area, fails),
        unit,
        span.worker,
        page,
        sink,
    );
}

/// Writes an item: its bar, its red end where it failed, and its number.
fn write_worked<K: Sink>(
    layout: &Layout,
    span: &Span,
    unit: u32,
    ended: Option<Kind>,
    page: &mut Page,
    sink: &mut K,
)
    ensures { Adds (K.seen sink.old) page.old (K.seen sink.new) page.new (worked_text layout.now span.now unit ended) }
{
    let rows = layout.rows();
    let area = bar(layout, span, rows.item_y, rows.item_height);
    let fails = fails_within(layout, span);
    write_item_bar(span, unit, ended, area, page, sink);
    write_cap_where(fails, area, page, sink);
    write_item_label(&rows, label_area(area, fails), unit, page, sink);
}

/// Writes a unit by the entries that began and ended it.
pub(crate) fn write_item<K: Sink>(
    layout: &Layout,
    span: &Span,
    unit: u32,
    entries: &[HistoryEntry],
    page: &mut Page,
    sink: &mut K,
)
    ensures { Adds (K.seen sink.old) page.old (K.seen sink.new) page.new (item_text layout.now (map entry_read entries.now) span.now unit) }
{
    let ended = kind_at(entries, span.until);
    if is_fetch(kind_at(entries, span.from)) {
        write_fetch(layout, span, unit, ended, page, sink);
    } else {
        write_worked(layout, span, unit, ended, page, sink);
    }
}
