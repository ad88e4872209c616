//! The rows of the locks, and the lanes of the workers that have parked them.
ghost use Rattle.std.specs.Prelude.{◌≡◌, ◌++◌, ◌<◌, ◌≤◌, ◌^◌, codes, decimal, length, nat_eq, [], if◌then◌else◌};
ghost use Rattle.std.specs.Ordering.{nat_cmp};
ghost use Rattle.std.specs.List.{flat_map, list_any};
ghost use Rattle.std.specs.List.Sorted.{IsStrictlySortedBy};
ghost use Rattle.file_access.specs.PageView.{Adds};
ghost use Rattle.run_picture.specs.LockRows.{below, lock_y, lane_y, lane_bar, lock_name, lock_bar, owned_bar, parked_lock, owned_lock, parked_where};
ghost use Rattle.run_picture.specs.LockRows.{owned_where, owner_label, owned_area, has_row, folded_kind, folded_row, folded_text, lock_rows_text};
ghost use Rattle.picture_layout.specs.Panels.{panel_view};

use crate::header::write_many;
use crate::shapes::{
    Area, Point, begin_hued, begin_text, write_across, write_hued, write_label_number,
};
use crate::titles::write_at_worker;
use crate::worker_bars::{digits_of, room_for};
use crate::worker_marks::write_marks;
use file_access::{Page, Sink};
use picture_layout::{Folding, LANE, LEFT, Layout, Panel, lane_of};
use resource_lock::{LockId, WorkerId};
use run_spans::{Span, Subject};

/// How many locks of a rising list have a smaller number.
fn locks_below(lock: u32, locks: &[u32]) -> u64
    requires { IsStrictlySortedBy nat_cmp locks.now }
    ensures is { result ≡ below lock locks.now }
    ensures few { result ≤ length locks.now }
{
    locks.partition_point(|other| *other < lock) as u64
}

/// How many lanes of a rising list have a smaller number.
fn lanes_below(lane: u64, lanes: &[u64]) -> u64
    requires { IsStrictlySortedBy nat_cmp lanes.now }
    ensures is { result ≡ below lane lanes.now }
    ensures few { result ≤ length lanes.now }
{
    lanes.partition_point(|other| *other < lane) as u64
}

/// Where the row of a lock begins.
fn lock_y(panel: &Panel, lock: u32) -> u64
    ensures is { result ≡ lock_y (panel_view panel.now) lock }
    ensures within { result < 2 ^ 42 }
{
    let rows = locks_below(lock, &panel.locks) * panel.layout.lock_height();
    let lanes = lanes_below(lane_of(lock, 0), &panel.lanes) * LANE;
    panel.layout.locks_y() + rows + lanes
}

/// Where the lane of a worker begins that has parked a lock: below the row of the lock.
fn lane_y(panel: &Panel, lock: u32, worker: u32) -> u64
    ensures { result ≡ lane_y (panel_view panel.now) lock worker }
{
    let rows = (locks_below(lock, &panel.locks) + 1) * panel.layout.lock_height();
    let lanes = lanes_below(lane_of(lock, worker), &panel.lanes) * LANE;
    panel.layout.locks_y() + rows + lanes
}

/// The bar of a span from `y` on, so high.
fn lane_bar(layout: &Layout, span: &Span, y: u64, height: u64) -> Area
    ensures is { result ≡ lane_bar layout.now span.now y height }
    ensures x { result.x < 2 ^ 32 }
    ensures y { result.y ≡ y }
    ensures height { result.height ≡ height }
{
    let x = layout.x_of(span.from.max(u64::from(layout.first)));
    let end = layout.x_of(span.until.min(u64::from(layout.behind)));
    Area {
        x,
        y,
        width: end.saturating_sub(x),
        height,
    }
}

/// Writes a lock's name, and the line under its row.
fn write_lock_name<K: Sink>(panel: &Panel, lock: u32, page: &mut Page, sink: &mut K)
    ensures { Adds (K.seen sink.old) page.old (K.seen sink.new) page.new (lock_name (panel_view panel.now) lock) }
{
    let y = lock_y(panel, lock);
    let right = panel.layout.right();
    let number = u64::from(lock);
    if panel.layout.locks <= 20 {
        write_label_number(
            b"l",
            Point {
                x: LEFT - 6,
                y: y + 10,
            },
            b"lock ",
            number,
            page,
            sink,
        );
        write_across(b"g", LEFT, y + 13, right, page, sink);
    } else {
        write_label_number(
            b"k",
            Point {
                x: LEFT - 6,
                y: y + 8,
            },
            b"lock ",
            number,
            page,
            sink,
        );
        write_across(b"g", LEFT, y + 9, right, page, sink);
    }
}

/// Writes the name of each lock that has a row.
fn write_lock_names<K: Sink>(panel: &Panel, page: &mut Page, sink: &mut K)
    ensures { Adds (K.seen sink.old) page.old (K.seen sink.new) page.new (flat_map (lock_name (panel_view panel.now)) panel.now.locks.items) }
{
    for lock in &panel.locks {
        write_lock_name(panel, *lock, page, sink);
    }
}

/// Writes a bar of a lock, whose title tells what of it whose it is.
fn write_titled<K: Sink>(
    lock: u32,
    what: &[u8],
    span: &Span,
    area: Area,
    page: &mut Page,
    sink: &mut K,
)
    ensures { Adds (K.seen sink.old) page.old (K.seen sink.new) page.new (lock_bar lock what.now span.now area) }
{
    begin_hued(b"m", span.worker, area, page, sink);
    page.text(sink, b"><title>");
    write_at_worker(b"lock ", lock, what, span, page, sink);
    page.text(sink, b"</title></rect>\n");
}

/// Writes the line of a worker that has parked a lock, in its lane.
fn write_parked_lock<K: Sink>(
    panel: &Panel,
    worker: u32,
    lock: u32,
    span: &Span,
    page: &mut Page,
    sink: &mut K,
)
    ensures { Adds (K.seen sink.old) page.old (K.seen sink.new) page.new (parked_lock (panel_view panel.now) worker lock span.now) }
{
    let area = lane_bar(&panel.layout, span, lane_y(panel, lock, worker), 2);
    write_titled(lock, b" is parked by w", span, area, page, sink);
}

/// Whether a lock stands in a rising list.
fn stands_in(lock: u32, locks: &[u32]) -> bool
    requires { IsStrictlySortedBy nat_cmp locks.now }
    ensures { result ≡ list_any (λ m. nat_eq m lock) locks.now }
{
    locks.binary_search(&lock).is_ok()
}

/// Whether a lock has a row of its own.
fn has_row(panel: &Panel, lock: u32) -> bool
    ensures { result ≡ has_row (panel_view panel.now) lock }
{
    panel.layout.folded == 0 || stands_in(lock, &panel.locks)
}

/// Writes where a lock is parked, if a span says that of one that has a row.
fn write_parked_where<K: Sink>(panel: &Panel, span: &Span, page: &mut Page, sink: &mut K)
    ensures { Adds (K.seen sink.old) page.old (K.seen sink.new) page.new (parked_where (panel_view panel.now) span.now) }
{
    if let Subject::Parked(WorkerId(worker), LockId(lock)) = span.subject
        && has_row(panel, lock)
    {
        write_parked_lock(panel, worker, lock, span, page, sink);
    }
}

/// Writes where locks are parked.
fn write_all_parked<K: Sink>(panel: &Panel, page: &mut Page, sink: &mut K)
    ensures { Adds (K.seen sink.old) page.old (K.seen sink.new) page.new (flat_map (parked_where (panel_view panel.now)) panel.now.shown.items) }
{
    for span in &panel.shown {
        write_parked_where(panel, span, page, sink);
    }
}

/// Writes the bar of an owned lock, with a dark begin, and the second mark of its owner.
fn write_owned_bar<K: Sink>(lock: u32, span: &Span, area: Area, page: &mut Page, sink: &mut K)
    requires y { area.y < 2 ^ 63 }
    requires height { area.height < 2 ^ 8 }
    ensures { Adds (K.seen sink.old) page.old (K.seen sink.new) page.new (owned_bar lock span.now area) }
{
    write_titled(lock, b" is owned by w", span, area, page, sink);
    write_hued(b"d", span.worker, Area { width: 1, ..area }, page, sink);
    write_marks(span.worker.0, area, page, sink);
}

/// Writes who owns a lock, in its bar, where that fits.
fn write_owner<K: Sink>(layout: &Layout, area: Area, owner: u32, page: &mut Page, sink: &mut K)
    requires x { area.x < 2 ^ 32 }
    requires y { area.y < 2 ^ 63 }
    ensures { Adds (K.seen sink.old) page.old (K.seen sink.new) page.new (owner_label layout.now area owner) }
{
    let owner = u64::from(owner);
    let room = area.width.saturating_sub(1);
    if layout.locks <= 20 && room_for(digits_of(owner) + 1, 6, room) {
        write_label_number(
            b"a",
            Point {
                x: area.x + 3,
                y: area.y + 9,
            },
            b"w",
            owner,
            page,
            sink,
        );
    } else if layout.locks > 20 && room_for(digits_of(owner) + 1, 5, room) {
        write_label_number(
            b"j i",
            Point {
                x: area.x + 3,
                y: area.y + 6,
            },
            b"w",
            owner,
            page,
            sink,
        );
    }
}

/// Where the bar of an owned lock lies.
fn owned_area(panel: &Panel, lock: u32, span: &Span) -> Area
    ensures is { result ≡ owned_area (panel_view panel.now) lock span.now }
    ensures x { result.x < 2 ^ 32 }
    ensures y { result.y < 2 ^ 63 }
    ensures height { result.height < 2 ^ 8 }
{
    let height = panel.layout.lock_height().saturating_sub(3);
    lane_bar(&panel.layout, span, lock_y(panel, lock) + 1, height)
}

/// Writes where a lock is owned.
fn write_owned_lock<K: Sink>(panel: &Panel, lock: u32, span: &Span, page: &mut Page, sink: &mut K)
    ensures { Adds (K.seen sink.old) page.old (K.seen sink.new) page.new (owned_lock (panel_view panel.now) lock span.now) }
{
    let area = owned_area(panel, lock, span);
    write_owned_bar(lock, span, area, page, sink);
    write_owner(&panel.layout, area, span.worker.0, page, sink);
}

/// Writes where a lock is owned, if a span says that of one that has a row.
fn write_owned_where<K: Sink>(panel: &Panel, span: &Span, page: &mut Page, sink: &mut K)
    ensures { Adds (K.seen sink.old) page.old (K.seen sink.new) page.new (owned_where (panel_view panel.now) span.now) }
{
    if let Subject::Owned(LockId(lock)) = span.subject
        && has_row(panel, lock)
    {
        write_owned_lock(panel, lock, span, page, sink);
    }
}

/// Writes where locks are owned.
fn write_all_owned<K: Sink>(panel: &Panel, page: &mut Page, sink: &mut K)
    ensures { Adds (K.seen sink.old) page.old (K.seen sink.new) page.new (flat_map (owned_where (panel_view panel.now)) panel.now.shown.items) }
{
    for span in &panel.shown {
        write_owned_where(panel, span, page, sink);
    }
}

/// Writes which locks are folded.
fn write_folded_kind<K: Sink>(folding: Folding, page: &mut Page, sink: &mut K)
    ensures { Adds (K.seen sink.old) page.old (K.seen sink.new) page.new (folded_kind folding) }
{
    if matches!(folding, Folding::Unparked) {
        page.text(sink, b", never parked");
    }
}

/// Writes how many locks have no row of their own, and the line under that.
fn write_folded_row<K: Sink>(layout: &Layout, page: &mut Page, sink: &mut K)
    ensures { Adds (K.seen sink.old) page.old (K.seen sink.new) page.new (folded_row layout.now) }
{
    let y = layout.folded_y();
    begin_text(b"a", LEFT + 3, y + 10, page, sink);
    write_many(layout.folded, b" lock", page, sink);
    write_folded_kind(layout.folding, page, sink);
    page.text(sink, b"</text>\n");
    write_across(b"g", LEFT, y + 13, layout.right(), page, sink);
}

/// Writes the row of the folded locks, where there are some.
fn write_folded<K: Sink>(layout: &Layout, page: &mut Page, sink: &mut K)
    ensures { Adds (K.seen sink.old) page.old (K.seen sink.new) page.new (folded_text layout.now) }
{
    if layout.folded > 0 {
        write_folded_row(layout, page, sink);
    }
}

/// Writes the rows of the locks that somebody owns or has parked within a panel. The time grows as the number of the
/// spans, times the logarithm of that of the rows.
pub(crate) fn write_locks<K: Sink>(panel: &Panel, page: &mut Page, sink: &mut K)
    ensures { Adds (K.seen sink.old) page.old (K.seen sink.new) page.new (lock_rows_text (panel_view panel.now)) }
{
    write_lock_names(panel, page, sink);
    write_all_parked(panel, page, sink);
    write_all_owned(panel, page, sink);
    write_folded(&panel.layout, page, sink);
}
