//! The axis of entries, and the rows of the workers, before anything is drawn in them.
ghost use Rattle.std.specs.Prelude.{◌≡◌, ◌<◌, ◌≤◌, ◌^◌};
ghost use Rattle.std.specs.List.{flat_map, range_with_len};
ghost use Rattle.file_access.specs.PageView.{Adds};
ghost use Rattle.run_picture.specs.Axis.{distance_of, grid_line, mark_number, mark_text, nth_mark, marks_text, grid_text, axis_text, swatch_area, swatch_text};
ghost use Rattle.run_picture.specs.Axis.{name_text, row_text, worker_rows_text};

use crate::shapes::{
    Area, Point, write_across, write_down, write_hued, write_label, write_label_number,
};
use crate::worker_marks;
use file_access::{Page, Sink};
use picture_layout::{LEFT, Layout};
use resource_lock::WorkerId;

/// How many entries lie between two numbers of the axis: the first of 1, 2, 5, 10 and so on that gives 46 px.
fn distance_of(per: u8) -> u32
    ensures is { result ≡ distance_of per }
    ensures some { 0 < result }
    ensures few { result ≤ 50 }
{
    match per {
        0..3 => 50,
        3..5 => 20,
        5..10 => 10,
        10..23 => 5,
        _ => 2,
    }
}

/// Writes a line of the grid.
fn write_grid_line<K: Sink>(
    is_fifth: bool,
    x: u64,
    top: u64,
    bottom: u64,
    page: &mut Page,
    sink: &mut K,
)
    ensures { Adds (K.seen sink.old) page.old (K.seen sink.new) page.new (grid_line is_fifth x top bottom) }
{
    if is_fifth {
        write_down(b"f", x, top, bottom, page, sink);
    } else {
        write_down(b"g", x, top, bottom, page, sink);
    }
}

/// Writes the number of an entry, where it doesn't stand at an edge.
fn write_mark_number<K: Sink>(
    entry: u64,
    x: u64,
    top: u64,
    right: u64,
    page: &mut Page,
    sink: &mut K,
)
    requires x { x < 2 ^ 23 }
    requires top { top < 2 ^ 32 }
    ensures { Adds (K.seen sink.old) page.old (K.seen sink.new) page.new (mark_number entry x top right) }
{
    if LEFT + 16 <= x && x + 8 < right {
        write_label_number(b"n", Point { x, y: top + 62 }, b"", entry, page, sink);
    }
}

/// Writes a line of the grid, and its number.
fn write_mark<K: Sink>(layout: &Layout, entry: u64, is_fifth: bool, page: &mut Page, sink: &mut K)
    ensures { Adds (K.seen sink.old) page.old (K.seen sink.new) page.new (mark_text layout.now entry is_fifth) }
{
    let x = layout.x_of(entry);
    let top = u64::from(layout.top);
    write_grid_line(is_fifth, x, top, layout.bottom(), page, sink);
    write_mark_number(entry, x, top, layout.right(), page, sink);
}

/// Writes the mark of a number from 0.
fn write_nth_mark<K: Sink>(layout: &Layout, place: u64, page: &mut Page, sink: &mut K)
    requires { place < 2 ^ 40 }
    ensures { Adds (K.seen sink.old) page.old (K.seen sink.new) page.new (nth_mark layout.now place) }
{
    let entry = place * u64::from(distance_of(layout.per));
    write_mark(layout, entry, place % 5 == 0, page, sink);
}

/// Writes so many marks, from one of them on.
fn write_marks<K: Sink>(layout: &Layout, from: u32, count: u32, page: &mut Page, sink: &mut K)
    ensures { Adds (K.seen sink.old) page.old (K.seen sink.new) page.new (marks_text layout.now from count) }
{
    for step in 0..count {
        write_nth_mark(layout, u64::from(from) + u64::from(step), page, sink);
    }
}

/// Writes the grid.
fn write_grid<K: Sink>(layout: &Layout, page: &mut Page, sink: &mut K)
    ensures { Adds (K.seen sink.old) page.old (K.seen sink.new) page.new (grid_text layout.now) }
{
    let distance = distance_of(layout.per);
    let from = layout.first.div_ceil(distance);
    let behind = layout.behind.div_ceil(distance);
    write_marks(layout, from, behind.saturating_sub(from), page, sink);
}

/// Writes the grid, and the numbers of the axis.
pub(crate) fn write_axis<K: Sink>(layout: &Layout, page: &mut Page, sink: &mut K)
    ensures { Adds (K.seen sink.old) page.old (K.seen sink.new) page.new (axis_text layout.now) }
{
    let y = u64::from(layout.top) + 62;
    write_grid(layout, page, sink);
    write_label(b"e", LEFT - 6, y, b"entry", page, sink);
}

/// Where the swatch of a worker lies in its row.
fn swatch_area(y: u64, height: u8) -> Area
    requires { y < 2 ^ 40 }
    ensures is { result ≡ swatch_area y height }
    ensures y { result.y < 2 ^ 63 }
    ensures height { result.height < 2 ^ 8 }
{
    Area {
        x: 8,
        y: y + 4,
        width: 5,
        height: u64::from(height).saturating_sub(8),
    }
}

/// Writes the swatch of a worker: its hue, and its second mark.
fn write_swatch<K: Sink>(worker: u32, y: u64, height: u8, page: &mut Page, sink: &mut K)
    requires { y < 2 ^ 40 }
    ensures { Adds (K.seen sink.old) page.old (K.seen sink.new) page.new (swatch_text worker y height) }
{
    let swatch = swatch_area(y, height);
    write_hued(b"m", WorkerId(worker), swatch, page, sink);
    worker_marks::write_marks(worker, swatch, page, sink);
}

/// Writes a worker's name.
fn write_name<K: Sink>(is_large: bool, worker: u64, y: u64, page: &mut Page, sink: &mut K)
    ensures { Adds (K.seen sink.old) page.old (K.seen sink.new) page.new (name_text is_large worker y) }
{
    if is_large {
        write_label_number(b"w", Point { x: 19, y }, b"w", worker, page, sink);
    } else {
        write_label_number(b"v", Point { x: 19, y }, b"w", worker, page, sink);
    }
}

/// Writes a worker's name, and the line above its row.
fn write_row<K: Sink>(layout: &Layout, worker: u32, page: &mut Page, sink: &mut K)
    ensures { Adds (K.seen sink.old) page.old (K.seen sink.new) page.new (row_text layout.now worker) }
{
    let rows = layout.rows();
    let y = layout.row_y(worker);
    write_across(b"u", 8, y, layout.right(), page, sink);
    write_swatch(worker, y, rows.height, page, sink);
    write_name(
        rows.large,
        u64::from(worker),
        y + u64::from(rows.label_y),
        page,
        sink,
    );
}

/// Writes the row of each worker.
fn write_each_row<K: Sink>(layout: &Layout, page: &mut Page, sink: &mut K)
    ensures { Adds (K.seen sink.old) page.old (K.seen sink.new) page.new (flat_map (row_text layout.now) (range_with_len 0 layout.now.workers)) }
{
    for worker in 0..layout.workers {
        write_row(layout, worker, page, sink);
    }
}

/// Writes the names of the workers, and the lines between their rows.
pub(crate) fn write_rows<K: Sink>(layout: &Layout, page: &mut Page, sink: &mut K)
    ensures { Adds (K.seen sink.old) page.old (K.seen sink.new) page.new (worker_rows_text layout.now) }
{
    write_each_row(layout, page, sink);
    write_across(
        b"u",
        8,
        layout.row_y(layout.workers),
        layout.right(),
        page,
        sink,
    );
}
