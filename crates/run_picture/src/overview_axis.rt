//! The strip of the panels, and the grid of the entries, of the whole run.
ghost use Rattle.std.specs.Prelude.{◌≡◌, ◌≤◌, ◌<◌, ◌*◌, ◌^◌, ◌++◌, map};
ghost use Rattle.std.specs.List.{flat_map, range_with_len};
ghost use Rattle.file_access.specs.PageView.{Adds};
ghost use Rattle.history_text.specs.Text.{numbered};
ghost use Rattle.run_picture.specs.Overview.{run_x, band_area, band_class, band_title, band_number, band_text};
ghost use Rattle.run_picture.specs.Overview.{run_distance, run_number, run_mark, run_grid};
ghost use Rattle.picture_layout.specs.Panels.{panel_view};
ghost use Rattle.run_picture.specs.Shapes.{rect_begin};

use crate::shapes::{
    Area, Point, begin_rect, write_down, write_label_number, write_number, write_short,
};
use crate::worker_bars::{digits_of, room_for};
use file_access::{Page, Sink};
use picture_layout::{LEFT, Layout, Panel};

/// Where an entry begins, where a column has so many.
fn run_x(size: u32, entry: u64) -> u64
    requires size { 1 ≤ size }
    requires entry { entry < 2 ^ 58 }
    ensures at { result ≡ run_x size entry }
    ensures within { result < 2 ^ 61 }
{
    LEFT + entry.saturating_sub(1) * 4 / u64::from(size)
}

/// Where a panel lies in the strip.
fn band_area(size: u32, layout: &Layout) -> Area
    requires { 1 ≤ size }
    ensures is { result ≡ band_area size layout.now }
    ensures within { result.x < 2 ^ 61 }
{
    let x = run_x(size, u64::from(layout.first));
    let right = run_x(size, u64::from(layout.behind));
    Area {
        x,
        y: 100,
        width: right.saturating_sub(x),
        height: 12,
    }
}

/// Begins the rectangle of the panel of a number: the strip has two greys by turns.
fn begin_band<K: Sink>(number: u64, area: Area, page: &mut Page, sink: &mut K)
    ensures { Adds (K.seen sink.old) page.old (K.seen sink.new) page.new (rect_begin (band_class number) area) }
{
    if number % 2 == 0 {
        begin_rect(b"even", area, page, sink);
    } else {
        begin_rect(b"odd", area, page, sink);
    }
}

fn write_band_title<K: Sink>(number: u64, layout: &Layout, page: &mut Page, sink: &mut K)
    ensures { Adds (K.seen sink.old) page.old (K.seen sink.new) page.new (band_title number layout.now) }
{
    write_number(b"part ", number, page, sink);
    write_short(b": entries ", layout.first, page, sink);
    write_short(b" to ", layout.behind.saturating_sub(1), page, sink);
}

/// Writes the number of a panel where it fits.
fn write_band_number<K: Sink>(number: u64, area: Area, page: &mut Page, sink: &mut K)
    requires x { area.x < 2 ^ 61 }
    ensures { Adds (K.seen sink.old) page.old (K.seen sink.new) page.new (band_number number area) }
{
    if room_for(digits_of(number), 6, area.width) {
        write_label_number(
            b"n",
            Point {
                x: area.x + area.width / 2,
                y: 109,
            },
            b"",
            number,
            page,
            sink,
        );
    }
}

/// Writes the panel of a number in the strip.
fn write_band<K: Sink>(size: u32, number: u64, panel: &Panel, page: &mut Page, sink: &mut K)
    requires { 1 ≤ size }
    ensures { Adds (K.seen sink.old) page.old (K.seen sink.new) page.new (band_text size number (panel_view panel.now)) }
{
    let area = band_area(size, &panel.layout);
    begin_band(number, area, page, sink);
    page.text(sink, b"><title>");
    write_band_title(number, &panel.layout, page, sink);
    page.text(sink, b"</title></rect>\n");
    write_band_number(number, area, page, sink);
}

/// Writes the strip of the panels.
pub(crate) fn write_strip<K: Sink>(size: u32, panels: &[Panel], page: &mut Page, sink: &mut K)
    requires { 1 ≤ size }
    ensures { Adds (K.seen sink.old) page.old (K.seen sink.new) page.new (numbered (band_text size) 1 (map panel_view panels.now)) }
{
    for place in 0..panels.len() {
        write_band(size, place as u64 + 1, &panels[place], page, sink);
    }
}

/// How many entries lie between two numbers of the axis: the first of 20, 50, 100 and so on that gives 46 px.
fn run_distance(size: u32) -> u32
    ensures is { result ≡ run_distance size }
    ensures some { 1 ≤ result }
    ensures few { result ≤ 50000000 }
{
    match size {
        0..2 => 20,
        2..5 => 50,
        5..9 => 100,
        9..18 => 200,
        18..44 => 500,
        44..87 => 1_000,
        87..174 => 2_000,
        174..435 => 5_000,
        435..870 => 10_000,
        870..1_740 => 20_000,
        1_740..4_348 => 50_000,
        4_348..8_696 => 100_000,
        8_696..17_392 => 200_000,
        17_392..43_479 => 500_000,
        43_479..86_957 => 1_000_000,
        86_957..173_914 => 2_000_000,
        173_914..434_783 => 5_000_000,
        434_783..869_566 => 10_000_000,
        869_566..1_739_131 => 20_000_000,
        _ => 50_000_000,
    }
}

/// Writes the number of an entry, where it doesn't stand at an edge.
fn write_run_number<K: Sink>(entry: u64, x: u64, right: u64, page: &mut Page, sink: &mut K)
    requires { x < 2 ^ 61 }
    ensures { Adds (K.seen sink.old) page.old (K.seen sink.new) page.new (run_number entry x right) }
{
    if LEFT + 16 <= x && x + 8 < right {
        write_label_number(b"n", Point { x, y: 178 }, b"", entry, page, sink);
    }
}

/// Writes the line of an entry in the grid, and its number.
fn write_run_mark<K: Sink>(
    size: u32,
    right: u64,
    bottom: u64,
    entry: u64,
    page: &mut Page,
    sink: &mut K,
)
    requires size { 1 ≤ size }
    requires entry { entry < 2 ^ 58 }
    ensures { Adds (K.seen sink.old) page.old (K.seen sink.new) page.new (run_mark size right bottom entry) }
{
    let x = run_x(size, entry);
    write_down(b"f", x, 164, bottom, page, sink);
    write_run_number(entry, x, right, page, sink);
}

/// Writes the mark of a number from 1.
fn write_nth_mark<K: Sink>(
    size: u32,
    right: u64,
    bottom: u64,
    place: u64,
    page: &mut Page,
    sink: &mut K,
)
    requires size { 1 ≤ size }
    requires place { place ≤ 2 ^ 32 }
    ensures { Adds (K.seen sink.old) page.old (K.seen sink.new) page.new (run_mark size right bottom (place * run_distance size)) }
{
    let entry = place * u64::from(run_distance(size));
    write_run_mark(size, right, bottom, entry, page, sink);
}

/// Writes the grid of so many entries.
pub(crate) fn write_run_grid<K: Sink>(
    size: u32,
    right: u64,
    bottom: u64,
    count: u32,
    page: &mut Page,
    sink: &mut K,
)
    requires { 1 ≤ size }
    ensures { Adds (K.seen sink.old) page.old (K.seen sink.new) page.new (run_grid size right bottom count) }
{
    for place in 0..count / run_distance(size) {
        write_nth_mark(size, right, bottom, u64::from(place) + 1, page, sink);
    }
}
