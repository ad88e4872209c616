//! The curve of the whole run, and the rows of its workers.
ghost use Rattle.std.specs.Prelude.{◌≡◌, ◌≤◌, ◌<◌, ◌^◌, ◌++◌, map, length};
ghost use Rattle.file_access.specs.PageView.{Adds};
ghost use Rattle.picture_layout.specs.Columns.{fill_view, row_view};
ghost use Rattle.picture_layout.specs.Layout.{run_foot};
ghost use Rattle.run_picture.specs.Overview.{step_text, steps_text, run_leases, run_queue};
ghost use Rattle.run_picture.specs.Overview.{fill_title, fill_path, leased_text, engaged_text, run_name, run_row_text, run_rows_text};

use crate::shapes::{
    Point, write_across, write_hue, write_label_number, write_number, write_short,
};
use file_access::{Page, Sink};
use picture_layout::{Fill, LEFT, RunRow, run_row_height};

/// Where the row of a worker stands on.
fn run_foot(workers: u32, worker: u32) -> u64
    ensures is { result ≡ run_foot workers worker }
    ensures some { 1 ≤ result }
{
    185 + (u64::from(worker) + 1) * u64::from(run_row_height(workers))
}

/// Writes a line over a column, so high above the foot.
fn write_step<K: Sink>(foot: u64, height: u64, page: &mut Page, sink: &mut K)
    ensures { Adds (K.seen sink.old) page.old (K.seen sink.new) page.new (step_text foot height) }
{
    write_number(b"V", foot.saturating_sub(height), page, sink);
    page.text(sink, b"h4");
}

/// Writes a line over the columns.
fn write_steps<K: Sink>(foot: u64, heights: &[u64], page: &mut Page, sink: &mut K)
    ensures { Adds (K.seen sink.old) page.old (K.seen sink.new) page.new (steps_text foot heights.now) }
{
    for place in 0..heights.len() {
        write_step(foot, heights[place], page, sink);
    }
}

/// Writes the curve of the leases out.
pub(crate) fn write_run_leases<K: Sink>(heights: &[u64], page: &mut Page, sink: &mut K)
    ensures { Adds (K.seen sink.old) page.old (K.seen sink.new) page.new (run_leases heights.now) }
{
    page.text(sink, b"<path class=\"c\" d=\"M76 164");
    write_steps(164, heights, page, sink);
    page.text(
        sink,
        b"V164\"><title>leases out, on average over the entries of each column</title></path>\n",
    );
}

/// Writes the line of the queued items.
pub(crate) fn write_run_queue<K: Sink>(heights: &[u64], page: &mut Page, sink: &mut K)
    ensures { Adds (K.seen sink.old) page.old (K.seen sink.new) page.new (run_queue heights.now) }
{
    page.text(sink, b"<path class=\"q\" d=\"M76 164");
    write_steps(164, heights, page, sink);
    page.text(
        sink,
        b"\"><title>items queued, the most over the entries of each column</title></path>\n",
    );
}

fn write_fill_title<K: Sink>(
    worker: u32,
    words: &[u8],
    entries: u64,
    count: u64,
    page: &mut Page,
    sink: &mut K,
)
    ensures { Adds (K.seen sink.old) page.old (K.seen sink.new) page.new (fill_title worker words.now entries count) }
{
    write_short(b"\"><title>w", worker, page, sink);
    page.text(sink, words);
    write_number(b" after ", entries, page, sink);
    write_number(b" of ", count, page, sink);
    page.text(sink, b" entries</title></path>\n");
}

/// Writes how high a row is filled, in a class of the worker's hue.
fn write_fill_path<K: Sink>(
    class: &[u8],
    worker: u32,
    foot: u64,
    heights: &[u64],
    page: &mut Page,
    sink: &mut K,
)
    ensures { Adds (K.seen sink.old) page.old (K.seen sink.new) page.new (fill_path class.now worker foot heights.now) }
{
    page.text(sink, b"<path class=\"");
    write_hue(class, worker, page, sink);
    write_number(b"\" d=\"M76 ", foot, page, sink);
    write_steps(foot, heights, page, sink);
    write_number(b"V", foot, page, sink);
}

/// Writes after how many entries a worker has a lease, and as what its row is filled.
fn write_leased<K: Sink>(
    worker: u32,
    foot: u64,
    fill: &Fill,
    count: u64,
    page: &mut Page,
    sink: &mut K,
)
    ensures { Adds (K.seen sink.old) page.old (K.seen sink.new) page.new (leased_text worker foot (fill_view fill.now) count) }
{
    write_fill_path(b"m", worker, foot, &fill.heights, page, sink);
    write_fill_title(worker, b" has a lease", fill.entries, count, page, sink);
}

/// The same of having a lease, and of being parked or blocked.
fn write_engaged<K: Sink>(
    worker: u32,
    foot: u64,
    fill: &Fill,
    count: u64,
    page: &mut Page,
    sink: &mut K,
)
    ensures { Adds (K.seen sink.old) page.old (K.seen sink.new) page.new (engaged_text worker foot (fill_view fill.now) count) }
{
    write_fill_path(b"p", worker, foot, &fill.heights, page, sink);
    write_fill_title(
        worker,
        b" has a lease, or is parked or blocked,",
        fill.entries,
        count,
        page,
        sink,
    );
}

/// Writes a worker's name.
fn write_run_name<K: Sink>(workers: u32, worker: u32, y: u64, page: &mut Page, sink: &mut K)
    ensures { Adds (K.seen sink.old) page.old (K.seen sink.new) page.new (run_name workers worker y) }
{
    let number = u64::from(worker);
    if workers <= 16 {
        write_label_number(b"l", Point { x: LEFT - 6, y }, b"w", number, page, sink);
    } else {
        write_label_number(b"k", Point { x: LEFT - 6, y }, b"w", number, page, sink);
    }
}

/// What the rows of the workers share: how many they are, where they end, and of how many entries they tell.
#[derive(Clone, Copy)]
pub(crate) struct RunRows {
    pub(crate) workers: u32,
    pub(crate) right: u64,
    pub(crate) count: u64,
}

/// Writes the row of a worker.
fn write_run_row<K: Sink>(rows: RunRows, worker: u32, row: &RunRow, page: &mut Page, sink: &mut K)
    ensures { Adds (K.seen sink.old) page.old (K.seen sink.new) page.new (run_row_text rows.workers rows.right rows.count worker (row_view row.now)) }
{
    let foot = run_foot(rows.workers, worker);
    write_run_name(rows.workers, worker, foot - 1, page, sink);
    write_across(b"f", LEFT, foot, rows.right, page, sink);
    write_engaged(worker, foot, &row.engaged, rows.count, page, sink);
    write_leased(worker, foot, &row.leased, rows.count, page, sink);
}

/// Writes the row of each worker.
pub(crate) fn write_run_rows<K: Sink>(rows: RunRows, each: &[RunRow], page: &mut Page, sink: &mut K)
    requires { length each.now < 2 ^ 32 }
    ensures { Adds (K.seen sink.old) page.old (K.seen sink.new) page.new (run_rows_text rows.workers rows.right rows.count (map row_view each.now)) }
{
    for place in 0..each.len() {
        write_run_row(rows, place as u32, &each[place], page, sink);
    }
}
