//! The whole run, above the panels where there are several.
ghost use Rattle.std.specs.Prelude.{◌≡◌, ◌≤◌, ◌<◌, ◌^◌, ◌++◌, map, length};
ghost use Rattle.file_access.specs.PageView.{Adds};
ghost use Rattle.picture_layout.specs.Columns.{row_view};
ghost use Rattle.run_picture.specs.Overview.{run_layout, run_axis, run_curve, run_right, overview_text};
ghost use Rattle.picture_layout.specs.Overview.{run_view};
ghost use Rattle.picture_layout.specs.Panels.{panel_view};

use crate::curve::write_scale;
use crate::overview_axis::{write_run_grid, write_strip};
use crate::overview_rows::{RunRows, write_run_leases, write_run_queue, write_run_rows};
use crate::shapes::write_label;
use file_access::{Page, Sink};
use picture_layout::{Columns, Folding, LEFT, Layout, Overview, Panel, Peaks, run_row_height};

/// What the parts of a whole run's picture share: its workers, its maximum of leases, the peaks of its curves, and how many entries
/// it has.
#[derive(Clone, Copy)]
pub(crate) struct RunScale {
    pub(crate) workers: u32,
    pub(crate) max: u32,
    pub(crate) peaks: Peaks,
    pub(crate) count: u32,
}

/// The overview is laid out as a panel whose entries are the columns.
fn run_layout(workers: u32, columns: Columns) -> Layout
    requires { columns.number < 2 ^ 30 }
    ensures { result ≡ run_layout workers columns }
{
    Layout {
        first: 1,
        behind: columns.number + 1,
        per: 4,
        top: 116,
        workers,
        locks: 0,
        lanes: 0,
        folded: 0,
        folding: Folding::Unfolded,
    }
}

/// Writes the curves of the whole run, by its peaks.
fn write_run_curve<K: Sink>(run: RunScale, overview: &Overview, page: &mut Page, sink: &mut K)
    requires { 1 ≤ run.peaks.out }
    ensures { Adds (K.seen sink.old) page.old (K.seen sink.new) page.new (run_curve run.workers run.max run.peaks (run_view overview.now)) }
{
    write_run_leases(&overview.out, page, sink);
    write_run_queue(&overview.queued, page, sink);
    let layout = run_layout(run.workers, overview.columns);
    write_scale(&layout, run.max, run.peaks, page, sink);
}

/// Writes the axis of the whole run.
fn write_run_axis<K: Sink>(run: RunScale, overview: &Overview, page: &mut Page, sink: &mut K)
    ensures { Adds (K.seen sink.old) page.old (K.seen sink.new) page.new (run_axis run.workers run.count (run_view overview.now)) }
{
    write_label(b"e", LEFT - 6, 178, b"entry", page, sink);
    write_run_grid(
        overview.columns.size,
        right_of(overview),
        186 + u64::from(run.workers) * u64::from(run_row_height(run.workers)),
        run.count,
        page,
        sink,
    );
}

/// Where the whole run ends.
fn right_of(overview: &Overview) -> u64
    ensures { result ≡ run_right (run_view overview.now) }
{
    LEFT + u64::from(overview.columns.number) * 4
}

/// Writes the whole run, by its peaks.
pub(crate) fn write_overview<K: Sink>(
    run: RunScale,
    panels: &[Panel],
    overview: &Overview,
    page: &mut Page,
    sink: &mut K,
)
    requires { 1 ≤ run.peaks.out }
    ensures { Adds (K.seen sink.old) page.old (K.seen sink.new) page.new
        (overview_text run.workers run.max run.peaks run.count (map panel_view panels.now) (run_view overview.now)) }
{
    write_label(b"w", 8, 95, b"Whole run", page, sink);
    write_strip(overview.columns.size, panels, page, sink);
    write_run_axis(run, overview, page, sink);
    write_run_curve(run, overview, page, sink);
    let rows = RunRows {
        workers: run.workers,
        right: right_of(overview),
        count: u64::from(run.count),
    };
    write_run_rows(rows, &overview.rows, page, sink);
}
