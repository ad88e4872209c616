//! The whole run above the panels.
ghost use Rattle.std.specs.Prelude.{◌≡◌, ◌≤◌, ◌<◌, ◌^◌, length, IfOk};
ghost use Rattle.picture_layout.specs.Overview.{run_view, run_of};
ghost use Rattle.picture_layout.specs.Panels.{Rising};

use crate::columns::{RowLayout, columns_of, out_heights, queue_heights, run_rows};
use crate::layout::run_row_height;
use crate::overview::Overview;
use crate::totals::Peaks;
use run_spans::{Level, Span};
use std::alloc::{AllocError, Global};

/// The overview of so many entries, by their levels and spans.
pub fn overview_of(
    alloc: Global,
    workers: u32,
    peaks: Peaks,
    levels: &[Level],
    spans: &[Span],
    count: u32,
) -> Result<Overview, AllocError>
    requires some { 1 ≤ peaks.out }
    requires levels { length levels.now < 2 ^ 30 }
    requires few { count < 2 ^ 30 }
    requires rising { Rising 1 spans.now }
    ensures { IfOk result (λ overview. run_view overview ≡ run_of workers peaks levels.now spans.now count) }
{
    let columns = columns_of(count);
    let out = out_heights(alloc, columns, peaks.out, levels)?;
    let queued = queue_heights(alloc, columns, peaks.scale(), levels)?;
    let room = run_row_height(workers) - 2;
    let rows = run_rows(alloc, RowLayout { columns, room }, workers, spans, count)?;
    Ok(Overview {
        columns,
        out,
        queued,
        rows,
    })
}
