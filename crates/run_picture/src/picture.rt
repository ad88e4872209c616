//! The whole picture.
ghost use Rattle.std.specs.Prelude.{◌≡◌, ◌<◌, ◌≤◌, ◌++◌, ◌^◌, None, nat_le, map, length, codes};
ghost use Rattle.std.specs.List.{flat_map};
ghost use Rattle.file_access.specs.PageView.{Adds};
ghost use Rattle.file_access.specs.SinkView.{Prints};
ghost use Rattle.history_text.specs.Fitting.{HeadFits};
ghost use Rattle.history_text.specs.Text.{numbered};
ghost use Rattle.history_text.specs.HistoryView.{entry_read, history_view};
ghost use Rattle.run_picture.specs.Header.{desc_text, title_text};
ghost use Rattle.run_picture.specs.Layers.{bars_text};
ghost use Rattle.run_picture.specs.LockRows.{lock_rows_text};
ghost use Rattle.picture_layout.specs.Overview.{IsOverview, run_view};
ghost use Rattle.picture_layout.specs.Panels.{panel_view, height_of, Rising};
ghost use Rattle.run_picture.specs.Picture.{within, average_of, width_of, stray_from, totals_of, heading_text, heading_where, panel_curve, edge_text};
ghost use Rattle.run_picture.specs.Picture.{panel_text, panels_text, ticks_of, style_text, legend_text, head_text, run_text, whole_by, svg_text};
ghost use Rattle.run_picture.specs.Picture.{IsDrawn};
ghost use Rattle.picture_layout.specs.Totals.{peaks_of};
ghost use Rattle.run_spans.specs.Levels.{levels_of, nothing_out};
ghost use Rattle.run_spans.specs.Spans.{spans_of};

use crate::axis::{write_axis, write_rows};
use crate::curve::write_curve;
use crate::header::{Totals, write_desc, write_opening, write_second, write_title};
use crate::lock_rows::write_locks;
use crate::overview_chart::{RunScale, write_overview};
use crate::shapes::{begin_text, write_down, write_number};
use crate::style::{CLASSES, LEGEND, PATTERNS};
use crate::ticks::write_ticks;
use crate::worker_bars::write_bars;
use file_access::{Failed, Page, Sink};
use history_text::{History, HistoryEntry};
use picture_layout::{
    Format, LEFT, Layout, LayoutFail, MOST_ENTRIES, Overview, Panel, Peaks, count_failed_units,
    count_skips, count_tasks, count_units, format_of, height_of, overview_of, panels_in_format,
    peaks_of, total_out,
};
use resource_lock::Mark;
use run_spans::{Level, Span, levels_of, spans_of};
use std::alloc::Global;

/// Why a picture was not drawn.
#[derive(Clone, Copy, PartialEq, Eq)]
pub enum DrawFail {
    /// There was no memory. Nothing was written.
    NoMemory,
    /// The history has 2^30 entries or more, or its picture would be 2^32 px high or higher. Nothing was written.
    TooLarge,
    /// The entry of this number, from 1, is the first of a worker that the history's head doesn't have. Nothing was
    /// written.
    NoWorker(u64),
    /// The sink failed. What it had taken by then is the beginning of the picture.
    SinkFault,
}

/// Those of a panel, of one for each entry.
fn within<'a, T>(all: &'a [T], layout: &Layout) -> &'a [T]
    ensures { result.now ≡ within layout.now all.now }
{
    let start = (layout.first.saturating_sub(1) as usize).min(all.len());
    let rest = &all[start..];
    let count = (layout.behind.saturating_sub(layout.first) as usize).min(rest.len());
    &rest[..count]
}

/// The average of so many numbers with this total, in hundredths.
fn average(total: u128, count: u64) -> u128
    requires { total < 2 ^ 120 }
    ensures { result ≡ average_of total count }
{
    let count = u128::from(count).max(1);
    (total * 200 + count) / (2 * count)
}

fn totals_of(history: &History, levels: &[Level], spans: &[Span]) -> Totals
    requires { length levels.now < 2 ^ 30 }
    ensures { result ≡ totals_of (history_view history.now) levels.now spans.now }
{
    Totals {
        passed: count_tasks(spans, Mark::Passed),
        failed: count_tasks(spans, Mark::Failed),
        skipped: count_skips(&history.entries),
        units: count_units(spans),
        failed_units: count_failed_units(spans),
        hundredths: average(total_out(levels), levels.len() as u64),
    }
}

/// How wide a picture is whose plot has this width: right of the plot it has a margin of 14 px.
fn width_of(plot: u32) -> u64
    ensures { result ≡ width_of plot }
{
    LEFT + u64::from(plot) + 14
}

/// Whether the head doesn't have the worker of an entry.
fn is_stray(workers: u32, entry: &HistoryEntry) -> bool
    ensures { result ≡ nat_le workers entry.now.worker.0 }
{
    workers <= entry.worker.0
}

/// The number of the first entry of a worker that the head doesn't have.
fn stray_entry(workers: u32, entries: &[HistoryEntry]) -> Option<u64>
    ensures { result ≡ stray_from workers 1 (map entry_read entries.now) }
{
    for place in 0..entries.len() {
        if is_stray(workers, &entries[place]) {
            return Some(place as u64 + 1);
        }
    }
    None
}

/// Writes the heading of a panel, by its number.
fn write_heading<K: Sink>(number: u64, layout: &Layout, page: &mut Page, sink: &mut K)
    ensures { Adds (K.seen sink.old) page.old (K.seen sink.new) page.new (heading_text number layout.now) }
{
    begin_text(
        b"w",
        8,
        u64::from(layout.top).saturating_sub(15),
        page,
        sink,
    );
    page.number(sink, number);
    write_number(b": entries ", u64::from(layout.first), page, sink);
    write_number(
        b" to ",
        u64::from(layout.behind).saturating_sub(1),
        page,
        sink,
    );
    page.text(sink, b"</text>\n");
}

/// Writes the curves of a panel, by the peaks of the run.
fn write_panel_curve<K: Sink>(
    history: &History,
    levels: &[Level],
    peaks: Peaks,
    layout: &Layout,
    page: &mut Page,
    sink: &mut K,
)
    requires peaks { peaks ≡ peaks_of levels.now }
    ensures { Adds (K.seen sink.old) page.old (K.seen sink.new) page.new (panel_curve history.now.max levels.now layout.now) }
{
    write_curve(
        layout,
        history.max,
        peaks,
        within(levels, layout),
        page,
        sink,
    );
}

/// Writes the bars of a panel.
fn write_panel_bars<K: Sink>(history: &History, panel: &Panel, page: &mut Page, sink: &mut K)
    ensures { Adds (K.seen sink.old) page.old (K.seen sink.new) page.new
        (bars_text panel.now.layout (map entry_read history.now.entries.items) panel.now.shown.items) }
{
    write_bars(&panel.layout, &history.entries, &panel.shown, page, sink);
}

/// Writes the rows of a panel's locks.
fn write_panel_locks<K: Sink>(panel: &Panel, page: &mut Page, sink: &mut K)
    ensures { Adds (K.seen sink.old) page.old (K.seen sink.new) page.new
        (lock_rows_text (panel_view panel.now)) }
{
    write_locks(panel, page, sink);
}

/// Writes the line where a panel ends.
fn write_edge<K: Sink>(layout: &Layout, page: &mut Page, sink: &mut K)
    ensures { Adds (K.seen sink.old) page.old (K.seen sink.new) page.new (edge_text layout.now) }
{
    write_down(
        b"o",
        layout.right(),
        u64::from(layout.top),
        layout.bottom(),
        page,
        sink,
    );
}

/// Writes a panel, by the peaks of the run.
fn write_panel<K: Sink>(
    history: &History,
    levels: &[Level],
    peaks: Peaks,
    panel: &Panel,
    page: &mut Page,
    sink: &mut K,
)
    requires peaks { peaks ≡ peaks_of levels.now }
    ensures { Adds (K.seen sink.old) page.old (K.seen sink.new) page.new (panel_text (history_view history.now) levels.now (panel_view panel.now)) }
{
    let layout = &panel.layout;
    write_axis(layout, page, sink);
    write_panel_curve(history, levels, peaks, layout, page, sink);
    write_rows(layout, page, sink);
    write_panel_bars(history, panel, page, sink);
    write_panel_locks(panel, page, sink);
    write_edge(layout, page, sink);
}

/// Writes the heading of a panel where there are several.
fn write_heading_where<K: Sink>(
    count: u64,
    number: u64,
    layout: &Layout,
    page: &mut Page,
    sink: &mut K,
)
    ensures { Adds (K.seen sink.old) page.old (K.seen sink.new) page.new (heading_where count number layout.now) }
{
    if count > 1 {
        write_heading(number, layout, page, sink);
    }
}

/// Writes each panel.
fn write_panels<K: Sink>(
    history: &History,
    levels: &[Level],
    panels: &[Panel],
    page: &mut Page,
    sink: &mut K,
)
    ensures { Adds (K.seen sink.old) page.old (K.seen sink.new) page.new (panels_text (history_view history.now) levels.now (map panel_view panels.now)) }
{
    let peaks = peaks_of(levels);
    let count = panels.len() as u64;
    for place in 0..panels.len() {
        let panel = &panels[place];
        write_heading_where(count, place as u64 + 1, &panel.layout, page, sink);
        write_panel(history, levels, peaks, panel, page, sink);
    }
}

fn write_panel_ticks<K: Sink>(history: &History, panel: &Panel, page: &mut Page, sink: &mut K)
    ensures { Adds (K.seen sink.old) page.old (K.seen sink.new) page.new (ticks_of (history_view history.now) (panel_view panel.now)) }
{
    write_ticks(
        &panel.layout,
        within(&history.entries, &panel.layout),
        page,
        sink,
    );
}

/// Writes the ticks of each panel.
fn write_all_ticks<K: Sink>(history: &History, panels: &[Panel], page: &mut Page, sink: &mut K)
    ensures { Adds (K.seen sink.old) page.old (K.seen sink.new) page.new (flat_map (ticks_of (history_view history.now)) (map panel_view panels.now)) }
{
    for panel in panels {
        write_panel_ticks(history, panel, page, sink);
    }
}

/// Writes the settings of a run.
fn write_settings<K: Sink>(history: &History, page: &mut Page, sink: &mut K)
    ensures { Adds (K.seen sink.old) page.old (K.seen sink.new) page.new
        (desc_text history.now.workers history.now.max history.now.parallel history.now.locks) }
{
    let workers = u64::from(history.workers);
    let max = u64::from(history.max);
    write_desc(workers, max, history.parallel, history.locks, page, sink);
}

/// Writes the classes and the patterns.
fn write_style<K: Sink>(page: &mut Page, sink: &mut K)
    ensures { Adds (K.seen sink.old) page.old (K.seen sink.new) page.new style_text }
{
    page.text(sink, CLASSES);
    page.text(sink, PATTERNS);
}

/// Writes the legend.
fn write_legend<K: Sink>(page: &mut Page, sink: &mut K)
    ensures { Adds (K.seen sink.old) page.old (K.seen sink.new) page.new legend_text }
{
    page.text(sink, LEGEND);
}

/// How many entries a history has.
fn entry_count(history: &History) -> u64
    ensures { result ≡ length (map entry_read history.now.entries.items) }
{
    history.entries.len() as u64
}

/// Writes the title of a run.
fn write_run_title<K: Sink>(history: &History, page: &mut Page, sink: &mut K)
    ensures { Adds (K.seen sink.old) page.old (K.seen sink.new) page.new
        (title_text history.now.workers history.now.max (length (map entry_read history.now.entries.items))) }
{
    let workers = u64::from(history.workers);
    let max = u64::from(history.max);
    write_title(workers, max, entry_count(history), page, sink);
}

/// Writes what stands above the panels.
fn write_head<K: Sink>(
    history: &History,
    plot: u32,
    height: u64,
    totals: Totals,
    page: &mut Page,
    sink: &mut K,
)
    ensures { Adds (K.seen sink.old) page.old (K.seen sink.new) page.new (head_text (history_view history.now) plot height totals) }
{
    write_opening(width_of(plot), height, page, sink);
    write_settings(history, page, sink);
    write_style(page, sink);
    write_run_title(history, page, sink);
    write_second(totals, page, sink);
    write_legend(page, sink);
}

/// What a picture is drawn from: a history, its levels and its spans, and how it is laid out.
#[derive(Drop)]
pub(crate) struct Drawing<'a> {
    pub(crate) history: &'a History,
    pub(crate) levels: &'a [Level],
    pub(crate) spans: &'a [Span],
    pub(crate) format: Format,
    pub(crate) panels: &'a [Panel],
    pub(crate) overview: &'a Overview,
}

/// Writes what stands above the panels of a drawing.
fn write_top<K: Sink>(drawing: &Drawing<'_>, page: &mut Page, sink: &mut K)
    requires { length drawing.now.levels.now < 2 ^ 30 }
    ensures { Adds (K.seen sink.old) page.old (K.seen sink.new) page.new
        (head_text (history_view drawing.now.history.now) drawing.now.format.plot (height_of (map panel_view drawing.now.panels.now))
        (totals_of (history_view drawing.now.history.now) drawing.now.levels.now drawing.now.spans.now)) }
{
    write_head(
        drawing.history,
        drawing.format.plot,
        height_of(drawing.panels),
        totals_of(drawing.history, drawing.levels, drawing.spans),
        page,
        sink,
    );
}

/// How many entries a history has, where they are few.
fn few_entries(history: &History) -> u32
    requires { length history.now.entries.items < 2 ^ 30 }
    ensures { result ≡ length (map entry_read history.now.entries.items) }
{
    history.entries.len() as u32
}

/// Writes the whole run.
fn write_run<K: Sink>(
    history: &History,
    levels: &[Level],
    panels: &[Panel],
    overview: &Overview,
    page: &mut Page,
    sink: &mut K,
)
    requires few { length history.now.entries.items < 2 ^ 30 }
    ensures { Adds (K.seen sink.old) page.old (K.seen sink.new) page.new
        (run_text (history_view history.now) levels.now (map panel_view panels.now) (run_view overview.now)) }
{
    let run = RunScale {
        workers: history.workers,
        max: history.max,
        peaks: peaks_of(levels),
        count: few_entries(history),
    };
    write_overview(run, panels, overview, page, sink);
}

/// Writes the whole run, where there are several panels.
fn write_whole<K: Sink>(
    history: &History,
    levels: &[Level],
    panels: &[Panel],
    overview: &Overview,
    page: &mut Page,
    sink: &mut K,
)
    requires few { length history.now.entries.items < 2 ^ 30 }
    ensures { Adds (K.seen sink.old) page.old (K.seen sink.new) page.new
        (whole_by (history_view history.now) levels.now (map panel_view panels.now) (run_view overview.now)) }
{
    if panels.len() > 1 {
        write_run(history, levels, panels, overview, page, sink);
    }
}

/// Writes the whole picture.
fn write_svg<K: Sink>(drawing: &Drawing<'_>, page: &mut Page, sink: &mut K)
    requires few { length drawing.now.levels.now < 2 ^ 30 }
    requires entries { length drawing.now.history.now.entries.items < 2 ^ 30 }
    requires overview { IsOverview drawing.now.history.now drawing.now.levels.now drawing.now.spans.now drawing.now.overview.now }
    ensures { Adds (K.seen sink.old) page.old (K.seen sink.new) page.new (svg_text (history_view drawing.now.history.now) drawing.now.format
        drawing.now.levels.now drawing.now.spans.now (map panel_view drawing.now.panels.now)) }
{
    let Drawing {
        history,
        levels,
        panels,
        overview,
        ..
    } = *drawing;
    write_top(drawing, page, sink);
    write_whole(history, levels, panels, overview, page, sink);
    write_panels(history, levels, panels, page, sink);
    page.text(sink, b"<g>\n");
    write_all_ticks(history, panels, page, sink);
    page.text(sink, b"</g>\n</svg>\n");
}

fn print_svg<K: Sink>(drawing: &Drawing<'_>, sink: &mut K) -> Result<(), Failed>
    requires few { length drawing.now.levels.now < 2 ^ 30 }
    requires entries { length drawing.now.history.now.entries.items < 2 ^ 30 }
    requires overview { IsOverview drawing.now.history.now drawing.now.levels.now drawing.now.spans.now drawing.now.overview.now }
    ensures { Prints (K.seen sink.old) (K.seen sink.new) (svg_text (history_view drawing.now.history.now) drawing.now.format
        drawing.now.levels.now drawing.now.spans.now (map panel_view drawing.now.panels.now)) result }
{
    let mut page = Page::new();
    write_svg(drawing, &mut page, sink);
    page.end(sink)
}

/// Draws what the spans of a history tell.
#[tactic(auto, using(crate::proofs::Drawing::drawable, crate::proofs::Drawing::too_high))]
fn draw_spans<K: Sink>(
    alloc: Global,
    history: &History,
    levels: &[Level],
    spans: &[Span],
    sink: &mut K,
) -> Result<(), DrawFail>
    requires fits { HeadFits history.now.workers history.now.max history.now.locks }
    requires few { length history.now.entries.items < 2 ^ 30 }
    requires levels { levels.now ≡ levels_of nothing_out (map entry_read history.now.entries.items) }
    requires spans { spans.now ≡ spans_of (map entry_read history.now.entries.items) }
    requires rows { stray_from history.now.workers 1 (map entry_read history.now.entries.items) ≡ None }
    requires rising { Rising 1 spans.now }
    ensures { IsDrawn (history_view history.now) (K.seen sink.old) (K.seen sink.new) result }
{
    let count = history.entries.len() as u32;
    let Ok(format) = format_of(alloc, history.workers, count, spans) else {
        return Err(DrawFail::NoMemory);
    };
    let panels = match panels_in_format(alloc, format, history.workers, count, spans) {
        Ok(panels) => panels,
        Err(LayoutFail::NoMemory) => return Err(DrawFail::NoMemory),
        Err(LayoutFail::TooLarge) => return Err(DrawFail::TooLarge),
    };
    // Columns are laid out before anything is written, since that needs memory: a picture for which there is none isn't begun.
    let peaks = peaks_of(levels);
    let Ok(overview) = overview_of(alloc, history.workers, peaks, levels, spans, count) else {
        return Err(DrawFail::NoMemory);
    };
    let drawing = Drawing {
        history,
        levels,
        spans,
        format,
        panels: &panels,
        overview: &overview,
    };
    match print_svg(&drawing, sink) {
        Ok(()) => Ok(()),
        Err(Failed) => Err(DrawFail::SinkFault),
    }
}

/// Draws the picture of a history: a text that is a function of the history.
#[tactic(auto, using(crate::proofs::Drawing::too_many))]
pub fn draw<K: Sink>(alloc: Global, history: &History, sink: &mut K) -> Result<(), DrawFail>
    requires { HeadFits history.now.workers history.now.max history.now.locks }
    ensures { IsDrawn (history_view history.now) (K.seen sink.old) (K.seen sink.new) result }
{
    if history.entries.len() >= MOST_ENTRIES {
        return Err(DrawFail::TooLarge);
    }
    if let Some(number) = stray_entry(history.workers, &history.entries) {
        return Err(DrawFail::NoWorker(number));
    }
    let Ok(levels) = levels_of(alloc, &history.entries) else {
        return Err(DrawFail::NoMemory);
    };
    let Ok(spans) = spans_of(alloc, &history.entries) else {
        return Err(DrawFail::NoMemory);
    };
    draw_spans(alloc, history, &levels, &spans, sink)
}
