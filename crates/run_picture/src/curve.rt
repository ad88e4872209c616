//! The curve of leases out, with the queued items over it.
ghost use Rattle.std.specs.Prelude.{◌≡◌, ◌++◌, ◌≤◌, ◌+◌, codes, decimal};
ghost use Rattle.file_access.specs.PageView.{Adds};
ghost use Rattle.history_text.specs.Text.{numbered};
ghost use Rattle.run_picture.specs.Curve.{stair, out_stair, queue_stair, leases_text, queue_text, max_line, scale_top, scale_text, curve_text};

use crate::shapes::{
    Point, begin_text, write_across, write_label, write_label_number, write_number, write_short,
};
use file_access::{Page, Sink};
use picture_layout::{LEFT, Layout, Peaks, curve_height};
use run_spans::Level;

/// Writes one step of a curve: to the height of a value, and over the entry.
fn write_stair<K: Sink>(layout: &Layout, entry: u64, height: u64, page: &mut Page, sink: &mut K)
    requires { height ≤ 48 }
    ensures { Adds (K.seen sink.old) page.old (K.seen sink.new) page.new (stair layout.now entry height) }
{
    write_number(b"V", layout.base().saturating_sub(height), page, sink);
    write_number(b"H", layout.x_of(entry.saturating_add(1)), page, sink);
}

/// Writes the step of the leases out after an entry.
fn write_out<K: Sink>(
    layout: &Layout,
    top: u64,
    entry: u64,
    level: &Level,
    page: &mut Page,
    sink: &mut K,
)
    requires { 1 ≤ top }
    ensures { Adds (K.seen sink.old) page.old (K.seen sink.new) page.new (out_stair layout.now top entry level.now) }
{
    write_stair(layout, entry, curve_height(level.out, top), page, sink);
}

/// Writes the steps of the leases out.
fn write_outs<K: Sink>(layout: &Layout, top: u64, levels: &[Level], page: &mut Page, sink: &mut K)
    requires { 1 ≤ top }
    ensures { Adds (K.seen sink.old) page.old (K.seen sink.new) page.new (numbered (out_stair layout.now top) layout.now.first levels.now) }
{
    for place in 0..levels.len() {
        let entry = u64::from(layout.first) + place as u64;
        write_out(layout, top, entry, &levels[place], page, sink);
    }
}

/// Writes the step of the queued items after an entry.
fn write_queue_step<K: Sink>(
    layout: &Layout,
    most: u64,
    entry: u64,
    level: &Level,
    page: &mut Page,
    sink: &mut K,
)
    requires { 1 ≤ most }
    ensures { Adds (K.seen sink.old) page.old (K.seen sink.new) page.new (queue_stair layout.now most entry level.now) }
{
    write_stair(layout, entry, curve_height(level.queued, most), page, sink);
}

/// Writes the steps of the queued items.
fn write_queue<K: Sink>(layout: &Layout, most: u64, levels: &[Level], page: &mut Page, sink: &mut K)
    requires { 1 ≤ most }
    ensures { Adds (K.seen sink.old) page.old (K.seen sink.new) page.new (numbered (queue_stair layout.now most) layout.now.first levels.now) }
{
    for place in 0..levels.len() {
        let entry = u64::from(layout.first) + place as u64;
        write_queue_step(layout, most, entry, &levels[place], page, sink);
    }
}

/// Writes the curve of leases out, as an area under a line.
fn write_leases<K: Sink>(layout: &Layout, top: u64, levels: &[Level], page: &mut Page, sink: &mut K)
    requires { 1 ≤ top }
    ensures { Adds (K.seen sink.old) page.old (K.seen sink.new) page.new (leases_text layout.now top levels.now) }
{
    let base = layout.base();
    write_number(b"<path class=\"c\" d=\"M76 ", base, page, sink);
    write_outs(layout, top, levels, page, sink);
    write_number(b"V", base, page, sink);
    page.text(
        sink,
        b"\"><title>leases out after each entry</title></path>\n",
    );
}

/// Writes the queued items as a line.
// It is twice as wide as the leases' edge, so that in grey the two are told apart.
fn write_queued<K: Sink>(
    layout: &Layout,
    queued: u64,
    most: u64,
    levels: &[Level],
    page: &mut Page,
    sink: &mut K,
)
    requires { 1 ≤ most }
    ensures { Adds (K.seen sink.old) page.old (K.seen sink.new) page.new (queue_text layout.now queued most levels.now) }
{
    let base = layout.base();
    write_number(b"<path class=\"q\" d=\"M76 ", base, page, sink);
    write_queue(layout, most, levels, page, sink);
    write_number(
        b"\"><title>items queued after each entry, ",
        queued,
        page,
        sink,
    );
    page.text(sink, b" at most in the run</title></path>\n");
}

/// Writes up to where the curve goes, beside the maximum of leases.
fn write_scale_top<K: Sink>(y: u64, out: u64, max: u32, page: &mut Page, sink: &mut K)
    ensures { Adds (K.seen sink.old) page.old (K.seen sink.new) page.new (scale_top y out max) }
{
    begin_text(b"e", LEFT - 6, y, page, sink);
    page.number(sink, out);
    write_short(b" of max ", max, page, sink);
    page.text(sink, b"</text>\n");
}

/// Writes a dashed line at the maximum of leases, where the scale reaches so far, and else a line where it ends.
fn write_max_line<K: Sink>(layout: &Layout, max: u32, out: u64, page: &mut Page, sink: &mut K)
    requires { 1 ≤ out }
    ensures { Adds (K.seen sink.old) page.old (K.seen sink.new) page.new (max_line layout.now max out) }
{
    let max = u64::from(max);
    if max <= out {
        let y = layout.base().saturating_sub(curve_height(max, out));
        write_across(b"h", LEFT, y, layout.right(), page, sink);
    } else {
        write_across(
            b"f",
            LEFT,
            u64::from(layout.top),
            layout.right(),
            page,
            sink,
        );
    }
}

/// Writes the scale of the curves.
pub(crate) fn write_scale<K: Sink>(
    layout: &Layout,
    max: u32,
    peaks: Peaks,
    page: &mut Page,
    sink: &mut K,
)
    requires { 1 ≤ peaks.out }
    ensures { Adds (K.seen sink.old) page.old (K.seen sink.new) page.new (scale_text layout.now max peaks) }
{
    let top = u64::from(layout.top);
    write_max_line(layout, max, peaks.out, page, sink);
    write_across(b"o", LEFT, layout.base(), layout.right(), page, sink);
    write_scale_top(top + 4, peaks.out, max, page, sink);
    write_label(b"x", LEFT - 6, top + 22, b"leases out", page, sink);
    write_label_number(
        b"y",
        Point {
            x: LEFT - 6,
            y: top + 36,
        },
        b"queued /",
        peaks.scale(),
        page,
        sink,
    );
    write_label(b"e", LEFT - 6, top + 49, b"0", page, sink);
}

/// Writes the curves of a panel, by the peaks of the run.
pub(crate) fn write_curve<K: Sink>(
    layout: &Layout,
    max: u32,
    peaks: Peaks,
    levels: &[Level],
    page: &mut Page,
    sink: &mut K,
)
    requires { 1 ≤ peaks.out }
    ensures { Adds (K.seen sink.old) page.old (K.seen sink.new) page.new (curve_text layout.now max peaks levels.now) }
{
    write_leases(layout, peaks.out, levels, page, sink);
    write_queued(layout, peaks.queued, peaks.scale(), levels, page, sink);
    write_scale(layout, max, peaks, page, sink);
}
