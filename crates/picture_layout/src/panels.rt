//! The panels of a picture, which lie below each other.
ghost use Rattle.std.specs.Prelude.{◌≡◌, ◌<◌, ◌≤◌, ◌^◌, ◌+◌, ◌++◌, [], IfOk, IfErr, OnOk, map, length, nat_lt};
ghost use Rattle.std.specs.Ordering.{nat_cmp};
ghost use Rattle.std.specs.List.{filter};
ghost use Rattle.std.specs.List.Sorted.{IsStrictlySortedBy};
ghost use Rattle.picture_layout.specs.Panels.{touches, lock_of, with_lock, locks_from, lane_of, with_lane, lanes_from, folded_in, panel_with};
ghost use Rattle.picture_layout.specs.Panels.{panel_view, panels_from, heading};
ghost use Rattle.picture_layout.specs.Panels.{first_top, least_height, panels_in_format, format_of};
ghost use Rattle.picture_layout.specs.Panels.{last_shown, height_of, IsRefused, IsRefusedPanel, Rising, begun_before, begun_from};
ghost use Rattle.picture_layout.specs.declared.panels.LayoutFail.TheVariants.{TooLarge, NoMemory};

use crate::layout::{
    FORMATS, Folding, Format, Layout, Scale, USUAL, rows_of, run_row_height, scale_of,
};
use crate::panel::Panel;
use resource_lock::{LockId, WorkerId};
use run_spans::{Span, Subject};
use std::alloc::{AllocError, AllocFailed, Global};
use std::collections::BTreeSet;

/// So many entries, or more, aren't drawn.
pub const MOST_ENTRIES: usize = 1 << 30;

/// Common viewers draw no picture that is so high, or higher.
pub(crate) const VIEWED: u64 = 32_768;

/// The entries of a panel: from `first` on, before `behind`.
#[derive(Clone, Copy)]
struct PanelEntries {
    first: u32,
    behind: u32,
}

/// Whether a span covers an entry of a panel.
fn touches(part: PanelEntries, span: &Span) -> bool
    ensures { result ≡ touches part.first part.behind span.now }
{
    span.from < u64::from(part.behind)
        && u64::from(part.first) < span.until
        && span.from < span.until
}

/// The spans of these that cover an entry of a panel.
fn shown_in(alloc: Global, spans: &[Span], part: PanelEntries) -> Result<Vec<Span>, AllocError>
    ensures { IfOk result (λ shown. shown.items ≡ filter (touches part.first part.behind) spans.now) }
{
    spans
        .iter()
        .copied()
        .filter(|span| touches(part, span))
        .collect(alloc)
}

/// The same of some spans, and of others behind them.
fn shown_of(
    alloc: Global,
    before: &[Span],
    begun: &[Span],
    part: PanelEntries,
) -> Result<Vec<Span>, AllocError>
    ensures { IfOk result (λ shown. shown.items ≡ filter (touches part.first part.behind) (before.now ++ begun.now)) }
{
    let mut shown = shown_in(alloc, before, part)?;
    let more = shown_in(alloc, begun, part)?;
    shown.extend_from_slice(&more)?;
    Ok(shown)
}

/// Panels spans that stand in the order in which they begin: those that begin before an entry, and the others.
pub(crate) fn split_begun(spans: &[Span], entry: u32) -> (&[Span], &[Span])
    ensures before { result.0.now ≡ begun_before entry spans.now }
    ensures from { result.1.now ≡ begun_from entry spans.now }
{
    let mut count = 0;
    while count < spans.len() && spans[count].from < u64::from(entry) {
        count += 1;
    }
    (&spans[..count], &spans[count..])
}

/// The lock that gets a row because of what a span tells, if it tells of one.
fn lock_of(folding: Folding, subject: Subject) -> Option<u32>
    ensures { result ≡ lock_of folding subject }
{
    match (folding, subject) {
        (Folding::Unfolded, Subject::Owned(LockId(lock)))
        | (Folding::Unfolded | Folding::Unparked, Subject::Parked(_, LockId(lock))) => Some(lock),
        _ => None,
    }
}

/// Adds that lock, if there is one.
fn add_lock(
    folding: Folding,
    locks: &mut BTreeSet<u32>,
    span: &Span,
) -> Result<(), AllocFailed<u32>>
    ensures { OnOk result (locks.new.keys ≡ with_lock (lock_of folding span.now.subject) locks.old.keys) }
{
    if let Some(lock) = lock_of(folding, span.subject) {
        locks.insert(lock)?;
    }
    Ok(())
}

/// The locks that get a row because of what spans tell, by rising number.
fn locks_in(alloc: Global, folding: Folding, shown: &[Span]) -> Result<Vec<u32>, LayoutFail>
    ensures are { IfOk result (λ locks. locks.items ≡ locks_from folding [] shown.now) }
    ensures rising { IfOk result (λ locks. IsStrictlySortedBy nat_cmp locks.items) }
    ensures refused { IfErr result (λ fail. fail ≡ NoMemory) }
{
    let mut locks = BTreeSet::new(alloc);
    for span in shown {
        add_lock(folding, &mut locks, span)?;
    }
    Ok(locks.into_iter().collect(alloc)?)
}

/// The lane of a worker that has parked a lock, as a number of its own.
pub fn lane_of(lock: u32, worker: u32) -> u64
    ensures { result ≡ lane_of lock worker }
{
    u64::from(lock) * (1 << 32) + u64::from(worker)
}

/// Adds the lane of a span that tells of a parked lock, where such a lock has a row.
fn add_lane(
    folding: Folding,
    lanes: &mut BTreeSet<u64>,
    span: &Span,
) -> Result<(), AllocFailed<u64>>
    ensures { OnOk result (lanes.new.keys ≡ with_lane folding span.now.subject lanes.old.keys) }
{
    match (folding, span.subject) {
        (Folding::All, _) => {}
        (_, Subject::Parked(WorkerId(worker), LockId(lock))) => {
            lanes.insert(lane_of(lock, worker))?;
        }
        _ => {}
    }
    Ok(())
}

/// The lanes of the workers that have parked a lock which has a row, rising.
fn lanes_in(alloc: Global, folding: Folding, shown: &[Span]) -> Result<Vec<u64>, LayoutFail>
    ensures are { IfOk result (λ lanes. lanes.items ≡ lanes_from folding [] shown.now) }
    ensures rising { IfOk result (λ lanes. IsStrictlySortedBy nat_cmp lanes.items) }
    ensures refused { IfErr result (λ fail. fail ≡ NoMemory) }
{
    let mut lanes = BTreeSet::new(alloc);
    for span in shown {
        add_lane(folding, &mut lanes, span)?;
    }
    Ok(lanes.into_iter().collect(alloc)?)
}

/// How many locks of which spans tell have no row, where so many have one.
fn folded_in(
    alloc: Global,
    folding: Folding,
    shown: &[Span],
    rows: usize,
) -> Result<u64, LayoutFail>
    requires { rows ≡ length (locks_from folding [] shown.now) }
    ensures are { IfOk result (λ folded. folded ≡ folded_in folding shown.now) }
    ensures refused { IfErr result (λ fail. fail ≡ NoMemory) }
{
    if matches!(folding, Folding::Unfolded) {
        return Ok(0);
    }
    let all = locks_in(alloc, Folding::Unfolded, shown)?;
    Ok((all.len() as u64).saturating_sub(rows as u64))
}

/// Why the panels of a picture aren't laid out.
#[derive(Clone, Copy)]
pub enum LayoutFail {
    /// There was no memory.
    NoMemory,
    /// The picture would be 2^32 px high, or higher.
    TooLarge,
}

impl From<AllocError> for LayoutFail {
    ghost use Rattle.std.specs.Prelude.{◌≡◌};
    ghost use Rattle.picture_layout.specs.declared.panels.LayoutFail.TheVariants.{NoMemory};

    ghost from_gives = { λ _ fail. fail ≡ NoMemory };

    fn from(_error: AllocError) -> LayoutFail {
        LayoutFail::NoMemory
    }
}

impl<T: Drop> From<AllocFailed<T>> for LayoutFail {
    ghost use Rattle.std.specs.Prelude.{◌≡◌};
    ghost use Rattle.picture_layout.specs.declared.panels.LayoutFail.TheVariants.{NoMemory};

    ghost from_gives = { λ _ fail. fail ≡ NoMemory };

    fn from(_error: AllocFailed<T>) -> LayoutFail {
        LayoutFail::NoMemory
    }
}

/// The panel of some entries, at a place, with the spans that are drawn in it.
fn panel_at(
    alloc: Global,
    workers: u32,
    scale: Scale,
    shown: Vec<Span>,
    part: PanelEntries,
    top: u32,
) -> Result<Panel, LayoutFail>
    ensures panel { IfOk result (λ panel. panel_view panel ≡ panel_with workers scale part.first part.behind top shown.items) }
    ensures refused { IfErr result (λ fail. IsRefusedPanel (panel_with workers scale part.first part.behind top shown.items) fail) }
{
    let folding = scale.folding;
    let locks = locks_in(alloc, folding, &shown)?;
    let lanes = lanes_in(alloc, folding, &shown)?;
    let folded = folded_in(alloc, folding, &shown, locks.len())?;
    let (Ok(lock_count), Ok(lane_count)) = (u32::try_from(locks.len()), u32::try_from(lanes.len()))
    else {
        return Err(LayoutFail::TooLarge);
    };
    let layout = Layout {
        first: part.first,
        behind: part.behind,
        per: scale.per,
        top,
        workers,
        locks: lock_count,
        lanes: lane_count,
        folded,
        folding,
    };
    Ok(Panel {
        layout,
        shown,
        locks,
        lanes,
    })
}

/// The spans that the last of some panels shows.
fn shown_last(panels: &[Panel]) -> &[Span]
    ensures { result.now ≡ last_shown [] (map panel_view panels.now) }
{
    match panels {
        [.., last] => &last.shown,
        [] => &[],
    }
}

/// How high the picture of these panels is.
pub fn height_of(panels: &[Panel]) -> u64
    ensures { result ≡ height_of (map panel_view panels.now) }
{
    match panels {
        [.., last] => last.layout.bottom() + 20,
        [] => 76,
    }
}

/// A place of a picture, which is less than 2^32 px high.
fn place_of(y: u64) -> Result<u32, LayoutFail>
    ensures place { IfOk result (λ place. place ≡ y) }
    ensures refused { IfErr result (λ fail. (fail ≡ TooLarge) × (2 ^ 32 ≤ y)) }
{
    match u32::try_from(y) {
        Ok(place) => Ok(place),
        Err(_) => Err(LayoutFail::TooLarge),
    }
}

/// Where the first panel of a picture begins, and how much lies between two.
#[derive(Clone, Copy)]
struct Spacing {
    begin: u32,
    gap: u32,
}

/// The panels from the first entry on, before `end`. What a panel shows is looked for among
/// what the panel above shows, and the spans that begin in it.
fn panels_from(
    alloc: Global,
    workers: u32,
    scale: Scale,
    spans: &[Span],
    end: u32,
    spacing: Spacing,
) -> Result<Vec<Panel>, LayoutFail>
    requires rising { Rising 1 spans.now }
    requires end { 1 ≤ end }
    requires few { end + scale.size < 2 ^ 32 }
    ensures panels { IfOk result (λ panels. map panel_view panels.items ≡ panels_from scale.panels workers scale spans.now end spacing.gap 1 spacing.begin) }
    ensures refused { IfErr result (λ fail. IsRefused (panels_from scale.panels workers scale spans.now end spacing.gap 1 spacing.begin) fail) }
{
    let mut panels = Vec::new(alloc);
    let mut rest = spans;
    let mut top = u64::from(spacing.begin);
    let mut first = 1;
    for place in 0..scale.panels {
        let behind = (first + scale.size).min(end);
        let (begun, later) = split_begun(rest, behind);
        let part = PanelEntries { first, behind };
        let shown = shown_of(alloc, shown_last(&panels), begun, part)?;
        let panel = panel_at(alloc, workers, scale, shown, part, place_of(top)?)?;
        top = panel.layout.bottom() + u64::from(spacing.gap);
        panels.push(panel)?;
        rest = later;
        first = behind;
    }
    Ok(panels)
}

/// The height of a panel's heading. Where there is one panel it has none.
fn heading(scale: Scale) -> u32
    ensures is { result ≡ heading scale }
    ensures few { result ≤ 24 }
{
    if scale.panels > 1 { 24 } else { 0 }
}

/// Where the first panel begins: below the whole run, where there are several.
fn first_top(workers: u32, scale: Scale) -> u32
    requires { workers ≤ 32 }
    ensures { result ≡ first_top workers scale }
{
    if scale.panels > 1 {
        240 + workers * u32::from(run_row_height(workers))
    } else {
        86
    }
}

/// The panels of a picture in a format, from the top. TooLarge comes where the picture would be 2^32 px high, or
/// higher.
pub fn panels_in_format(
    alloc: Global,
    format: Format,
    workers: u32,
    count: u32,
    spans: &[Span],
) -> Result<Vec<Panel>, LayoutFail>
    requires workers { 1 ≤ workers }
    requires few_workers { workers ≤ 32 }
    requires few { count < 2 ^ 30 }
    requires rising { Rising 1 spans.now }
    ensures panels { IfOk result (λ panels. map panel_view panels.items ≡ panels_in_format format workers spans.now count) }
    ensures low { IfOk result (λ panels. height_of (panels_in_format format workers spans.now count) < 2 ^ 32) }
    ensures refused { IfErr result (λ fail. IsRefused (panels_in_format format workers spans.now count) fail) }
{
    let scale = scale_of(format, workers, count);
    let spacing = Spacing {
        begin: first_top(workers, scale),
        gap: 30 + heading(scale),
    };
    let panels = panels_from(alloc, workers, scale, spans, count + 1, spacing)?;
    place_of(height_of(&panels))?;
    Ok(panels)
}

/// How high the panels of a picture are together at least.
fn least_height(workers: u32, scale: Scale) -> u64
    requires { workers ≤ 32 }
    ensures { result ≡ least_height workers scale }
{
    let rows = u64::from(workers) * u64::from(rows_of(workers).height);
    u64::from(scale.panels) * (82 + rows)
}

/// Whether the picture in a format has a height that common viewers draw. Panels that are too high without any row of a lock
/// aren't laid out.
fn is_viewed(
    alloc: Global,
    format: Format,
    workers: u32,
    count: u32,
    spans: &[Span],
) -> Result<bool, AllocError>
    requires workers { 1 ≤ workers }
    requires few_workers { workers ≤ 32 }
    requires few { count < 2 ^ 30 }
    requires rising { Rising 1 spans.now }
    ensures { IfOk result (λ is. is ≡ nat_lt (height_of (panels_in_format format workers spans.now count)) VIEWED) }
{
    if least_height(workers, scale_of(format, workers, count)) >= VIEWED {
        return Ok(false);
    }
    match panels_in_format(alloc, format, workers, count, spans) {
        Ok(panels) => Ok(height_of(&panels) < VIEWED),
        Err(LayoutFail::TooLarge) => Ok(false),
        Err(LayoutFail::NoMemory) => Err(AllocError),
    }
}

/// The format of a picture: the first of `FORMATS` in which it has a height that common viewers draw, and where it has in none,
/// the usual one.
pub fn format_of(
    alloc: Global,
    workers: u32,
    count: u32,
    spans: &[Span],
) -> Result<Format, AllocError>
    requires workers { 1 ≤ workers }
    requires few_workers { workers ≤ 32 }
    requires few { count < 2 ^ 30 }
    requires rising { Rising 1 spans.now }
    ensures { IfOk result (λ format. format ≡ format_of workers spans.now count) }
{
    for format in FORMATS {
        if is_viewed(alloc, *format, workers, count, spans)? {
            return Ok(*format);
        }
    }
    Ok(USUAL)
}
