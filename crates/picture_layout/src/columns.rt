//! The columns of the overview, and how high each is filled.
ghost use Rattle.std.specs.Prelude.{◌≡◌, ◌≤◌, ◌<◌, ◌^◌, length, map, IfOk, count_by};
ghost use Rattle.std.specs.List.{range_with_len};
ghost use Rattle.picture_layout.specs.Columns.{columns_of, column, out_height, queue_height, held_height, fill_of, fill_view, by_column};
ghost use Rattle.picture_layout.specs.Columns.{row_view, run_row, run_rows};
ghost use Rattle.picture_layout.specs.Layout.{curve_height};
ghost use Rattle.picture_layout.specs.Panels.{Rising};
ghost use Rattle.picture_layout.specs.Occupancy.{standing};

use crate::layout::{CURVE, ceil_div, curve_height};
use crate::occupancy::{Occupancy, standing};
use crate::totals::{most_queued, total_out};
use run_spans::{Level, Span};
use std::alloc::{AllocError, Global};

/// How many columns there are, and how many entries each has but the last one, which may have fewer.
#[derive(Clone, Copy)]
pub struct Columns {
    pub size: u32,
    pub number: u32,
}

/// The columns of so many entries: 297 at most.
pub(crate) fn columns_of(count: u32) -> Columns
    requires few { count < 2 ^ 30 }
    ensures is { result ≡ columns_of count }
    ensures some { 1 ≤ result.size }
    ensures few { result.number ≤ count }
{
    let size = ceil_div(count, 297).max(1);
    Columns {
        size,
        number: ceil_div(count, size),
    }
}

/// Those of a column, of one for each entry.
fn column<T>(columns: Columns, all: &[T], place: u32) -> &[T]
    ensures are { result.now ≡ column columns.size all.now place }
    ensures few { length result.now ≤ length all.now }
{
    let start = (u64::from(place) * u64::from(columns.size)) as usize;
    let rest = &all[start.min(all.len())..];
    &rest[..(columns.size as usize).min(rest.len())]
}

/// How high a total stands, where the most is at the top.
fn total_height(total: u128, most: u128) -> u64
    requires some { 1 ≤ most }
    requires few { most < 2 ^ 100 }
    ensures is { result ≡ curve_height total most }
    ensures within { result ≤ 48 }
{
    let scaled = u128::from(CURVE) * total.min(most) / most;
    scaled as u64
}

/// How high the leases out of a column's entries stand, on average, where so many are at the top.
fn out_height(top: u64, levels: &[Level]) -> u64
    requires few { length levels.now < 2 ^ 30 }
    ensures { result ≡ out_height top levels.now }
{
    let most = (levels.len() as u128 * u128::from(top)).max(1);
    total_height(total_out(levels), most)
}

/// How high the units stand that were queued at most after a column's entries.
fn queue_height(most: u64, levels: &[Level]) -> u64
    requires some { 1 ≤ most }
    ensures { result ≡ queue_height most levels.now }
{
    curve_height(most_queued(levels), most)
}

/// After how many entries it stands so.
fn count_held(held: &[bool]) -> u64
    ensures is { result ≡ count_by (λ b. b) held.now }
    ensures few { result ≤ length held.now }
{
    held.iter().filter(|is| **is).count() as u64
}

/// How high a column is filled, of so many px, by how many of its entries it stands so after.
fn held_height(room: u8, held: &[bool]) -> u64
    requires few { length held.now < 2 ^ 30 }
    ensures { result ≡ held_height room held.now }
{
    u64::from(room) * count_held(held) / (held.len() as u64).max(1)
}

/// How high the leases out stand in each column.
pub(crate) fn out_heights(
    alloc: Global,
    columns: Columns,
    top: u64,
    levels: &[Level],
) -> Result<Vec<u64>, AllocError>
    requires few { length levels.now < 2 ^ 30 }
    ensures { IfOk result (λ heights. heights.items ≡ by_column columns (out_height top) levels.now) }
{
    let mut heights = Vec::with_capacity(alloc, columns.number as usize)?;
    for place in 0..columns.number {
        heights.push(out_height(top, column(columns, levels, place)))?;
    }
    Ok(heights)
}

/// How high the queued units stand in each column.
pub(crate) fn queue_heights(
    alloc: Global,
    columns: Columns,
    most: u64,
    levels: &[Level],
) -> Result<Vec<u64>, AllocError>
    requires some { 1 ≤ most }
    ensures { IfOk result (λ heights. heights.items ≡ by_column columns (queue_height most) levels.now) }
{
    let mut heights = Vec::with_capacity(alloc, columns.number as usize)?;
    for place in 0..columns.number {
        heights.push(queue_height(most, column(columns, levels, place)))?;
    }
    Ok(heights)
}

/// How high each column of a row is filled, and after how many entries it stands so.
#[derive(Drop)]
pub struct Fill {
    pub heights: Vec<u64>,
    pub entries: u64,
}

fn held_heights(
    alloc: Global,
    columns: Columns,
    room: u8,
    held: &[bool],
) -> Result<Vec<u64>, AllocError>
    requires few { length held.now < 2 ^ 30 }
    ensures { IfOk result (λ heights. heights.items ≡ by_column columns (held_height room) held.now) }
{
    let mut heights = Vec::with_capacity(alloc, columns.number as usize)?;
    for place in 0..columns.number {
        heights.push(held_height(room, column(columns, held, place)))?;
    }
    Ok(heights)
}

fn fill_of(alloc: Global, columns: Columns, room: u8, held: &[bool]) -> Result<Fill, AllocError>
    requires few { length held.now < 2 ^ 30 }
    ensures { IfOk result (λ fill. fill_view fill ≡ fill_of columns room held.now) }
{
    let heights = held_heights(alloc, columns, room, held)?;
    Ok(Fill {
        heights,
        entries: count_held(held),
    })
}

/// What the row of a worker shows: after how many entries it has a lease, and after how many it has one, or is parked or
/// blocked.
#[derive(Drop)]
pub struct RunRow {
    pub leased: Fill,
    pub engaged: Fill,
}

/// How the row of a worker is laid out: its columns, and how high one is at most, in px.
#[derive(Clone, Copy)]
pub(crate) struct RowLayout {
    pub columns: Columns,
    pub room: u8,
}

/// How a worker's row is filled by one occupancy.
fn occupancy_fill(
    alloc: Global,
    layout: RowLayout,
    spans: &[Span],
    count: u32,
    occupancy: Occupancy,
    worker: u32,
) -> Result<Fill, AllocError>
    requires rising { Rising 1 spans.now }
    requires few { count < 2 ^ 30 }
    ensures { IfOk result (λ fill. fill_view fill ≡ fill_of layout.columns layout.room (standing occupancy worker spans.now count)) }
{
    let held = standing(alloc, occupancy, worker, spans, count)?;
    fill_of(alloc, layout.columns, layout.room, &held)
}

fn run_row(
    alloc: Global,
    layout: RowLayout,
    spans: &[Span],
    count: u32,
    worker: u32,
) -> Result<RunRow, AllocError>
    requires rising { Rising 1 spans.now }
    requires few { count < 2 ^ 30 }
    ensures { IfOk result (λ row. row_view row ≡ run_row layout.columns layout.room spans.now count worker) }
{
    // The pale height is that of entries of which one of the three is told, and the middle one is drawn over it: no difference is
    // rounded.
    let leased = occupancy_fill(alloc, layout, spans, count, Occupancy::Leased, worker)?;
    let engaged = occupancy_fill(alloc, layout, spans, count, Occupancy::Engaged, worker)?;
    Ok(RunRow { leased, engaged })
}

/// The row of each worker.
pub(crate) fn run_rows(
    alloc: Global,
    layout: RowLayout,
    workers: u32,
    spans: &[Span],
    count: u32,
) -> Result<Vec<RunRow>, AllocError>
    requires rising { Rising 1 spans.now }
    requires few { count < 2 ^ 30 }
    ensures rows { IfOk result (λ rows. map row_view rows.items ≡ run_rows layout.columns layout.room workers spans.now count) }
    ensures each { IfOk result (λ rows. length rows.items ≡ workers) }
{
    let mut rows = Vec::with_capacity(alloc, workers as usize)?;
    for worker in 0..workers {
        let row = run_row(alloc, layout, spans, count, worker)?;
        rows.push(row)?;
    }
    Ok(rows)
}
