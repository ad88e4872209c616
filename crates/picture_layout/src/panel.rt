//! What a panel of the picture shows.
ghost use Rattle.std.specs.Prelude.{◌≡◌, ◌<◌, ◌^◌, length};
ghost use Rattle.std.specs.Ordering.{nat_cmp};
ghost use Rattle.std.specs.List.Sorted.{IsStrictlySortedBy};
ghost use Rattle.std.proofs.Props.{props};

use crate::layout::Layout;
use run_spans::Span;

/// A panel: a part of the run. Where it lies, the spans that are drawn in it, and the rows of its locks.
#[derive(Drop)]
pub struct Panel {
    pub layout: Layout,
    pub shown: Vec<Span>,
    /// The locks that have a row, by rising number.
    pub locks: Vec<u32>,
    /// The lanes of the workers that have parked a lock, by the lock and then the worker.
    pub lanes: Vec<u64>,
    pub ghost counted: { layout.locks ≡ length locks.items },
    pub ghost few: { length locks.items < 2 ^ 32 },
    pub ghost rising: { IsStrictlySortedBy nat_cmp locks.items } by { Prim.hlevel props },
    pub ghost few_lanes: { length lanes.items < 2 ^ 32 },
    pub ghost lanes_rise: { IsStrictlySortedBy nat_cmp lanes.items } by { Prim.hlevel props },
}
