//! The state that a run begins in.
ghost use Rattle.std.specs.Prelude.{◌≡◌, ◌≤◌, IfOk, None, replicate, map, All, vec_capacity};
ghost use Rattle.resource_lock.specs.Opening.{opening_of};
ghost use Rattle.resource_lock.specs.Holdings.{holding_from};
ghost use Rattle.resource_lock.specs.Counting.{no_counts};
ghost use Rattle.resource_lock.specs.StateView.{empty_holding};

use super::State;
use super::held::Held;
use super::mark_lists::MarkLists;
use crate::graphs::Graph;
use crate::ids::WorkerId;
use std::alloc::{AllocError, Global};

impl State {
    /// The state that a run of the graph begins in: no lock has an owner, nobody has a lease, has
    /// parked a lock or is blocked, and every mark is Waiting.
    ///
    /// It takes all memory that the state ever needs, and only want of memory is an error.
    pub fn opening(alloc: Global, graph: &Graph) -> Result<State, AllocError>
        ensures { IfOk result (λ state. state ≡ opening_of graph.now) }
    {
        let owners = no_owners(alloc, graph.locks() as usize)?;
        let marks = MarkLists::waiting(alloc, graph)?;
        let held = empty_holdings(alloc, graph.locks() as usize, graph.workers() as usize)?;
        Ok(State {
            max_leases: graph.max_leases(),
            all: graph.all(),
            owners,
            held,
            out: 0,
            owned: 0,
            marks,
        })
    }
}

// The owners of so many locks that have none. Only want of memory is an error.
fn no_owners(alloc: Global, locks: usize) -> Result<Vec<Option<WorkerId>>, AllocError>
    ensures { IfOk result (λ owners. owners.items ≡ replicate locks None) }
{
    vec![in alloc; None; locks]
}

// The entries of workers that have nothing, each with room for every lock. Only want of memory is
// an error.
fn empty_holdings(alloc: Global, locks: usize, workers: usize) -> Result<Vec<Held>, AllocError>
    ensures empty { IfOk result (λ held. map holding_from held.items ≡ replicate workers empty_holding) }
    ensures counts { IfOk result (λ held. map (λ h. h.counts) held.items ≡ replicate workers no_counts) }
    ensures room { IfOk result (λ held. All (λ h. locks ≤ vec_capacity h.parked) held.items) }
{
    let mut all = Vec::with_capacity(alloc, workers)?;
    for _ in 0..workers {
        all.push(Held::empty(alloc, locks)?)?;
    }
    Ok(all)
}
