//! What a run takes memory for, before any desk moves.
ghost use Rattle.std.specs.Prelude.{◌≡◌, ◌≤◌, [], All, IfOk, None, length, map, vec_capacity};
ghost use Rattle.resource_lock.specs.Made.{made_of};
ghost use Rattle.resource_lock.specs.Opening.{opening_of};
ghost use Rattle.coordination.specs.Sights.{workers_from};
ghost use Rattle.shared_services.specs.declared.jobs.TheConstants.{MAX_DESKS, MAX_JOB_LEASES};
ghost use Rattle.shared_services.specs.Services.{lock_count};
ghost use Rattle.shared_services.specs.Worked.{CanRun};

use crate::ServiceTable;
use crate::job_laws::fresh_passes_can_run;
use crate::jobs::Job;
use crate::workers::Worker;
use coordination::{Coordination, Opened, Pass, openings_are_at_rest};
use lock_journal::Book;
use resource_lock::{Graph, GraphTasks};
use std::alloc::{AllocError, Global};

// A graph with the locks of the services, and without tasks.
fn graph_of(alloc: Global, table: &ServiceTable, workers: u32, max_leases: u32) -> Graph
    requires some_worker { 1 ≤ workers }
    requires few_workers { workers ≤ MAX_DESKS }
    requires some_lease { 1 ≤ max_leases }
    requires few_leases { max_leases ≤ MAX_JOB_LEASES }
    ensures { result ≡ made_of (lock_count table.now) None workers max_leases [] [] }
{
    let locks = table.locks();
    Graph::new(
        locks,
        None,
        workers,
        max_leases,
        GraphTasks::none(alloc),
        Vec::new(alloc),
    )
}

// How many changes the entries of the jobs make: a use is locked and unlocked, and a lease is taken and given.
fn changes_of(jobs: &[Job]) -> u64 {
    let mut changes = 0u64;
    for job in jobs {
        let uses = job.uses.len() as u64;
        changes = changes.saturating_add(uses.saturating_add(1).saturating_mul(2));
    }
    changes
}

// A book of the graph without an entry, and with room for those of all jobs.
fn book_of(alloc: Global, graph: Graph, jobs: &[Job]) -> Result<Box<Book>, AllocError>
    ensures graph { IfOk result (λ book. book.value.graph ≡ graph) }
    ensures state { IfOk result (λ book. book.value.state ≡ opening_of graph) }
    ensures whole { IfOk result (λ book. book.value.given ≡ 0) }
    ensures history { IfOk result (λ book. book.value.history ≡ []) }
{
    let entries = (jobs.len() as u64).saturating_mul(2);
    Ok(Box::new(
        alloc,
        Book::opening(alloc, graph, entries, changes_of(jobs))?,
    )?)
}

/// A service over such a book, with a pass for each worker.
pub(crate) fn open(
    alloc: Global,
    table: &ServiceTable,
    jobs: &[Job],
    workers: u32,
    max_leases: u32,
) -> Result<Box<Opened>, AllocError>
    requires some_worker { 1 ≤ workers }
    requires few_workers { workers ≤ MAX_DESKS }
    requires some_lease { 1 ≤ max_leases }
    requires few_leases { max_leases ≤ MAX_JOB_LEASES }
    ensures graph { IfOk result (λ opened. opened.value.service.book.graph ≡ made_of (lock_count table.now) None workers max_leases [] []) }
    ensures len { IfOk result (λ opened. length opened.value.passes.items ≡ workers) }
    ensures workers { IfOk result (λ opened. map (λ p. p.sight.worker.0) opened.value.passes.items ≡ workers_from 0 workers) }
    ensures service { IfOk result (λ opened. All (λ p. p.service ≡ opened.value.service.service) opened.value.passes.items) }
    ensures untouched { IfOk result (λ opened. All (λ p. p.sight.seen.history ≡ []) opened.value.passes.items) }
    ensures ready { IfOk result (λ opened. All (λ p. CanRun table.now p.sight) opened.value.passes.items) }
{
    openings_are_at_rest();
    fresh_passes_can_run();
    let graph = graph_of(alloc, table, workers, max_leases);
    let book = book_of(alloc, graph, jobs)?;
    Ok(Box::new(alloc, Coordination::open(alloc, book)?)?)
}

/// RunBuffers for the workers, and for the passes and desks that they leave.
#[derive(Drop)]
pub(crate) struct RunBuffers<F> {
    pub team: Vec<Worker<F>>,
    pub passes: Vec<Pass>,
    pub desks: Vec<F>,
}

impl<F: Drop> RunBuffers<F> {
    /// RunBuffers for so many workers.
    pub fn new(alloc: Global, workers: usize) -> Result<RunBuffers<F>, AllocError>
        ensures empty { IfOk result (λ room. (room.team.items ≡ []) × (room.passes.items ≡ []) × (room.desks.items ≡ [])) }
        ensures room { IfOk result (λ room. (workers ≤ vec_capacity room.team) × (workers ≤ vec_capacity room.passes)
            × (workers ≤ vec_capacity room.desks)) }
    {
        Ok(RunBuffers {
            team: Vec::with_capacity(alloc, workers)?,
            passes: Vec::with_capacity(alloc, workers)?,
            desks: Vec::with_capacity(alloc, workers)?,
        })
    }
}
