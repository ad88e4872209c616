//! What a run takes memory for, before any desk moves.
ghost use Rattle.std.specs.Prelude.{◌≡◌, ◌≤◌, [], All, IfOk, IfSome, Option, Some, length, map};
ghost use Rattle.logbook.specs.Pages.{Book as Ledger};
ghost use Rattle.resource_lock.specs.Opening.{opening_of};
ghost use Rattle.coordination.specs.Passes.{ServiceId};
ghost use Rattle.plan_reader.specs.Graph.{graph_of};
ghost use Rattle.plan_reader.specs.declared.limits.TheConstants.{MAX_LEASES, MAX_WORKERS};
ghost use Rattle.build_runner.specs.Prepared.{IsOpenedOn, IsPrepared};
ghost use Rattle.build_runner.specs.Watching.{IsWatchedBy};
ghost use Rattle.plan_reader.specs.Units.{unit_view};

use crate::watching::room_for;
use build_workers::{Kit, RunOptions, RunService};
use coordination::{Coordination, OpenedWithViews, Pass, QueuedUnits, openings_are_at_rest};
use history_views::View;
use lock_journal::Book;
use lock_transforms::kinds::room_for_any;
use plan_reader::{Plan, UnitWork, units_of};
use resource_lock::Graph;
use run_watch::{BoardRoom, Watcher};
use std::alloc::{AllocError, Global};
use std::sync::Wait;

/// The service of a run, with a pass for each worker.
#[derive(Drop)]
pub(crate) struct OpenedRun<'a, R: Wait> {
    pub service: RunService<'a, R>,
    pub passes: Vec<Pass>,
}

/// The entries of a task, beside those of its actions: start and end, or skip alone.
const ENTRIES_A_TASK: u64 = 2;

/// The entries of an action, beside those of its units: submit, park, resume.
const ENTRIES_AN_ACTION: u64 = 3;

/// The entries of a unit: claim and close, or block and unblock.
const ENTRIES_A_UNIT: u64 = 2;

/// The most changes of a task's entries: start takes the lock and the lease, and end gives them back.
/// Each moves the task's mark.
const CHANGES_A_TASK: u64 = 3 + 3;

/// The most changes of an action's entries: it is queued; park gives back and parks the lock, gives the
/// lease, and resume takes them again. Each moves the action's mark.
const CHANGES_AN_ACTION: u64 = 1 + 4 + 4;

/// The most changes of a unit's entries: an item is queued, claimed with a lease, and closed. A fetch
/// blocks the worker, with its lock and the lease given back, and unblocks it.
const CHANGES_A_UNIT: u64 = 5 + 5;

/// The value in a box.
pub(crate) fn boxed<T: Drop>(alloc: Global, value: T) -> Result<Box<T>, AllocError>
    ensures { IfOk result (λ b. b.value ≡ value) }
{
    match Box::new(alloc, value) {
        Ok(value) => Ok(value),
        Err(_) => Err(AllocError),
    }
}

// A book of the graph without an entry, and with room for those of a whole run.
//
// It fails where there is no memory for that room.
fn open_book(alloc: Global, graph: Graph) -> Result<Book, AllocError>
    ensures graph { IfOk result (λ book. book.graph ≡ graph) }
    ensures state { IfOk result (λ book. book.state ≡ opening_of graph) }
    ensures whole { IfOk result (λ book. book.given ≡ 0) }
    ensures history { IfOk result (λ book. book.history ≡ []) }
{
    let tasks = graph.tasks().len() as u64;
    let actions = graph.actions().len() as u64;
    let units = u64::from(graph.units());
    let entries = ENTRIES_A_TASK * tasks + ENTRIES_AN_ACTION * actions + ENTRIES_A_UNIT * units;
    let changes = CHANGES_A_TASK * tasks
        + CHANGES_AN_ACTION * actions
        + CHANGES_A_UNIT * units
        + room_for_any(&graph);
    Book::opening(alloc, graph, entries, changes)
}

// The service over a book of the graph, with a pass for each worker, and so many views.
fn open_service<'a, R: Wait>(
    rt: &'a R,
    alloc: Global,
    graph: Graph,
    views: u32,
) -> Result<(Box<OpenedRun<'a, R>>, Vec<View>), AllocError>
    ensures opened { IfOk result (λ made. IsOpenedOn graph made.0.value.service made.0.value.passes.items) }
    ensures views { IfOk result (λ made. All (λ v. made.0.value.service.service.ledger ≡ Some v.ledger) made.1.items) }
{
    openings_are_at_rest();
    let mut book = boxed(alloc, open_book(alloc, graph)?)?;
    book.keep_queued(alloc)?;
    let OpenedWithViews {
        service,
        passes,
        views,
    } = Coordination::open_with_views(alloc, rt, book, QueuedUnits, views)?;
    Ok((boxed(alloc, OpenedRun { service, passes })?, views))
}

// The graph of the plan, as the options have it.
fn graph_of(alloc: Global, plan: &Plan, options: &RunOptions) -> Result<Graph, AllocError>
    requires some_worker { 1 ≤ options.now.workers }
    requires few_workers { options.now.workers ≤ MAX_WORKERS }
    requires some_lease { 1 ≤ options.now.max_leases }
    requires few_leases { options.now.max_leases ≤ MAX_LEASES }
    ensures { IfOk result (λ g. g ≡ graph_of plan.now options.now.workers options.now.max_leases options.now.parallel) }
{
    plan.graph(alloc, options.workers, options.max_leases, options.parallel)
}

// The service over a book of the plan's graph, and a kit for each worker, with a view of the service where the run is watched.
fn open_for<'a, R: Wait>(
    rt: &'a R,
    alloc: Global,
    plan: &Plan,
    options: &RunOptions,
) -> Result<(Box<OpenedRun<'a, R>>, Vec<Kit>), AllocError>
    requires some_worker { 1 ≤ options.now.workers }
    requires few_workers { options.now.workers ≤ MAX_WORKERS }
    requires some_lease { 1 ≤ options.now.max_leases }
    requires few_leases { options.now.max_leases ≤ MAX_LEASES }
    ensures opened { IfOk result (λ made. IsOpenedOn (graph_of plan.now options.now.workers options.now.max_leases options.now.parallel)
        made.0.value.service made.0.value.passes.items) }
    ensures kits { IfOk result (λ made. length made.1.items ≡ options.now.workers) }
    ensures watched { IfOk result (λ made. All (IsWatchedBy made.0.value.service.service) made.1.items) }
{
    let graph = graph_of(alloc, plan, options)?;
    let units = graph.units();
    let count = if options.watch { options.workers } else { 0 };
    let (opened, views) = open_service(rt, alloc, graph, count)?;
    let kits = kits_of(alloc, options.workers, views, units)?;
    Ok((opened, kits))
}

// A kit for each worker, with a view as long as there are views, and with room for looks at so many units.
fn kits_of(
    alloc: Global,
    workers: u32,
    mut views: Vec<View>,
    units: u32,
) -> Result<Vec<Kit>, AllocError>
    ensures len { IfOk result (λ kits. length kits.items ≡ workers) }
    ensures watched { (service : ServiceId) → All (λ v. service.ledger ≡ Some v.ledger) views.items
        → IfOk result (λ kits. All (IsWatchedBy service) kits.items) }
{
    let mut kits = Vec::with_capacity(alloc, workers as usize)?;
    for _ in 0..workers {
        let watcher = watcher_of(alloc, views.pop(), units)?;
        kits.push(Kit { watcher })?;
    }
    Ok(kits)
}

// A watcher over a view, if there is one.
fn watcher_of(alloc: Global, view: Option<View>, units: u32) -> Result<Option<Watcher>, AllocError>
    ensures { (ledger : Option Ledger) → IfSome view (λ v. ledger ≡ Some v.ledger)
        → IfOk result (λ made. IfSome made (λ w. ledger ≡ Some w)) }
{
    match view {
        Some(view) => Ok(Some(Watcher::new(alloc, view, units)?)),
        None => Ok(None),
    }
}

/// What a run has before it begins.
#[derive(Drop)]
pub(crate) struct Prepared<'a, 'r, R: Wait> {
    /// The graph of the plan.
    pub graph: Graph,
    /// The units by their numbers.
    pub units: Vec<UnitWork<'a>>,
    /// The service, over a book of that graph, with a pass for each worker.
    pub opened: Box<OpenedRun<'r, R>>,
    /// A kit for each worker, with a view of the service where the run is watched.
    pub kits: Vec<Kit>,
    /// Room for what is seen of the units, where the run is watched.
    pub looks: Option<BoardRoom>,
}

impl<'a, 'r, R: Wait> Prepared<'a, 'r, R> {
    /// What a run of the plan needs. It fails for want of memory.
    pub fn new(
        rt: &'r R,
        alloc: Global,
        plan: &'a Plan,
        options: &RunOptions,
    ) -> Result<Prepared<'a, 'r, R>, AllocError>
        requires some_worker { 1 ≤ options.now.workers }
        requires few_workers { options.now.workers ≤ MAX_WORKERS }
        requires some_lease { 1 ≤ options.now.max_leases }
        requires few_leases { options.now.max_leases ≤ MAX_LEASES }
        ensures { IfOk result (λ p. IsPrepared plan.now options.now p.graph (map unit_view p.units.items) p.opened.value.service
            p.opened.value.passes.items p.kits.items p.looks) }
    {
        let graph = graph_of(alloc, plan, options)?;
        let units = units_of(alloc, plan)?;
        let looks = room_for(alloc, options.watch, graph.units())?;
        let (opened, kits) = open_for(rt, alloc, plan, options)?;
        Ok(Prepared {
            graph,
            units,
            opened,
            kits,
            looks,
        })
    }
}
