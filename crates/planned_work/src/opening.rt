//! A service over a plan is opened.
ghost use Rattle.std.specs.Prelude.{◌≡◌, [], All, IfErr, IfOk, map};
ghost use Rattle.std.specs.Arc.{arc_value};
ghost use Rattle.resource_lock.specs.AtRest.{IsAtRest};
ghost use Rattle.planned_work.specs.Fitting.{IsPlanFit};
ghost use Rattle.planned_work.specs.Graphs.{WhyNoGraph, graph_of_plan};
ghost use Rattle.planned_work.specs.Numbers.{without_names};
ghost use Rattle.planned_work.specs.Opened.{IsOpenedFor, IsOpenedOn};

use crate::plan_graphs::numbers_of;
use crate::plans::WorkPlan;
use crate::workers::PlanWorker;
use coordination::{Pass, Planned, Slot, openings_are_at_rest};
use lock_journal::Book;
use resource_lock::Graph;
use std::alloc::{AllocError, Global};
use std::sync::Arc;

/// Why no service is opened.
#[derive(Clone, Copy, PartialEq, Eq)]
pub enum OpenRefusal {
    /// The numbers of workers or leases aren't in range.
    BadNumber,
    /// A task comes after itself, or after one that does.
    Cycle,
    /// There wasn't enough memory, or the tasks have 2^32 names in all that they come after, or more.
    NoMemory,
}

/// A service over the plan, for 1 to `MAX_WORKERS` workers, of whom 1 to `MAX_LEASES` may have a lease at once: its workers in order. The plan
/// stays as it is.
pub fn open_plan(
    alloc: Global,
    plan: &WorkPlan,
    workers: u32,
    max_leases: u32,
) -> Result<Vec<Box<PlanWorker>>, OpenRefusal>
    ensures opened { IfOk result (λ all. IsOpenedFor plan.now workers max_leases (map (λ w. w.value.pass) all.items)) }
    ensures err { IfErr result (WhyNoGraph plan.now workers max_leases) }
{
    let graph = plan.graph(alloc, workers, max_leases)?;
    match open_graph(alloc, graph) {
        Ok(all) => Ok(all),
        Err(_) => Err(OpenRefusal::NoMemory),
    }
}

// The workers of a service over the graph. It fails for want of memory alone.
fn open_graph(alloc: Global, graph: Graph) -> Result<Vec<Box<PlanWorker>>, AllocError>
    requires { IsPlanFit graph }
    ensures { IfOk result (λ all. IsOpenedOn graph (map (λ w. w.value.pass) all.items)) }
{
    let mut numbers = numbers_of(alloc, &graph)?;
    numbers.note_unit_actions(alloc)?;
    let numbers = Arc::new(alloc, numbers)?;
    let (slot, passes) = Slot::planned(alloc, book_of(alloc, graph)?)?;
    let service = Arc::new(alloc, slot)?;
    workers_of(alloc, &service, &numbers, passes)
}

// The book of the graph, without entries.
fn book_of(alloc: Global, graph: Graph) -> Result<Box<Book>, AllocError>
    ensures graph { IfOk result (λ book. book.value.graph ≡ graph) }
    ensures rest { IfOk result (λ book. IsAtRest book.value.state) }
    ensures whole { IfOk result (λ book. book.value.given ≡ 0) }
    ensures history { IfOk result (λ book. book.value.history ≡ []) }
{
    openings_are_at_rest();
    let book = Book::opening(alloc, graph, 0, 0)?;
    Ok(Box::new(alloc, book)?)
}

// The workers of a service, with these passes in order.
fn workers_of(
    alloc: Global,
    service: &Arc<Slot<Planned>, Global>,
    numbers: &Arc<Graph, Global>,
    passes: Vec<Pass>,
) -> Result<Vec<Box<PlanWorker>>, AllocError>
    requires service { All (λ p. p.service.table ≡ (arc_value service.now).table.shared.table_id) passes.items }
    requires seen { All (λ p. p.sight.seen ≡ (arc_value service.now).table.shared.key.kept.value.book) passes.items }
    requires numbers { arc_value numbers.now ≡ without_names (arc_value service.now).table.shared.key.kept.value.book.graph }
    requires fit { IsPlanFit (arc_value service.now).table.shared.key.kept.value.book.graph }
    ensures { IfOk result (λ all. map (λ w. w.value.pass) all.items ≡ passes.items) }
{
    let mut all = Vec::with_capacity(alloc, passes.len())?;
    for pass in passes {
        all.push(worker_of(alloc, service, numbers, pass)?)?;
    }
    Ok(all)
}

// A worker of a service. It comes again at once behind the entries that are nothing for its caller, and else others don't count on it.
fn worker_of(
    alloc: Global,
    service: &Arc<Slot<Planned>, Global>,
    numbers: &Arc<Graph, Global>,
    mut pass: Pass,
) -> Result<Box<PlanWorker>, AllocError>
    requires service { pass.service.table ≡ (arc_value service.now).table.shared.table_id }
    requires seen { pass.sight.seen ≡ (arc_value service.now).table.shared.key.kept.value.book }
    requires numbers { arc_value numbers.now ≡ without_names pass.sight.seen.graph }
    requires fit { IsPlanFit pass.sight.seen.graph }
    ensures { IfOk result (λ worker. worker.value.pass ≡ pass) }
{
    pass.promise_to_come_again_without_work();
    let worker = PlanWorker {
        service: Arc::try_clone(service)?,
        pass,
        workers: numbers.workers(),
        numbers: Arc::try_clone(numbers)?,
    };
    Ok(Box::new(alloc, worker)?)
}
