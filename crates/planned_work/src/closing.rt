//! The end of a service over a plan.
ghost use Rattle.std.specs.Prelude.{◌≡◌, ◌<◌, All, Any, IfOk, length, map};
ghost use Rattle.std.specs.Arc.{arc_value};
ghost use Rattle.coordination.specs.Closings.{IsClosedBy};
ghost use Rattle.coordination.specs.Sights.{workers_from};
ghost use Rattle.planned_work.specs.PlanRun.{HasSeenTheEnd, IsPlanRun};
ghost use Rattle.planned_work.specs.Ranks.{HasRanks};

use coordination::{Pass, Planned, Slot};
use lock_journal::{
    Book, every_run_comes_to_its_plan, histories_go_on, lawful_histories_lead_to_good_states,
};
use ready_work::ranks_give_a_numbering;
use resource_lock::{Graph, GraphTasks};
use std::alloc::{AllocError, Global};
use std::sync::Arc;

/// A planned book of the least size, for the slot whose own is taken out. It fails for want of memory alone.
pub fn spare_book(alloc: Global) -> Result<Planned, AllocError> {
    let graph = Graph::new(0, None, 1, 1, GraphTasks::none(alloc), Vec::new(alloc));
    let book = Book::opening(alloc, graph, 0, 0)?;
    Planned::new(alloc, Box::new(alloc, book)?)
}

/// Takes the book out of a service by the passes of all its workers, in order. The spare one lies there instead.
///
/// Where a worker was told that all tasks have ended, the book is a lawful run of the plan: each mark has ended, each task was started or skipped
/// once, and each unit has one outcome, which is that of the plan.
pub fn close_plan(
    service: &Arc<Slot<Planned>, Global>,
    passes: Vec<Pass>,
    spare: Planned,
) -> Box<Book>
    requires some { 0 < length passes.items }
    requires service { All (λ p. p.service.table ≡ (arc_value service.now).table.shared.table_id) passes.items }
    requires all { map (λ p. p.sight.worker.0) passes.items
        ≡ workers_from 0 (arc_value service.now).table.shared.key.kept.value.book.graph.workers }
    requires ranked { All (λ p. HasRanks p.sight.seen.graph) passes.items }
    ensures closed { IsClosedBy passes.items result.value.graph result.value }
    ensures run { Any (λ p. HasSeenTheEnd p.sight) passes.items → IsPlanRun result.value.graph result.value }
{
    // What is said of the whole run follows from these laws of every lawful history.
    ranks_give_a_numbering();
    histories_go_on();
    every_run_comes_to_its_plan();
    lawful_histories_lead_to_good_states();
    let book = service.take_away(passes, spare);
    let _ = book.graph();
    let _ = book.state();
    book
}
