//! A worker of a service over a plan.
ghost use Rattle.std.specs.Prelude.{◌≡◌, ◌<◌, IfNone, IfSome, false, true};
ghost use Rattle.std.specs.Arc.{arc_value};
ghost use Rattle.resource_lock.specs.StateView.{leases_out};
ghost use Rattle.coordination.specs.Calls.{HasStopped, IsAnswered};
ghost use Rattle.coordination.specs.Stops.{KnowsNoStop};
ghost use Rattle.coordination.specs.Sights.{hearing};
ghost use Rattle.planned_work.specs.Fitting.{IsPlanFit, IsPlanFit-prop};
ghost use Rattle.planned_work.specs.Rings.{WakesBy};
ghost use Rattle.planned_work.specs.Numbers.{without_names};

use crate::questions::LeasesOut;
use crate::rings::Rings;
use coordination::{Ask, Came, Pass, Planned, Slot};
use resource_lock::{Graph, WorkerId};
use std::alloc::Global;
use std::sync::Arc;

/// A worker of a service over a plan: the service, which all its workers share, and its pass.
#[derive(Drop)]
pub struct PlanWorker {
    /// The service.
    pub service: Arc<Slot<Planned>, Global>,
    /// The pass.
    pub pass: Pass,
    /// How many workers the service has.
    pub workers: u32,
    /// How the plan's actions and units are numbered: its graph, without the names that tasks come after.
    pub numbers: Arc<Graph, Global>,
    ghost own: { pass.service.table ≡ (arc_value service).table.shared.table_id },
    ghost numbered: { arc_value numbers ≡ without_names pass.sight.seen.graph },
    // So the plan can come to its end, and the rules refuse no call.
    ghost fit: { IsPlanFit pass.sight.seen.graph } by { IsPlanFit-prop pass.sight.seen.graph },
    ghost seen_workers: { workers ≡ pass.sight.seen.graph.workers },
    ghost workers_are: { workers ≡ (arc_value service).table.shared.key.kept.value.book.graph.workers },
}

impl PlanWorker {
    /// Stops the service, or hears who has stopped it before.
    pub fn stop(&mut self)
        ensures { HasStopped self.old.pass.sight self.new.pass.sight }
    {
        self.service.stop(&mut self.pass);
    }

    /// Whether somebody has stopped the service, whom the pass then shows.
    pub(crate) fn hears_of_stop(&mut self) -> Option<WorkerId>
        ensures none { IfNone result ((self.new.pass.sight ≡ self.old.pass.sight) × KnowsNoStop self.old.pass.sight) }
        ensures some { IfSome result (λ by. self.new.pass.sight ≡ hearing self.old.pass.sight by) }
        ensures stopper { IfSome result (λ by. by.0 < self.old.pass.sight.seen.graph.workers) }
    {
        self.service.hear(&mut self.pass)
    }

    /// How many leases are out. None says that another worker was inside. A worker that was noted as asleep is awake then: it has to look
    /// again.
    pub fn leases_out(&mut self) -> (Option<u32>, Rings)
        ensures some { IfSome result.0 (λ n. IsAnswered (λ w book m. m ≡ leases_out book.state) n self.old.pass.sight self.new.pass.sight) }
        ensures none { IfNone result.0 (self.new.pass.sight ≡ self.old.pass.sight) }
        ensures wakes { IfSome result.0 (λ _. WakesBy true self.new.pass.sight result.1) }
        ensures nobody { IfNone result.0 (WakesBy false self.new.pass.sight result.1) }
    {
        let question = Ask {
            question: &LeasesOut,
        };
        match self.service.attempt_turn(&mut self.pass, false, &question) {
            Some((Came::Done(count), first, later)) => (Some(count), Rings { first, later }),
            None => (None, Rings::nobody()),
            // Its answer comes at once, and it runs nothing.
            Some((Came::Again | Came::NoMemory, _, _)) => unreachable!(),
        }
    }
}
