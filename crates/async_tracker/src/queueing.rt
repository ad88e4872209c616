//! An action's items are queued and waited for in one hold of the state lock.
ghost use Rattle.std.specs.Prelude.{◌≡◌, ◌<◌, ◌⊎◌, IfOk, Err, None, OnErr, OnOk, Some, false, length};
ghost use Rattle.std.specs.List.{list_any};
ghost use Rattle.resource_lock.specs.GraphView.{action_of};
ghost use Rattle.resource_lock.specs.Ranges.{lock_with, task_with};
ghost use Rattle.resource_lock.specs.declared.ids.WorkerId.{WorkerId};
ghost use Rattle.coordination.specs.Calls.{HasLooked, WasStopped};
ghost use Rattle.coordination.specs.Shown.{ShowsTheSame, claimed_shown};
ghost use Rattle.lock_journal.specs.Own.{is_unit};
ghost use Rattle.async_tracker.specs.Following.{HasParkedAtOnce};
ghost use Rattle.async_tracker.specs.Queueing.{HasSubmittedThen};
ghost use Rattle.async_tracker.specs.Shows.{HasReleased, IsFree, IsIdleOrParked, IsParkedBy, OwnsToPark, ShowsParked, WorksOn};
ghost use Rattle.async_tracker.specs.Waits.{CannotQueue};

use crate::parked::Parked;
use coordination::{
    Coordination, Decided, Decision, Followed, Halt, Offers, Pass, Question, Runner,
};
use lock_journal::Book;
use lock_transforms::kinds::{Park, Submit};
use resource_lock::WorkerId;
use std::sync::Wait;
use worker_choices::Awaited;

/// Decides to begin to wait for the items of an action, whatever the book.
#[derive(Clone, Copy)]
pub struct ThenPark {
    /// The action.
    pub action: u32,
}

impl Question for ThenPark {
    type Answer = ();

    ghost answers = { λ q queued w book answer. Unit {0} };

    ghost waits_on = { λ q queued w book. ⊥ };

    ghost awaits = { λ _. None };

    fn awaited(&self) -> Option<Awaited> {
        None
    }

    fn ask(&self, _worker: WorkerId, _book: &Book, _queued: bool) -> Option<()> {
        Some(())
    }
}

impl Decision for ThenPark {
    type Step = Park;

    ghost step_of = { λ q _. Some (record { action = q.action }) };

    ghost more_locks = { λ _. 0 };

    #[inline]
    fn more_locks(&self) -> usize {
        0
    }

    fn step(&self, _answer: &()) -> Option<Park> {
        Some(Park {
            action: self.action,
        })
    }
}

/// Queues the items of an action of the task that the worker runs (`Submit`), and begins to wait for them (`Park`): two entries,
/// made in one hold of the state lock. With the second the worker gives back its lease, and the task's lock unless the action retains it.
/// It doesn't own that lock in any state until it resumes, and can claim items meanwhile.
///
/// The call waits only where the action or one of its items doesn't wait any more, or where what comes before them in the task isn't
/// over. After an error the pass shows what it showed; after `NoMemory` the items are queued or aren't, and after `Stopped` they aren't.
pub fn submit_and_park<R: Wait, O: Offers, K: Runner>(
    rt: &R,
    service: &Coordination<O, K>,
    pass: &mut Pass,
    action: u32,
) -> Result<Parked, Halt>
    requires service { pass.old.service ≡ service.now.service }
    requires in_range { action < length pass.old.sight.seen.graph.actions }
    requires works { WorksOn pass.old.sight (task_with pass.old.sight.seen.graph action) }
    requires lock { OwnsToPark (action_of pass.old.sight.seen.graph action).retention (lock_with pass.old.sight.seen.graph action) pass.old.sight }
    ensures service { pass.new.service ≡ pass.old.service }
    ensures action { IfOk result (λ parked. parked.action ≡ action) }
    ensures entries { OnOk result (HasSubmittedThen action pass.old.sight (λ between. HasParkedAtOnce action between pass.new.sight)) }
    ensures shows { OnOk result (ShowsParked (action_of pass.old.sight.seen.graph action).retention
        (lock_with pass.old.sight.seen.graph action) action pass.old.sight pass.new.sight) }
    ensures own { IfOk result (λ parked. IsParkedBy pass.new.sight parked) }
    // Where it runs no unit it can claim items.
    ensures free { OnOk result (list_any is_unit (claimed_shown pass.old.sight) ≡ false → IsFree pass.new.sight) }
    ensures waits { OnOk result (IsIdleOrParked pass.new.sight) }
    ensures released { OnOk result (HasReleased (action_of pass.old.sight.seen.graph action).retention
        (lock_with pass.old.sight.seen.graph action) pass.new.sight) }
    ensures kept { OnErr result (ShowsTheSame pass.old.sight pass.new.sight) }
    ensures no_memory { result ≡ Err Halt.NoMemory → HasLooked pass.old.sight pass.new.sight
        ⊎ HasSubmittedThen action pass.old.sight (λ between. HasLooked between pass.new.sight) }
    ensures stopped { (by : WorkerId) → result ≡ Err (Halt.Stopped by) → WasStopped (CannotQueue action) by pass.old.sight pass.new.sight }
{
    match service.run_then_decide(rt, pass, &Submit { action }, &ThenPark { action })? {
        Followed::Decided(Decided::Entered((), _)) => Ok(Parked::new(pass.worker(), action)),
        // It doesn't park in a hold of its own: so a worker parks on the very book that its queueing left.
        Followed::NoMemory => Err(Halt::NoMemory),
        // Parking needs no more than that the action is queued.
        Followed::Decided(Decided::Waiting(())) => unreachable!(),
        Followed::Decided(Decided::Answered(())) => unreachable!(),
        Followed::Undecided => unreachable!(),
        Followed::Failed => unreachable!(),
    }
}
