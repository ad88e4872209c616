//! A task's end, and what is decided behind it, in one hold of the state lock.
ghost use Rattle.std.specs.Prelude.{◌≡◌, ◌<◌, ◌⊎◌, Err, IfOk, OnErr, length};
ghost use Rattle.resource_lock.specs.declared.ids.WorkerId.{WorkerId};
ghost use Rattle.coordination.specs.Calls.{AskedInVain, HasLooked, WasStopped};
ghost use Rattle.coordination.specs.Decisions.{CouldNotStep};
ghost use Rattle.worker_notes.specs.Offered.{AreTold, AsTold, WaitsAsTold};
ghost use Rattle.coordination.specs.Shown.{ShowsTheSame};
ghost use Rattle.async_tracker.specs.Following.{HasDecidedAfter, HasEndedThen};
ghost use Rattle.async_tracker.specs.Tasks.{CannotEnd, MayEnd, ShowsEnded};

use coordination::{Coordination, Decided, Decision, Followed, Halt, Offers, Pass, Runner};
use lock_transforms::kinds::End;
use std::sync::Wait;

/// Ends the task that the worker runs, and decides: in one hold of the state lock where there is an answer at once. At the end the task's
/// actions that never ran are skipped, and a worker with a lease gives it back, and the task's lock. `single_steps::end_task` ends it alone.
///
/// The end waits only where an action of the task neither has passed nor never ran, or where one of the changes can't be made, as for a
/// worker that has a lease and not the task's lock.
///
/// Where there is none yet the decision waits in a hold of its own, and other workers may have made entries in between. After an error the
/// task has ended, or the pass shows what it showed.
pub fn end_then<R: Wait, O: Offers, K: Runner, Q: Decision>(
    rt: &R,
    service: &Coordination<O, K>,
    pass: &mut Pass,
    task: u32,
    next: &Q,
) -> Result<Decided<Q::Answer>, Halt>
where
    Q::Answer: Drop,
    requires service { pass.old.service ≡ service.now.service }
    requires in_range { task < length pass.old.sight.seen.graph.tasks }
    requires may { MayEnd pass.old.sight task }
    ensures service { pass.new.service ≡ pass.old.service }
    ensures decided { IfOk result (λ decided. HasEndedThen task pass.old.sight (λ s. HasDecidedAfter
        (AsTold (AreTold O.tells) (Q.answers next.now)) (WaitsAsTold (AreTold O.tells) (Q.waits_on next.now)) (Q.step_of next.now)
        Q.Step.kind_of Q.Step.makes Q.Step.fails_on Q.Step.retries_on s pass.new.sight decided)) }
    ensures kept { OnErr result (ShowsTheSame pass.old.sight pass.new.sight ⊎ ShowsEnded task pass.old.sight pass.new.sight) }
    ensures no_memory { result ≡ Err Halt.NoMemory → HasLooked pass.old.sight pass.new.sight
        ⊎ HasEndedThen task pass.old.sight
        (λ s. CouldNotStep (AsTold (AreTold O.tells) (Q.answers next.now)) (Q.step_of next.now) s pass.new.sight) }
    ensures stopped { (by : WorkerId) → result ≡ Err (Halt.Stopped by) → WasStopped (CannotEnd task) by pass.old.sight pass.new.sight
        ⊎ HasEndedThen task pass.old.sight (λ s. AskedInVain (WaitsAsTold (AreTold O.tells) (Q.waits_on next.now)) by s pass.new.sight) }
{
    match service.run_then_decide(rt, pass, &End { task }, next)? {
        Followed::Failed => unreachable!(),
        Followed::Undecided => service.decide(rt, pass, next),
        Followed::NoMemory => Err(Halt::NoMemory),
        Followed::Decided(decided) => Ok(decided),
    }
}
