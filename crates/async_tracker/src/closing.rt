//! An item's closing, and what is decided behind it, in one hold of the state lock.
ghost use Rattle.std.specs.Prelude.{◌≡◌, ◌≢◌, Contains, Err, IfOk, true};
ghost use Rattle.item_actions.specs.declared.outcomes.Outcome.TheVariants as outcomes;
ghost use Rattle.resource_lock.specs.declared.ids.WorkerId.{WorkerId};
ghost use Rattle.resource_lock.specs.declared.marks.MarkId.TheVariants as ids;
ghost use Rattle.coordination.specs.Calls.{AskedInVain, HasLooked};
ghost use Rattle.coordination.specs.Decisions.{CouldNotStep};
ghost use Rattle.worker_notes.specs.Offered.{AreTold, AsTold, WaitsAsTold};
ghost use Rattle.coordination.specs.Shown.{claimed_shown, lease_shown};
ghost use Rattle.async_tracker.specs.Closings.{HasClosedThen, halt_of};
ghost use Rattle.async_tracker.specs.Following.{HasDecidedAfter};
ghost use Rattle.async_tracker.specs.Shows.{IsItemHere};

use coordination::{Coordination, Decided, Decision, Followed, Halt, Offers, Pass, Runner};
use lock_transforms::Closed;
use lock_transforms::kinds::Close;
use std::sync::Wait;

/// Why nothing was decided behind an item's closing.
#[derive(Clone, Copy, PartialEq, Eq)]
pub enum CloseHalt {
    /// There wasn't enough memory for the closing: the item isn't closed, and the pass shows what it showed.
    NotClosed,
    /// The item is closed, and the decision behind that came to nothing.
    Closed(Halt),
}

impl CloseHalt {
    /// Why the call came to nothing, for who need not know whether the item is closed.
    pub fn halt(self) -> Halt
        ensures { result ≡ halt_of self }
    {
        match self {
            CloseHalt::NotClosed => Halt::NoMemory,
            CloseHalt::Closed(halt) => halt,
        }
    }
}

/// Closes an item that the worker runs, as `close`, and decides: in one hold of the state lock where there is an answer at once.
///
/// Where there is none yet the decision waits in a hold of its own, and other workers may have made entries in between. The closing
/// itself never waits. An error says whether the item is closed.
pub fn close_then<R: Wait, O: Offers, K: Runner, Q: Decision>(
    rt: &R,
    service: &Coordination<O, K>,
    pass: &mut Pass,
    closed: Closed,
    next: &Q,
) -> Result<Decided<Q::Answer>, CloseHalt>
where
    Q::Answer: Drop,
    requires service { pass.old.service ≡ service.now.service }
    requires item { IsItemHere pass.old.sight.seen.graph closed.unit }
    requires claimed { Contains (claimed_shown pass.old.sight) (ids.Unit closed.unit) }
    requires lease { lease_shown pass.old.sight ≡ true }
    requires outcome { closed.outcome ≢ outcomes.Skipped }
    ensures service { pass.new.service ≡ pass.old.service }
    ensures decided { IfOk result (λ decided. HasClosedThen closed pass.old.sight (λ s. HasDecidedAfter
        (AsTold (AreTold O.tells) (Q.answers next.now)) (WaitsAsTold (AreTold O.tells) (Q.waits_on next.now)) (Q.step_of next.now)
        Q.Step.kind_of Q.Step.makes Q.Step.fails_on Q.Step.retries_on s pass.new.sight decided)) }
    ensures not_closed { result ≡ Err CloseHalt.NotClosed → HasLooked pass.old.sight pass.new.sight }
    ensures no_memory { result ≡ Err (CloseHalt.Closed Halt.NoMemory) → HasClosedThen closed pass.old.sight
        (λ s. CouldNotStep (AsTold (AreTold O.tells) (Q.answers next.now)) (Q.step_of next.now) s pass.new.sight) }
    ensures stopped { (by : WorkerId) → result ≡ Err (CloseHalt.Closed (Halt.Stopped by)) → HasClosedThen closed pass.old.sight
        (λ s. AskedInVain (WaitsAsTold (AreTold O.tells) (Q.waits_on next.now)) by s pass.new.sight) }
{
    match service.run_then_decide(rt, pass, &Close { closed }, next) {
        Ok(Followed::Decided(decided)) => Ok(decided),
        Ok(Followed::Undecided) => service.decide(rt, pass, next).map_err(CloseHalt::Closed),
        Ok(Followed::NoMemory) => Err(CloseHalt::Closed(Halt::NoMemory)),
        Err(Halt::NoMemory) => Err(CloseHalt::NotClosed),
        Ok(Followed::Failed) => unreachable!(),
        Err(Halt::Stopped(_)) => unreachable!(),
    }
}
