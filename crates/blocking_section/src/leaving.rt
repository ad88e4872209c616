//! The way out of a blocking section.
ghost use Rattle.std.specs.Prelude.{◌≡◌, [], Err, OnOk};
ghost use Rattle.resource_lock.specs.declared.ids.WorkerId.{WorkerId};
ghost use Rattle.lock_transforms.specs.Allowed.{IsFixedList};
ghost use Rattle.lock_transforms.specs.declared.entries.Kind.TheVariants as kinds;
ghost use Rattle.coordination.specs.Calls.{HasFinished, HasLooked, WasStopped};
ghost use Rattle.coordination.specs.Shown.{ShowsTheSame, locks_shown, parked_shown};
ghost use Rattle.blocking_section.specs.BlockedView.{BlockedView};
ghost use Rattle.blocking_section.specs.Sections.{CanNotTakeUp, FitsUnit, HasTakenUp, IsGivenBackBy, closed_with};

use crate::blocked::Blocked;
use coordination::{Coordination, Halt, Offers, Pass, Runner};
use item_actions::Outcome;
use lock_transforms::Closed;
use lock_transforms::kinds::Unblock;
use resource_lock::WorkerId;
use std::sync::Wait;

/// Why a blocking section was not left. It has what was given back, with which it can be left yet.
#[derive(Drop)]
pub enum StillBlocked {
    /// There wasn't enough memory.
    NoMemory(Blocked),
    /// The service was stopped with the pass of this worker.
    Stopped(Blocked, WorkerId),
}

/// Leaves a blocking section: in one entry the worker takes again the locks that it has parked, from
/// the last to the first, and then a lease. Where the section was for a unit, this ends with the
/// outcome.
///
/// It waits while the worker is kept from one of the locks or no lease is free. After an error the pass
/// shows what it showed, and what was given back comes back as it was.
pub fn leave<R: Wait, O: Offers, K: Runner>(
    rt: &R,
    service: &Coordination<O, K>,
    pass: &mut Pass,
    blocked: Blocked,
    outcome: Option<Outcome>,
) -> Result<(), StillBlocked>
    requires service { pass.old.service ≡ service.now.service }
    requires own { IsGivenBackBy pass.old.sight blocked }
    requires outcome { FitsUnit blocked.unit outcome }
    ensures service { pass.new.service ≡ pass.old.service }
    ensures worker { pass.new.sight.worker ≡ pass.old.sight.worker }
    ensures entry { OnOk result (HasFinished (kinds.Unblock (closed_with blocked.unit outcome))
        (IsFixedList (kinds.Unblock (closed_with blocked.unit outcome))) pass.old.sight pass.new.sight) }
    ensures shows { OnOk result (HasTakenUp blocked.unit pass.old.sight pass.new.sight) }
    // Where it has parked and taken nothing else since, the pass has its locks again.
    ensures locks { OnOk result (parked_shown pass.old.sight ≡ blocked.locks → locks_shown pass.old.sight ≡ [] → locks_shown pass.new.sight ≡ blocked.locks) }
    ensures no_memory { (b : BlockedView) → result ≡ Err (StillBlocked.NoMemory b) → (b ≡ blocked)
        × HasLooked pass.old.sight pass.new.sight × ShowsTheSame pass.old.sight pass.new.sight }
    ensures stopped { (b : BlockedView) (by : WorkerId) → result ≡ Err (StillBlocked.Stopped b by) → (b ≡ blocked)
        × WasStopped CanNotTakeUp by pass.old.sight pass.new.sight × ShowsTheSame pass.old.sight pass.new.sight }
{
    let closed = closed_with(blocked.unit, outcome);
    match service.with_state_lock(rt, pass, &Unblock { closed }) {
        Ok(_) => Ok(()),
        Err(Halt::NoMemory) => Err(StillBlocked::NoMemory(blocked)),
        Err(Halt::Stopped(by)) => Err(StillBlocked::Stopped(blocked, by)),
    }
}

// The unit with its outcome, where both are given.
fn closed_with(unit: Option<u32>, outcome: Option<Outcome>) -> Option<Closed>
    ensures { result ≡ closed_with unit outcome }
{
    Some(Closed {
        unit: unit?,
        outcome: outcome?,
    })
}
