//! Items: a worker that runs one with a lease closes it.
ghost use Rattle.std.specs.Prelude.{◌≡◌, ◌≢◌, Contains, Err, Ok, OnErr, OnOk, true, false};
ghost use Rattle.resource_lock.specs.declared.marks.MarkId.TheVariants as ids;
ghost use Rattle.item_actions.specs.declared.outcomes.Outcome.TheVariants as outcomes;
ghost use Rattle.lock_transforms.specs.Allowed.{IsFixedList};
ghost use Rattle.lock_transforms.specs.declared.entries.Kind.TheVariants as kinds;
ghost use Rattle.coordination.specs.Calls.{HasFinished, HasLooked};
ghost use Rattle.coordination.specs.Shown.{ShowsTheSame, claimed_shown, lease_shown};
ghost use Rattle.async_tracker.specs.Shows.{IsItemHere, ShowsClosed};

use coordination::{Coordination, Halt, Offers, Pass, Runner};
use item_actions::Outcome;
use lock_transforms::Closed;
use lock_transforms::kinds::Close;
use std::alloc::AllocError;
use std::sync::Wait;

/// Closes an item that the worker runs: the item ends with the outcome, and the worker gives its
/// lease back, in one entry.
///
/// It waits for the state lock alone, and fails for want of memory alone. The pass then shows what
/// it showed.
pub fn close<R: Wait, O: Offers, K: Runner>(
    rt: &R,
    service: &Coordination<O, K>,
    pass: &mut Pass,
    unit: u32,
    outcome: Outcome,
) -> Result<(), AllocError>
    requires service { pass.old.service ≡ service.now.service }
    requires item { IsItemHere pass.old.sight.seen.graph unit }
    requires claimed { Contains (claimed_shown pass.old.sight) (ids.Unit unit) }
    requires lease { lease_shown pass.old.sight ≡ true }
    requires outcome { outcome ≢ outcomes.Skipped }
    ensures service { pass.new.service ≡ pass.old.service }
    ensures entry { OnOk result (HasFinished (kinds.Close (record { unit = unit; outcome = outcome }))
        (IsFixedList (kinds.Close (record { unit = unit; outcome = outcome }))) pass.old.sight pass.new.sight) }
    ensures shows { OnOk result (ShowsClosed unit pass.old.sight pass.new.sight) }
    ensures no_memory { OnErr result (HasLooked pass.old.sight pass.new.sight) }
    ensures kept { OnErr result (ShowsTheSame pass.old.sight pass.new.sight) }
{
    let closed = Closed { unit, outcome };
    match service.with_state_lock(rt, pass, &Close { closed }) {
        Ok(true) => Ok(()),
        Err(Halt::NoMemory) => Err(AllocError),
        Ok(false) => unreachable!(),
        Err(Halt::Stopped(_)) => unreachable!(),
    }
}
