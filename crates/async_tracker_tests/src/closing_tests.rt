//! An item that is closed with a decision behind it, where the decision or the closing itself comes to nothing.
ghost use Rattle.std.specs.Prelude.{◌≡◌, ◌≢◌, All, Contains, Err, length, true};
ghost use Rattle.item_actions.specs.declared.outcomes.Outcome.TheVariants as outcomes;
ghost use Rattle.resource_lock.specs.declared.marks.MarkId.TheVariants as ids;
ghost use Rattle.coordination.specs.Holds.{HoldsNothing};
ghost use Rattle.coordination.specs.Shown.{claimed_shown, lease_shown};
ghost use Rattle.coordination.specs.declared.halts.Halt.{Halt};
ghost use Rattle.async_tracker.specs.Shows.{IsFree, IsIdleOrParked, IsItemHere};
ghost use Rattle.async_tracker_tests.specs.TwoItems.{HasTwoItems};

use crate::async_tracker_tests::{open_task, wait_for_items};
use async_tracker::{CloseHalt, close_then};
use coordination::{Coordination, Decided, Decision, Halt, Opened, Pass};
use coordination_tests::entries::EntriesFrom;
use coordination_tests::services::let_go;
use item_actions::Outcome;
use lock_transforms::Closed;
use resource_lock::{MarkId, Retention, WorkerId};
use single_steps::claim;
use std::alloc::AllocError;
use std::sync::Wait;

/// An item that the worker has run.
const CLOSED: Closed = Closed {
    unit: 0,
    outcome: Outcome::Number(3),
};

// Closes an item that the worker runs and decides behind it. Where there is no memory for the closing it tries once more, since the worker
// runs the item yet. An error says whether it does.
fn close_or_try_again<R: Wait, Q: Decision>(
    rt: &R,
    service: &Coordination,
    pass: &mut Pass,
    closed: Closed,
    next: &Q,
) -> Result<Decided<Q::Answer>, CloseHalt>
where
    Q::Answer: Drop,
    requires service { pass.old.service ≡ service.now.service }
    requires item { IsItemHere pass.old.sight.seen.graph closed.unit }
    requires claimed { Contains (claimed_shown pass.old.sight) (ids.Unit closed.unit) }
    requires lease { lease_shown pass.old.sight ≡ true }
    requires outcome { closed.outcome ≢ outcomes.Skipped }
    ensures service { pass.new.service ≡ pass.old.service }
    ensures runs { result ≡ Err CloseHalt.NotClosed → Contains (claimed_shown pass.new.sight) (ids.Unit closed.unit) }
    ensures has_run { (halt : Halt) → result ≡ Err (CloseHalt.Closed halt) → Contains (claimed_shown pass.new.sight) (ids.Unit closed.unit) → ⊥ }
{
    match close_then(rt, service, pass, closed, next) {
        Ok(decided) => Ok(decided),
        Err(CloseHalt::NotClosed) => close_then(rt, service, pass, closed, next),
        Err(CloseHalt::Closed(halt)) => Err(CloseHalt::Closed(halt)),
    }
}

// Claims the item and closes it, with a decision behind it that waits for so many entries. None says that it can't be claimed.
fn run_first<R: Wait>(
    rt: &R,
    service: &Coordination,
    pass: &mut Pass,
    least: u64,
) -> Option<Result<Decided<u64>, CloseHalt>>
    requires service { pass.old.service ≡ service.now.service }
    requires graph { HasTwoItems pass.old.sight.seen.graph }
    requires free { IsFree pass.old.sight }
    requires waits { IsIdleOrParked pass.old.sight }
{
    if !matches!(claim(rt, service, pass, CLOSED.unit), Ok(true)) {
        return None;
    }
    let next = EntriesFrom { least };
    Some(close_or_try_again(rt, service, pass, CLOSED, &next))
}

// Whether the item is closed where the decision behind it waits for so many entries while the service is stopped: there are five.
fn is_closed<R: Wait>(
    rt: &R,
    service: &Coordination,
    first: &mut Pass,
    second: &mut Pass,
    least: u64,
) -> Result<bool, Halt>
    requires first { first.old.service ≡ service.now.service }
    requires second { second.old.service ≡ service.now.service }
    requires graph { HasTwoItems first.old.sight.seen.graph }
    requires rests { HoldsNothing first.old.sight }
{
    let Some(parked) = wait_for_items(rt, service, first)? else {
        return Ok(false);
    };
    drop(parked);
    service.stop_all(rt, second);
    let came = match run_first(rt, service, first, least) {
        Some(Ok(Decided::Entered(entries, false))) => entries == 5 && least <= 5,
        Some(Err(CloseHalt::Closed(Halt::Stopped(by)))) => by == WorkerId(1) && least > 5,
        _ => false,
    };
    Ok(came && !first.claimed().contains(&MarkId::Unit(CLOSED.unit)))
}

// The same for the first two workers.
fn is_closed_by_first<R: Wait>(
    rt: &R,
    service: &Coordination,
    passes: &mut [Pass],
    least: u64,
) -> bool
    requires service { All (λ p. p.service ≡ service.now.service) passes.old }
    requires graph { All (λ p. HasTwoItems p.sight.seen.graph) passes.old }
    requires rests { All (λ p. HoldsNothing p.sight) passes.old }
    requires two { length passes.old ≡ 2 }
{
    let (first, second) = passes.split_at_mut(1);
    matches!(
        is_closed(rt, service, &mut first[0], &mut second[0], least),
        Ok(true)
    )
}

#[test]
fn an_item_is_closed_whatever_becomes_of_the_decision_behind_it(
    rt: HostRuntime,
) -> Result<(), AllocError> {
    for least in [0, 1000] {
        let mut opened = open_task(&rt, rt.alloc(), Retention::Release)?;
        let Opened { service, passes } = &mut *opened;
        let is_closed = is_closed_by_first(&rt, service, passes, least);
        let_go(opened);
        assert!(rt; is_closed);
    }
    Ok(())
}
