//! A worker that waits in a task with two items while another has the lock and the lease.
ghost use Rattle.std.specs.Prelude.{◌≡◌, All, IfOk, IfSome, length};
ghost use Rattle.coordination.specs.Holds.{HoldsNothing};
ghost use Rattle.async_tracker_tests.specs.TwoItems.{CanHelp, HasTwoItems};

use crate::async_tracker_tests::{go_on, open_task, run_both, run_item, wait_for_items};
use async_tracker::Parked;
use coordination::{Coordination, Halt, Opened, Pass};
use coordination_tests::services::{let_go, yield_a_while};
use item_actions::Outcome;
use lock_transforms::kinds::{Acquire, HandBack, Shortage};
use resource_lock::{LockId, Retention, WorkerId};
use std::alloc::AllocError;
use std::sync::Wait;
use std::thread::{Threads, join};

const LOCK: LockId = LockId(0);

// Takes the lock and the lease.
fn take_both<R: Wait>(rt: &R, service: &Coordination, pass: &mut Pass) -> Result<bool, Halt>
    requires service { pass.old.service ≡ service.now.service }
    ensures service { pass.new.service ≡ pass.old.service }
{
    let acquire = Acquire {
        locks: &[LOCK],
        shortage: Shortage::Waits,
    };
    service.with_state_lock(rt, pass, &acquire)
}

// Gives the lock and the lease back after a while, or stops the service.
fn give_back_or_stop<R: Wait>(rt: &R, service: &Coordination, pass: &mut Pass, stops: bool) -> bool
    requires service { pass.old.service ≡ service.now.service }
{
    yield_a_while();
    if stops {
        service.stop_all(rt, pass);
        return true;
    }
    matches!(service.with_state_lock(rt, pass, &HandBack), Ok(true))
}

/// What a worker waits for while another has the lock and the lease.
#[derive(Clone, Copy)]
enum Wanted {
    /// A lease, to claim the first item.
    Lease,
    /// The lock and a lease, to go on after both items.
    LockAndLease,
}

// Starts the task, and runs its items where the worker is to go on after them. None says that a
// call answered otherwise than one expects.
fn prepare<R: Wait>(
    rt: &R,
    service: &Coordination,
    pass: &mut Pass,
    wanted: Wanted,
) -> Result<Option<Parked>, Halt>
    requires service { pass.old.service ≡ service.now.service }
    requires graph { HasTwoItems pass.old.sight.seen.graph }
    requires rests { HoldsNothing pass.old.sight }
    ensures service { pass.new.service ≡ pass.old.service }
    ensures helps { IfOk result (λ parked. IfSome parked (CanHelp pass.new.sight)) }
{
    let Some(parked) = wait_for_items(rt, service, pass)? else {
        return Ok(None);
    };
    match wanted {
        Wanted::Lease => Ok(Some(parked)),
        Wanted::LockAndLease => {
            let (first, second) = (Outcome::Number(3), Outcome::Number(14));
            let ran = run_both(rt, service, pass, &parked, first, second)?;
            Ok(ran.then_some(parked))
        }
    }
}

// Waits for what is wanted.
fn get<R: Wait>(
    rt: &R,
    service: &Coordination,
    pass: &mut Pass,
    parked: Parked,
    wanted: Wanted,
) -> Result<bool, Halt>
    requires service { pass.old.service ≡ service.now.service }
    requires helps { CanHelp pass.old.sight parked }
    ensures service { pass.new.service ≡ pass.old.service }
{
    match wanted {
        Wanted::Lease => run_item(rt, service, pass, &parked, 0, 3),
        Wanted::LockAndLease => go_on(rt, service, pass, parked),
    }
}

// Waits while another worker has the lock and the lease, and lets them go after a while or stops the
// service.
fn get_beside<R: Threads + Wait + Sync>(
    rt: &R,
    service: &Coordination,
    first: &mut Pass,
    second: &mut Pass,
    wanted: Wanted,
    stops: bool,
) -> Result<bool, Halt>
    requires first { first.old.service ≡ service.now.service }
    requires second { second.old.service ≡ service.now.service }
    requires graph { HasTwoItems first.old.sight.seen.graph }
    requires rests { HoldsNothing first.old.sight }
{
    let Some(parked) = prepare(rt, service, first, wanted)? else {
        return Ok(false);
    };
    if !take_both(rt, service, second)? {
        return Ok(false);
    }
    let (got, lets_go) = join(
        rt,
        || get(rt, service, first, parked, wanted),
        || give_back_or_stop(rt, service, second, stops),
    );
    Ok(got? && lets_go)
}

// Whether the wait ends by what the other worker does.
fn ends<R: Threads + Wait + Sync>(
    rt: &R,
    service: &Coordination,
    passes: &mut [Pass],
    wanted: Wanted,
    stops: bool,
) -> bool
    requires service { All (λ p. p.service ≡ service.now.service) passes.old }
    requires graph { All (λ p. HasTwoItems p.sight.seen.graph) passes.old }
    requires rests { All (λ p. HoldsNothing p.sight) passes.old }
    requires two { length passes.old ≡ 2 }
{
    let (first, second) = passes.split_at_mut(1);
    match get_beside(rt, service, &mut first[0], &mut second[0], wanted, stops) {
        Ok(got) => got && !stops,
        Err(Halt::Stopped(by)) => stops && by == WorkerId(1),
        Err(Halt::NoMemory) => false,
    }
}

/// What becomes of the task's lock while it is parked, what its worker waits for then, and whether the other stops the service.
static WAITS: [(Retention, Wanted, bool); 4] = [
    (Retention::Release, Wanted::Lease, false),
    (Retention::Release, Wanted::Lease, true),
    (Retention::ReleaseAndReacquire, Wanted::LockAndLease, false),
    (Retention::ReleaseAndReacquire, Wanted::LockAndLease, true),
];

#[test]
fn a_claim_waits_for_a_lease_and_a_resume_for_the_lock_too(
    rt: HostRuntime,
) -> Result<(), AllocError> {
    for (retention, wanted, stops) in &WAITS {
        let mut opened = open_task(&rt, rt.alloc(), *retention)?;
        let Opened { service, passes } = &mut *opened;
        let ends = ends(&rt, service, passes, *wanted, *stops);
        let_go(opened);
        assert!(rt; ends);
    }
    Ok(())
}
