//! Sections that a worker enters and leaves again, alone and while another thread has the only lease.
ghost use Rattle.std.specs.Prelude.{◌≡◌, [], All, OnOk, false, length, true};
ghost use Rattle.std.specs.List.{list_any};
ghost use Rattle.lock_transforms.specs.Taking.{rises};
ghost use Rattle.coordination.specs.Shown.{blocked_shown, claimed_shown, lease_shown, locks_shown, parked_shown};
ghost use Rattle.lease_service.specs.Shows.{MayTake};
ghost use Rattle.lock_journal.specs.Own.{is_unit};

use crate::entries::{EntriesFrom, EntryRow, are_entries};
use crate::services::{let_go, open, yield_a_while};
use blocking_section::{StillBlocked, enter, leave};
use coordination::{Coordination, Halt, Opened, Pass};
use lease_service::{hand_back, take_locks};
use lock_transforms::Kind;
use lock_transforms::kinds::{Acquire, HandBack, Shortage};
use resource_lock::{Change, LockId, WorkerId};
use state_tests::rows::Limits;
use std::alloc::AllocError;
use std::process::Abort;
use std::sync::Wait;
use std::thread;
use std::thread::Threads;

// Gives back all that the pass has, and takes it again.
fn step_aside<R: Wait>(rt: &R, service: &Coordination, pass: &mut Pass) -> Result<(), Halt>
    requires service { pass.old.service ≡ service.now.service }
    requires lease { lease_shown pass.old.sight ≡ true }
    requires no_unit { list_any is_unit (claimed_shown pass.old.sight) ≡ false }
    requires none_parked { parked_shown pass.old.sight ≡ [] }
    ensures service { pass.new.service ≡ pass.old.service }
    ensures lease { OnOk result (lease_shown pass.new.sight ≡ true) }
    ensures locks { OnOk result (locks_shown pass.new.sight ≡ locks_shown pass.old.sight) }
    ensures claimed { OnOk result (claimed_shown pass.new.sight ≡ claimed_shown pass.old.sight) }
    ensures not_blocked { OnOk result (blocked_shown pass.new.sight ≡ false) }
{
    let blocked = enter(rt, service, pass, None)?;
    match leave(rt, service, pass, blocked, None) {
        Ok(()) => Ok(()),
        Err(StillBlocked::NoMemory(_)) => Err(Halt::NoMemory),
        Err(StillBlocked::Stopped(_, by)) => Err(Halt::Stopped(by)),
    }
}

// Takes these locks and the lease, steps aside, and hands all back: each call's conditions follow
// from the clauses of those before.
fn take_step_aside_and_hand_back<R: Wait>(
    rt: &R,
    service: &Coordination,
    pass: &mut Pass,
    locks: &[LockId],
) -> Result<(), Halt>
    requires service { pass.old.service ≡ service.now.service }
    requires may { MayTake pass.old.sight locks.now }
    requires none_parked { parked_shown pass.old.sight ≡ [] }
    ensures service { pass.new.service ≡ pass.old.service }
    ensures locks { OnOk result (locks_shown pass.new.sight ≡ []) }
    ensures lease { OnOk result (lease_shown pass.new.sight ≡ false) }
{
    take_locks(rt, service, pass, locks)?;
    step_aside(rt, service, pass)?;
    match hand_back(rt, service, pass) {
        Ok(()) => Ok(()),
        Err(_) => Err(Halt::NoMemory),
    }
}

const FIRST: LockId = LockId(0);

const SECOND: LockId = LockId(1);

// Takes locks and a lease.
fn takes<R: Wait>(
    rt: &R,
    service: &Coordination,
    pass: &mut Pass,
    locks: &[LockId],
    shortage: Shortage,
) -> bool
    requires service { pass.old.service ≡ service.now.service }
    requires rising { rises 0 locks.now ≡ true }
    ensures service { pass.new.service ≡ pass.old.service }
    ensures lease { result ≡ true → lease_shown pass.new.sight ≡ true }
    ensures claimed { result ≡ true → claimed_shown pass.new.sight ≡ [] }
    ensures parked { result ≡ true → parked_shown pass.new.sight ≡ [] }
{
    let acquire = Acquire { locks, shortage };
    let taken = service.with_state_lock(rt, pass, &acquire);
    matches!(taken, Ok(true))
        && pass.has_lease()
        && pass.claimed().is_empty()
        && pass.parked().is_empty()
}

// Gives back what the worker has.
fn gives_back<R: Wait>(rt: &R, service: &Coordination, pass: &mut Pass) -> bool
    requires { pass.old.service ≡ service.now.service }
    ensures { pass.new.service ≡ pass.old.service }
{
    matches!(service.with_state_lock(rt, pass, &HandBack), Ok(true))
}

// Whether the pass shows that its worker is in a section, with both locks parked.
fn has_set_down(pass: &Pass) -> bool {
    pass.locks().is_empty()
        && !pass.has_lease()
        && pass.blocked()
        && pass.parked() == [FIRST, SECOND].as_slice()
}

// Whether the pass shows that its worker has a lease and both locks.
fn has_taken_up(pass: &Pass) -> bool {
    pass.locks() == [FIRST, SECOND].as_slice()
        && pass.has_lease()
        && !pass.blocked()
        && pass.parked().is_empty()
}

// Takes both locks and the lease, enters, has the other worker take lock 1 meanwhile, and leaves.
fn lends_lock<R: Wait>(
    rt: &R,
    service: &Coordination,
    pass: &mut Pass,
    other: &mut Pass,
) -> Result<bool, Halt>
    requires service { pass.old.service ≡ service.now.service }
    requires other { other.old.service ≡ service.now.service }
    ensures { pass.new.service ≡ pass.old.service }
{
    if !takes(rt, service, pass, &[FIRST, SECOND], Shortage::Fails) {
        return Ok(false);
    }
    let blocked = enter(rt, service, pass, None)?;
    let set_down = has_set_down(pass);
    let lent = takes(rt, service, other, &[SECOND], Shortage::Fails)
        && gives_back(rt, service, other);
    let left = leave(rt, service, pass, blocked, None).is_ok();
    Ok(set_down && lent && left && has_taken_up(pass))
}

/// The first worker's entries of `lends_lock`.
static LENT: [EntryRow<'static>; 3] = [
    EntryRow {
        place: 0,
        kind: Kind::Acquire,
        changes: Some(&[Change::Lock(FIRST), Change::Lock(SECOND), Change::Take]),
    },
    EntryRow {
        place: 1,
        kind: Kind::Block(None),
        changes: Some(&[
            Change::Give,
            Change::Unlock(FIRST),
            Change::Park(FIRST),
            Change::Unlock(SECOND),
            Change::Park(SECOND),
            Change::Enter,
        ]),
    },
    EntryRow {
        place: 4,
        kind: Kind::Unblock(None),
        changes: Some(&[
            Change::Leave,
            Change::Unpark(SECOND),
            Change::Lock(SECOND),
            Change::Unpark(FIRST),
            Change::Lock(FIRST),
            Change::Take,
        ]),
    },
];

// Whether a worker that has the lease steps aside.
fn steps_aside<R: Wait>(rt: &R, service: &Coordination, pass: &mut Pass) -> bool
    requires { pass.old.service ≡ service.now.service }
    ensures { pass.new.service ≡ pass.old.service }
{
    pass.has_lease()
        && pass.claimed().is_empty()
        && pass.parked().is_empty()
        && step_aside(rt, service, pass).is_ok()
}

/// Two workers, two locks, and one lease.
const LIMITS: Limits = Limits {
    locks: 2,
    all: None,
    workers: 2,
    max_leases: 1,
};

// Has the first worker lend a lock and then step aside.
fn lends_and_steps_aside<R: Wait>(rt: &R, service: &Coordination, passes: &mut [Pass]) -> bool
    requires service { All (λ p. p.service ≡ service.now.service) passes.old }
    requires two { length passes.old ≡ 2 }
{
    let (first, second) = passes.split_at_mut(1);
    let pass = &mut first[0];
    matches!(lends_lock(rt, service, pass, &mut second[0]), Ok(true))
        && are_entries(rt, service, pass, &LENT)
        && steps_aside(rt, service, pass)
}

#[test]
fn a_section_gives_back_all_meanwhile(rt: HostRuntime) -> Result<(), AllocError> {
    let mut opened = open(rt.alloc(), &LIMITS, &[], &[])?.expect(&rt, "a graph that fits");
    let Opened { service, passes } = &mut *opened;
    let gives_back = lends_and_steps_aside(&rt, service, passes);
    let_go(opened);
    assert!(rt; gives_back);
    Ok(())
}

// Takes the lease, enters a section, waits for two more entries, and leaves. Tells whether that
// ends, by a stop or not.
fn leaves<R: Wait>(
    rt: &R,
    service: &Coordination,
    pass: &mut Pass,
    stops: bool,
) -> Result<bool, Halt>
    requires { pass.old.service ≡ service.now.service }
    ensures { pass.new.service ≡ pass.old.service }
{
    if !takes(rt, service, pass, &[], Shortage::Waits) {
        return Ok(false);
    }
    let blocked = enter(rt, service, pass, None)?;
    let found = service.ask(rt, pass, &EntriesFrom { least: 3 });
    let left = match leave(rt, service, pass, blocked, None) {
        Ok(()) => !stops && pass.has_lease(),
        Err(StillBlocked::Stopped(_, by)) => stops && by == WorkerId(1) && pass.blocked(),
        Err(StillBlocked::NoMemory(_)) => false,
    };
    Ok(left && found.is_ok())
}

// Takes the lease in the section of the other worker, and gives it back after a while, or stops the
// service.
fn takes_meanwhile<R: Wait>(rt: &R, service: &Coordination, pass: &mut Pass, stops: bool) -> bool
    requires { pass.old.service ≡ service.now.service }
    ensures { pass.new.service ≡ pass.old.service }
{
    let found = service.ask(rt, pass, &EntriesFrom { least: 2 }).is_ok();
    let taken = takes(rt, service, pass, &[], Shortage::Waits);
    yield_a_while();
    if stops {
        service.stop_all(rt, pass);
        return found && taken;
    }
    gives_back(rt, service, pass) && found && taken
}

// Worker 0 gives its lease back round a section, in which worker 1 takes the lease.
fn play<R: Wait + Abort>(rt: &R, service: &Coordination, pass: &mut Pass, stops: bool)
    requires { pass.old.service ≡ service.now.service }
    ensures { pass.new.service ≡ pass.old.service }
{
    let played = if pass.worker() == WorkerId(0) {
        matches!(leaves(rt, service, pass, stops), Ok(true))
    } else {
        takes_meanwhile(rt, service, pass, stops)
    };
    assert!(rt; played);
}

/// Two workers and one lease.
const ONE_LEASE: Limits = Limits {
    locks: 0,
    all: None,
    workers: 2,
    max_leases: 1,
};

// Has both workers play, each in a thread of its own.
fn play_in_threads<R: Threads + Wait + Abort + Sync>(
    rt: &R,
    service: &Coordination,
    passes: &mut [Pass],
    stops: bool,
)
    requires { All (λ p. p.service ≡ service.now.service) passes.old }
{
    thread::for_each_mut(rt, passes, 2, &|_, pass| { play(rt, service, pass, stops) });
}

// The lease of another thread ends the wait of leaving, or a stop does.
#[test]
fn leaving_waits_for_the_lease_of_another_thread_or_a_stop(
    rt: HostRuntime,
) -> Result<(), AllocError> {
    for stops in [false, true] {
        let mut opened = open(rt.alloc(), &ONE_LEASE, &[], &[])?.expect(&rt, "a graph that fits");
        let Opened { service, passes } = &mut *opened;
        play_in_threads(&rt, service, passes, stops);
        let_go(opened);
    }
    Ok(())
}
