//! Leases and project locks.
ghost use Rattle.std.specs.Prelude.{◌≡◌, ◌<◌, [], ◌∷◌, All, IfOk, Ok, length, true, false};
ghost use Rattle.lock_transforms.specs.Taking.{rises};
ghost use Rattle.coordination.specs.Holds.{HoldsNothing};
ghost use Rattle.coordination.specs.Shown.{blocked_shown, claimed_shown, lease_shown, locks_shown, parked_shown};
ghost use Rattle.lease_service.specs.declared.holders.Tried.TheVariants.{Got};

use crate::entries::{EntryRow, are_entries};
use crate::services::{let_go, open, yield_a_while};
use coordination::{Coordination, Opened, Pass};
use item_actions::Text;
use lease_service::{
    ProjectLocks, Tried, current_lease, hand_back, run_as_worker, take_locks, try_take_locks,
};
use lock_transforms::Kind;
use resource_lock::{Change, Graph, GraphTasks, LockId, WorkerId};
use state_tests::rows::Limits;
use std::alloc::{AllocError, Global};
use std::process::Abort;
use std::sync::Wait;
use std::thread;
use std::thread::Threads;

const FIRST: LockId = LockId(0);

const SECOND: LockId = LockId(1);

const THIRD: LockId = LockId(2);

// Takes two locks, hands them back, and tries for another: each call's conditions follow from the
// clauses of those before.
fn take_and_hand_back<R: Wait + Abort>(
    rt: &R,
    service: &Coordination,
    pass: &mut Pass,
) -> Result<Tried, AllocError>
    requires service { pass.old.service ≡ service.now.service }
    requires nothing { HoldsNothing pass.old.sight }
    requires locks { 2 < pass.old.sight.seen.graph.locks }
    ensures lease { result ≡ Ok Got → lease_shown pass.new.sight ≡ true }
    ensures locks { result ≡ Ok Got → locks_shown pass.new.sight ≡ record { 0 = 1 } ∷ [] }
{
    assert!(rt; take_locks(rt, service, pass, &[FIRST, THIRD]).is_ok());
    prove!(current_lease(pass).is_some());
    hand_back(rt, service, pass)?;
    prove!(current_lease(pass).is_none());
    try_take_locks(rt, service, pass, &[SECOND])
}

/// Two workers, three locks, and as many leases as workers.
const LIMITS: Limits = Limits {
    locks: 3,
    all: None,
    workers: 2,
    max_leases: 2,
};

/// Locks that are asked for together.
#[derive(Clone, Copy)]
enum Asked {
    First,
    Second,
    FirstAndThird,
    SecondAndThird,
}

fn locks_of(asked: Asked) -> &'static [LockId]
    ensures rising { rises 0 result.now ≡ true }
    ensures in_range { All (λ l. l.0 < 3) result.now }
{
    match asked {
        Asked::First => &[FIRST],
        Asked::Second => &[SECOND],
        Asked::FirstAndThird => &[FIRST, THIRD],
        Asked::SecondAndThird => &[SECOND, THIRD],
    }
}

/// What a worker asks of the service.
#[derive(Clone, Copy)]
enum Call {
    Take(Asked),
    Try(Asked),
    HandBack,
    RunAsWorker,
}

// Whether the worker runs nothing, has parked nothing and isn't blocked.
fn is_free(pass: &Pass) -> bool
    ensures claimed { result ≡ true → claimed_shown pass.now.sight ≡ [] }
    ensures parked { result ≡ true → parked_shown pass.now.sight ≡ [] }
    ensures blocked { result ≡ true → blocked_shown pass.now.sight ≡ false }
{
    pass.claimed().is_empty() && pass.parked().is_empty() && !pass.blocked()
}

// Makes the call with a pass of three locks, and tells whether the worker got what it asked for.
fn gets<R: Wait + Abort>(rt: &R, service: &Coordination, pass: &mut Pass, call: Call) -> bool
    requires service { pass.old.service ≡ service.now.service }
    requires three { pass.old.sight.seen.graph.locks ≡ 3 }
    ensures service { pass.new.service ≡ pass.old.service }
    ensures three { pass.new.sight.seen.graph.locks ≡ 3 }
{
    assert!(rt; is_free(pass));
    match call {
        Call::Take(asked) => take_locks(rt, service, pass, locks_of(asked)).is_ok(),
        Call::Try(asked) => {
            let tried = try_take_locks(rt, service, pass, locks_of(asked));
            matches!(tried, Ok(Tried::Got))
        }
        Call::HandBack => pass.has_lease() && hand_back(rt, service, pass).is_ok(),
        Call::RunAsWorker => run_as_worker(rt, service, pass).is_ok(),
    }
}

/// A worker's call, whether it gets what it asks for, and then how many locks the worker has, and
/// whether it has a lease.
type Turn = (usize, Call, bool, usize, bool);

/// Two workers share three locks. The second can't get the second and third while the first has
/// the first and third, but the second alone, which it hands back.
const SHARE: &[Turn] = &[
    (0, Call::Take(Asked::FirstAndThird), true, 2, true),
    (1, Call::Try(Asked::SecondAndThird), false, 0, false),
    (1, Call::Try(Asked::Second), true, 1, true),
    (1, Call::HandBack, true, 0, false),
];

const SHARED: &[EntryRow<'static>] = &[
    EntryRow {
        place: 0,
        kind: Kind::Acquire,
        changes: Some(&[Change::Lock(FIRST), Change::Lock(THIRD), Change::Take]),
    },
    EntryRow {
        place: 1,
        kind: Kind::Acquire,
        changes: None,
    },
];

/// A busy lock is free once it was handed back by a worker, which then takes a lease alone.
const FREE: &[Turn] = &[
    (0, Call::Take(Asked::First), true, 1, true),
    (1, Call::Try(Asked::First), false, 0, false),
    (0, Call::HandBack, true, 0, false),
    (0, Call::RunAsWorker, true, 0, true),
    (1, Call::Try(Asked::First), true, 1, true),
];

// Whether a turn goes as it has to.
fn goes<R: Wait + Abort>(rt: &R, service: &Coordination, pass: &mut Pass, turn: &Turn) -> bool
    requires service { pass.old.service ≡ service.now.service }
    requires three { pass.old.sight.seen.graph.locks ≡ 3 }
    ensures service { pass.new.service ≡ pass.old.service }
    ensures three { pass.new.sight.seen.graph.locks ≡ 3 }
{
    let (_, call, got, locks, has_lease) = *turn;
    gets(rt, service, pass, call) == got
        && pass.locks().len() == locks
        && current_lease(pass).is_some() == has_lease
}

// Whether all turns go as they have to, and the history then has these entries.
fn all_go<R: Wait + Abort>(
    rt: &R,
    service: &Coordination,
    passes: &mut [Pass],
    turns: &[Turn],
    rows: &[EntryRow<'_>],
) -> bool
    requires service { All (λ p. p.service ≡ service.now.service) passes.old }
    requires three { All (λ p. p.sight.seen.graph.locks ≡ 3) passes.old }
    requires two { length passes.old ≡ 2 }
{
    for turn in turns {
        let worker = turn.0;
        if worker > 1 || !goes(rt, service, &mut passes[worker], turn) {
            return false;
        }
    }
    are_entries(rt, service, &mut passes[0], rows)
}

/// Turns, and entries that the history then has.
static PLAYS: [(&[Turn], &[EntryRow<'static>]); 2] = [(SHARE, SHARED), (FREE, &[])];

#[test]
fn workers_take_free_locks_and_no_busy_ones(rt: HostRuntime) -> Result<(), AllocError> {
    for (turns, rows) in &PLAYS {
        let mut opened = open(rt.alloc(), &LIMITS, &[], &[])?.expect(&rt, "a graph that fits");
        let Opened { service, passes } = &mut *opened;
        let go = all_go(&rt, service, passes, turns, rows);
        let_go(opened);
        assert!(rt; go);
    }
    Ok(())
}

// The locks of projects a and b.
fn two_projects(alloc: Global, parallel: bool) -> Result<ProjectLocks, AllocError> {
    let names = [Text::from_str(alloc, "a")?, Text::from_str(alloc, "b")?];
    ProjectLocks::new(alloc, &names, parallel)
}

/// A project, and its lock where projects have locks of their own or not.
static PROJECTS: [(&str, bool, Option<LockId>); 6] = [
    ("a", false, Some(FIRST)),
    ("b", false, Some(FIRST)),
    ("c", false, None),
    ("a", true, Some(FIRST)),
    ("b", true, Some(SECOND)),
    ("c", true, None),
];

// The lock of the project with this name.
fn lock_named(
    alloc: Global,
    locks: &ProjectLocks,
    name: &str,
) -> Result<Option<LockId>, AllocError> {
    let name = Text::from_str(alloc, name)?;
    let lock = locks.lock_of(&name);
    drop(name);
    Ok(lock)
}

// Whether the project has this lock.
fn has_lock(
    alloc: Global,
    name: &str,
    parallel: bool,
    expected: Option<LockId>,
) -> Result<bool, AllocError> {
    let locks = two_projects(alloc, parallel)?;
    let lock = lock_named(alloc, &locks, name);
    let count = locks.count();
    drop(locks);
    Ok(lock? == expected && count == 1 + u32::from(parallel))
}

// Whether a graph of two workers can have so many locks, the last one for all projects.
fn fits_for_two(alloc: Global, all: LockId) -> bool {
    let tasks = GraphTasks::none(alloc);
    Graph::fits(all.0.saturating_add(1), Some(all), 2, 2, &tasks, &[])
}

// Whether a graph of two workers has the locks of both projects, and one for all projects behind them.
fn has_lock_for_all(alloc: Global, parallel: bool) -> Result<bool, AllocError> {
    let locks = two_projects(alloc, parallel)?;
    let all = locks.all_lock();
    let count = locks.count();
    drop(locks);
    Ok(all.0 == count && fits_for_two(alloc, all))
}

#[test]
fn projects_have_locks_of_their_own_in_parallel(rt: HostRuntime) -> Result<(), AllocError> {
    for (name, parallel, expected) in &PROJECTS {
        assert!(rt; has_lock(rt.alloc(), name, *parallel, *expected)?);
    }
    Ok(())
}

#[test]
fn all_projects_have_one_lock_behind_their_own(rt: HostRuntime) -> Result<(), AllocError> {
    assert!(rt; has_lock_for_all(rt.alloc(), false)? && has_lock_for_all(rt.alloc(), true)?);
    Ok(())
}

// Worker 0 has lock 0 and hands it back after a while, or stops the service, and worker 1 waits for
// the lock. Tells whether that ends the wait.
fn wait_for_lock<R: Wait + Abort>(
    rt: &R,
    service: &Coordination,
    pass: &mut Pass,
    stops: bool,
) -> bool
    requires service { pass.old.service ≡ service.now.service }
    requires three { pass.old.sight.seen.graph.locks ≡ 3 }
    ensures service { pass.new.service ≡ pass.old.service }
{
    if pass.worker().0 == 1 {
        let stopped_by = if stops { Some(WorkerId(0)) } else { None };
        let taken = gets(rt, service, pass, Call::Take(Asked::First));
        return taken != stops && pass.stopped_by() == stopped_by;
    }
    yield_a_while();
    if stops {
        service.stop_all(rt, pass);
        return true;
    }
    gets(rt, service, pass, Call::HandBack)
}

// Worker 0 takes lock 0.
fn take_first<R: Wait + Abort>(rt: &R, service: &Coordination, passes: &mut [Pass])
    requires service { All (λ p. p.service ≡ service.now.service) passes.old }
    requires three { All (λ p. p.sight.seen.graph.locks ≡ 3) passes.old }
    requires two { length passes.old ≡ 2 }
    ensures service { All (λ p. p.service ≡ service.now.service) passes.new }
    ensures three { All (λ p. p.sight.seen.graph.locks ≡ 3) passes.new }
{
    assert!(rt; gets(rt, service, &mut passes[0], Call::Take(Asked::First)));
}

// Worker 0 takes lock 0, for which worker 1 then waits in a thread of its own.
fn wait_in_threads<R: Threads + Wait + Abort + Sync>(
    rt: &R,
    service: &Coordination,
    passes: &mut [Pass],
    stops: bool,
)
    requires service { All (λ p. p.service ≡ service.now.service) passes.old }
    requires three { All (λ p. p.sight.seen.graph.locks ≡ 3) passes.old }
    requires two { length passes.old ≡ 2 }
{
    take_first(rt, service, passes);
    thread::for_each_mut(
        rt,
        passes,
        2,
        &|_, pass| {
            assert!(rt; wait_for_lock(rt, service, pass, stops));
        },
    );
}

#[test]
fn a_lock_is_waited_for_until_it_is_handed_back_or_a_stop(
    rt: HostRuntime,
) -> Result<(), AllocError> {
    for stops in [false, true] {
        let mut opened = open(rt.alloc(), &LIMITS, &[], &[])?.expect(&rt, "a graph that fits");
        let Opened { service, passes } = &mut *opened;
        wait_in_threads(&rt, service, passes, stops);
        let_go(opened);
    }
    Ok(())
}
