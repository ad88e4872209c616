//! What each worker does in its thread.
ghost use Rattle.std.specs.Prelude.{◌≡◌, ◌<◌, [], All, OnOk, false, map, true};
ghost use Rattle.coordination.specs.Shown.{blocked_shown, claimed_shown, lease_shown, locks_shown, parked_shown};
ghost use Rattle.lease_service.specs.Shows.{MayTake};

use blocking_section::{StillBlocked, enter, leave};
use coordination::{Coordination, Halt, Pass, used_passes_have_their_numbers};
use lease_service::{hand_back, take_locks};
use lock_journal::Segment;
use resource_lock::LockId;
use std::sync::{Mutex, Wait};
use std::thread;
use std::thread::Threads;

/// The history as it is taken: its last part, and how many entries all parts had.
#[derive(Drop)]
pub(crate) struct Parts {
    pub segment: Segment,
    pub entries: u64,
}

// Waits for something without a lease and without a lock: other workers work meanwhile.
fn step_aside<R: Wait>(rt: &R, service: &Coordination, pass: &mut Pass) -> Result<(), Halt>
    requires service { pass.old.service ≡ service.now.service }
    requires lease { lease_shown pass.old.sight ≡ true }
    requires claimed { claimed_shown pass.old.sight ≡ [] }
    requires parked { parked_shown pass.old.sight ≡ [] }
    ensures service { pass.new.service ≡ pass.old.service }
    ensures worker { pass.new.sight.worker ≡ pass.old.sight.worker }
    ensures lease { OnOk result (lease_shown pass.new.sight ≡ true) }
    ensures locks { OnOk result (locks_shown pass.new.sight ≡ locks_shown pass.old.sight) }
    ensures claimed { OnOk result (claimed_shown pass.new.sight ≡ []) }
    ensures blocked { OnOk result (blocked_shown pass.new.sight ≡ false) }
{
    let blocked = enter(rt, service, pass, None)?;
    // Here the worker would wait for a file, a socket or another program.
    match leave(rt, service, pass, blocked, None) {
        Ok(()) => Ok(()),
        Err(StillBlocked::NoMemory(_)) => Err(Halt::NoMemory),
        Err(StillBlocked::Stopped(_, by)) => Err(Halt::Stopped(by)),
    }
}

// Works in the project with this lock: waits for the lock and a lease, takes both at once, steps aside once, and gives
// both back at once.
fn work_in<R: Wait>(
    rt: &R,
    service: &Coordination,
    pass: &mut Pass,
    lock: LockId,
) -> Result<(), Halt>
    requires service { pass.old.service ≡ service.now.service }
    requires lock { lock.0 < pass.old.sight.seen.graph.locks }
    requires claimed { claimed_shown pass.old.sight ≡ [] }
    requires parked { parked_shown pass.old.sight ≡ [] }
    requires blocked { blocked_shown pass.old.sight ≡ false }
    ensures service { pass.new.service ≡ pass.old.service }
    ensures worker { pass.new.sight.worker ≡ pass.old.sight.worker }
    ensures lease { OnOk result (lease_shown pass.new.sight ≡ false) }
    ensures locks { OnOk result (locks_shown pass.new.sight ≡ []) }
{
    take_locks(rt, service, pass, &[lock])?;
    step_aside(rt, service, pass)?;
    match hand_back(rt, service, pass) {
        Ok(()) => Ok(()),
        Err(_) => Err(Halt::NoMemory),
    }
}

// Takes the entries that came since they were taken last. A program that keeps its history writes them to a file before it clears them.
// The service goes on in the room of the part before, so the two take turns, and memory doesn't grow with the history.
fn take_part<R: Wait>(rt: &R, service: &Coordination, pass: &mut Pass, parts: &Mutex<Parts>)
    requires { pass.old.service ≡ service.now.service }
    ensures service { pass.new.service ≡ pass.old.service }
    ensures worker { pass.new.sight.worker ≡ pass.old.sight.worker }
{
    let mut parts = parts.lock(rt);
    if service.take_history(rt, pass, &mut parts.segment) {
        parts.entries = parts.entries.saturating_add(parts.segment.len());
        parts.segment.clear();
    }
}

// Works in the worker's own project, whose lock has the worker's number, and takes a part of the history then. Whoever finds no memory
// stops the others, so that none waits for it.
fn work<R: Wait>(rt: &R, service: &Coordination, pass: &mut Pass, locks: u32, parts: &Mutex<Parts>)
    requires service { pass.old.service ≡ service.now.service }
    requires locks { pass.old.sight.seen.graph.locks ≡ locks }
    ensures service { pass.new.service ≡ pass.old.service }
    ensures worker { pass.new.sight.worker ≡ pass.old.sight.worker }
{
    let lock = LockId(pass.worker().0);
    let is_idle = pass.claimed().is_empty() && pass.parked().is_empty() && !pass.blocked();
    if !is_idle || lock.0 >= locks {
        return;
    }
    if matches!(work_in(rt, service, pass, lock), Err(Halt::NoMemory)) {
        service.stop_all(rt, pass);
    }
    take_part(rt, service, pass, parts);
}

/// Has each worker work in a thread of its own, and waits for all of them.
pub(crate) fn work_in_threads<R: Threads + Wait + Sync>(
    rt: &R,
    service: &Coordination,
    passes: &mut [Pass],
    locks: u32,
    parts: &Mutex<Parts>,
)
    requires service { All (λ p. p.service ≡ service.now.service) passes.old }
    requires locks { All (λ p. p.sight.seen.graph.locks ≡ locks) passes.old }
    ensures service { All (λ p. p.service ≡ service.now.service) passes.new }
    ensures workers { map (λ p. p.sight.worker.0) passes.new ≡ map (λ p. p.sight.worker.0) passes.old }
{
    used_passes_have_their_numbers();
    let threads = passes.len().max(1);
    thread::for_each_mut(
        rt,
        passes,
        threads,
        &|_, pass| { work(rt, service, pass, locks, parts) },
    );
}
