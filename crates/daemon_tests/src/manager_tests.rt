//! Tests of `daemon_manager`: callers of the pool, whose links are the requirements that they are made for.
ghost use Rattle.std.specs.Prelude.{◌≡◌, [], IfOk, true};

use crate::asked::{Asked, PLAIN, requirements, requirements_of};
use crate::lines::{add_events, check};
use crate::requirement_tests::{Link, heap_of};
use daemon_manager::{DaemonState, Event, Pool, Reserved};
use daemon_requirements::{Linked, Requirements};
use item_actions::KeepAlive;
use std::alloc::{AllocError, Global};

fn start(
    alloc: Global,
    pool: &mut Pool<Link>,
    unit: u32,
    asked: Requirements,
) -> Result<Reserved<Link>, AllocError>
    ensures { IfOk result (λ reserved. reserved.link.settled ≡ true) }
{
    let made_for = asked.copy(alloc)?;
    let settled = true;
    match pool.adopt(Link { made_for, settled }, asked, unit) {
        Ok(reserved) => Ok(reserved),
        Err(_) => Err(AllocError),
    }
}

// Reserves an idle daemon with this heap at least for the unit, or starts one.
fn take(
    alloc: Global,
    pool: &mut Pool<Link>,
    unit: u32,
    heap_mb: u32,
) -> Result<Reserved<Link>, AllocError>
    ensures { IfOk result (λ reserved. reserved.link.settled ≡ true) }
{
    let asked = requirements_of(alloc, heap_mb)?;
    match pool.reserve_idle(unit, &asked)? {
        Some(reserved) => Ok(reserved),
        None => start(alloc, pool, unit, asked),
    }
}

// Has a daemon with this heap at least work for the unit.
fn work(alloc: Global, pool: &mut Pool<Link>, unit: u32, heap_mb: u32) -> Result<(), AllocError> {
    let reserved = take(alloc, pool, unit, heap_mb)?;
    let _ = pool.release(reserved);
    Ok(())
}

// Stops the idle daemons.
fn stop_idle<L: Linked + Drop>(pool: &mut Pool<L>)
    ensures { pool.new.idle ≡ [] }
{
    while let Some(link) = pool.stop_idle() {
        drop(link);
    }
}

// Stops the idle daemons, and gives the events.
fn close<L: Linked + Drop>(mut pool: Pool<L>) -> Vec<Event> {
    stop_idle(&mut pool);
    pool.into_events()
}

fn work_twice(
    alloc: Global,
    pool: &mut Pool<Link>,
    [first, last]: [u32; 2],
) -> Result<(), AllocError> {
    work(alloc, pool, 0, first)?;
    work(alloc, pool, 1, last)
}

// What happens to the daemons of two units that ask for these heaps.
fn events_of(alloc: Global, heaps: [u32; 2]) -> Result<String, AllocError> {
    let mut pool = Pool::new(alloc)?;
    let worked = work_twice(alloc, &mut pool, heaps);
    let events = close(pool);
    worked?;
    let mut line = String::new(alloc);
    add_events(&events, &mut line)?;
    Ok(line)
}

const GREATER_LAST: &str =
    "started 0. reserved 0 for 0. released 0. started 1. reserved 1 for 1. released 1. stopped 0. stopped 1. ";

const SMALLER_LAST: &str =
    "started 0. reserved 0 for 0. released 0. reserved 0 for 1. released 0. stopped 0. ";

static HEAPS: [([u32; 2], &str); 2] = [([512, 1024], GREATER_LAST), ([1024, 512], SMALLER_LAST)];

#[test]
fn a_daemon_is_used_again_where_it_covers(rt: HostRuntime) -> Result<(), AllocError> {
    for (heaps, expected) in &HEAPS {
        check(&rt, &events_of(rt.alloc(), *heaps)?, expected);
    }
    Ok(())
}

// Whether an idle daemon serves for this mode.
fn is_reserved(alloc: Global, pool: &mut Pool<Link>, keep: KeepAlive) -> Result<bool, AllocError> {
    let asked = requirements(alloc, &Asked { keep, ..PLAIN })?;
    let found = pool.reserve_idle(1, &asked);
    drop(asked);
    match found? {
        Some(reserved) => {
            let _ = pool.release(reserved);
            Ok(true)
        }
        None => Ok(false),
    }
}

// Whether a daemon that is kept for a session serves for each of the modes.
fn serves(alloc: Global, pool: &mut Pool<Link>) -> Result<(bool, bool), AllocError> {
    work(alloc, pool, 0, 512)?;
    let session = is_reserved(alloc, pool, KeepAlive::Session)?;
    let daemon = is_reserved(alloc, pool, KeepAlive::Daemon)?;
    Ok((session, daemon))
}

// Whether a reserved daemon tells its number, its unit and its link.
fn is_first(reserved: &mut Reserved<Link>) -> bool {
    reserved.daemon() == 0 && reserved.unit() == 7 && heap_of(reserved.link()) == 512
}

// Whether the daemon that failed last isn't idle.
fn has_failed<L: Linked>(pool: &Pool<L>) -> bool {
    match pool.events().last() {
        Some(event) => pool.idle() == 0 && matches!(event.state(), DaemonState::Failed),
        None => false,
    }
}

// Whether a daemon is reserved for unit 7, and its link comes back as it fails, and the pool has noted that.
fn fails(alloc: Global, pool: &mut Pool<Link>) -> Result<bool, AllocError> {
    let mut reserved = take(alloc, pool, 7, 512)?;
    let is_first = is_first(&mut reserved);
    reserved.link().settled = false;
    let link = pool.fail(reserved);
    let has_heap = heap_of(&link) == 512;
    drop(link);
    Ok(is_first && has_heap && has_failed(pool))
}

// Whether an idle daemon serves in its own mode, and a daemon that failed isn't used again.
fn serves_and_fails(alloc: Global) -> Result<bool, AllocError> {
    let mut pool = Pool::new(alloc)?;
    let served = serves(alloc, &mut pool);
    let _ = close(pool);
    let mut pool = Pool::new(alloc)?;
    let failed = fails(alloc, &mut pool);
    let _ = close(pool);
    Ok(served? == (true, false) && failed?)
}

#[test]
fn a_daemon_serves_in_its_own_mode_and_not_once_it_failed(
    rt: HostRuntime,
) -> Result<(), AllocError> {
    assert!(rt; serves_and_fails(rt.alloc())?);
    Ok(())
}
