//! Tests of `BudgetPool`: what room there is, and what is stopped for it.
ghost use Rattle.std.specs.Prelude.{◌≡◌, ◌≤◌, [], true};

use crate::asked::{Link, requirements_of};
use daemon_manager::{Event, Reserved};
use daemon_requirements::Linked;
use memory_budget::{BudgetPool, MAX_BUDGET_MB, Permit, Room, Unadopted};
use std::alloc::{AllocError, Global};
use std::process::Abort;

// What comes of asking for room for a daemon with this heap.
fn room<R: Abort>(rt: &R, alloc: Global, pool: &mut BudgetPool<Link>, heap_mb: u32) -> Room<Link> {
    let asked = requirements_of(alloc, heap_mb).expect(rt, "a heap in range");
    pool.room(alloc, 7, &asked).expect(rt, "memory")
}

// Starts a daemon on a permit.
fn start<R: Abort>(
    rt: &R,
    alloc: Global,
    pool: &mut BudgetPool<Link>,
    permit: Permit,
) -> Reserved<Link>
    ensures { result.link.settled ≡ true }
{
    let made_for = permit.requirements().copy(alloc).expect(rt, "memory");
    let link = Link {
        made_for,
        settled: true,
    };
    match pool.adopt(alloc, permit, link) {
        Ok(reserved) => reserved,
        Err(Unadopted::NotOut(permit, link)) => {
            drop(link);
            pool.give_up(permit);
            panic!(rt; "the permit isn't out")
        }
        Err(Unadopted::NoMemory(permit, link)) => {
            drop(link);
            pool.give_up(permit);
            panic!(rt; "there was no memory")
        }
    }
}

// The permit for a daemon with this heap, and how many daemons were stopped for it.
fn permit<R: Abort>(
    rt: &R,
    alloc: Global,
    pool: &mut BudgetPool<Link>,
    heap_mb: u32,
) -> (Permit, usize) {
    match room(rt, alloc, pool, heap_mb) {
        Room::Start(permit, links) => (permit, links.len()),
        Room::Idle(reserved) => {
            give_back(pool, reserved);
            panic!(rt; "a daemon was idle")
        }
        Room::Over(_) => panic!(rt; "there was no room"),
    }
}

fn give_back(pool: &mut BudgetPool<Link>, reserved: Reserved<Link>) {
    let mut reserved = reserved;
    reserved.link().settled = true;
    let _ = pool.release(reserved);
}

// A busy daemon with this heap, for which none is stopped.
fn busy<R: Abort>(
    rt: &R,
    alloc: Global,
    pool: &mut BudgetPool<Link>,
    heap_mb: u32,
) -> Reserved<Link>
    ensures { result.link.settled ≡ true }
{
    let (permit, stopped) = permit(rt, alloc, pool, heap_mb);
    assert!(rt; stopped == 0);
    start(rt, alloc, pool, permit)
}

// The idle daemon that is reserved for who asks for this heap.
fn reserved<R: Abort>(
    rt: &R,
    alloc: Global,
    pool: &mut BudgetPool<Link>,
    heap_mb: u32,
) -> Reserved<Link> {
    match room(rt, alloc, pool, heap_mb) {
        Room::Idle(reserved) => reserved,
        Room::Start(permit, links) => {
            drop(links);
            pool.give_up(permit);
            panic!(rt; "no daemon was idle")
        }
        Room::Over(_) => panic!(rt; "there was no room"),
    }
}

// What is firm where there is no room for a daemon with this heap.
fn over<R: Abort>(rt: &R, alloc: Global, pool: &mut BudgetPool<Link>, heap_mb: u32) -> u64 {
    match room(rt, alloc, pool, heap_mb) {
        Room::Over(firm_mb) => firm_mb,
        Room::Start(permit, links) => {
            drop(links);
            pool.give_up(permit);
            panic!(rt; "a permit was given")
        }
        Room::Idle(reserved) => {
            give_back(pool, reserved);
            panic!(rt; "a daemon was idle")
        }
    }
}

// Stops the idle daemons, and gives all that happened.
fn close(mut pool: BudgetPool<Link>) -> Vec<Event> {
    stop_idle(&mut pool);
    pool.into_events()
}

fn stop_idle<L: Linked + Drop>(pool: &mut BudgetPool<L>)
    ensures { pool.new.pool.idle ≡ [] }
{
    while let Some(link) = pool.stop_idle() {
        drop(link);
    }
}

fn last_stopped(events: &[Event]) -> Option<u64> {
    match events.last() {
        Some(Event::Stopped(daemon)) => Some(*daemon),
        _ => None,
    }
}

fn new_pool<R: Abort>(rt: &R, alloc: Global, budget_mb: u64) -> BudgetPool<Link>
    requires { budget_mb ≤ MAX_BUDGET_MB }
{
    BudgetPool::new(alloc, budget_mb).expect(rt, "memory")
}

// The heaps of the pool's daemons, and those of its permits.
fn memory(pool: &BudgetPool<Link>) -> (u64, u64) {
    (pool.held_mb(), pool.permitted_mb())
}

#[test]
fn an_idle_daemon_is_stopped_only_where_room_is_needed(rt: HostRuntime) {
    let alloc = rt.alloc();
    let mut pool = new_pool(&rt, alloc, 2048);
    let first = busy(&rt, alloc, &mut pool, 512);
    let second = busy(&rt, alloc, &mut pool, 512);
    let third = busy(&rt, alloc, &mut pool, 512);
    let kept = (
        pool.release(first).is_none(),
        pool.release(second).is_none(),
    );
    let idle = memory(&pool);
    let (permit, stopped) = permit(&rt, alloc, &mut pool, 1024);
    let last = last_stopped(pool.events());
    let permitted = memory(&pool);
    let again = reserved(&rt, alloc, &mut pool, 512);
    let daemon = again.daemon();
    let firm_mb = over(&rt, alloc, &mut pool, 1024);
    pool.give_up(permit);
    give_back(&mut pool, again);
    give_back(&mut pool, third);
    let left = memory(&pool);
    let events = close(pool).len();
    assert!(rt; kept == (true, true) && (stopped, last, daemon) == (1, Some(0), 1));
    assert!(rt; (idle, permitted, left) == ((1536, 0), (1024, 1024), (1024, 0)));
    assert!(rt; (firm_mb, events) == (2048, 14));
}

#[test]
fn a_permit_keeps_its_heap_until_it_is_given_up(rt: HostRuntime) {
    let alloc = rt.alloc();
    let mut pool = new_pool(&rt, alloc, 512);
    let budget_mb = pool.budget_mb();
    let none_mb = over(&rt, alloc, &mut pool, 513);
    let (first, stopped) = permit(&rt, alloc, &mut pool, 512);
    let told = (first.unit(), first.requirements().fields().heap_mb);
    let firm_mb = over(&rt, alloc, &mut pool, 1);
    pool.give_up(first);
    let (second, _) = permit(&rt, alloc, &mut pool, 1);
    let daemon = start(&rt, alloc, &mut pool, second);
    let started = memory(&pool);
    fail(&mut pool, daemon);
    let failed_mb = pool.held_mb();
    let events = close(pool).len();
    assert!(rt; (budget_mb, none_mb, firm_mb, failed_mb) == (512, 0, 512, 0));
    assert!(rt; (stopped, told, started, events) == (0, (7, 512), (1, 0), 3));
}

fn fail(pool: &mut BudgetPool<Link>, reserved: Reserved<Link>) {
    let mut reserved = reserved;
    reserved.link().settled = false;
    let _ = pool.fail(reserved);
}

// Whether a permit of another pool comes back, and changes nothing here.
fn is_handed_back<R: Abort>(
    rt: &R,
    alloc: Global,
    pool: &mut BudgetPool<Link>,
    permit: Permit,
) -> bool {
    let made_for = permit.requirements().copy(alloc).expect(rt, "memory");
    let link = Link {
        made_for,
        settled: true,
    };
    match pool.adopt(alloc, permit, link) {
        Err(Unadopted::NotOut(permit, link)) => {
            drop(link);
            pool.give_up(permit);
            true
        }
        Err(Unadopted::NoMemory(permit, link)) => {
            drop(link);
            pool.give_up(permit);
            false
        }
        Ok(reserved) => {
            give_back(pool, reserved);
            false
        }
    }
}

// A permit of another pool, for a daemon with this heap.
fn foreign_permit<R: Abort>(rt: &R, alloc: Global, heap_mb: u32) -> Permit {
    let mut pool = new_pool(rt, alloc, 512);
    let (permit, _) = permit(rt, alloc, &mut pool, heap_mb);
    let _ = close(pool);
    permit
}

#[test]
fn a_permit_of_another_pool_is_worth_nothing(rt: HostRuntime) {
    let alloc = rt.alloc();
    let mut pool = new_pool(&rt, alloc, 512);
    let (own, _) = permit(&rt, alloc, &mut pool, 256);
    let foreign = foreign_permit(&rt, alloc, 255);
    let comes_back = is_handed_back(&rt, alloc, &mut pool, foreign);
    let permitted_mb = pool.permitted_mb();
    pool.give_up(own);
    let events = close(pool).len();
    assert!(rt; comes_back && (permitted_mb, events) == (256, 0));
}

#[test]
fn no_more_idle_daemons_are_stopped_than_needed(rt: HostRuntime) {
    let alloc = rt.alloc();
    let mut pool = new_pool(&rt, alloc, 1000);
    let first = busy(&rt, alloc, &mut pool, 300);
    let second = busy(&rt, alloc, &mut pool, 300);
    let third = busy(&rt, alloc, &mut pool, 300);
    give_back(&mut pool, second);
    give_back(&mut pool, first);
    give_back(&mut pool, third);
    let (permit, stopped) = permit(&rt, alloc, &mut pool, 500);
    let last = last_stopped(pool.events());
    let left_mb = pool.held_mb();
    let daemon = start(&rt, alloc, &mut pool, permit);
    let started_mb = pool.held_mb();
    give_back(&mut pool, daemon);
    let events = close(pool).len();
    assert!(rt; (stopped, last, events) == (2, Some(0), 16));
    assert!(rt; (left_mb, started_mb) == (300, 800));
}
