//! Tests of the counts of a pool: two workers have items worked out at once, on one pool.
ghost use Rattle.std.specs.Prelude.{◌≡◌, ◌+◌, ◌≤◌, All, Contains, IfOk, true};
ghost use Rattle.resource_lock.specs.declared.marks.MarkId.TheVariants as ids;
ghost use Rattle.coordination.specs.Shown.{claimed_shown, lease_shown};
ghost use Rattle.daemon_manager.specs.Counts.{failures, reservations};
ghost use Rattle.item_work.specs.Tallying.{TallyRises, one_if_unreal};
ghost use Rattle.daemon_tests.specs.Asking.{AnyMayAsk, CanRun};

use crate::claimed_items::{claim, last_pass, queue_items, run_claimed};
use crate::item_tests::{stop_idle, stop_spare, work};
use crate::memory_desks::desk;
use coordination::{Opened, Pass};
use daemon_desk::Desk;
use daemon_manager::{CountedPool, Event, Pool, ReservationLedger, Tallies, Tally};
use daemon_requirements::Work;
use item_actions::Outcome;
use item_work::{PoolLock, Ran, SharedPool};
use memory_desk::MemoryDesk;
use std::alloc::{AllocError, Global};
use std::marker::Brand;
use std::process::Abort;
use std::sync::ledger::{Blank, Ledger};
use std::sync::{Mutex, Wait};
use std::thread::{Threads, join};

/// What a worker gives back.
#[derive(Drop)]
struct Worked<D, U: Ledger, F: Ledger> {
    desk: D,
    mine: Tally<U, F>,
    outcome: Outcome,
}

/// What two workers and their pool leave.
#[derive(Drop)]
struct Ended<D> {
    desks: (D, D),
    outcomes: (Outcome, Outcome),
    events: Vec<Event>,
}

// Runs the item, which the pass has claimed.
fn work_as<R: Wait, D: Desk, U: ReservationLedger, F: Ledger>(
    pool: &SharedPool<'_, R, D::Link, U, F>,
    pass: &Pass,
    desk: D,
    mine: Tally<U, F>,
    unit: u32,
    work: &Work,
) -> Worked<D, U, F>
    requires can { CanRun pass.now unit work.now }
    requires asks { AnyMayAsk U.asks }
    ensures { TallyRises mine result.mine (D.sends desk) (D.sends result.desk) (one_if_unreal result.outcome) }
{
    let mut desk = desk;
    let mut mine = mine;
    let Ran { outcome, spare } = run_claimed(pool, pass, &mut desk, &mut mine, unit, work);
    stop_spare(&mut desk, spare);
    Worked {
        desk,
        mine,
        outcome,
    }
}

// Stops the idle daemons, and gives all events, which have the tallies' counts.
fn close<D: Desk, U: ReservationLedger, F: Ledger>(
    desk: &mut D,
    pool: PoolLock<D::Link, U, F>,
    all: Tallies<U, F>,
) -> Vec<Event>
    requires { (all.parts ≡ U.parts) × (all.parts ≡ F.parts) }
    ensures sends { D.sends desk.new ≡ D.sends desk.old }
    ensures reserved { reservations result.items ≡ all.reserved }
    ensures failed { failures result.items ≤ all.failed }
{
    let mut pool = pool.into_inner();
    stop_idle(desk, &mut pool);
    pool.audit(all).into_events()
}

// Has two workers run an item each, at once. At least as many daemons were reserved as requests were sent, and no more
// failed than there are outcomes that aren't real.
fn work_at_once<
    R: Threads + Wait + Sync,
    D: Desk + Send + Drop,
    U: ReservationLedger + Send + Sync,
    F: Ledger + Send + Sync,
>(
    rt: &R,
    alloc: Global,
    passes: (Pass, Pass),
    desks: (D, D),
    work: &Work,
    blanks: (Blank, Blank),
) -> Result<Ended<D>, AllocError>
    requires left { CanRun passes.0 0 work.now }
    requires right { CanRun passes.1 1 work.now }
    requires reserved { (blanks.0.name ≡ U.name) × (blanks.0.parts ≡ U.parts) × (U.parts ≡ 3) }
    requires failed { (blanks.1.name ≡ F.name) × (blanks.1.parts ≡ F.parts) × (F.parts ≡ 3) }
    requires asks { AnyMayAsk U.asks }
    ensures reserved { IfOk result (λ end. D.sends end.desks.0 + D.sends end.desks.1 ≤ D.sends desks.0 + D.sends desks.1 + reservations end.events.items) }
    ensures failed { IfOk result (λ end. failures end.events.items ≤ one_if_unreal end.outcomes.0 + one_if_unreal end.outcomes.1) }
{
    let Ok(pool) = Pool::new(alloc) else {
        drop(passes);
        drop(desks);
        return Err(AllocError);
    };
    let (reserved, failed) = blanks;
    let (pool, mut all) = CountedPool::<D::Link, U, F>::new(pool, reserved, failed);
    let pool = Mutex::new(pool);
    let shared = &SharedPool {
        rt,
        alloc,
        pool: &pool,
    };
    let one = all.split_off();
    let two = all.split_off();
    let (left_pass, right_pass) = passes;
    let (first, second) = desks;
    let (mut left, right) = join(
        rt,
        move || -> Worked<D, U, F>
            requires can { CanRun left_pass 0 work.now }
            requires asks { AnyMayAsk U.asks }
            ensures { TallyRises one result.mine (D.sends first) (D.sends result.desk) (one_if_unreal result.outcome) }
        { work_as(shared, &left_pass, first, one, 0, work) },
        move || -> Worked<D, U, F>
            requires can { CanRun right_pass 1 work.now }
            requires asks { AnyMayAsk U.asks }
            ensures { TallyRises two result.mine (D.sends second) (D.sends result.desk) (one_if_unreal result.outcome) }
        { work_as(shared, &right_pass, second, two, 1, work) },
    );
    all.merge(left.mine);
    all.merge(right.mine);
    let events = close(&mut left.desk, pool, all);
    Ok(Ended {
        desks: (left.desk, right.desk),
        outcomes: (left.outcome, right.outcome),
        events,
    })
}

fn count_reserved(events: &[Event]) -> usize {
    let mut reserved = 0usize;
    for event in events {
        if matches!(event, Event::Reserved(..)) {
            reserved = reserved.saturating_add(1);
        }
    }
    reserved
}

// Has a worker of the service claim an item, which it may run.
fn claim_next<R: Wait + Abort>(rt: &R, opened: &mut Opened, unit: u32) -> Result<Pass, AllocError>
    requires { All (λ p. p.service ≡ opened.old.service.service) opened.old.passes.items }
    ensures others { All (λ p. p.service ≡ opened.new.service.service) opened.new.passes.items }
    ensures lease { IfOk result (λ pass. lease_shown pass.sight ≡ true) }
    ensures claimed { IfOk result (λ pass. Contains (claimed_shown pass.sight) (ids.Unit unit)) }
{
    let Opened { service, passes } = opened;
    let mut pass = last_pass(service, passes)?;
    match claim(rt, service, &mut pass, unit) {
        Ok(()) => Ok(pass),
        Err(fail) => {
            drop(pass);
            Err(fail)
        }
    }
}

// Has two workers of the service claim an item each, which they may run.
fn claim_both<R: Wait + Abort>(rt: &R, opened: &mut Opened) -> Result<(Pass, Pass), AllocError>
    requires { All (λ p. p.service ≡ opened.old.service.service) opened.old.passes.items }
    ensures left { IfOk result (λ passes. (lease_shown passes.0.sight ≡ true) × Contains (claimed_shown passes.0.sight) (ids.Unit 0)) }
    ensures right { IfOk result (λ passes. (lease_shown passes.1.sight ≡ true) × Contains (claimed_shown passes.1.sight) (ids.Unit 1)) }
{
    let left = claim_next(rt, opened, 0)?;
    match claim_next(rt, opened, 1) {
        Ok(right) => Ok((left, right)),
        Err(fail) => {
            drop(left);
            Err(fail)
        }
    }
}

// The passes of two workers that have claimed an item each, which they may run.
fn claim_two<R: Wait + Abort>(rt: &R, alloc: Global) -> Result<(Pass, Pass), AllocError>
    ensures left { IfOk result (λ passes. (lease_shown passes.0.sight ≡ true) × Contains (claimed_shown passes.0.sight) (ids.Unit 0)) }
    ensures right { IfOk result (λ passes. (lease_shown passes.1.sight ≡ true) × Contains (claimed_shown passes.1.sight) (ids.Unit 1)) }
{
    let mut opened = queue_items(rt, alloc)?;
    let passes = claim_both(rt, &mut opened);
    drop(opened);
    passes
}

// Two desks, of which no call fails.
fn two_desks(alloc: Global) -> Result<(MemoryDesk, MemoryDesk), AllocError> {
    let first = desk(alloc, &[], None)?;
    let second = desk(alloc, &[], None)?;
    Ok((Box::into_inner(first), Box::into_inner(second)))
}

// How many daemons are reserved where two workers run this item at once.
fn reserved_for<R: Threads + Wait + Sync + Abort>(
    rt: &R,
    alloc: Global,
    passes: (Pass, Pass),
    item: &Work,
) -> Result<usize, AllocError>
    requires left { CanRun passes.0 0 item.now }
    requires right { CanRun passes.1 1 item.now }
{
    let Ok(desks) = two_desks(alloc) else {
        drop(passes);
        return Err(AllocError);
    };
    let blanks = (Blank::new(3), Blank::new(3));
    let ended = work_at_once::<R, MemoryDesk, Brand, Brand>(
        rt, alloc, passes, desks, item, blanks,
    )?;
    let reserved = count_reserved(&ended.events);
    drop(ended);
    Ok(reserved)
}

// How many daemons are reserved for two items that run at once.
fn reserved_at_once<R: Threads + Wait + Sync + Abort>(
    rt: &R,
    alloc: Global,
) -> Result<usize, AllocError> {
    let passes = claim_two(rt, alloc)?;
    let Ok(item) = work(rt, alloc, 0, 512) else {
        drop(passes);
        return Err(AllocError);
    };
    let reserved = reserved_for(rt, alloc, passes, &item);
    drop(item);
    reserved
}

#[test]
fn each_request_has_its_reservation(rt: HostRuntime) -> Result<(), AllocError> {
    assert!(rt; reserved_at_once(&rt, rt.alloc())? == 2);
    Ok(())
}
