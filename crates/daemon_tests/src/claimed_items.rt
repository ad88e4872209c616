//! Items that a worker has claimed, so that it may run them.
ghost use Rattle.std.specs.Prelude.{◌≡◌, All, Contains, IfOk, OnOk, true};
ghost use Rattle.resource_lock.specs.Opening.{opening_of};
ghost use Rattle.resource_lock.specs.declared.marks.MarkId.TheVariants as ids;
ghost use Rattle.coordination.specs.Shown.{claimed_shown, lease_shown};
ghost use Rattle.item_work.specs.Sends.{IsNamedFor};
ghost use Rattle.daemon_tests.specs.Asking.{AnyMayAsk};
ghost use Rattle.item_work.specs.Tallying.{TalliesFor};

use coordination::{Coordination, Halt, Opened, Pass, openings_are_at_rest};
use daemon_desk::Desk;
use daemon_manager::{ReservationLedger, Tally};
use daemon_requirements::Work;
use item_work::{Ran, SharedPool, run_item};
use lease_service::current_lease;
use lock_journal::Book;
use lock_transforms::kinds::{Claim, Close, Start, Submit};
use lock_transforms::{Closed, Transform};
use resource_lock::{Graph, GraphAction, GraphTask, GraphTasks, LockId, MarkId, Retention};
use std::alloc::{AllocError, Global};
use std::process::Abort;
use std::sync::Wait;
use std::sync::ledger::Ledger;

/// One worker queues the items, and two run them, each with a lease.
const WORKERS: u32 = 3;

const ITEMS: u32 = 10;

// A task with one action of ten items.
fn graph(rt: &impl Abort, alloc: Global) -> Result<Graph, AllocError> {
    let task = GraphTask {
        lock: LockId(0),
        first_action: 0,
        actions: 1,
    };
    let action = GraphAction {
        task: 0,
        retention: Retention::Retain,
        fetch: false,
        first_unit: 0,
        items: ITEMS,
    };
    let mut tasks = GraphTasks::none(alloc);
    tasks.push(task, &[])?;
    let actions = [action].to_vec(alloc)?;
    assert!(rt; Graph::fits(1, None, WORKERS, WORKERS, &tasks, &actions));
    Ok(Graph::new(1, None, WORKERS, WORKERS, tasks, actions))
}

fn book(rt: &impl Abort, alloc: Global) -> Result<Box<Book>, AllocError>
    ensures state { IfOk result (λ book. book.value.state ≡ opening_of book.value.graph) }
    ensures whole { IfOk result (λ book. book.value.given ≡ 0) }
{
    let graph = graph(rt, alloc)?;
    Ok(Box::new(alloc, Book::opening(alloc, graph, 0, 0)?)?)
}

fn open(rt: &impl Abort, alloc: Global) -> Result<Box<Opened>, AllocError>
    ensures { IfOk result (λ opened. All (λ p. p.service ≡ opened.value.service.service) opened.value.passes.items) }
{
    openings_are_at_rest();
    let book = book(rt, alloc)?;
    Ok(Box::new(alloc, Coordination::open(alloc, book)?)?)
}

// Makes an entry of the transform, which finishes. Want of memory ends the test.
fn enter<R: Wait + Abort, T: Transform>(
    rt: &R,
    service: &Coordination,
    pass: &mut Pass,
    transform: &T,
) -> Result<(), AllocError>
    requires { pass.old.service ≡ service.now.service }
    ensures { pass.new.service ≡ pass.old.service }
{
    match service.with_state_lock(rt, pass, transform) {
        Ok(finished) => assert!(rt; finished),
        Err(Halt::NoMemory) => return Err(AllocError),
        Err(Halt::Stopped(_)) => assert!(rt; false, "nobody stops the service"),
    }
    Ok(())
}

/// The last of the service's passes.
pub(crate) fn last_pass(service: &Coordination, passes: &mut Vec<Pass>) -> Result<Pass, AllocError>
    requires { All (λ p. p.service ≡ service.now.service) passes.old.items }
    ensures others { All (λ p. p.service ≡ service.now.service) passes.new.items }
    ensures last { IfOk result (λ pass. pass.service ≡ service.now.service) }
{
    passes.pop().ok_or(AllocError)
}

// Starts the task, and queues its items.
fn queue_with<R: Wait + Abort>(
    rt: &R,
    service: &Coordination,
    pass: &mut Pass,
) -> Result<(), AllocError>
    requires { pass.old.service ≡ service.now.service }
{
    enter(rt, service, pass, &Start { task: 0 })?;
    enter(rt, service, pass, &Submit { action: 0 })
}

// Starts the task and queues its items, with the last of the passes.
fn queue<R: Wait + Abort>(rt: &R, opened: &mut Opened) -> Result<(), AllocError>
    requires { All (λ p. p.service ≡ opened.old.service.service) opened.old.passes.items }
    ensures { All (λ p. p.service ≡ opened.new.service.service) opened.new.passes.items }
{
    let Opened { service, passes } = opened;
    let mut starter = last_pass(service, passes)?;
    let queued = queue_with(rt, service, &mut starter);
    drop(starter);
    queued
}

/// A service over a task whose items are queued, and the passes of two workers that run items.
pub(crate) fn queue_items<R: Wait + Abort>(rt: &R, alloc: Global) -> Result<Box<Opened>, AllocError>
    ensures { IfOk result (λ opened. All (λ p. p.service ≡ opened.value.service.service) opened.value.passes.items) }
{
    let mut opened = open(rt, alloc)?;
    queue(rt, &mut opened)?;
    Ok(opened)
}

// Whether the pass runs this unit and nothing else.
fn runs_only(pass: &Pass, unit: u32) -> bool
    ensures { result ≡ true → Contains (claimed_shown pass.now.sight) (ids.Unit unit) }
{
    match pass.claimed() {
        [MarkId::Unit(claimed)] => *claimed == unit,
        _ => false,
    }
}

/// Claims an item.
pub(crate) fn claim<R: Wait + Abort>(
    rt: &R,
    service: &Coordination,
    pass: &mut Pass,
    unit: u32,
) -> Result<(), AllocError>
    requires { pass.old.service ≡ service.now.service }
    ensures service { pass.new.service ≡ pass.old.service }
    ensures lease { OnOk result (lease_shown pass.new.sight ≡ true) }
    ensures claimed { OnOk result (Contains (claimed_shown pass.new.sight) (ids.Unit unit)) }
{
    enter(rt, service, pass, &Claim { unit })?;
    assert!(rt; pass.has_lease());
    assert!(rt; runs_only(pass, unit));
    Ok(())
}

/// Runs an item that the pass has claimed. What it leaves to stop is stopped once the item is closed.
pub(crate) fn run_claimed<R: Wait, D: Desk, U: ReservationLedger, F: Ledger>(
    pool: &SharedPool<'_, R, D::Link, U, F>,
    pass: &Pass,
    desk: &mut D,
    mine: &mut Tally<U, F>,
    unit: u32,
    work: &Work,
) -> Ran<Box<D::Link>>
    requires lease { lease_shown pass.now.sight ≡ true }
    requires claimed { Contains (claimed_shown pass.now.sight) (ids.Unit unit) }
    requires form { IsNamedFor work.now.isolation work.now.file }
    requires asks { AnyMayAsk U.asks }
    ensures counted { TalliesFor work.now.isolation mine.old mine.new (D.sends desk.old) (D.sends desk.new) result.outcome }
{
    let Some(lease) = current_lease(pass) else {
        unreachable!()
    };
    run_item(pool, &lease, desk, mine, unit, work)
}

/// Closes an item that the pass has run.
pub(crate) fn close<R: Wait + Abort>(
    rt: &R,
    service: &Coordination,
    pass: &mut Pass,
    closed: Closed,
) -> Result<(), AllocError>
    requires { pass.old.service ≡ service.now.service }
    ensures { pass.new.service ≡ pass.old.service }
{
    enter(rt, service, pass, &Close { closed })
}
