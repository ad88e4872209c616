//! A task with two items, worked by the calls: each call's conditions follow from the clauses of those
//! before.
ghost use Rattle.std.specs.Prelude.{◌≡◌, ◌≢◌, ◌<◌, [], ◌∷◌, All, IfOk, IfSome, Ok, OnOk, length, true, ℕ};
ghost use Rattle.resource_lock.specs.declared.marks.MarkId.TheVariants as ids;
ghost use Rattle.item_actions.specs.declared.outcomes.Outcome.TheVariants as outcomes;
ghost use Rattle.coordination.specs.Holds.{HoldsNothing};
ghost use Rattle.coordination.specs.Shown.{Shows};
ghost use Rattle.async_tracker_tests.specs.TwoItems.{CanEnd, CanHelp, HasTwoItems};

use async_tracker::{NextWork, Parked, TakeNextWork, close, next_work_of, submit_and_park};
use coordination::{Coordination, Halt, Opened, Pass};
use coordination_tests::entries::{EntryRow, are_entries};
use coordination_tests::services::{let_go, open};
use item_actions::Outcome;
use lock_transforms::{Closed, Kind};
use resource_lock::{Change, GraphAction, LockId, Mark, MarkId, Retention, WorkerId};
use single_steps::{
    Held, claim, closing_undoes_claiming, end_task, park, resume, start_task, submit,
};
use state_tests::rows::{Limits, TaskRow};
use std::alloc::{AllocError, Global};
use std::process::Abort;
use std::sync::Wait;

// Starts the task. False says that it can't be started.
fn start<R: Wait>(rt: &R, service: &Coordination, pass: &mut Pass) -> Result<bool, Halt>
    requires service { pass.old.service ≡ service.now.service }
    requires graph { HasTwoItems pass.old.sight.seen.graph }
    requires rests { HoldsNothing pass.old.sight }
    ensures service { pass.new.service ≡ pass.old.service }
    ensures started { result ≡ Ok true → Shows (record { 0 = 0 } ∷ []) true (ids.Task 0 ∷ []) [] pass.old.sight pass.new.sight }
{
    match start_task(rt, service, pass, 0) {
        Ok(started) => Ok(started),
        Err(_) => Err(Halt::NoMemory),
    }
}

/// Starts the task, and waits for its items. None says that it can't be started.
pub(crate) fn wait_for_items<R: Wait>(
    rt: &R,
    service: &Coordination,
    pass: &mut Pass,
) -> Result<Option<Parked>, Halt>
    requires service { pass.old.service ≡ service.now.service }
    requires graph { HasTwoItems pass.old.sight.seen.graph }
    requires rests { HoldsNothing pass.old.sight }
    ensures service { pass.new.service ≡ pass.old.service }
    ensures helps { IfOk result (λ parked. IfSome parked (CanHelp pass.new.sight)) }
{
    if !start(rt, service, pass)? {
        return Ok(None);
    }
    submit(rt, service, pass, 0)?;
    Ok(Some(park(rt, service, pass, 0)?))
}

/// Claims an item and closes it with a number. False says that it isn't Queued.
pub(crate) fn run_item<R: Wait>(
    rt: &R,
    service: &Coordination,
    pass: &mut Pass,
    parked: &Parked,
    unit: u32,
    number: u64,
) -> Result<bool, Halt>
    requires service { pass.old.service ≡ service.now.service }
    requires helps { CanHelp pass.old.sight parked.now }
    requires in_range { unit < 2 }
    ensures service { pass.new.service ≡ pass.old.service }
    ensures helps { OnOk result (CanHelp pass.new.sight parked.now) }
{
    run_item_to(rt, service, pass, parked, unit, Outcome::Number(number))
}

/// Claims an item and closes it with an outcome. False says that it isn't Queued.
pub(crate) fn run_item_to<R: Wait>(
    rt: &R,
    service: &Coordination,
    pass: &mut Pass,
    parked: &Parked,
    unit: u32,
    outcome: Outcome,
) -> Result<bool, Halt>
    requires service { pass.old.service ≡ service.now.service }
    requires helps { CanHelp pass.old.sight parked.now }
    requires in_range { unit < 2 }
    requires worked { outcome ≢ outcomes.Skipped }
    ensures service { pass.new.service ≡ pass.old.service }
    ensures helps { OnOk result (CanHelp pass.new.sight parked.now) }
{
    closing_undoes_claiming();
    if !claim(rt, service, pass, unit)? {
        return Ok(false);
    }
    match close(rt, service, pass, unit, outcome) {
        Ok(()) => Ok(true),
        Err(_) => Err(Halt::NoMemory),
    }
}

/// Runs both items to these outcomes. False says that one isn't Queued.
pub(crate) fn run_both<R: Wait>(
    rt: &R,
    service: &Coordination,
    pass: &mut Pass,
    parked: &Parked,
    first: Outcome,
    second: Outcome,
) -> Result<bool, Halt>
    requires service { pass.old.service ≡ service.now.service }
    requires helps { CanHelp pass.old.sight parked.now }
    requires first { first ≢ outcomes.Skipped }
    requires second { second ≢ outcomes.Skipped }
    ensures service { pass.new.service ≡ pass.old.service }
    ensures helps { OnOk result (CanHelp pass.new.sight parked.now) }
{
    let ran = run_item_to(rt, service, pass, parked, 0, first)?;
    let also = run_item_to(rt, service, pass, parked, 1, second)?;
    Ok(ran && also)
}

/// Goes on once the items have ended. False says that one hasn't.
pub(crate) fn go_on<R: Wait>(
    rt: &R,
    service: &Coordination,
    pass: &mut Pass,
    parked: Parked,
) -> Result<bool, Halt>
    requires service { pass.old.service ≡ service.now.service }
    requires helps { CanHelp pass.old.sight parked }
    ensures service { pass.new.service ≡ pass.old.service }
    ensures ends { result ≡ Ok true → CanEnd pass.new.sight }
{
    match resume(rt, service, pass, parked) {
        Ok(()) => Ok(true),
        Err(Held::StillWaiting(_, _)) => Ok(false),
        Err(Held::NoMemory(_)) => Err(Halt::NoMemory),
        Err(Held::Stopped(_, by)) => Err(Halt::Stopped(by)),
    }
}

/// Works the task up to its end, with items that end so. False says that a call answered otherwise than one expects.
pub(crate) fn run_up_to_end<R: Wait>(
    rt: &R,
    service: &Coordination,
    pass: &mut Pass,
    first: Outcome,
    second: Outcome,
) -> Result<bool, Halt>
    requires service { pass.old.service ≡ service.now.service }
    requires graph { HasTwoItems pass.old.sight.seen.graph }
    requires rests { HoldsNothing pass.old.sight }
    requires first { first ≢ outcomes.Skipped }
    requires second { second ≢ outcomes.Skipped }
    ensures service { pass.new.service ≡ pass.old.service }
    ensures ends { result ≡ Ok true → CanEnd pass.new.sight }
{
    let Some(parked) = wait_for_items(rt, service, pass)? else {
        return Ok(false);
    };
    if !run_both(rt, service, pass, &parked, first, second)? {
        drop(parked);
        return Ok(false);
    }
    go_on(rt, service, pass, parked)
}

/// Works the whole task, whose items end so. False says that a call answered otherwise than one expects.
pub(crate) fn run_task<R: Wait>(
    rt: &R,
    service: &Coordination,
    pass: &mut Pass,
    first: Outcome,
    second: Outcome,
) -> Result<bool, Halt>
    requires service { pass.old.service ≡ service.now.service }
    requires graph { HasTwoItems pass.old.sight.seen.graph }
    requires rests { HoldsNothing pass.old.sight }
    requires first { first ≢ outcomes.Skipped }
    requires second { second ≢ outcomes.Skipped }
    ensures service { pass.new.service ≡ pass.old.service }
{
    if !run_up_to_end(rt, service, pass, first, second)? {
        return Ok(false);
    }
    end_task(rt, service, pass, 0)?;
    Ok(true)
}

/// A service with two workers, one lock and one lease, the task with two items, and one that comes after it.
pub(crate) fn open_task(
    rt: &impl Abort,
    alloc: Global,
    retention: Retention,
) -> Result<Box<Opened>, AllocError>
    ensures service { IfOk result (λ opened. All (λ p. p.service ≡ opened.value.service.service) opened.value.passes.items) }
    ensures graph { IfOk result (λ opened. All (λ p. HasTwoItems p.sight.seen.graph) opened.value.passes.items) }
    ensures len { IfOk result (λ opened. length opened.value.passes.items ≡ 2) }
    ensures rests { IfOk result (λ opened. All (λ p. HoldsNothing p.sight) opened.value.passes.items) }
{
    let limits = Limits {
        locks: 1,
        all: None,
        workers: 2,
        max_leases: 1,
    };
    let task = TaskRow {
        lock: 0,
        after: None,
        first_action: 0,
        actions: 1,
    };
    let dependent = TaskRow {
        lock: 0,
        after: Some(0),
        first_action: 1,
        actions: 0,
    };
    let action = GraphAction {
        task: 0,
        retention,
        fetch: false,
        first_unit: 0,
        items: 2,
    };
    let opened = open(alloc, &limits, &[task, dependent], &[action])?;
    Ok(opened.expect(rt, "a graph that fits"))
}

const LOCK: LockId = LockId(0);

const TASK: MarkId = MarkId::Task(0);

const ACTION: MarkId = MarkId::Action(0);

const FIRST: MarkId = MarkId::Unit(0);

const SECOND: MarkId = MarkId::Unit(1);

const RUNNING: Mark = Mark::Running(WorkerId(0));

const FIRST_CLOSED: Closed = Closed {
    unit: 0,
    outcome: Outcome::Number(3),
};

const SECOND_CLOSED: Closed = Closed {
    unit: 1,
    outcome: Outcome::Number(14),
};

/// The entries that are the same whatever becomes of the task's lock.
static WORKED: [EntryRow<'static>; 6] = [
    EntryRow {
        place: 0,
        kind: Kind::Start(0),
        changes: Some(&[
            Change::Lock(LOCK),
            Change::Take,
            Change::Move(TASK, Mark::Waiting, RUNNING),
        ]),
    },
    EntryRow {
        place: 1,
        kind: Kind::Submit(0),
        changes: Some(&[
            Change::Move(ACTION, Mark::Waiting, Mark::Queued),
            Change::Move(FIRST, Mark::Waiting, Mark::Queued),
            Change::Move(SECOND, Mark::Waiting, Mark::Queued),
        ]),
    },
    EntryRow {
        place: 3,
        kind: Kind::Claim(0),
        changes: Some(&[Change::Take, Change::Move(FIRST, Mark::Queued, RUNNING)]),
    },
    EntryRow {
        place: 4,
        kind: Kind::Close(FIRST_CLOSED),
        changes: Some(&[Change::Move(FIRST, RUNNING, Mark::Passed), Change::Give]),
    },
    EntryRow {
        place: 5,
        kind: Kind::Claim(1),
        changes: Some(&[Change::Take, Change::Move(SECOND, Mark::Queued, RUNNING)]),
    },
    EntryRow {
        place: 6,
        kind: Kind::Close(SECOND_CLOSED),
        changes: Some(&[Change::Move(SECOND, RUNNING, Mark::Passed), Change::Give]),
    },
];

const PARKS_RELEASING: EntryRow<'static> = EntryRow {
    place: 2,
    kind: Kind::Park(0),
    changes: Some(&[
        Change::Give,
        Change::Unlock(LOCK),
        Change::Park(LOCK),
        Change::Move(ACTION, Mark::Queued, RUNNING),
    ]),
};

const ENDS_WITH_LEASE: EntryRow<'static> = EntryRow {
    place: 8,
    kind: Kind::End(0),
    changes: Some(&[
        Change::Move(TASK, RUNNING, Mark::Passed),
        Change::Unlock(LOCK),
        Change::Give,
    ]),
};

const RETAINS: &[EntryRow<'static>] = &[
    EntryRow {
        place: 2,
        kind: Kind::Park(0),
        changes: Some(&[Change::Give, Change::Move(ACTION, Mark::Queued, RUNNING)]),
    },
    EntryRow {
        place: 7,
        kind: Kind::Resume(0),
        changes: Some(&[Change::Take, Change::Move(ACTION, RUNNING, Mark::Passed)]),
    },
    ENDS_WITH_LEASE,
];

const REACQUIRES: &[EntryRow<'static>] = &[
    PARKS_RELEASING,
    EntryRow {
        place: 7,
        kind: Kind::Resume(0),
        changes: Some(&[
            Change::Unpark(LOCK),
            Change::Lock(LOCK),
            Change::Take,
            Change::Move(ACTION, RUNNING, Mark::Passed),
        ]),
    },
    ENDS_WITH_LEASE,
];

const RELEASES: &[EntryRow<'static>] = &[
    PARKS_RELEASING,
    EntryRow {
        place: 7,
        kind: Kind::Resume(0),
        changes: Some(&[
            Change::Unpark(LOCK),
            Change::Move(ACTION, RUNNING, Mark::Passed),
        ]),
    },
    EntryRow {
        place: 8,
        kind: Kind::End(0),
        changes: Some(&[Change::Move(TASK, RUNNING, Mark::Passed)]),
    },
];

// Whether the task is worked by the entries that it has to make, of which these tell what becomes of
// its lock.
fn makes<R: Wait>(rt: &R, service: &Coordination, pass: &mut Pass, rows: &[EntryRow<'_>]) -> bool
    requires service { pass.old.service ≡ service.now.service }
    requires graph { HasTwoItems pass.old.sight.seen.graph }
    requires rests { HoldsNothing pass.old.sight }
{
    let ran = run_task(rt, service, pass, Outcome::Number(3), Outcome::Number(14));
    matches!(ran, Ok(true))
        && pass.last() == 9
        && are_entries(rt, service, pass, &WORKED)
        && are_entries(rt, service, pass, rows)
}

// Resumes too early, claims an item twice, and then goes on. False says that a call answered
// otherwise than one expects.
fn try_too_early<R: Wait>(rt: &R, service: &Coordination, pass: &mut Pass) -> Result<bool, Halt>
    requires service { pass.old.service ≡ service.now.service }
    requires graph { HasTwoItems pass.old.sight.seen.graph }
    requires rests { HoldsNothing pass.old.sight }
    ensures service { pass.new.service ≡ pass.old.service }
{
    let Some(parked) = wait_for_items(rt, service, pass)? else {
        return Ok(false);
    };
    let first = run_item(rt, service, pass, &parked, 0, 3)?;
    let Err(Held::StillWaiting(parked, unit)) = resume(rt, service, pass, parked) else {
        return Ok(false);
    };
    let again = run_item(rt, service, pass, &parked, 0, 3)?;
    let second = run_item(rt, service, pass, &parked, 1, 14)?;
    Ok(first && unit == 1 && !again && second && resume(rt, service, pass, parked).is_ok())
}

// Decides what is next in a service that offers no items, where there is never one to claim.
fn decide_alone<R: Wait>(rt: &R, service: &Coordination, pass: &mut Pass) -> Result<NextWork, Halt>
    requires { pass.old.service ≡ service.now.service }
    ensures service { pass.new.service ≡ pass.old.service }
    ensures beside { result ≢ Ok NextWork.Beside }
    ensures claims { (unit : ℕ) → result ≢ Ok (NextWork.Claim unit) }
{
    let decided = service.decide(rt, pass, &TakeNextWork)?;
    Ok(next_work_of(decided))
}

// Whether the worker starts the task as what is next.
fn starts_what_is_next<R: Wait>(rt: &R, service: &Coordination, pass: &mut Pass) -> bool
    requires { pass.old.service ≡ service.now.service }
{
    matches!(decide_alone(rt, service, pass), Ok(NextWork::Start(0)))
        && pass.last() == 1
        && pass.has_lease()
        && are_entries(rt, service, pass, &WORKED[..1])
}

// Whether the worker queues the items of the task that it starts and waits for them, in one call.
fn queues_and_waits<R: Wait>(rt: &R, service: &Coordination, pass: &mut Pass) -> bool
    requires service { pass.old.service ≡ service.now.service }
    requires graph { HasTwoItems pass.old.sight.seen.graph }
    requires rests { HoldsNothing pass.old.sight }
{
    matches!(start(rt, service, pass), Ok(true))
        && submit_and_park(rt, service, pass, 0).is_ok()
        && pass.last() == 3
        && are_entries(rt, service, pass, &WORKED[..2])
        && are_entries(rt, service, pass, &[PARKS_RELEASING])
}

/// How a worker works the task.
#[derive(Clone, Copy)]
enum Work {
    /// Call by call, with these entries for its lock.
    Whole(&'static [EntryRow<'static>]),
    /// It resumes while an item is open, which holds it.
    TooEarly,
    /// It starts what is next.
    Next,
    /// It queues the items and waits for them in one call.
    QueueAndWait,
}

/// Each retention makes its entries, and then the other ways.
static WORKS: [(Retention, Work); 6] = [
    (Retention::Retain, Work::Whole(RETAINS)),
    (Retention::ReleaseAndReacquire, Work::Whole(REACQUIRES)),
    (Retention::Release, Work::Whole(RELEASES)),
    (Retention::Retain, Work::TooEarly),
    (Retention::Retain, Work::Next),
    (Retention::Release, Work::QueueAndWait),
];

// Whether the task is worked so.
fn works<R: Wait>(rt: &R, service: &Coordination, pass: &mut Pass, work: Work) -> bool
    requires service { pass.old.service ≡ service.now.service }
    requires graph { HasTwoItems pass.old.sight.seen.graph }
    requires rests { HoldsNothing pass.old.sight }
{
    match work {
        Work::Whole(rows) => makes(rt, service, pass, rows),
        Work::TooEarly => matches!(try_too_early(rt, service, pass), Ok(true)),
        Work::Next => starts_what_is_next(rt, service, pass),
        Work::QueueAndWait => queues_and_waits(rt, service, pass),
    }
}

#[test]
fn a_task_is_worked_call_by_call(rt: HostRuntime) -> Result<(), AllocError> {
    for (retention, work) in &WORKS {
        let mut opened = open_task(&rt, rt.alloc(), *retention)?;
        let Opened { service, passes } = &mut *opened;
        let is_worked = works(&rt, service, &mut passes[0], *work);
        let_go(opened);
        assert!(rt; is_worked);
    }
    Ok(())
}
