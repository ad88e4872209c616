//! A task that is ended with a decision behind it: in the same hold of the state lock, or where that has to wait.
ghost use Rattle.std.specs.Prelude.{◌≡◌, All, Ok, length, true};
ghost use Rattle.coordination.specs.Holds.{HoldsNothing};
ghost use Rattle.async_tracker_tests.specs.TwoItems.{CanEnd, HasTwoItems};

use crate::async_tracker_tests::{open_task, run_up_to_end};
use async_tracker::{NextWork, TakeNextWork, end_then};
use coordination::{Coordination, Decided, Decision, Halt, Opened, Pass};
use coordination_tests::entries::{EntriesFrom, EntryRow, are_entries};
use coordination_tests::services::let_go;
use item_actions::Outcome;
use lock_transforms::Kind;
use resource_lock::{Change, LockId, Mark, MarkId, Retention, WorkerId};
use std::alloc::AllocError;
use std::sync::Wait;

const LOCK: LockId = LockId(0);

const TASK: MarkId = MarkId::Task(0);

/// The task that comes after it.
const DEPENDENT: MarkId = MarkId::Task(1);

const RUNNING: Mark = Mark::Running(WorkerId(0));

/// Whether the items pass, what the worker then does next behind the task's end, and the entries of both.
static NEXT: [(bool, NextWork, &[EntryRow<'static>]); 2] = [
    (
        true,
        NextWork::Start(1),
        &[
            EntryRow {
                place: 8,
                kind: Kind::End(0),
                changes: Some(&[
                    Change::Move(TASK, RUNNING, Mark::Passed),
                    Change::Unlock(LOCK),
                    Change::Give,
                ]),
            },
            EntryRow {
                place: 9,
                kind: Kind::Start(1),
                changes: Some(&[
                    Change::Lock(LOCK),
                    Change::Take,
                    Change::Move(DEPENDENT, Mark::Waiting, RUNNING),
                ]),
            },
        ],
    ),
    (
        false,
        NextWork::Skip(1),
        &[
            EntryRow {
                place: 8,
                kind: Kind::End(0),
                changes: Some(&[
                    Change::Move(TASK, RUNNING, Mark::Failed),
                    Change::Unlock(LOCK),
                    Change::Give,
                ]),
            },
            EntryRow {
                place: 9,
                kind: Kind::Skip(1),
                changes: Some(&[Change::Move(DEPENDENT, Mark::Waiting, Mark::Skipped)]),
            },
        ],
    ),
];

// Works the task up to its end, with items that pass or don't. False says that a call answered otherwise than one expects.
fn run_items<R: Wait>(
    rt: &R,
    service: &Coordination,
    pass: &mut Pass,
    they_pass: bool,
) -> Result<bool, Halt>
    requires service { pass.old.service ≡ service.now.service }
    requires graph { HasTwoItems pass.old.sight.seen.graph }
    requires rests { HoldsNothing pass.old.sight }
    ensures service { pass.new.service ≡ pass.old.service }
    ensures ends { result ≡ Ok true → CanEnd pass.new.sight }
{
    if they_pass {
        run_up_to_end(rt, service, pass, Outcome::Number(3), Outcome::Number(14))
    } else {
        run_up_to_end(rt, service, pass, Outcome::NotThere, Outcome::NotThere)
    }
}

// The same, and ends the task with a decision behind that. None says that a call answered otherwise than one expects.
fn end_with<R: Wait, Q: Decision>(
    rt: &R,
    service: &Coordination,
    pass: &mut Pass,
    they_pass: bool,
    next: &Q,
) -> Result<Option<Decided<Q::Answer>>, Halt>
where
    Q::Answer: Drop,
    requires service { pass.old.service ≡ service.now.service }
    requires graph { HasTwoItems pass.old.sight.seen.graph }
    requires rests { HoldsNothing pass.old.sight }
    ensures service { pass.new.service ≡ pass.old.service }
{
    if !run_items(rt, service, pass, they_pass)? {
        return Ok(None);
    }
    Ok(Some(end_then(rt, service, pass, 0, next)?))
}

// Whether the worker does this next behind the task's end.
fn does_next<R: Wait>(
    rt: &R,
    service: &Coordination,
    pass: &mut Pass,
    they_pass: bool,
    next: NextWork,
    rows: &[EntryRow<'_>],
) -> bool
    requires service { pass.old.service ≡ service.now.service }
    requires graph { HasTwoItems pass.old.sight.seen.graph }
    requires rests { HoldsNothing pass.old.sight }
{
    let came = end_with(rt, service, pass, they_pass, &TakeNextWork);
    matches!(came, Ok(Some(Decided::Entered(done, true))) if done == next)
        && pass.last() == 10
        && are_entries(rt, service, pass, rows)
}

// Whether the task is ended where the decision behind it waits for so many entries while the service is stopped: there are nine.
fn is_ended<R: Wait>(rt: &R, service: &Coordination, passes: &mut [Pass], least: u64) -> bool
    requires service { All (λ p. p.service ≡ service.now.service) passes.old }
    requires graph { All (λ p. HasTwoItems p.sight.seen.graph) passes.old }
    requires rests { All (λ p. HoldsNothing p.sight) passes.old }
    requires two { length passes.old ≡ 2 }
{
    service.stop_all(rt, &mut passes[1]);
    let came = end_with(rt, service, &mut passes[0], true, &EntriesFrom { least });
    let as_expected = match came {
        Ok(Some(Decided::Entered(entries, false))) => entries == 9 && least <= 9,
        Err(Halt::Stopped(by)) => by == WorkerId(1) && least > 9,
        _ => false,
    };
    as_expected && passes[0].claimed().is_empty()
}

#[test]
fn a_task_is_ended_and_what_is_next_is_done(rt: HostRuntime) -> Result<(), AllocError> {
    for (they_pass, next, rows) in &NEXT {
        let mut opened = open_task(&rt, rt.alloc(), Retention::Retain)?;
        let Opened { service, passes } = &mut *opened;
        let does_next = does_next(&rt, service, &mut passes[0], *they_pass, *next, *rows);
        let_go(opened);
        assert!(rt; does_next);
    }
    Ok(())
}

#[test]
fn a_task_is_ended_whatever_becomes_of_the_decision_behind_it(
    rt: HostRuntime,
) -> Result<(), AllocError> {
    for least in [0, 1000] {
        let mut opened = open_task(&rt, rt.alloc(), Retention::Retain)?;
        let Opened { service, passes } = &mut *opened;
        let is_ended = is_ended(&rt, service, passes, least);
        let_go(opened);
        assert!(rt; is_ended);
    }
    Ok(())
}
