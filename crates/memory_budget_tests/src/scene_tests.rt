//! Tests of what one worker does within a budget, step by step.
ghost use Rattle.std.specs.Prelude.{◌≡◌, ◌≤◌};

use crate::run_tests::{
    Blanks, Came, MemoryBudget, Seat, close, desk, is_what_came, new_lock, seat_at,
};
use daemon_manager::{Event, Tally};
use memory_budget::{BudgetLedger, MAX_BUDGET_MB, SharedBudget, stop_idle};
use memory_desk::MemoryLink;
use std::alloc::{AllocError, Global};
use std::marker::Brand;
use std::process::Abort;
use std::sync::Wait;
use std::sync::ledger::Ledger;

/// What a worker does.
#[derive(Clone, Copy)]
enum Step {
    /// It runs the item of a unit that asks for so much memory. This comes of it, and then a daemon with this heap is one too many.
    Run(u32, u32, Came, Option<u32>),
    /// It stops an idle daemon, where there is one.
    StopIdle(bool),
}

/// What happened to the daemons of a scene.
#[derive(Clone, Copy)]
enum Happened {
    /// So much.
    Count(usize),
    /// One failed, and another worked for the next unit.
    FirstFailed,
    /// Each worked for a unit and was stopped.
    BothStopped,
}

/// What a worker does on a pool with a budget, and on a desk of whose calls these fail. Then so many requests were sent, so many
/// calls failed, and this happened.
struct Scene {
    budget_mb: u64,
    failing: &'static [u64],
    steps: &'static [Step],
    sent: usize,
    failed: u64,
    happened: Happened,
}

static SCENES: [Scene; 5] = [
    // What asks for more than the budget is over.
    Scene {
        budget_mb: 512,
        failing: &[],
        steps: &[
            Step::Run(0, 513, Came::Over(513), None),
            Step::Run(1, 512, Came::Three, None),
        ],
        sent: 1,
        failed: 0,
        happened: Happened::Count(4),
    },
    // A daemon that fails makes room for the next.
    Scene {
        budget_mb: 512,
        failing: &[2],
        steps: &[
            Step::Run(0, 512, Came::Fault, None),
            Step::Run(1, 512, Came::Three, None),
        ],
        sent: 2,
        failed: 1,
        happened: Happened::FirstFailed,
    },
    // A start that fails makes room for the next.
    Scene {
        budget_mb: 512,
        failing: &[0],
        steps: &[
            Step::Run(0, 512, Came::Fault, None),
            Step::Run(1, 512, Came::Three, None),
        ],
        sent: 1,
        failed: 1,
        happened: Happened::Count(4),
    },
    // A daemon that was stopped while it was idle serves no more.
    Scene {
        budget_mb: 512,
        failing: &[],
        steps: &[
            Step::StopIdle(false),
            Step::Run(0, 512, Came::Three, None),
            Step::StopIdle(true),
            Step::StopIdle(false),
            Step::Run(1, 512, Came::Three, None),
        ],
        sent: 2,
        failed: 0,
        happened: Happened::BothStopped,
    },
    // No idle daemon covers the next of nine items, behind which the first of nine idle daemons comes back.
    Scene {
        budget_mb: 45,
        failing: &[],
        steps: &[
            Step::Run(0, 1, Came::Three, None),
            Step::Run(1, 2, Came::Three, None),
            Step::Run(2, 3, Came::Three, None),
            Step::Run(3, 4, Came::Three, None),
            Step::Run(4, 5, Came::Three, None),
            Step::Run(5, 6, Came::Three, None),
            Step::Run(6, 7, Came::Three, None),
            Step::Run(7, 8, Came::Three, None),
            Step::Run(8, 9, Came::Three, Some(1)),
        ],
        sent: 9,
        failed: 0,
        happened: Happened::Count(36),
    },
];

// Whether a step goes as it has to.
fn goes<R: Wait + Abort, U: BudgetLedger, F: Ledger>(
    pool: &MemoryBudget<'_, R, U, F>,
    seat: &mut Seat,
    mine: &mut Tally<U, F>,
    step: Step,
) -> bool {
    match step {
        Step::Run(unit, heap_mb, came, spare) => {
            let (budgeted, spare_mb) = seat.run_told(pool, mine, unit, heap_mb);
            is_what_came(&budgeted, came) && spare_mb == spare
        }
        Step::StopIdle(stops) => stop_idle(pool, &mut *seat.desk) == stops,
    }
}

fn all_go<R: Wait + Abort, U: BudgetLedger, F: Ledger>(
    pool: &MemoryBudget<'_, R, U, F>,
    seat: &mut Seat,
    mine: &mut Tally<U, F>,
    steps: &[Step],
) -> bool {
    for step in steps {
        if !goes(pool, seat, mine, *step) {
            return false;
        }
    }
    true
}

/// Whether these events are those of a daemon that failed and of one that worked for the next unit.
pub(crate) fn is_second_right(events: &[Event]) -> bool {
    matches!(
        events,
        [
            Event::Started(0, _),
            Event::Reserved(0, 0),
            Event::Failed(0),
            Event::Started(1, _),
            Event::Reserved(1, 1),
            Event::Released(1),
            Event::Stopped(1),
        ]
    )
}

// Whether these events are those of two daemons that worked for a unit each and were stopped.
fn is_second_new(events: &[Event]) -> bool {
    matches!(
        events,
        [
            Event::Started(0, _),
            Event::Reserved(0, 0),
            Event::Released(0),
            Event::Stopped(0),
            Event::Started(1, _),
            Event::Reserved(1, 1),
            Event::Released(1),
            Event::Stopped(1),
        ]
    )
}

fn has_happened(events: &[Event], happened: Happened) -> bool {
    match happened {
        Happened::Count(count) => events.len() == count,
        Happened::FirstFailed => is_second_right(events),
        Happened::BothStopped => is_second_new(events),
    }
}

// Whether a scene goes as it has to.
fn plays<R: Wait + Abort, U: BudgetLedger, F: Ledger>(
    rt: &R,
    alloc: Global,
    scene: &Scene,
    blanks: Blanks,
) -> Result<bool, AllocError>
    requires most { scene.now.budget_mb ≤ MAX_BUDGET_MB }
    requires budget { scene.now.budget_mb ≡ U.budget_mb }
    requires reserved { (blanks.reserved.name ≡ U.name) × (blanks.reserved.parts ≡ U.parts) × (U.parts ≡ 2) }
    requires failed { (blanks.failed.name ≡ F.name) × (blanks.failed.parts ≡ F.parts) × (F.parts ≡ 2) }
{
    let mut seat = seat_at(rt, alloc, 0, desk(alloc, scene.failing)?)?;
    let (lock, mut tallies) = new_lock::<R, MemoryLink, U, F>(rt, alloc, scene.budget_mb, blanks);
    let mut mine = tallies.split_off();
    let pool = SharedBudget {
        rt,
        alloc,
        pool: &lock,
    };
    let goes = all_go(&pool, &mut seat, &mut mine, scene.steps);
    let told = lock.budget_mb() == scene.budget_mb;
    tallies.merge(mine);
    let events = close(lock, tallies, &mut *seat.desk);
    Ok(
        goes && told
            && has_happened(&events, scene.happened)
            && seat.desk.sent().len() == scene.sent
            && seat.desk.count() == scene.failed,
    )
}

// The same in new ledgers.
fn plays_counted<R: Wait + Abort>(
    rt: &R,
    alloc: Global,
    scene: &Scene,
) -> Result<bool, AllocError> {
    assert!(rt; scene.budget_mb <= MAX_BUDGET_MB);
    let blanks = Blanks::new(2);
    plays::<R, Brand, Brand>(rt, alloc, scene, blanks)
}

#[test]
fn items_go_within_a_budget_as_daemons_come_and_fail(rt: HostRuntime) -> Result<(), AllocError> {
    for scene in &SCENES {
        assert!(rt; plays_counted(&rt, rt.alloc(), scene)?);
    }
    Ok(())
}
