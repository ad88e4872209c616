//! What became of tasks and units, by their places.
use crate::driving::{goes_alone, open};
use crate::found::{Found, UnitRow};
use crate::plans::three_tasks;
use planned_work::{Ended, Numbered, PlanWorker};
use std::alloc::AllocError;

// A unit by its place, and what became of it.
fn row(task: u32, action: u32, item: Option<u32>, ended: Option<Ended>) -> UnitRow {
    UnitRow {
        at: Numbered { task, action, item },
        ended,
    }
}

// Whether this became of the units and the tasks where the item of the second task's first action has failed.
fn tells(workers: &mut [Box<PlanWorker>]) -> bool {
    let units = [
        row(0, 0, None, Some(Ended::Passed(0))),
        row(0, 0, Some(1), Some(Ended::Passed(2))),
        row(1, 0, Some(0), Some(Ended::Failed)),
        row(1, 1, Some(0), Some(Ended::Skipped)),
        row(2, 0, Some(0), Some(Ended::Skipped)),
        row(1, 0, None, None),
        row(0, 0, Some(2), None),
        row(0, 1, Some(0), None),
        row(3, 0, Some(0), None),
    ];
    let tasks = [Ended::Passed(0), Ended::Failed, Ended::Skipped];
    goes_alone(workers, Some(3), &Found::Units(&units))
        && goes_alone(workers, None, &Found::Tasks(&tasks))
}

#[test]
fn outcomes_are_told_by_place(rt: HostRuntime) -> Result<(), AllocError> {
    let mut workers = open(rt.alloc(), three_tasks(rt.alloc()), 1, 1)?;
    let told = tells(&mut workers);
    assert!(rt; told);
    Ok(())
}
