//! Workers that are driven by tries on one thread.
use crate::found::Found;
use coordination::{Ask, Came};
use item_actions::Outcome;
use lock_transforms::Closed;
use planned_work::{
    Answer, Next, OpenRefusal, PlanRefusal, PlanWorker, Rings, Work, WorkPlan, open_plan,
};
use std::alloc::{AllocError, Global};

/// Opens a service over the plan.
pub fn open(
    alloc: Global,
    plan: Result<WorkPlan, PlanRefusal>,
    workers: u32,
    max_leases: u32,
) -> Result<Vec<Box<PlanWorker>>, AllocError> {
    let Ok(plan) = plan else {
        return Err(AllocError);
    };
    match open_plan(alloc, &plan, workers, max_leases) {
        Ok(all) => Ok(all),
        Err(OpenRefusal::BadNumber | OpenRefusal::Cycle | OpenRefusal::NoMemory) => Err(AllocError),
    }
}

/// Whether this is found in the book.
pub fn finds(worker: &mut PlanWorker, found: &Found<'_>) -> bool {
    let turn = Ask { question: found };
    matches!(
        worker.service.attempt_turn(&mut worker.pass, false, &turn),
        Some((Came::Done(true), _, _))
    )
}

/// What a unit gives: its number, or a fault where it is this one.
pub fn gives(unit: u32, faulty: Option<u32>) -> Option<u64> {
    if faulty == Some(unit) {
        None
    } else {
        Some(u64::from(unit))
    }
}

/// What comes of a worker's next call.
#[derive(Clone, Copy, PartialEq, Eq)]
pub enum Went {
    /// It has done something, or has something to do.
    On,
    /// There is nothing to do yet.
    Waits,
    /// All tasks have ended.
    Ended,
    /// Something else.
    Astray,
}

// What the answer to the question what is next comes to, and the work that it gives.
fn outcome_of(next: Next) -> (Went, Option<Work>) {
    match next {
        Next::Do(Work::Ended) => (Went::Ended, None),
        Next::Do(work) => (Went::On, Some(work)),
        Next::GoesOn => (Went::On, None),
        Next::Busy => (Went::Waits, None),
        Next::Stopped | Next::Again | Next::NoMemory | Next::Misused | Next::Stuck => {
            (Went::Astray, None)
        }
    }
}

/// A worker's next hold: it closes the unit that it has been given, or asks what is next. `work` is what it was given.
pub fn go_on(
    worker: &mut PlanWorker,
    work: &mut Option<Work>,
    sleeps: bool,
    faulty: Option<u32>,
) -> (Went, Rings) {
    let (next, rings) = match *work {
        Some(Work::Item(unit) | Work::Fetch(unit)) => worker.done_next(sleeps, gives(unit, faulty)),
        _ => worker.try_next(sleeps),
    };
    let (went, given) = outcome_of(next);
    if went != Went::Waits || given.is_some() {
        *work = given;
    }
    (went, rings)
}

/// Whether a worker comes to the end of all tasks alone.
pub fn works_to_the_end(worker: &mut PlanWorker, faulty: Option<u32>) -> bool {
    let mut work = None;
    for _ in 0..200 {
        match go_on(worker, &mut work, true, faulty) {
            (Went::On, _) => {}
            (Went::Ended, _) => return true,
            _ => return false,
        }
    }
    false
}

/// Whether the first worker comes to the end of all tasks alone, and this is found in the book then.
pub fn goes_alone(workers: &mut [Box<PlanWorker>], faulty: Option<u32>, found: &Found<'_>) -> bool {
    if workers.is_empty() {
        return false;
    }
    let first = &mut workers[0];
    works_to_the_end(first, faulty) && finds(first, found)
}

/// Asks what is next until there is work, nothing to do, or another answer.
pub fn next_work(worker: &mut PlanWorker) -> Next {
    for _ in 0..100 {
        match worker.try_next(false) {
            (Next::GoesOn, _) => {}
            (next, _) => return next,
        }
    }
    Next::Stuck
}

/// Whether a call did what it says.
pub fn is_done(answered: (Answer, Rings)) -> bool {
    answered.0 == Answer::Done
}

/// A unit that has passed with its own number, or failed.
pub fn closed(unit: u32, faulty: Option<u32>) -> Closed {
    let outcome = match gives(unit, faulty) {
        Some(number) => Outcome::Number(number),
        None => Outcome::Fault,
    };
    Closed { unit, outcome }
}
