//! Two workers by turns, and whom their holds wake.
use crate::driving::{Went, finds, go_on};
use crate::found::Found;
use planned_work::{Next, PlanWorker, Work};
use resource_lock::WorkerId;

// Whether two workers come to the end that take turns hold by hold, where none sleeps.
fn take_turns(first: &mut PlanWorker, second: &mut PlanWorker) -> bool {
    let mut one = None;
    let mut other = None;
    for _ in 0..200 {
        let (went, _) = go_on(first, &mut one, false, None);
        let (gone, _) = go_on(second, &mut other, false, None);
        match (went, gone) {
            (Went::Ended, Went::Ended) => return true,
            (Went::Astray, _) | (_, Went::Astray) => return false,
            _ => {}
        }
    }
    false
}

/// Two workers that take turns end the plan.
pub fn end_in_turn(first: &mut PlanWorker, second: &mut PlanWorker) -> bool {
    take_turns(first, second) && finds(first, &Found::AllEnded)
}

/// Once the second has asked what is next, and sleeps then or doesn't, the first wakes this worker, or nobody, until it has claimed an
/// item of two.
pub fn wakes(
    first: &mut PlanWorker,
    second: &mut PlanWorker,
    sleeps: bool,
    woken: Option<WorkerId>,
) -> bool {
    let started = first.try_next(true).0 == Next::Do(Work::Task(0));
    let waits = second.try_next(sleeps).0 == Next::Busy;
    let mut work = None;
    let mut one = None;
    for _ in 0..5 {
        let (_, rings) = go_on(first, &mut work, true, None);
        one = one.or(rings.one()).or(rings.another());
    }
    started && waits && work == Some(Work::Item(1)) && one == woken
}

/// The end of all tasks wakes all. Until then the second asks again whenever it may have been woken.
pub fn wakes_all_at_the_end(first: &mut PlanWorker, second: &mut PlanWorker) -> bool {
    let mut one = None;
    let mut other = None;
    for _ in 0..200 {
        let (went, rings) = go_on(first, &mut one, true, None);
        if rings.all() {
            return true;
        }
        if went == Went::Ended || went == Went::Astray {
            return false;
        }
        let _ = go_on(second, &mut other, true, None);
    }
    false
}
