//! Every call at places of a worker where it may not be made, and behind a stop.
use crate::driving::{finds, is_done, next_work};
use crate::found::Found;
use planned_work::{Answer, Next, PlanWorker, Work};

/// Which calls a worker may make.
#[derive(Clone, Copy, PartialEq, Eq)]
struct Allowed {
    next: bool,
    done: bool,
    enter: bool,
    leave: bool,
}

// Whether each other call is misuse, where it changes nothing.
fn refuses(worker: &mut PlanWorker, allowed: Allowed) -> bool {
    (allowed.next || worker.try_next(false).0 == Next::Misused)
        && (allowed.done
            || worker.done(false, None).0 == Answer::Misused
                && worker.done_next(false, None).0 == Next::Misused)
        && (allowed.enter || worker.enter().0 == Answer::Misused)
        && (allowed.leave || worker.leave(false).0 == Answer::Misused)
}

const ASKS: Allowed = Allowed {
    next: true,
    done: false,
    enter: false,
    leave: false,
};

const CLOSES: Allowed = Allowed {
    next: false,
    done: true,
    enter: false,
    leave: false,
};

const IN_TASK: Allowed = Allowed {
    enter: true,
    ..ASKS
};

const IN_SECTION: Allowed = Allowed {
    next: false,
    done: false,
    enter: false,
    leave: true,
};

// Goes through the places of a worker to its first item.
fn goes_to_an_item(worker: &mut PlanWorker) -> bool {
    refuses(worker, ASKS)
        && next_work(worker) == Next::Do(Work::Task(0))
        && refuses(worker, IN_TASK)
        && is_done(worker.enter())
        && refuses(worker, IN_SECTION)
        && is_done(worker.leave(false))
        && refuses(worker, IN_TASK)
        && next_work(worker) == Next::Do(Work::Fetch(0))
        && refuses(worker, CLOSES)
        && is_done(worker.done(false, Some(0)))
        && refuses(worker, IN_TASK)
        && next_work(worker) == Next::Do(Work::Item(1))
        && refuses(worker, CLOSES)
}

/// Calls that don't fit the worker's place are misuse: at each place until it is parked, without an item, beside an item that the
/// other worker runs.
pub fn refuses_what_does_not_fit(first: &mut PlanWorker, second: &mut PlanWorker) -> bool {
    let goes = goes_to_an_item(first) && is_done(first.done(false, Some(1)));
    let other = next_work(second) == Next::Do(Work::Item(2));
    let parked = first.try_next(false).0 == Next::Busy && refuses(first, ASKS);
    let (next, _) = second.done_next(false, Some(2));
    let resumed = next_work(first)
        == Next::Do(Work::Action {
            action: 0,
            passed: true,
        });
    goes && other && parked && next == Next::GoesOn && resumed && refuses(first, IN_TASK)
}

/// Behind a stop there is no more work. An item can be closed, and gives nothing to do behind it.
pub fn has_no_work_behind_a_stop(first: &mut PlanWorker, second: &mut PlanWorker) -> bool {
    let goes = goes_to_an_item(first);
    second.stop();
    let idle = second.try_next(true).0 == Next::Stopped;
    first.stop();
    let closed = first.done_next(true, Some(1)).0 == Next::GoesOn;
    let parked = first.try_next(true).0 == Next::Stopped;
    goes && idle
        && closed
        && parked
        && first.pass.stopped_by().is_some()
        && !finds(first, &Found::AllEnded)
}

/// Who is in a blocking section has no lease. The other has nothing to do then, since no task can start.
pub fn gives_its_lease_back(first: &mut PlanWorker, second: &mut PlanWorker) -> bool {
    let enters = next_work(first) == Next::Do(Work::Task(0)) && is_done(first.enter());
    let idle = second.try_next(true).0 == Next::Busy;
    let (leases, _) = second.leases_out();
    enters && idle && leases == Some(0) && is_done(first.leave(true))
}
