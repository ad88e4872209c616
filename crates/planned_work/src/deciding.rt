//! What a decision says that a worker does next.
ghost use Rattle.std.specs.Prelude.{◌≡◌};
ghost use Rattle.planned_work.specs.Deciding.{idle_next, idle_then, moved_next, parked_next, parked_then, unless_stuck};

use crate::answers::{Next, Work};
use crate::trying::{Behind, Tried};
use async_tracker::{NextWork, ParkedWork};
use coordination::Decided;
use single_steps::TaskMove;

/// What an idle worker does next.
pub(crate) fn idle_next(tried: Tried<NextWork>) -> Next
    ensures { result ≡ idle_next tried }
{
    match tried {
        Tried::Decided(Decided::Entered(NextWork::Claim(unit), true)) => Next::Do(Work::Item(unit)),
        Tried::Decided(Decided::Entered(NextWork::Start(task), true)) => Next::Do(Work::Task(task)),
        Tried::Decided(Decided::Entered(NextWork::Skip(_), true)) => Next::GoesOn,
        Tried::Decided(Decided::Answered(NextWork::Finish)) => Next::Do(Work::Ended),
        Tried::Decided(_) => Next::Stuck,
        Tried::Unanswered => Next::Busy,
        Tried::NoMemory => Next::NoMemory,
        Tried::Again => Next::Again,
    }
}

/// What a worker does next that is parked in this action.
pub(crate) fn parked_next(action: u32, tried: Tried<ParkedWork>) -> Next
    ensures { result ≡ parked_next action tried }
{
    match tried {
        Tried::Decided(Decided::Entered(ParkedWork::Claim(unit), true)) => {
            Next::Do(Work::Item(unit))
        }
        Tried::Decided(Decided::Entered(ParkedWork::Resume(failed), true)) => {
            let passed = !failed;
            Next::Do(Work::Action { action, passed })
        }
        Tried::Decided(_) => Next::Stuck,
        Tried::Unanswered => Next::Busy,
        Tried::NoMemory => Next::NoMemory,
        Tried::Again => Next::Again,
    }
}

/// What a worker does next in its task.
pub(crate) fn moved_next(tried: Tried<TaskMove>) -> Next
    ensures { result ≡ moved_next tried }
{
    match tried {
        Tried::Decided(Decided::Entered(TaskMove::Fetch(unit), true)) => {
            Next::Do(Work::Fetch(unit))
        }
        Tried::Decided(
            Decided::Entered(TaskMove::Submit(_) | TaskMove::Park(_) | TaskMove::End, true),
        ) => Next::GoesOn,
        Tried::Decided(_) => Next::Stuck,
        Tried::Unanswered => Next::Busy,
        Tried::NoMemory => Next::NoMemory,
        Tried::Again => Next::Again,
    }
}

/// What an idle worker does next behind a closing. Where nothing was decided there it is to ask again.
pub(crate) fn idle_then(behind: Behind<NextWork>) -> Next
    ensures { result ≡ idle_then behind }
{
    match behind {
        Behind::Decided(decided) => unless_stuck(idle_next(Tried::Decided(decided))),
        Behind::Alone => Next::GoesOn,
        Behind::NoMemory => Next::NoMemory,
        Behind::Retry => Next::Stuck,
        Behind::Again => Next::Again,
    }
}

/// The same of a worker that is parked in this action.
pub(crate) fn parked_then(action: u32, behind: Behind<ParkedWork>) -> Next
    ensures { result ≡ parked_then action behind }
{
    match behind {
        Behind::Decided(decided) => unless_stuck(parked_next(action, Tried::Decided(decided))),
        Behind::Alone => Next::GoesOn,
        Behind::NoMemory => Next::NoMemory,
        Behind::Retry => Next::Stuck,
        Behind::Again => Next::Again,
    }
}

// Behind a closing that stands, `Stuck` would say that it doesn't. Who asks again is told.
fn unless_stuck(next: Next) -> Next
    ensures { result ≡ unless_stuck next }
{
    match next {
        Next::Stuck => Next::GoesOn,
        _ => next,
    }
}
