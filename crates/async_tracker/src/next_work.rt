//! What a worker does next whose items wait in the book, and the step of that.
ghost use Rattle.std.specs.Prelude.{◌≡◌, ◌<◌, Some, false, length};
ghost use Rattle.worker_choices.specs.NextSteps.{HasToWait};
ghost use Rattle.worker_choices.specs.declared.awaited.Awaited.TheVariants as awaited;
ghost use Rattle.async_tracker.specs.NextWork.{IsIdleIf, IsNextParkedWorkIf, IsNextWorkIf, next_of, parked_of, step_of_next, step_of_parked};

use crate::failed_units::has_failed;
use crate::work_steps::WorkStep;
use coordination::{Decided, Decision, Question};
use lock_journal::Book;
use resource_lock::WorkerId;
use worker_choices::{Awaited, Choice, ParkedChoice, next_of_idle, next_of_parked};

/// What an idle worker does next.
#[derive(Clone, Copy, PartialEq, Eq)]
pub enum NextWork {
    /// It claims this unit, the lowest that is queued.
    Claim(u32),
    /// It claims an item that waits beside the book: no unit is queued in it. Where the book's own units alone are offered, this never
    /// comes.
    Beside,
    /// It skips this task, the lowest that can be skipped.
    Skip(u32),
    /// It starts this task, the lowest that can be started.
    Start(u32),
    /// It finishes: all tasks have ended.
    Finish,
}

/// What a parked worker does next.
#[derive(Clone, Copy, PartialEq, Eq)]
pub enum ParkedWork {
    /// It resumes: the items that it waits for have ended, and what it takes again is free. It says whether a unit of the action has
    /// failed.
    Resume(bool),
    /// It claims this unit, the lowest that is queued.
    Claim(u32),
    /// It claims an item that waits beside the book, as `NextWork::Beside`.
    Beside,
}

/// Asks what an idle worker does next, and does it: claims the lowest queued unit, or skips or starts a task. It waits where there is
/// nothing to do yet.
#[derive(Clone, Copy)]
pub struct TakeNextWork;

impl Question for TakeNextWork {
    type Answer = NextWork;

    ghost answers = { λ _. IsNextWorkIf };

    ghost waits_on = { λ _. IsIdleIf };

    ghost awaits = { λ _. Some awaited.Work };

    fn awaited(&self) -> Option<Awaited> {
        Some(Awaited::Work)
    }

    fn ask(&self, worker: WorkerId, book: &Book, queued: bool) -> Option<NextWork> {
        match next_of_idle(book, worker, queued)? {
            Choice::Claim => match book.lowest_queued() {
                Some(unit) => Some(NextWork::Claim(unit)),
                None => Some(NextWork::Beside),
            },
            Choice::Skip(task) => Some(NextWork::Skip(task)),
            Choice::Start(task) => Some(NextWork::Start(task)),
            Choice::Finish => Some(NextWork::Finish),
        }
    }
}

impl Decision for TakeNextWork {
    type Step = WorkStep;

    ghost step_of = { λ _. step_of_next };

    ghost more_locks = { λ _. 1 };

    #[inline]
    fn more_locks(&self) -> usize {
        1
    }

    fn step(&self, next: &NextWork) -> Option<WorkStep> {
        match *next {
            NextWork::Claim(unit) => Some(WorkStep::Claim(unit)),
            NextWork::Skip(task) => Some(WorkStep::Skip(task)),
            NextWork::Start(task) => Some(WorkStep::Start(task)),
            NextWork::Beside | NextWork::Finish => None,
        }
    }
}

/// Asks what a worker does next that is parked in this action, and does it: resumes, or claims the lowest queued unit. It waits where
/// there is nothing to do yet.
#[derive(Clone, Copy)]
pub struct TakeParkedWork {
    /// The action.
    pub action: u32,
}

impl Question for TakeParkedWork {
    type Answer = ParkedWork;

    ghost answers = { λ q. IsNextParkedWorkIf q.action };

    ghost waits_on = { λ q queued w book. q.action < length book.graph.actions → HasToWait book.graph w book.state queued q.action };

    ghost awaits = { λ q. Some (awaited.Items q.action) };

    fn awaited(&self) -> Option<Awaited> {
        Some(Awaited::Items(self.action))
    }

    fn ask(&self, worker: WorkerId, book: &Book, queued: bool) -> Option<ParkedWork> {
        if self.action as usize >= book.graph().actions().len() {
            return None;
        }
        match next_of_parked(book, worker, queued, self.action)? {
            ParkedChoice::Resume => Some(ParkedWork::Resume(has_failed(book, self.action))),
            ParkedChoice::Claim => match book.lowest_queued() {
                Some(unit) => Some(ParkedWork::Claim(unit)),
                None => Some(ParkedWork::Beside),
            },
        }
    }
}

impl Decision for TakeParkedWork {
    type Step = WorkStep;

    ghost step_of = { λ q. step_of_parked q.action };

    ghost more_locks = { λ _. 0 };

    #[inline]
    fn more_locks(&self) -> usize {
        0
    }

    fn step(&self, next: &ParkedWork) -> Option<WorkStep> {
        match *next {
            ParkedWork::Resume(_) => Some(WorkStep::Resume(self.action)),
            ParkedWork::Claim(unit) => Some(WorkStep::Claim(unit)),
            ParkedWork::Beside => None,
        }
    }
}

/// What an idle worker has decided.
pub fn next_work_of(decided: Decided<NextWork>) -> NextWork
    ensures { result ≡ next_of decided }
{
    match decided {
        Decided::Answered(next) | Decided::Entered(next, _) | Decided::Waiting(next) => next,
    }
}

/// What a parked worker has decided.
pub fn parked_work_of(decided: Decided<ParkedWork>) -> ParkedWork
    ensures { result ≡ parked_of decided }
{
    match decided {
        Decided::Answered(next) | Decided::Entered(next, _) | Decided::Waiting(next) => next,
    }
}
