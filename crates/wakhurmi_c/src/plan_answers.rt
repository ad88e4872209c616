//! What the calls with a plan answer, and what a worker is to do, as C sees it.
ghost use Rattle.std.specs.Prelude.{◌≡◌, ◌<◌, false, length};
ghost use Rattle.planned_work.specs.Rings.{all_rung, one_of, takers_rung};
ghost use Rattle.planned_work.specs.Numbers.{IsActionAt};
ghost use Rattle.wakhurmi_c.specs.PlanNumbers.{IsUnitWork, IsWorkOf, NOBODY, answer_as, ended_of, next_as, number_or, opened_as, plan_answer_of, refused_as};

use planned_work::{
    Answer, Ended, Next, Numbered, OpenRefusal, PlanRefusal, Rings, Work, action_place,
};
use resource_lock::{Graph, WorkerId};

/// What a call came to. The numbers are those of `Answer` where the two have the same word.
#[derive(Clone, Copy, PartialEq, Eq)]
pub enum PlanAnswer {
    /// It did what it says.
    Done,
    /// There is nothing to do yet, or it can't be done yet.
    Busy,
    /// It can't be done yet, or there is no more work, and the service has been stopped.
    Stopped,
    /// Another worker was inside at this moment.
    Again,
    /// There wasn't enough memory.
    NoMemory,
    /// A number isn't in range.
    BadNumber,
    /// The worker or the plan isn't where this call may be made.
    Misused,
    /// A handle is empty.
    Empty,
    /// A handle that was to be filled is full.
    Full,
    /// A task comes after itself, or after one that does.
    Cycle,
    /// There are as many as may be.
    TooMany,
    /// The call did what it says and has nothing to tell. What is next is to be asked at once.
    GoesOn,
    /// The rules don't allow the entry that they give.
    Stuck,
}

impl PlanAnswer {
    /// The number that C sees.
    pub(crate) fn number(self) -> u32
        ensures { plan_answer_of result ≡ self }
    {
        match self {
            PlanAnswer::Done => 0,
            PlanAnswer::Busy => 1,
            PlanAnswer::Stopped => 3,
            PlanAnswer::Again => 4,
            PlanAnswer::NoMemory => 5,
            PlanAnswer::BadNumber => 6,
            PlanAnswer::Misused => 7,
            PlanAnswer::Empty => 8,
            PlanAnswer::Full => 9,
            PlanAnswer::Cycle => 11,
            PlanAnswer::TooMany => 12,
            PlanAnswer::GoesOn => 13,
            PlanAnswer::Stuck => 14,
        }
    }

    /// Of a call that isn't to say what is next.
    pub(crate) fn of(answer: Answer) -> PlanAnswer
        ensures { result ≡ answer_as answer }
    {
        match answer {
            Answer::Done => PlanAnswer::Done,
            Answer::Busy => PlanAnswer::Busy,
            Answer::Stopped => PlanAnswer::Stopped,
            Answer::Again => PlanAnswer::Again,
            Answer::NoMemory => PlanAnswer::NoMemory,
            Answer::Misused => PlanAnswer::Misused,
            Answer::Stuck => PlanAnswer::Stuck,
        }
    }

    /// Of one that is to say what is next.
    pub(crate) fn of_next(next: Next) -> PlanAnswer
        ensures { result ≡ next_as next }
    {
        match next {
            Next::Do(_) => PlanAnswer::Done,
            Next::GoesOn => PlanAnswer::GoesOn,
            Next::Busy => PlanAnswer::Busy,
            Next::Stopped => PlanAnswer::Stopped,
            Next::Again => PlanAnswer::Again,
            Next::NoMemory => PlanAnswer::NoMemory,
            Next::Misused => PlanAnswer::Misused,
            Next::Stuck => PlanAnswer::Stuck,
        }
    }

    /// Of a call that makes a plan and was refused.
    pub(crate) fn of_refusal(refusal: PlanRefusal) -> PlanAnswer
        ensures { result ≡ refused_as refusal }
    {
        match refusal {
            PlanRefusal::BadNumber => PlanAnswer::BadNumber,
            PlanRefusal::TooMany => PlanAnswer::TooMany,
            PlanRefusal::Misused => PlanAnswer::Misused,
            PlanRefusal::NoMemory => PlanAnswer::NoMemory,
        }
    }

    /// Of a service that wasn't opened.
    pub(crate) fn of_opening(refusal: OpenRefusal) -> PlanAnswer
        ensures { result ≡ opened_as refusal }
    {
        match refusal {
            OpenRefusal::BadNumber => PlanAnswer::BadNumber,
            OpenRefusal::Cycle => PlanAnswer::Cycle,
            OpenRefusal::NoMemory => PlanAnswer::NoMemory,
        }
    }
}

/// What a call of a worker of a plan answers, and whom it wakes.
#[repr(C)]
#[derive(Clone, Copy)]
pub struct PlanTold {
    /// The number of the answer.
    pub answer: u32,
    /// The worker that it wakes, or 2^32 - 1.
    pub wakes: u32,
    /// The other one that it wakes, or 2^32 - 1.
    pub wakes_too: u32,
    /// Whether it wakes all.
    pub wakes_all: bool,
    /// Whether it wakes those that wait to take locks.
    pub wakes_takers: bool,
}

impl PlanTold {
    /// An answer, and whom the call wakes.
    pub(crate) fn of(answer: PlanAnswer, rings: Rings) -> PlanTold
        ensures answer { plan_answer_of result.answer ≡ answer }
        ensures wakes { (result.wakes ≡ number_or (one_of rings.first.workers)) × (result.wakes_too ≡ number_or (one_of rings.later.workers)) }
        ensures all { (result.wakes_all ≡ all_rung rings) × (result.wakes_takers ≡ takers_rung rings) }
    {
        PlanTold {
            answer: answer.number(),
            wakes: number_or(rings.one()),
            wakes_too: number_or(rings.another()),
            wakes_all: rings.all(),
            wakes_takers: rings.takers(),
        }
    }

    /// An answer of a call that had no hold.
    pub(crate) fn alone(answer: PlanAnswer) -> PlanTold
        ensures { plan_answer_of result.answer ≡ answer }
    {
        PlanTold::of(answer, Rings::nobody())
    }
}

// The worker's number, or one of no worker.
fn number_or(worker: Option<WorkerId>) -> u32
    ensures { result ≡ number_or worker }
{
    match worker {
        Some(worker) => worker.0,
        None => u32::MAX,
    }
}

/// What a worker is to do: of which task, which of its actions, and which of the action's items, by their places. What there isn't is 2^32 - 1.
#[repr(C)]
#[derive(Clone, Copy)]
pub struct PlanWork {
    /// 0 an item, 1 a fetch, 2 a task that was started, 3 an action whose items have ended, 4 that all tasks have ended.
    pub what: u32,
    /// The task.
    pub task: u32,
    /// The action, by its place in the task.
    pub action: u32,
    /// The item, by its place in the action.
    pub item: u32,
    /// Whether all units of an action have passed.
    pub passed: bool,
}

/// What a worker is to do, by the places of a plan whose numbers these are.
pub(crate) fn work_of(numbers: &Graph, work: Work) -> PlanWork
    ensures { IsWorkOf numbers.now work result }
{
    match work {
        Work::Item(unit) => unit_work(numbers, 0, unit),
        Work::Fetch(unit) => unit_work(numbers, 1, unit),
        Work::Task(task) => PlanWork { task, ..nothing(2) },
        Work::Action { action, passed } => action_work(numbers, action, passed),
        Work::Ended => nothing(4),
    }
}

// Work that names nothing.
fn nothing(what: u32) -> PlanWork
    ensures { result ≡ record { what = what; task = NOBODY; action = NOBODY; item = NOBODY; passed = false } }
{
    PlanWork {
        what,
        task: u32::MAX,
        action: u32::MAX,
        item: u32::MAX,
        passed: false,
    }
}

// Work on a unit.
fn unit_work(numbers: &Graph, what: u32, unit: u32) -> PlanWork
    ensures what { result.what ≡ what }
    ensures unit { unit < numbers.now.units → IsUnitWork numbers.now unit result }
{
    if unit >= numbers.units() {
        return nothing(what);
    }
    let Numbered { task, action, item } = Numbered::of_unit(numbers, unit);
    PlanWork {
        what,
        task,
        action,
        item: item.unwrap_or(u32::MAX),
        passed: false,
    }
}

// An action whose items have ended.
fn action_work(numbers: &Graph, action: u32, passed: bool) -> PlanWork
    ensures what { (result.what ≡ 3) × (result.passed ≡ passed) }
    ensures action { action < length numbers.now.actions → IsActionAt numbers.now action result.task result.action }
{
    if action as usize >= numbers.actions().len() {
        return PlanWork {
            passed,
            ..nothing(3)
        };
    }
    let (task, action) = action_place(numbers, action);
    PlanWork {
        task,
        action,
        passed,
        ..nothing(3)
    }
}

/// What became of a task or a unit, as C sees it: 0 it hasn't ended, 1 it has passed, 2 it has failed, 3 it was skipped; and the number with
/// which a unit has passed, or 0.
#[repr(C)]
#[derive(Clone, Copy)]
pub struct PlanOutcome {
    /// What became of it.
    pub outcome: u32,
    /// The number.
    pub number: u64,
}

impl PlanOutcome {
    /// As C sees it.
    pub(crate) fn of(ended: Ended) -> PlanOutcome
        ensures { ended_of result ≡ ended }
    {
        let (outcome, number) = match ended {
            Ended::NotEnded => (0, 0),
            Ended::Passed(number) => (1, number),
            Ended::Failed => (2, 0),
            Ended::Skipped => (3, 0),
        };
        PlanOutcome { outcome, number }
    }
}
