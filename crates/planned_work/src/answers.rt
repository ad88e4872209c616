//! What the calls answer.

/// What a worker is to do, or has come to.
#[derive(Clone, Copy, PartialEq, Eq)]
pub enum Work {
    /// It runs this item, by its number among the units. It has a lease for that.
    Item(u32),
    /// It runs this fetch of its task, by its number among the units. It has no lease and no lock meanwhile.
    Fetch(u32),
    /// It has started this task: it has the task's lock and a lease.
    Task(u32),
    /// The items of this action of its task have ended, and it works on the task again: with the lock and a lease, but behind an action
    /// that gave them back for good.
    Action {
        /// The action.
        action: u32,
        /// Whether each unit of the action has passed.
        passed: bool,
    },
    /// All tasks have ended.
    Ended,
}

/// What the choice of what a worker does next came to.
#[derive(Clone, Copy, PartialEq, Eq)]
pub enum Next {
    /// The worker is to do this. What it needs for that it has got by an entry.
    Do(Work),
    /// The call did what it says and has nothing to tell. It is to be made again at once, by `try_next`.
    GoesOn,
    /// There is nothing to do yet. Of a fetch: it can't be closed yet, since what the worker takes again isn't free.
    Busy,
    /// The service has been stopped. Of a fetch: it is to be closed yet, and would have to wait.
    Stopped,
    /// Another worker was inside at this moment.
    Again,
    /// There wasn't enough memory.
    NoMemory,
    /// The worker isn't where it may make this call.
    Misused,
    /// The rules give an entry that they don't allow in this book. No call of a `PlanWorker` answers so.
    Stuck,
}

/// What another call came to.
#[derive(Clone, Copy, PartialEq, Eq)]
pub enum Answer {
    /// It did what it says.
    Done,
    /// It can't be done yet: what the worker takes again isn't free.
    Busy,
    /// It can't be done yet, and the service has been stopped.
    Stopped,
    /// Another worker was inside at this moment.
    Again,
    /// There wasn't enough memory.
    NoMemory,
    /// The worker isn't where it may make this call.
    Misused,
    /// The rules don't allow the entry in this book. No call of a `PlanWorker` answers so.
    Stuck,
}
