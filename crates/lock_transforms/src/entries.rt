//! What an entry of a history is for.
use item_actions::Outcome;

/// What an entry is for. Tasks, actions and units go by their numbers in the graph, from 0.
#[derive(Clone, Copy, PartialEq, Eq)]
pub enum Kind {
    /// A worker starts a task.
    Start(u32),
    /// A task is skipped, since one that it comes after failed or was skipped.
    Skip(u32),
    /// A worker queues the items of an action.
    Submit(u32),
    /// A worker begins to wait for the items of an action.
    Park(u32),
    /// A worker goes on after the items of an action have ended.
    Resume(u32),
    /// A worker takes a queued item.
    Claim(u32),
    /// A worker ends an item.
    Close(Closed),
    /// A worker enters a blocking section, for a fetch or for no unit.
    Block(Option<u32>),
    /// A worker leaves a blocking section, and ends the fetch if it was for one.
    Unblock(Option<Closed>),
    /// A worker ends a task.
    End(u32),
    /// A worker takes locks and a lease.
    Acquire,
    /// A worker gives back its locks and its lease.
    HandBack,
}

/// A unit and its outcome.
#[derive(Clone, Copy, PartialEq, Eq)]
pub struct Closed {
    /// The unit's number.
    pub unit: u32,
    /// What it gave, which isn't Skipped in any entry.
    pub outcome: Outcome,
}
