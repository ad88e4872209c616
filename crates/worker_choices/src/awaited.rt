//! What a worker waits for whose question has no answer yet.

/// What ends a worker's wait for the answer of its question.
///
/// An item counts where a lease is free for the worker that waits.
#[derive(Clone, Copy)]
pub enum Awaited {
    /// An item to claim or a task to start, with a lease for it, a task to skip, or the end of all tasks.
    Work,
    /// An item to claim, with a lease for it, or the end of the items of this action, with all free that its retention takes again.
    Items(u32),
    /// All locks that the worker has parked, and a lease.
    TakeUp,
}
