//! What a test's graph is made of. It is public, since the definitions in `specs/` and the tests of `coordination_tests` name it.

use resource_lock::LockId;

/// How many locks, workers and leases a graph has, and which lock is the all-projects lock.
#[derive(Clone, Copy)]
pub struct Limits {
    pub locks: u32,
    pub all: Option<LockId>,
    pub workers: u32,
    pub max_leases: u32,
}

/// A task that comes after one other at most.
#[derive(Clone, Copy)]
pub struct TaskRow {
    pub lock: u32,
    pub after: Option<u32>,
    pub first_action: u32,
    pub actions: u32,
}
