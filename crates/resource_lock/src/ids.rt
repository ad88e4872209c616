//! Locks and workers by their numbers.
/// A project lock, by its number from 0.
#[derive(Clone, Copy, PartialEq, Eq)]
pub struct LockId(pub u32);

/// A worker, by its number from 0.
#[derive(Clone, Copy, PartialEq, Eq)]
pub struct WorkerId(pub u32);
