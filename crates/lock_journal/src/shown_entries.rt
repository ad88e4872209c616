//! Entries as a book shows them.
use crate::shown_changes::Changes;
use lock_transforms::Kind;
use resource_lock::WorkerId;

/// An entry of a history. Its changes are lent by the book, one by one.
#[derive(Clone, Copy)]
pub struct Shown<'a> {
    /// The worker that ran the transform.
    pub worker: WorkerId,
    /// What the entry is for.
    pub kind: Kind,
    /// Whether the transform failed. Then there are no changes.
    pub failed: bool,
    /// The changes that were made, in order.
    pub changes: Changes<'a>,
}
