//! The changes of an entry, one by one.
ghost use Rattle.std.specs.Prelude.{◌≡◌, [], length, map};
ghost use Rattle.std.specs.Iterator.{YieldsFirst, item_count};
ghost use Rattle.lock_journal.specs.Changes.{changes_left};
ghost use Rattle.lock_journal.specs.StoredChange.{change_of_worker};

use crate::stored_changes::{StoredChange, change_of_worker};
use resource_lock::{Change, WorkerId};

/// Changes of one worker, in order, as they were made. It is an iterator: a book lends the changes of an entry so, since it stores
/// them in less room.
#[derive(Clone, Copy)]
pub struct Changes<'a> {
    left: Left<'a>,
}

// The changes that are still to come.
#[derive(Clone, Copy)]
enum Left<'a> {
    // What is stored of them, in an entry of the worker.
    Stored(WorkerId, &'a [StoredChange]),
    // They themselves.
    Given(&'a [Change]),
}

impl<'a> Changes<'a> {
    /// These changes.
    #[inline(always)]
    pub fn given(changes: &'a [Change]) -> Changes<'a>
        ensures { changes_left result ≡ changes.now }
    {
        Changes {
            left: Left::Given(changes),
        }
    }

    /// No changes.
    #[inline(always)]
    pub fn none() -> Changes<'a>
        ensures { changes_left result ≡ [] }
    {
        Changes::given(&[])
    }

    /// Those that are stored so, in an entry of the worker.
    #[inline(always)]
    pub(crate) fn stored(worker: WorkerId, changes: &'a [StoredChange]) -> Changes<'a>
        ensures { changes_left result ≡ map (change_of_worker worker) changes.now }
    {
        Changes {
            left: Left::Stored(worker, changes),
        }
    }
}

impl Iterator for Changes<'_> {
    type Item = Change;

    ghost next_gives = { YieldsFirst changes_left };

    ghost remaining = { item_count changes_left };

    #[inline(always)]
    fn next(&mut self) -> Option<Change> {
        match self.left {
            Left::Stored(worker, stored) => {
                let (first, others) = stored.split_first()?;
                self.left = Left::Stored(worker, others);
                Some(change_of_worker(worker, *first))
            }
            Left::Given(given) => {
                let (first, others) = given.split_first()?;
                self.left = Left::Given(others);
                Some(*first)
            }
        }
    }

    fn size_hint(&self) -> (usize, Option<usize>) {
        let len = self.len();
        (len, Some(len))
    }
}

impl ExactSizeIterator for Changes<'_> {
    fn len(&self) -> usize {
        match self.left {
            Left::Stored(_, stored) => stored.len(),
            Left::Given(given) => given.len(),
        }
    }
}
