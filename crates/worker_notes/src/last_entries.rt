//! The last entries of the workers in a history.
ghost use Rattle.std.specs.Prelude.{◌≡◌, ◌<◌, IfOk, length, ℕ, slice_index};
ghost use Rattle.worker_notes.specs.WorkerEntries.{last_of};

use lock_journal::Book;
use resource_lock::WorkerId;
use std::alloc::{AllocError, Global};

/// The number of the worker's last entry, counted from 1, or 0 where it has none. It goes through the whole history.
pub fn last_number(book: &Book, worker: WorkerId) -> u64
    requires { book.now.given ≡ 0 }
    ensures { result ≡ last_of worker book.now.history }
{
    let mut last = 0;
    for place in 0..book.len() {
        if book.entry(place).worker == worker {
            last = place + 1;
        }
    }
    last
}
