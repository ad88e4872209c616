//! What the state of a book has ready for its workers.
ghost use Rattle.std.specs.Prelude.{◌≡◌, ◌<◌, length};
ghost use Rattle.async_tracker.specs.NextWork.{has_failed};

use lock_journal::Book;
use lock_transforms::kinds::action_of;
use resource_lock::{Mark, MarkId};

/// Whether a unit of an action has failed.
pub fn has_failed(book: &Book, action: u32) -> bool
    requires { action < length book.now.graph.actions }
    ensures { result ≡ has_failed book.now.graph book.now.state action }
{
    let found = action_of(book.graph(), action);
    let end = found.first_unit + u32::from(found.fetch) + found.items;
    let state = book.state();
    (found.first_unit..end).any(|unit| state.mark(MarkId::Unit(unit)) == Mark::Failed)
}
