//! Which entries can let another worker go on.
ghost use Rattle.std.specs.Prelude.{◌≡◌, ◌<◌, length};
ghost use Rattle.std.specs.List.{list_any};
ghost use Rattle.lock_journal.specs.Changes.{changes_left};
ghost use Rattle.lock_transforms.specs.GoingOn.{lets_go_on};
ghost use Rattle.worker_choices.specs.GoingOn.{last_lets_go_on};

use lock_journal::{Book, Changes};
use resource_lock::{Change, Mark};

/// Whether a change can let another worker go on: it gives a lock or a lease back, or it leaves a
/// task, an action or a unit that isn't under way.
pub fn lets_go_on(change: Change) -> bool
    ensures { result ≡ lets_go_on change }
{
    match change {
        Change::Unlock(_) | Change::Give => true,
        Change::Move(_, _, to) => match to {
            Mark::Waiting | Mark::Queued | Mark::Passed | Mark::Failed | Mark::Skipped => true,
            Mark::Running(_) => false,
        },
        Change::Lock(_)
        | Change::Take
        | Change::Park(_)
        | Change::Unpark(_)
        | Change::Enter
        | Change::Leave => false,
    }
}

// Whether one of the changes can let another worker go on.
fn any_lets_go_on(mut changes: Changes<'_>) -> bool
    ensures { result ≡ list_any lets_go_on (changes_left changes.entry) }
{
    changes.any(|change| lets_go_on(change))
}

/// Whether the last entry of the book can let another worker go on. It wasn't given away.
pub fn last_lets_go_on(book: &Book) -> bool
    requires { book.now.given < length book.now.history }
    ensures { result ≡ last_lets_go_on book.now.history }
{
    any_lets_go_on(book.last_changes())
}
