//! Which items of an action haven't ended yet.
ghost use Rattle.std.specs.Prelude.{◌≡◌, ◌<◌, None, length};
ghost use Rattle.std.specs.List.{list_all};
ghost use Rattle.resource_lock.specs.Ranges.{items_of};
ghost use Rattle.resource_lock.specs.StateView.{mark_of};
ghost use Rattle.resource_lock.specs.declared.marks.MarkId.TheVariants as ids;
ghost use Rattle.lock_transforms.specs.Table.{has_ended};
ghost use Rattle.single_steps.specs.Waits.{IsFirstOpen};

use async_tracker::Parked;
use coordination::Question;
use lock_journal::Book;
use resource_lock::WorkerId;
use worker_choices::{Awaited, first_open};

/// Asks for the first item of an action that hasn't ended. It has an answer at once.
#[derive(Drop)]
pub(crate) struct FirstOpen {
    pub action: u32,
}

impl Question for FirstOpen {
    type Answer = Option<u32>;

    ghost answers = { λ q queued. IsFirstOpen q.action };

    ghost waits_on = { λ _ _ _ _. ⊥ };

    ghost awaits = { λ _. None };

    fn awaited(&self) -> Option<Awaited> {
        None
    }

    fn ask(&self, _worker: WorkerId, book: &Book, _queued: bool) -> Option<Option<u32>> {
        Some(first_open(book, self.action))
    }
}

/// Whether each item that the worker waits for has ended, so that it can go on.
pub fn ready(parked: &Parked, book: &Book) -> bool
    requires { parked.now.action < length book.now.graph.actions }
    ensures { result ≡ list_all (λ u. has_ended (mark_of book.now.state (ids.Unit u))) (items_of book.now.graph parked.now.action) }
{
    first_open(book, parked.action()).is_none()
}
