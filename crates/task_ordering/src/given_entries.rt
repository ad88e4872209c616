//! Entries of a history, wherever they are kept.
ghost use Rattle.std.specs.Prelude.{◌≡◌, ◌<◌, List, Some, length, slice_get};
ghost use Rattle.lock_journal.specs.Shown.{entry_shown};
ghost use Rattle.lock_transforms.specs.Entry.{Entry};
ghost use Rattle.task_ordering.specs.Entries.{entry_given};

use lock_journal::{Book, Changes, Shown};
use lock_transforms::Kind;
use resource_lock::{Change, WorkerId};

/// The entries of a history, which needn't be lawful.
// `order_check` implements it for histories that were read from texts, so that this crate needs no reader of texts.
pub trait Entries {
    /// The entries, in order.
    ghost entries: { Self → List Entry };

    /// That each of them can be read here. A book that gave some away can't show those.
    ghost whole: { Self → Type 0 };

    /// How many there are.
    fn count(&self) -> u64
        ensures { result ≡ length (entries self.now) };

    /// The one at a place, counted from 0.
    fn at(&self, place: u64) -> Shown<'_>
        requires whole { whole self.now }
        requires within { place < length (entries self.now) }
        ensures { slice_get (entries self.now) place ≡ Some (entry_shown result) };
}

impl Entries for Book {
    ghost entries = { λ book. book.history };

    ghost whole = { λ book. book.given ≡ 0 };

    fn count(&self) -> u64 {
        self.len()
    }

    fn at(&self, place: u64) -> Shown<'_> {
        self.entry(place)
    }
}

/// An entry that needn't be lawful, by itself.
#[derive(Drop)]
pub struct GivenEntry {
    /// The worker that ran the transform.
    pub worker: WorkerId,
    /// What the entry is for.
    pub kind: Kind,
    /// The changes that were made, in order, or none where the transform failed.
    pub changes: Option<Vec<Change>>,
}

impl Entries for Vec<GivenEntry> {
    ghost use Rattle.std.specs.Prelude.{map};
    ghost use Rattle.task_ordering.specs.Entries.{entry_given};

    ghost entries = { λ given. map entry_given given.items };

    ghost whole = { λ given. Unit {0} };

    fn count(&self) -> u64 {
        self.len() as u64
    }

    fn at(&self, place: u64) -> Shown<'_> {
        shown(&self[place as usize])
    }
}

// A given entry as a book would show it.
fn shown(given: &GivenEntry) -> Shown<'_>
    ensures { entry_shown result ≡ entry_given given.now }
{
    match &given.changes {
        Some(changes) => Shown {
            worker: given.worker,
            kind: given.kind,
            failed: false,
            changes: Changes::given(changes),
        },
        None => Shown {
            worker: given.worker,
            kind: given.kind,
            failed: true,
            changes: Changes::none(),
        },
    }
}
