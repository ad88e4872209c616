//! The entries of a history that was read from its text.
ghost use Rattle.std.specs.Prelude.{◌≡◌};
ghost use Rattle.lock_journal.specs.Shown.{entry_shown};
ghost use Rattle.history_text.specs.HistoryView.{entry_read};

use history_text::{History, HistoryEntry};
use lock_journal::{Changes, Shown};
use task_ordering::Entries;

/// The entries of a history that was read, which needn't be lawful.
///
/// `Ordering::check` of `task_ordering` tells whether they kept an order of tasks, and `first_unlawful` which of them is the first that
/// isn't allowed after those before it.
#[derive(Clone, Copy)]
pub struct ReadEntries<'a>(pub &'a History);

impl Entries for ReadEntries<'_> {
    ghost use Rattle.history_text.specs.HistoryView.{history_view};

    ghost entries = { λ read. (history_view read.0.now).entries };

    ghost whole = { λ read. Unit {0} };

    fn count(&self) -> u64 {
        self.0.entries.len() as u64
    }

    fn at(&self, place: u64) -> Shown<'_> {
        shown(&self.0.entries[place as usize])
    }
}

// An entry that was read, as a book would show it.
fn shown(entry: &HistoryEntry) -> Shown<'_>
    ensures { entry_shown result ≡ entry_read entry.now }
{
    match &entry.changes {
        Some(changes) => Shown {
            worker: entry.worker,
            kind: entry.kind,
            failed: false,
            changes: Changes::given(changes),
        },
        None => Shown {
            worker: entry.worker,
            kind: entry.kind,
            failed: true,
            changes: Changes::none(),
        },
    }
}
