//! Questions about the entries of a book, and a decision by how many there are.
ghost use Rattle.std.specs.Prelude.{◌≡◌, ◌<◌, None, Some, length};
ghost use Rattle.lock_transforms.specs.declared.entries.Kind.TheVariants as kinds;

use coordination::{Coordination, Decision, Pass, Question};
use lock_journal::Book;
use lock_transforms::{Disposition, Kind, Tentative, Transform};
use resource_lock::{Change, Graph, LockId, State, WorkerId};
use std::sync::Wait;
use worker_choices::Awaited;

/// An entry as it has to be.
#[derive(Clone, Copy)]
pub struct EntryRow<'a> {
    /// Its place in the history.
    pub place: u64,
    /// What it is for.
    pub kind: Kind,
    /// The changes, or none where the transform failed.
    pub changes: Option<&'a [Change]>,
}

// Whether the history has this entry.
fn has_entry(book: &Book, row: &EntryRow<'_>) -> bool {
    if row.place < book.given() || row.place >= book.len() {
        return false;
    }
    let shown = book.entry(row.place);
    let as_changed = match row.changes {
        Some(changes) => !shown.failed && shown.changes.eq(changes.iter().copied()),
        None => shown.failed,
    };
    as_changed && shown.kind == row.kind
}

// Whether the history has all of these entries.
fn has_entries(book: &Book, rows: &[EntryRow<'_>]) -> bool {
    for row in rows {
        if !has_entry(book, row) {
            return false;
        }
    }
    true
}

/// Whether the history has these entries.
#[derive(Clone, Copy)]
struct HasEntries<'a> {
    rows: &'a [EntryRow<'a>],
}

impl Question for HasEntries<'_> {
    type Answer = bool;

    ghost answers = { λ _ _ _ _ _. Unit {0} };

    ghost waits_on = { λ _ _ _ _. ⊥ };

    ghost awaits = { λ _. None };

    fn awaited(&self) -> Option<Awaited> {
        None
    }

    fn ask(&self, _worker: WorkerId, book: &Book, _queued: bool) -> Option<bool> {
        Some(has_entries(book, self.rows))
    }
}

/// Whether the book's history has these entries.
pub fn are_entries<R: Wait>(
    rt: &R,
    service: &Coordination,
    pass: &mut Pass,
    rows: &[EntryRow<'_>],
) -> bool
    requires { pass.old.service ≡ service.now.service }
    ensures service { pass.new.service ≡ pass.old.service }
    ensures worker { pass.new.sight.worker ≡ pass.old.sight.worker }
{
    matches!(service.ask(rt, pass, &HasEntries { rows }), Ok(true))
}

/// How many entries there are, once there are so many.
#[derive(Clone, Copy)]
pub struct EntriesFrom {
    pub least: u64,
}

impl Question for EntriesFrom {
    type Answer = u64;

    ghost answers = { λ _ _ _ book entries. entries ≡ length book.history };

    ghost waits_on = { λ q _ _ book. length book.history < q.least };

    ghost awaits = { λ _. None };

    fn awaited(&self) -> Option<Awaited> {
        None
    }

    fn ask(&self, _worker: WorkerId, book: &Book, _queued: bool) -> Option<u64> {
        let entries = book.len();
        (self.least <= entries).then_some(entries)
    }
}

/// Fails, with an entry.
#[derive(Clone, Copy)]
pub struct FailAtOnce;

impl Transform for FailAtOnce {
    ghost kind_of = { λ _. kinds.Acquire };

    ghost most = { λ _ _ _ _. 0 };

    ghost more_locks = { λ _. 0 };

    ghost makes = { λ _ _ _ _ _. ⊥ };

    ghost fails_on = { λ _ _ _ _. Unit {0} };

    ghost retries_on = { λ _ _ _ _. ⊥ };

    fn kind(&self) -> Kind {
        Kind::Acquire
    }

    fn most_changes(&self, _graph: &Graph, _state: &State, _worker: WorkerId) -> u64 {
        0
    }

    fn more_locks(&self) -> usize {
        0
    }

    fn apply(&self, _work: &mut Tentative, _own: &[LockId]) -> Disposition {
        Disposition::Failed
    }

    fn waits_for_news(&self) {}
}

/// Makes a failed entry once there are so many.
impl Decision for EntriesFrom {
    type Step = FailAtOnce;

    ghost step_of = { λ _ _. Some (record {}) };

    ghost more_locks = { λ _. 0 };

    #[inline]
    fn more_locks(&self) -> usize {
        0
    }

    fn step(&self, _entries: &u64) -> Option<FailAtOnce> {
        Some(FailAtOnce)
    }
}
