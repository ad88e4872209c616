//! The spans of a history, in the order in which they begin.
ghost use Rattle.std.specs.Prelude.{◌≡◌, ◌+◌, ℕ, List, ◌∷◌, ◌++◌, [], map, length, IfOk, OnOk, Option, option_map};
ghost use Rattle.history_text.specs.HistoryView.{entry_read};
ghost use Rattle.run_spans.specs.Steps.{Step, step, steps_of, changes_in};
ghost use Rattle.run_spans.specs.Spans.{span_with, spans_of};
ghost use Rattle.run_spans.specs.Tail.{IsTail};

use crate::subjects::{Subject, begins, mark_left, subject_of};
use history_text::HistoryEntry;
use resource_lock::{Change, Mark, WorkerId};
use std::alloc::{AllocError, Global};
use std::collections::BTreeMap;

/// Entries over which something holds.
#[derive(Clone, Copy)]
pub struct Span {
    /// What holds.
    pub subject: Subject,
    /// The worker whose entry began it.
    pub worker: WorkerId,
    /// The number of the entry that began it, from 1. It holds after that entry.
    pub from: u64,
    /// The number of the entry that ended it: it holds no more after that entry. Where none did, it is the number
    /// behind the last entry.
    pub until: u64,
    /// The mark that its task, action or unit had then. Of what has no mark it is Waiting.
    pub mark: Mark,
}

/// Where something is said of a subject.
#[derive(Clone, Copy)]
pub(crate) struct Saying {
    pub(crate) entry: u64,
    pub(crate) mark: Mark,
}

/// What is known of the steps of a history from one of them on: their spans, the last one first, and where each
/// subject is spoken of first.
#[derive(Drop)]
pub(crate) struct Tail {
    pub(crate) spans: Vec<Span>,
    pub(crate) firsts: BTreeMap<u128, Saying>,
}

// The span that a change begins, by where its subject is spoken of next.
fn span_with(end: u64, entry: u64, worker: WorkerId, change: &Change, next: Option<Saying>) -> Span
    ensures { result ≡ span_with end (step entry worker change.now) next }
{
    let (until, mark) = match next {
        None => (end, mark_left(change)),
        Some(saying) => (saying.entry, saying.mark),
    };
    Span {
        subject: subject_of(worker, change),
        worker,
        from: entry,
        until,
        mark,
    }
}

impl Tail {
    // Takes one more step in front.
    fn take_change(
        &mut self,
        end: u64,
        entry: u64,
        worker: WorkerId,
        change: &Change,
    ) -> Result<(), AllocError>
        ensures { (xs : List Step) → IsTail end xs self.old → OnOk result (IsTail end (step entry worker change.now ∷ xs) self.new) }
    {
        let saying = Saying {
            entry,
            mark: mark_left(change),
        };
        let next = self
            .firsts
            .insert(subject_of(worker, change).key(), saying)?;
        if begins(change) {
            self.spans
                .push(span_with(end, entry, worker, change, next))?;
        }
        Ok(())
    }

    // Takes the steps of one more entry in front.
    fn take_changes(
        &mut self,
        end: u64,
        entry: u64,
        worker: WorkerId,
        changes: &[Change],
    ) -> Result<(), AllocError>
        ensures { (xs : List Step) → IsTail end xs self.old → OnOk result (IsTail end (steps_of entry worker changes.now ++ xs) self.new) }
    {
        let mut left = changes.len();
        while left > 0 {
            left -= 1;
            self.take_change(end, entry, worker, &changes[left])?;
        }
        Ok(())
    }
}

/// What each worker has, what each lock is, and which tasks, actions and units run, over which entries.
///
/// The spans stand in the order of the changes that begin them. Each ends at the next change that says something of
/// its subject, whatever that says. It is for any entries, whether they are lawful or not. The time grows as the
/// number of changes, times the logarithm of the number of subjects.
pub fn spans_of(alloc: Global, entries: &[HistoryEntry]) -> Result<Vec<Span>, AllocError>
    ensures { IfOk result (λ spans. spans.items ≡ spans_of (map entry_read entries.now)) }
{
    let mut tail = Tail {
        spans: Vec::new(alloc),
        firsts: BTreeMap::new(alloc),
    };
    let end = entries.len() as u64 + 1;
    let mut left = entries.len();
    while left > 0 {
        left -= 1;
        let entry = &entries[left];
        if let Some(changes) = entry.changes.as_deref() {
            tail.take_changes(end, left as u64 + 1, entry.worker, changes)?;
        }
    }
    tail.spans.reverse();
    Ok(tail.spans)
}
