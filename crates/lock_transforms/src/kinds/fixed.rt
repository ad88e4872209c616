//! What the kinds share whose changes the graph, the state and the worker fix.
ghost use Rattle.std.specs.Prelude.{◌≡◌, ◌≢◌, ◌<◌, ◌≤◌, ◌↔◌, IsTrue, [], false, true, length, Some};
ghost use Rattle.resource_lock.specs.Fits.{Fits};
ghost use Rattle.resource_lock.specs.Shape.{BelongsTo};
ghost use Rattle.lock_transforms.specs.Allowed.{Allowed, IsDisabled, IsFixedList, IsKindOf, IsListOf};
ghost use Rattle.lock_transforms.specs.TentativeView.{IsSoundTentative, Worked};
ghost use Rattle.lock_transforms.specs.Entry.{entry};
ghost use Rattle.lock_transforms.specs.Making.{Makes};
ghost use Rattle.lock_transforms.specs.MostChanges.{most_of};
ghost use Rattle.lock_transforms.specs.Table.{condition, list_of, is_enabled};
ghost use Rattle.lock_transforms.specs.declared.entries.Kind.{Kind};
ghost use Rattle.lock_transforms.specs.declared.entries.Kind.TheVariants as kinds;

use crate::tentatives::Tentative;
use crate::transforms::Disposition;
use resource_lock::{Graph, LockId, State, WorkerId};

/// A kind of entry whose changes the graph, the state before and the worker fix.
pub(crate) trait FixedKind {
    ghost kind_of: { Self → Kind };

    /// Whether its numbers are the graph's, and it carries no Skipped.
    fn is_in_range(&self, graph: &Graph) -> bool
        ensures in_range { IsTrue result ↔ IsKindOf graph.now (kind_of self.now) }
        ensures fixed { kind_of self.now ≢ kinds.Acquire };

    /// Whether its condition holds.
    fn condition_holds(&self, graph: &Graph, state: &State, worker: WorkerId) -> bool
        requires in_range { IsKindOf graph.now (kind_of self.now) }
        requires fits { Fits graph.now }
        requires belongs { BelongsTo graph.now state.now }
        requires worker_in_range { worker.0 < graph.now.workers }
        ensures { result ≡ condition graph.now state.now worker (kind_of self.now) };

    /// Makes its changes, up to the first that can't be made, and answers whether all were. `own` may name the worker's locks
    /// (`Transform::apply`).
    fn make(&self, work: &mut Tentative, own: &[LockId]) -> bool
        requires in_range { IsKindOf work.old.graph (kind_of self.now) }
        requires sound { IsSoundTentative work.old }
        requires belongs { BelongsTo work.old.graph work.old.state }
        requires room { most_of work.old.graph work.old.worker work.old.state (kind_of self.now) ≤ work.old.room }
        ensures made { Makes work.old work.new (list_of work.old.graph work.old.state work.old.worker (kind_of self.now)) result }
        ensures fixed { IsListOf work.old.graph work.old.state work.old.worker (kind_of self.now)
            (list_of work.old.graph work.old.state work.old.worker (kind_of self.now)) };
}

/// How far an entry came.
#[derive(Clone, Copy)]
pub(crate) enum Progress {
    /// All its changes were made.
    Made,
    /// Its condition doesn't hold, or one of its changes can't be made.
    NotEnabled,
    /// A number is out of the graph's range, or it carries Skipped.
    OutOfRange,
}

/// Makes the changes of an entry where its condition holds, up to the first that can't be made.
pub(crate) fn run_fixed<K: FixedKind>(kind: &K, work: &mut Tentative, own: &[LockId]) -> Progress
    requires fresh { work.old.made ≡ [] }
    requires room { most_of work.old.graph work.old.worker work.old.state (K.kind_of kind.now) ≤ work.old.room }
    ensures worked { Worked work.old work.new }
    ensures few { length work.new.made ≤ most_of work.old.graph work.old.worker work.old.state (K.kind_of kind.now) }
    ensures made { result ≡ Progress.Made
        → Allowed work.old.graph work.old.state (entry work.old.worker (K.kind_of kind.now) (Some work.new.made)) }
    ensures list { result ≡ Progress.Made
        → IsFixedList (K.kind_of kind.now) work.old.graph work.old.worker work.old.state work.new.made }
    ensures enabled { result ≡ Progress.Made
        → (is_enabled work.old.graph work.old.state work.old.worker (K.kind_of kind.now) ≡ true) × IsKindOf work.old.graph (K.kind_of kind.now) }
    ensures sound { result ≡ Progress.NotEnabled → IsSoundTentative work.old }
    ensures not_enabled { result ≡ Progress.NotEnabled
        → (is_enabled work.old.graph work.old.state work.old.worker (K.kind_of kind.now) ≡ false) × IsKindOf work.old.graph (K.kind_of kind.now) }
    ensures fixed { K.kind_of kind.now ≢ kinds.Acquire }
    ensures out_of_range { result ≡ Progress.OutOfRange → ¬ IsKindOf work.old.graph (K.kind_of kind.now) }
{
    if !kind.is_in_range(work.graph()) {
        return Progress::OutOfRange;
    }
    if !kind.condition_holds(work.graph(), work.state(), work.worker()) {
        return Progress::NotEnabled;
    }
    if !kind.make(work, own) {
        return Progress::NotEnabled;
    }
    Progress::Made
}

/// Applies a kind that never fails: where its changes can't all be made, it asks to be run again.
// It can't be a default of `Transform`, and no trait of these kinds can stand above `Transform`: a method that leads back to its block
// isn't proved yet, and a macro that writes blocks is refused. So each of these kinds says its kind in both blocks.
pub(crate) fn finish_or_retry<K: FixedKind>(
    kind: &K,
    work: &mut Tentative,
    own: &[LockId],
) -> Disposition
    requires fresh { work.old.made ≡ [] }
    requires room { most_of work.old.graph work.old.worker work.old.state (K.kind_of kind.now) ≤ work.old.room }
    ensures worked { Worked work.old work.new }
    ensures few { length work.new.made ≤ most_of work.old.graph work.old.worker work.old.state (K.kind_of kind.now) }
    ensures allowed { result ≡ Disposition.Finished
        → Allowed work.old.graph work.old.state (entry work.old.worker (K.kind_of kind.now) (Some work.new.made)) }
    ensures list { result ≡ Disposition.Finished
        → IsFixedList (K.kind_of kind.now) work.old.graph work.old.worker work.old.state work.new.made }
    ensures enabled { result ≡ Disposition.Finished
        → (is_enabled work.old.graph work.old.state work.old.worker (K.kind_of kind.now) ≡ true) × IsKindOf work.old.graph (K.kind_of kind.now) }
    ensures never_fails { result ≢ Disposition.Failed }
    ensures sound { result ≡ Disposition.Retry → IsKindOf work.old.graph (K.kind_of kind.now) → IsSoundTentative work.old }
    ensures disabled { result ≡ Disposition.Retry → IsDisabled (K.kind_of kind.now) work.old.graph work.old.worker work.old.state }
{
    match run_fixed(kind, work, own) {
        Progress::Made => Disposition::Finished,
        Progress::NotEnabled | Progress::OutOfRange => Disposition::Retry,
    }
}
