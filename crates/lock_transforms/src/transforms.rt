//! What a transform is, and how it ends.
ghost use Rattle.std.specs.Prelude.{◌≡◌, ◌≢◌, ◌<◌, ◌≤◌, ◌⊎◌, ℕ, List, [], length, Some};
ghost use Rattle.resource_lock.specs.Shape.{BelongsTo};
ghost use Rattle.resource_lock.specs.StateView.{StateView};
ghost use Rattle.resource_lock.specs.GraphView.{GraphView};
ghost use Rattle.resource_lock.specs.declared.changes.Change.{Change};
ghost use Rattle.resource_lock.specs.declared.ids.WorkerId.{WorkerId};
ghost use Rattle.lock_transforms.specs.declared.entries.Kind.{Kind};
ghost use Rattle.lock_transforms.specs.MostChanges.{locks_gained};
ghost use Rattle.lock_transforms.specs.TentativeView.{Worked};
ghost use Rattle.lock_transforms.specs.Entry.{entry};
ghost use Rattle.lock_transforms.specs.Allowed.{Allowed, IsKindOf};
ghost use Rattle.lock_transforms.specs.GoingOn.{WaitsForNews};

use crate::entries::Kind;
use crate::tentatives::Tentative;
use resource_lock::{Graph, LockId, State, WorkerId};

/// How a transform ended.
#[derive(Clone, Copy)]
pub enum Disposition {
    /// Its changes stand, and its entry has them.
    Finished,
    /// Its changes were taken back, and its entry says that it failed.
    Failed,
    /// Its changes were taken back without an entry. It can be run again once the state has changed.
    Retry,
}

/// Changes of one worker that are made together or not at all.
pub trait Transform {
    /// What its entries are for.
    ghost kind_of: { Self → Kind };

    /// At most how many changes it makes: by the graph, the worker and the state before.
    ghost most: { Self → GraphView → WorkerId → StateView → ℕ };

    /// At most how many locks more its worker owns or has parked behind it than before, whatever the graph and the state are.
    ghost more_locks: { Self → ℕ };

    /// Which changes it makes, where it finishes: a fact of the graph, the worker, the state before
    /// and their list.
    ghost makes: { Self → GraphView → WorkerId → StateView → List Change → Type 0 };

    /// Where it may fail: a fact of the graph, the worker and the state before.
    ghost fails_on: { Self → GraphView → WorkerId → StateView → Type 0 };

    /// Where it may ask to be run again: a fact of the graph, the worker and the state before.
    ghost retries_on: { Self → GraphView → WorkerId → StateView → Type 0 };

    /// What its entries are for.
    fn kind(&self) -> Kind
        ensures { result ≡ kind_of self.now };

    /// At most how many changes it makes for a worker in a state of the graph. It takes constant time.
    fn most_changes(&self, graph: &Graph, state: &State, worker: WorkerId) -> u64
        requires belongs { BelongsTo graph.now state.now }
        requires worker_in_range { worker.0 < graph.now.workers }
        ensures { result ≡ most self.now graph.now worker state.now };

    /// At most how many locks more its worker owns or has parked behind it than before, whatever the graph and the state are: where it starts a
    /// task or takes locks by name. Else it is 0. So its caller can make room for them before it takes the state lock.
    fn more_locks(&self) -> usize
        ensures value { result ≡ more_locks self.now }
        ensures enough { (graph : GraphView) (worker : WorkerId) (state : StateView)
            → locks_gained (kind_of self.now) (most self.now graph worker state) ≤ more_locks self.now };

    /// Makes its changes. Those of a transform that doesn't finish are taken back by its caller.
    ///
    /// `own` are the locks that the worker owns, by rising number, where the caller has them at hand. What they name is tested: with other locks,
    /// or none, it makes the same changes, and may look at each lock of the graph for that.
    fn apply(&self, work: &mut Tentative, own: &[LockId]) -> Disposition
        requires fresh { work.old.made ≡ [] }
        requires room { most self.now work.old.graph work.old.worker work.old.state ≤ work.old.room }
        ensures worked { Worked work.old work.new }
        ensures few { length work.new.made ≤ most self.now work.old.graph work.old.worker work.old.state }
        // Where it finishes, the entry of its kind and its changes is allowed in the state before.
        ensures finished { result ≡ Disposition.Finished
            → Allowed work.old.graph work.old.state (entry work.old.worker (kind_of self.now) (Some work.new.made)) }
        ensures makes { result ≡ Disposition.Finished → makes self.now work.old.graph work.old.worker work.old.state work.new.made }
        // It fails only where it says so, and where its failed entry is allowed.
        ensures failed { result ≡ Disposition.Failed
            → fails_on self.now work.old.graph work.old.worker work.old.state × IsKindOf work.old.graph (kind_of self.now) }
        ensures retry { result ≡ Disposition.Retry → retries_on self.now work.old.graph work.old.worker work.old.state }
        // It doesn't finish where it says that it may fail or ask to be run again.
        ensures unfinished { fails_on self.now work.old.graph work.old.worker work.old.state
            ⊎ retries_on self.now work.old.graph work.old.worker work.old.state → result ≢ Disposition.Finished };

    /// Does nothing. Its contract is the law of what a transform may wait for.
    ///
    /// Only entries that give a lock or a lease back or queue or end a mark wake those that wait. So
    /// where it asks to be run again, after any other change of another worker it would ask again, or
    /// fail.
    fn waits_for_news(&self)
        ensures { WaitsForNews (retries_on self.now) (fails_on self.now) };
}
