//! A state under change by one worker.
ghost use Rattle.std.specs.Prelude.{◌≡◌, ◌<◌, ◌≤◌, ◌≢◌, ◌+◌, ◌⊎◌, [], IsTrue, length, true, false, Some, OnOk, OnErr, IfOk};
ghost use Rattle.resource_lock.specs.Change.{can, make_all, NamesOnly};
ghost use Rattle.resource_lock.specs.Fits.{Fits};
ghost use Rattle.resource_lock.specs.Good.{Good};
ghost use Rattle.resource_lock.specs.Leading.{CameFrom};
ghost use Rattle.resource_lock.specs.Opening.{opening_of};
ghost use Rattle.resource_lock.specs.Shape.{BelongsTo};
ghost use Rattle.resource_lock.specs.StateView.{StateView, IsLockOf, holding_of, has_parked};
ghost use Rattle.resource_lock.specs.Trying.{can_own, can_lease};
ghost use Rattle.lock_transforms.specs.Allowed.{Allowed, IsKindOf};
ghost use Rattle.lock_transforms.specs.MostChanges.{IsRoomFor};
ghost use Rattle.lock_transforms.specs.TentativeView.{SameTentative, noted, recalled, settled, taken_back, with_lease, with_lock, with_state};
ghost use Rattle.lock_transforms.specs.TentativeView.{without_lease, without_lock};
ghost use Rattle.lock_transforms.specs.Entry.{entry};

use crate::entries::Kind;
use crate::kinds::admitting::make_given;
use crate::transforms::{Disposition, Transform};
use resource_lock::{Change, Graph, LockId, State, WorkerId};
use std::alloc::{AllocError, Global};
use std::marker::Model;

/// A state under change by one worker, with the list of changes made so far. A transform makes its
/// changes here, and no call that it can make takes memory.
#[derive(Drop)]
pub struct Tentative {
    graph: Graph,
    state: State,
    worker: WorkerId,
    made: Vec<Change>,
}

impl Model for Tentative {
    ghost use Rattle.lock_transforms.specs.TentativeView.{TentativeView, IsSoundTentative};

    ghost Value = { TentativeView };

    ghost use Rattle.lock_transforms.specs.Tentative.{tentative_view, IsSound};

    ghost view = { tentative_view };

    ghost invariant = { IsSound };
}

impl Tentative {
    /// The worker that makes the changes.
    pub fn worker(&self) -> WorkerId
        ensures value { result ≡ self.now.worker }
        ensures in_range { result.0 < self.now.graph.workers }
    {
        self.worker
    }

    /// The state as it is now.
    pub fn state(&self) -> &State
        ensures value { result.now ≡ self.now.state }
        ensures belongs { BelongsTo self.now.graph self.now.state }
        ensures good { Good self.now.state }
    {
        &self.state
    }

    /// The graph of the state.
    pub fn graph(&self) -> &Graph
        ensures value { result.now ≡ self.now.graph }
        ensures fits { Fits self.now.graph }
        ensures belongs { BelongsTo self.now.graph self.now.state }
    {
        &self.graph
    }

    /// The changes made so far, in order.
    pub fn made(&self) -> &[Change]
        ensures { result.now ≡ self.now.made }
    {
        &self.made
    }

    /// How many more changes there is room for.
    pub fn room(&self) -> u64
        ensures { result ≡ self.now.room }
    {
        (self.made.capacity() - self.made.len()) as u64
    }

    /// How many changes there is room for, together with those noted.
    pub fn capacity(&self) -> u64
        ensures { result ≡ self.now.room + length self.now.made }
    {
        self.made.capacity() as u64
    }

    /// Makes a change, and notes it.
    #[inline(always)]
    pub fn change(&mut self, change: Change)
        requires named { NamesOnly self.old.state change }
        requires possible { IsTrue (can self.old.state self.old.worker change) }
        requires room { 0 < self.old.room }
        ensures { self.new ≡ noted self.old change }
    {
        self.state.make(self.worker, change);
        self.made.push_reserved(change);
    }

    /// Takes a lock, and answers whether the worker owns it now. Where another worker owns one that
    /// conflicts with it, nothing changes.
    pub fn lock(&mut self, lock: LockId) -> bool
        requires lock_in_range { IsLockOf self.old.state lock }
        requires not_parked { has_parked self.old.state self.old.worker lock ≡ false }
        requires room { 0 < self.old.room }
        ensures answer { result ≡ can_own self.old.state self.old.worker lock }
        ensures taken { self.new ≡ with_lock self.old lock }
        ensures good { Good self.old.state }
    {
        let was_free = self.state.owner(lock).is_none();
        let owns = self.state.try_lock(self.worker, lock);
        if owns && was_free {
            self.made.push_reserved(Change::Lock(lock));
        }
        owns
    }

    /// Takes a lease, and answers whether the worker has one now. Where it has none and as many as
    /// may be are out, nothing changes.
    pub fn lease(&mut self) -> bool
        requires not_blocked { (holding_of self.old.state self.old.worker).blocked ≡ false }
        requires room { 0 < self.old.room }
        ensures answer { result ≡ can_lease self.old.state self.old.worker }
        ensures leased { result ≡ true → (holding_of self.new.state self.new.worker).lease ≡ true }
        ensures taken { self.new ≡ with_lease self.old }
    {
        let had_lease = self.state.has_lease(self.worker);
        let has_lease = self.state.try_lease(self.worker);
        if has_lease && !had_lease {
            self.made.push_reserved(Change::Take);
        }
        has_lease
    }

    /// Gives a lock back, where the worker owns it.
    pub fn unlock(&mut self, lock: LockId)
        requires lock_in_range { IsLockOf self.old.state lock }
        requires room { 0 < self.old.room }
        ensures { self.new ≡ without_lock self.old lock }
    {
        if self.state.owner(lock) == Some(self.worker) {
            self.change(Change::Unlock(lock));
        }
    }

    /// Gives the lease back, where the worker has one.
    pub fn give(&mut self)
        requires room { 0 < self.old.room }
        ensures { self.new ≡ without_lease self.old }
    {
        if self.state.has_lease(self.worker) {
            self.change(Change::Give);
        }
    }

    /// The state that a run of the graph begins in, with room for so many changes. It takes a word for each unit too, by which
    /// the unit's action is found.
    pub fn opening(alloc: Global, mut graph: Graph, changes: usize) -> Result<Tentative, AllocError>
        ensures graph { IfOk result (λ tentative. tentative.graph ≡ graph) }
        ensures state { IfOk result (λ tentative. tentative.state ≡ opening_of graph) }
        ensures made { IfOk result (λ tentative. tentative.made ≡ []) }
        ensures room { IfOk result (λ tentative. changes ≤ tentative.room) }
    {
        graph.note_unit_actions(alloc)?;
        let made = Vec::with_capacity(alloc, changes)?;
        let state = State::opening(alloc, &graph)?;
        Ok(Tentative {
            graph,
            state,
            worker: WorkerId(0),
            made,
        })
    }

    /// Makes room for so many more changes. It fails only where there isn't room for them yet.
    pub fn reserve(&mut self, changes: usize) -> Result<(), AllocError>
        ensures same { SameTentative self.old self.new }
        ensures ok { OnOk result (changes ≤ self.new.room) }
        ensures full { OnErr result (self.old.room < changes) }
    {
        self.made.try_reserve(changes)
    }

    /// Applies a transform for a worker, and takes its changes back unless it finished. The changes noted before are forgotten first.
    /// `own` may name the worker's locks (`Transform::apply`).
    pub fn attempt<T: Transform>(
        &mut self,
        worker: WorkerId,
        own: &[LockId],
        transform: &T,
    ) -> Disposition
        requires worker_in_range { worker.0 < self.old.graph.workers }
        requires room { T.most transform.now self.old.graph worker self.old.state ≤ self.old.room + length self.old.made }
        ensures graph { self.new.graph ≡ self.old.graph }
        ensures room { self.new.room + length self.new.made ≡ self.old.room + length self.old.made }
        ensures few { length self.new.made ≤ T.most transform.now self.old.graph worker self.old.state }
        ensures made { result ≡ Disposition.Finished
            → self.new.state ≡ make_all self.old.state worker self.new.made }
        ensures allowed { result ≡ Disposition.Finished
            → Allowed self.old.graph self.old.state (entry worker (T.kind_of transform.now) (Some self.new.made)) }
        ensures makes { result ≡ Disposition.Finished
            → T.makes transform.now self.old.graph worker self.old.state self.new.made }
        ensures fresh { result ≢ Disposition.Finished → self.new.made ≡ [] }
        ensures undone { result ≢ Disposition.Finished → self.new.state ≡ self.old.state }
        ensures failed { result ≡ Disposition.Failed
            → T.fails_on transform.now self.old.graph worker self.old.state }
        ensures kind { result ≡ Disposition.Failed → IsKindOf self.old.graph (T.kind_of transform.now) }
        ensures retry { result ≡ Disposition.Retry
            → T.retries_on transform.now self.old.graph worker self.old.state }
    {
        self.worker = worker;
        self.made.clear();
        let disposition = transform.apply(self, own);
        match disposition {
            Disposition::Finished => {}
            Disposition::Failed | Disposition::Retry => self.undo(),
        }
        disposition
    }

    /// Makes the changes of an entry, where it is allowed with them, and answers whether it is. They
    /// are taken back where it isn't, and unless `keep` says that they stay. The changes noted before are forgotten first.
    pub fn admit(&mut self, worker: WorkerId, kind: Kind, changes: &[Change], keep: bool) -> bool
        requires worker_in_range { worker.0 < self.old.graph.workers }
        requires room { IsRoomFor self.old.graph (self.old.room + length self.old.made) }
        ensures graph { self.new.graph ≡ self.old.graph }
        ensures room { self.new.room + length self.new.made ≡ self.old.room + length self.old.made }
        ensures allowed { result ≡ true → Allowed self.old.graph self.old.state (entry worker kind (Some changes.now)) }
        ensures refused { result ≡ false → ¬ Allowed self.old.graph self.old.state (entry worker kind (Some changes.now)) }
        ensures made { result ≡ true → keep ≡ true → self.new.made ≡ changes.now }
        ensures state { result ≡ true → keep ≡ true → self.new.state ≡ make_all self.old.state worker changes.now }
        ensures fresh { result ≡ false ⊎ keep ≡ false → self.new.made ≡ [] }
        ensures undone { result ≡ false ⊎ keep ≡ false → self.new.state ≡ self.old.state }
    {
        self.worker = worker;
        self.made.clear();
        let allowed = make_given(self, kind, changes);
        if !allowed || !keep {
            self.undo();
        }
        allowed
    }

    /// Forgets the changes made, which are then final.
    pub fn settle(&mut self)
        ensures { self.new ≡ settled self.old }
    {
        self.made.clear();
    }

    /// Notes a change that was made earlier, behind those noted so far. It isn't made again.
    pub fn recall(&mut self, change: Change)
        requires { 0 < self.old.room }
        ensures { self.new ≡ recalled self.old change }
    {
        self.made.push_reserved(change);
    }

    /// Takes back the changes noted, which a worker made earlier and that led to this state, where no others were made since. They
    /// stay noted. It takes no memory.
    pub fn take_back(&mut self, worker: WorkerId)
        requires { (before : StateView) × CameFrom before self.old.state worker self.old.made }
        ensures { (before : StateView) → CameFrom before self.old.state worker self.old.made → self.new ≡ with_state self.old before }
    {
        self.state.take_back(worker, &self.made);
    }

    // Takes back the changes made, from the last to the first.
    fn undo(&mut self)
        requires { (before : StateView) × CameFrom before self.old.state self.old.worker self.old.made }
        ensures { (before : StateView) → CameFrom before self.old.state self.old.worker self.old.made
            → self.new ≡ taken_back before self.old }
    {
        self.state.take_back(self.worker, &self.made);
        self.made.clear();
    }
}
