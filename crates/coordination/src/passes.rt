//! A worker's pass: what it has, and what it has seen of the book.
ghost use Rattle.std.specs.Prelude.{◌≡◌, ◌∷◌, [], Some};
ghost use Rattle.history_views.specs.Growing.{Exceeds, IsLater, last_book};
ghost use Rattle.worker_notes.specs.WorkerEntries.{last_of};
ghost use Rattle.coordination.specs.Passes.{me_in, view_in};
ghost use Rattle.coordination.specs.Shown.{blocked_shown, claimed_shown, lease_shown, locks_shown, parked_shown};

use crate::keepers::{Keeper, Kept};
use crate::rule::SeatView;
use atomic_table::{Badge, Seat};
use history_views::{Reach, View};
use resource_lock::{LockId, MarkId, WorkerId};
use std::marker::Model;
use std::mem;
use worker_notes::{Then, WorkerPart};

/// What a pass keeps of the book that its worker last let go of.
pub struct Notes {
    /// The worker's part of it.
    pub part: WorkerPart,
    /// How far its history had come, where views are shown it.
    pub reach: Option<Reach>,
}

// By hand, so that crates that let one go call this, in place of proving what it does anew.
impl Drop for Notes {
    fn drop(self) {
        let Notes { part: _, reach: _ } = self;
    }
}

/// A worker's part of a service. What it shows agrees with the book whenever the state is locked.
#[derive(Drop)]
pub struct Pass {
    pub(crate) worker: WorkerId,
    pub(crate) notes: Notes,
    pub(crate) stopped: bool,
    pub(crate) stopped_by: Option<WorkerId>,
    // What the worker does behind a hold of the state lock.
    pub(crate) behind: Then,
    pub(crate) badge: Badge<SeatView>,
}

impl Model for Pass {
    ghost use Rattle.std.specs.Prelude.{◌≡◌, ◌∷◌, []};
    ghost use Rattle.coordination.specs.Sights.{sight_of};
    ghost use Rattle.coordination.specs.Passes.{PassView, IsPass, me_in, view_in};

    ghost Value = { PassView };

    ghost view = { λ p. record {
      service = record { table = p.badge.table_id; ledger = (view_in p.badge.views).ledger };
      sight = sight_of (view_in p.badge.views);
    } };

    ghost invariant = { λ p. IsPass p.worker p.notes (me_in p.badge.views) × (p.stopped ≡ (sight_of (view_in p.badge.views)).stopped)
        × (p.stopped_by ≡ (sight_of (view_in p.badge.views)).stopped_by) × (p.badge.views ≡ view_in p.badge.views ∷ []) };
}

impl Pass {
    /// Promises that the worker comes to the state lock again at once after each call but a claim and the entry of a blocking
    /// section: it neither works nor waits before. While it comes, nobody else is woken for work.
    ///
    /// Without the promise each call leaves a worker away, and the others don't count on it. Who breaks the promise keeps
    /// others asleep that could go on, until all tasks have ended.
    pub fn promise_to_come_again(&mut self)
        ensures { self.new ≡ self.old }
    {
        self.behind = Then::Looks;
    }

    /// Promises that the worker comes again at once behind a skip, queued items, the beginning of a wait for them and the end of a task:
    /// it neither works nor waits before. Behind all else it goes back to its caller, and the others don't count on it.
    pub fn promise_to_come_again_without_work(&mut self)
        ensures { self.new ≡ self.old }
    {
        self.behind = Then::Works;
    }

    // Makes room for so many locks more, owned or parked, before the state lock is taken. Where there is no memory for it, the transform that
    // needs it isn't run.
    #[inline]
    pub(crate) fn make_room(&mut self, more: usize)
        ensures { self.new ≡ self.old }
    {
        if !self.notes.part.has_room_for(more) {
            let _ = self.notes.part.reserve(more);
        }
    }

    /// The worker.
    pub fn worker(&self) -> WorkerId
        ensures { result ≡ self.now.sight.worker }
    {
        self.worker
    }

    /// The locks that the worker owns, by rising number.
    pub fn locks(&self) -> &[LockId]
        ensures { result.now ≡ locks_shown self.now.sight }
    {
        &self.notes.part.locks
    }

    /// Whether the worker has a lease.
    pub fn has_lease(&self) -> bool
        ensures { result ≡ lease_shown self.now.sight }
    {
        self.notes.part.lease
    }

    /// The marks that are Running by the worker: first of tasks, then of actions, then of units, each
    /// by rising number.
    pub fn claimed(&self) -> &[MarkId]
        ensures { result.now ≡ claimed_shown self.now.sight }
    {
        &self.notes.part.claimed
    }

    /// The locks that the worker has parked, the last parked last.
    pub fn parked(&self) -> &[LockId]
        ensures { result.now ≡ parked_shown self.now.sight }
    {
        &self.notes.part.parked
    }

    /// Whether the worker is in a blocking section.
    pub fn blocked(&self) -> bool
        ensures { result ≡ blocked_shown self.now.sight }
    {
        self.notes.part.blocked
    }

    /// The number of the worker's last entry, counted from 1 on, or 0.
    pub fn last(&self) -> u64
        ensures { result ≡ last_of self.now.sight.worker self.now.sight.seen.history }
    {
        self.notes.part.last
    }

    /// Whether the worker has stopped the service.
    pub fn stopped(&self) -> bool
        ensures { result ≡ self.now.sight.stopped }
    {
        self.stopped
    }

    /// The worker that has stopped the service, once this one heard of it.
    pub fn stopped_by(&self) -> Option<WorkerId>
        ensures { result ≡ self.now.sight.stopped_by }
    {
        self.stopped_by
    }

    /// Has a view of the service learn what this pass was told when the worker's last call let go of the book. From now on the
    /// view shows no less. The pass stays as it is, so other views may learn the same from it.
    pub fn teach(&self, view: &mut View)
        requires { self.now.service.ledger ≡ Some view.old.ledger }
        ensures ledger { view.new.ledger ≡ view.old.ledger }
        ensures grows { Exceeds view.old view.new }
        ensures learnt { IsLater self.now.sight.seen (last_book view.new.log) }
    {
        match &self.notes.reach {
            Some(reach) => view.learn(reach),
            None => unreachable!(),
        }
    }
}

// The seat that a badge stands for. The badge is left as none.
#[inline]
pub(crate) fn seat_of<K: Keeper>(badge: &mut Badge<SeatView>) -> Seat<Kept<K>, SeatView>
    requires { badge.old.views ≡ view_in badge.old.views ∷ [] }
    ensures table { result.table_id ≡ badge.old.table_id }
    ensures view { result.me ≡ me_in badge.old.views }
{
    mem::replace(badge, Badge::blank()).into_seat()
}
