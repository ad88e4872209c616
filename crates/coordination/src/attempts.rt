//! One try under the lock, and the stop mark. Nothing here waits.
ghost use Rattle.std.specs.Prelude.{◌≡◌, ◌<◌, IfNone, IfSome, false, true};
ghost use Rattle.coordination.specs.Attempts.{Asked, Attempted};
ghost use Rattle.coordination.specs.Calls.{HasStopped};
ghost use Rattle.worker_notes.specs.Offered.{AnswersWith, WaitsWith};
ghost use Rattle.worker_notes.specs.SleepAndWake.{EndsHold, has_entered, stance_after, stance_asking};
ghost use Rattle.coordination.specs.Passes.{IsPass};
ghost use Rattle.coordination.specs.Sights.{hearing, sight_of};
ghost use Rattle.coordination.specs.Stops.{KnowsNoStop};

use crate::halts::Halt;
use crate::keepers::{Keeper, Kept, Runner};
use crate::passes::{Notes, Pass, seat_of};
use crate::questions::Question;
use crate::rule::SeatView;
use crate::slots::Slot;
use atomic_table::Seat;
use lock_transforms::{Disposition, Transform};
use resource_lock::WorkerId;
use std::alloc::AllocError;
use worker_notes::{Sleepers, Wakes};

impl<K: Runner> Slot<K> {
    /// Runs the transform once, and tells whom its entry wakes of those that sleep. None says that another pass has the
    /// book at this moment: then nothing has changed, and the call can be made again at once.
    pub fn attempt<T: Transform>(
        &self,
        pass: &mut Pass,
        transform: &T,
        sleepers: &mut Sleepers,
    ) -> Option<(Result<Disposition, AllocError>, Wakes)>
        requires { pass.old.service.table ≡ self.now.table.shared.table_id }
        ensures same { pass.new.service ≡ pass.old.service }
        ensures none { IfNone result ((pass.new.sight ≡ pass.old.sight) × (sleepers.new ≡ sleepers.old)) }
        ensures some { IfSome result (λ r. Attempted (T.kind_of transform.now) (T.makes transform.now) (T.fails_on transform.now)
            (T.retries_on transform.now) pass.old.sight pass.new.sight r.0) }
        ensures ends { IfSome result (λ r. EndsHold pass.new.sight.seen pass.new.sight.worker
            (stance_after sleepers.old.behind (T.kind_of transform.now) r.0) (has_entered r.0) sleepers.old sleepers.new r.1) }
    {
        pass.make_room(transform.more_locks());
        let mut seat = seat_of(&mut pass.badge);
        let ended = self.attempt_at(&mut seat, pass.worker, &mut pass.notes, transform, sleepers);
        pass.badge = seat.into_badge();
        ended
    }

    // `attempt` at the seat of the pass.
    #[inline]
    fn attempt_at<T: Transform>(
        &self,
        seat: &mut Seat<Kept<K>, SeatView>,
        worker: WorkerId,
        notes: &mut Notes,
        transform: &T,
        sleepers: &mut Sleepers,
    ) -> Option<(Result<Disposition, AllocError>, Wakes)>
        requires id { seat.old.table_id ≡ self.now.table.shared.table_id }
        requires pass { IsPass worker notes.old seat.old.me }
        ensures same { (seat.new.table_id ≡ seat.old.table_id) × (seat.new.me.0.ledger ≡ seat.old.me.0.ledger) }
        ensures pass { IsPass worker notes.new seat.new.me }
        ensures stop { ((sight_of seat.new.me.0).stopped ≡ (sight_of seat.old.me.0).stopped)
            × ((sight_of seat.new.me.0).stopped_by ≡ (sight_of seat.old.me.0).stopped_by) }
        ensures none { IfNone result ((seat.new.me ≡ seat.old.me) × (sleepers.new ≡ sleepers.old)) }
        ensures some { IfSome result (λ r. Attempted (T.kind_of transform.now) (T.makes transform.now) (T.fails_on transform.now)
            (T.retries_on transform.now) (sight_of seat.old.me.0) (sight_of seat.new.me.0) r.0) }
        ensures ends { IfSome result (λ r. EndsHold (sight_of seat.new.me.0).seen (sight_of seat.new.me.0).worker
            (stance_after sleepers.old.behind (T.kind_of transform.now) r.0) (has_entered r.0) sleepers.old sleepers.new r.1) }
    {
        if !self.try_take(seat) {
            return None;
        }
        let (ran, wakes) = self.run(seat, worker, notes, transform, sleepers);
        self.put_back(seat);
        Some((ran, wakes))
    }
}

impl<K: Keeper> Slot<K> {
    /// Asks the question once, and tells whom that wakes. None says that another pass has the book at this moment.
    pub fn attempt_ask<Q: Question>(
        &self,
        pass: &mut Pass,
        question: &Q,
        sleepers: &mut Sleepers,
    ) -> Option<(Option<Q::Answer>, Wakes)>
        requires { pass.old.service.table ≡ self.now.table.shared.table_id }
        ensures same { pass.new.service ≡ pass.old.service }
        ensures none { IfNone result ((pass.new.sight ≡ pass.old.sight) × (sleepers.new ≡ sleepers.old)) }
        ensures some { IfSome result (λ r. Asked (AnswersWith sleepers.old.queued (Q.answers question.now))
            (WaitsWith sleepers.old.queued (Q.waits_on question.now)) pass.old.sight pass.new.sight r.0) }
        ensures ends { IfSome result (λ r. EndsHold pass.new.sight.seen pass.new.sight.worker
            (stance_asking sleepers.old.behind (Q.awaits question.now) r.0) false sleepers.old sleepers.new r.1) }
    {
        let mut seat = seat_of(&mut pass.badge);
        let asked = self.ask_at(&mut seat, pass.worker, &mut pass.notes, question, sleepers);
        pass.badge = seat.into_badge();
        asked
    }

    // `attempt_ask` at the seat of the pass.
    #[inline]
    fn ask_at<Q: Question>(
        &self,
        seat: &mut Seat<Kept<K>, SeatView>,
        worker: WorkerId,
        notes: &mut Notes,
        question: &Q,
        sleepers: &mut Sleepers,
    ) -> Option<(Option<Q::Answer>, Wakes)>
        requires id { seat.old.table_id ≡ self.now.table.shared.table_id }
        requires pass { IsPass worker notes.old seat.old.me }
        ensures same { (seat.new.table_id ≡ seat.old.table_id) × (seat.new.me.0.ledger ≡ seat.old.me.0.ledger) }
        ensures pass { IsPass worker notes.new seat.new.me }
        ensures stop { ((sight_of seat.new.me.0).stopped ≡ (sight_of seat.old.me.0).stopped)
            × ((sight_of seat.new.me.0).stopped_by ≡ (sight_of seat.old.me.0).stopped_by) }
        ensures none { IfNone result ((seat.new.me ≡ seat.old.me) × (sleepers.new ≡ sleepers.old)) }
        ensures some { IfSome result (λ r. Asked (AnswersWith sleepers.old.queued (Q.answers question.now))
            (WaitsWith sleepers.old.queued (Q.waits_on question.now)) (sight_of seat.old.me.0) (sight_of seat.new.me.0) r.0) }
        ensures ends { IfSome result (λ r. EndsHold (sight_of seat.new.me.0).seen (sight_of seat.new.me.0).worker
            (stance_asking sleepers.old.behind (Q.awaits question.now) r.0) false sleepers.old sleepers.new r.1) }
    {
        if !self.try_take(seat) {
            return None;
        }
        let (answer, wakes) = self.ask_book(seat, worker, &mut notes.reach, question, sleepers);
        self.put_back(seat);
        Some((answer, wakes))
    }

    /// Has the pass hear who has stopped the service. None says that nobody has: so it never comes once the pass has stopped
    /// the service, or heard of a stop.
    pub fn hear(&self, pass: &mut Pass) -> Option<WorkerId>
        requires { pass.old.service.table ≡ self.now.table.shared.table_id }
        ensures same { pass.new.service ≡ pass.old.service }
        ensures none { IfNone result (pass.new.sight ≡ pass.old.sight) }
        ensures unheard { IfNone result (KnowsNoStop pass.old.sight) }
        ensures some { IfSome result (λ by. pass.new.sight ≡ hearing pass.old.sight by) }
        ensures stopper { IfSome result (λ by. by.0 < pass.old.sight.seen.graph.workers) }
    {
        let mut seat = seat_of(&mut pass.badge);
        let found = self.marked(&mut seat);
        pass.badge = seat.into_badge();
        let by = found?;
        pass.stopped_by = Some(by);
        Some(by)
    }

    /// Stops the service with this pass. Where it was stopped before, the pass shows by whom.
    pub fn stop(&self, pass: &mut Pass)
        requires { pass.old.service.table ≡ self.now.table.shared.table_id }
        ensures same { pass.new.service ≡ pass.old.service }
        ensures stopped { HasStopped pass.old.sight pass.new.sight }
    {
        let mut seat = seat_of(&mut pass.badge);
        let found = self.mark(&mut seat, pass.worker);
        pass.badge = seat.into_badge();
        match found {
            None => pass.stopped = true,
            Some(by) => pass.stopped_by = Some(by),
        }
    }
}
