//! Holds of the state lock: the book is out of its slot meanwhile, and with it all that the lock guards.
ghost use Rattle.std.specs.Prelude.{◌≡◌, [], ◌∷◌, None};
ghost use Rattle.history_views.specs.ShownBooks.{IsTold};
ghost use Rattle.coordination.specs.Kept.{kept};
ghost use Rattle.worker_notes.specs.Offered.{AreTold};
ghost use Rattle.worker_notes.specs.Parts.{IsPartHere};
ghost use Rattle.coordination.specs.Passes.{IsPass};
ghost use Rattle.coordination.specs.Rule.{carried_book};
ghost use Rattle.coordination.specs.Sights.{sight_of};
ghost use Rattle.coordination.specs.Turns.{HasLeft, HasTurned};

use crate::guarded::{Caller, Guarded};
use crate::keepers::{Kept, Runner};
use crate::passes::{Notes, Pass, seat_of};
use crate::rule::SeatView;
use crate::slots::Slot;
use crate::turns::{Came, Turn};
use atomic_table::Seat;
use std::sync::Wait;
use worker_notes::{Offers, Wakes};

impl<O: Offers, K: Runner> Slot<Guarded<O, K>> {
    /// Has a worker's turn in a hold of the state lock. It tells whom that wakes, and whom what comes behind a transform.
    #[inline]
    pub(crate) fn hold<T: Turn, R: Wait>(
        &self,
        rt: &R,
        pass: &mut Pass,
        woken: bool,
        apart: bool,
        turn: &T,
    ) -> (Came<T::Outcome>, Wakes, Wakes)
        requires { pass.old.service.table ≡ self.now.table.shared.table_id }
        ensures same { pass.new.service ≡ pass.old.service }
        ensures turned { HasTurned (T.gives turn.now (AreTold O.tells)) (T.waits_on turn.now (AreTold O.tells))
            (T.runs turn.now (AreTold O.tells)) pass.old.sight pass.new.sight result.0 }
    {
        let mut seat = seat_of(&mut pass.badge);
        let caller = Caller {
            worker: pass.worker,
            behind: pass.behind,
            woken,
            apart,
            sleeps: true,
        };
        let ended = self.hold_at(rt, &mut seat, caller, &mut pass.notes, turn);
        pass.badge = seat.into_badge();
        ended
    }

    // `hold` at the seat of the pass.
    #[inline]
    fn hold_at<T: Turn, R: Wait>(
        &self,
        rt: &R,
        seat: &mut Seat<Kept<Guarded<O, K>>, SeatView>,
        caller: Caller,
        notes: &mut Notes,
        turn: &T,
    ) -> (Came<T::Outcome>, Wakes, Wakes)
        requires id { seat.old.table_id ≡ self.now.table.shared.table_id }
        requires pass { IsPass caller.worker notes.old seat.old.me }
        ensures same { (seat.new.table_id ≡ seat.old.table_id) × (seat.new.me.0.ledger ≡ seat.old.me.0.ledger) }
        ensures pass { IsPass caller.worker notes.new seat.new.me }
        ensures stop { ((sight_of seat.new.me.0).stopped ≡ (sight_of seat.old.me.0).stopped)
            × ((sight_of seat.new.me.0).stopped_by ≡ (sight_of seat.old.me.0).stopped_by) }
        ensures turned { HasTurned (T.gives turn.now (AreTold O.tells)) (T.waits_on turn.now (AreTold O.tells))
            (T.runs turn.now (AreTold O.tells)) (sight_of seat.old.me.0) (sight_of seat.new.me.0) result.0 }
    {
        self.take(rt, seat, turn);
        let ended = self.act_held(seat, caller, notes, turn);
        self.let_go(seat);
        ended
    }

    // Has the turn at the book that the seat holds.
    #[inline]
    fn act_held<T: Turn>(
        &self,
        seat: &mut Seat<Kept<Guarded<O, K>>, SeatView>,
        caller: Caller,
        notes: &mut Notes,
        turn: &T,
    ) -> (Came<T::Outcome>, Wakes, Wakes)
        requires id { seat.old.table_id ≡ self.now.table.shared.table_id }
        requires held { seat.old.me.1 ≡ (0, kept (carried_book seat.old.me.1) seat.old.me.0.ledger) ∷ [] }
        requires part { IsPartHere caller.worker (carried_book seat.old.me.1) notes.old.part }
        requires told { seat.old.me.0.ledger ≡ None → notes.old.reach ≡ None }
        ensures same { (seat.new.table_id ≡ seat.old.table_id) × (seat.new.id ≡ seat.old.id) × (seat.new.me.0 ≡ seat.old.me.0) }
        ensures held { seat.new.me.1 ≡ (0, kept (carried_book seat.new.me.1) seat.old.me.0.ledger) ∷ [] }
        ensures told { IsTold seat.old.me.0.ledger notes.new.reach (carried_book seat.new.me.1) }
        ensures left { HasLeft (T.gives turn.now (AreTold O.tells)) (T.waits_on turn.now (AreTold O.tells))
            (T.runs turn.now (AreTold O.tells)) caller.worker (carried_book seat.old.me.1) (carried_book seat.new.me.1) notes.new.part result.0 }
    {
        let kept = seat.slot_mut(&self.table.shared, 0);
        turn.act(&mut kept.keeper, caller, notes)
    }
}
