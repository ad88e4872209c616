//! The history of a service, taken while it runs.
ghost use Rattle.std.specs.Prelude.{◌≡◌, [], ◌∷◌, IfNone, IfSome, None, false, true};
ghost use Rattle.lock_journal.specs.Giving.{CanGive, GivesTo};
ghost use Rattle.history_views.specs.ShownBooks.{IsTold};
ghost use Rattle.coordination.specs.Giving.{HasTakenHistory, HasTakenNone};
ghost use Rattle.coordination.specs.Kept.{kept};
ghost use Rattle.coordination.specs.Passes.{IsPass};
ghost use Rattle.coordination.specs.Rule.{carried_book};
ghost use Rattle.coordination.specs.Sights.{sight_of};

use crate::guarded::Guarded;
use crate::keepers::{Giver, Kept};
use crate::passes::{Notes, Pass, seat_of};
use crate::rule::SeatView;
use crate::services::Coordination;
use crate::slots::Slot;
use atomic_table::Seat;
use history_views::Reach;
use lock_journal::Segment;
use std::sync::Wait;
use worker_notes::Offers;

impl<O: Offers, K: Giver> Coordination<O, K> {
    /// Takes the history so far: gets the state lock and moves the entries that the book keeps into the segment, which has none. It takes
    /// constant time there and no memory. The service goes on from the state as it is, and the entries can be read, written or dropped
    /// without the lock.
    ///
    /// The segment says how many entries came before its own, so segments of one service can be put in order, and nothing of the history
    /// is in two of them. False says that nothing was taken: the segment has entries, or was opened for another number of units, or the
    /// history has more than 2^62 entries.
    pub fn take_history<R: Wait>(&self, rt: &R, pass: &mut Pass, segment: &mut Segment) -> bool
        requires { pass.old.service ≡ self.now.service }
        ensures service { pass.new.service ≡ pass.old.service }
        ensures worker { pass.new.sight.worker ≡ pass.old.sight.worker }
        ensures taken { result ≡ true → HasTakenHistory pass.old.sight pass.new.sight segment.old segment.new }
        ensures none { result ≡ false → HasTakenNone pass.old.sight pass.new.sight segment.old segment.new }
    {
        let mut seat = seat_of(&mut pass.badge);
        let taken = self
            .slot
            .take_history_at(rt, &mut seat, &mut pass.notes, segment);
        pass.badge = seat.into_badge();
        taken
    }
}

impl<O: Offers, K: Giver> Slot<Guarded<O, K>> {
    // Takes the history in a hold of the state lock, at the seat of a pass.
    fn take_history_at<R: Wait>(
        &self,
        rt: &R,
        seat: &mut Seat<Kept<Guarded<O, K>>, SeatView>,
        notes: &mut Notes,
        segment: &mut Segment,
    ) -> bool
        requires id { seat.old.table_id ≡ self.now.table.shared.table_id }
        requires pass { IsPass (sight_of seat.old.me.0).worker notes.old seat.old.me }
        ensures same { (seat.new.table_id ≡ seat.old.table_id) × (seat.new.me.0.ledger ≡ seat.old.me.0.ledger) }
        ensures pass { IsPass (sight_of seat.old.me.0).worker notes.new seat.new.me }
        ensures stop { ((sight_of seat.new.me.0).stopped ≡ (sight_of seat.old.me.0).stopped)
            × ((sight_of seat.new.me.0).stopped_by ≡ (sight_of seat.old.me.0).stopped_by) }
        ensures worker { (sight_of seat.new.me.0).worker ≡ (sight_of seat.old.me.0).worker }
        ensures taken { result ≡ true → HasTakenHistory (sight_of seat.old.me.0) (sight_of seat.new.me.0) segment.old segment.new }
        ensures none { result ≡ false → HasTakenNone (sight_of seat.old.me.0) (sight_of seat.new.me.0) segment.old segment.new }
    {
        self.take(rt, seat, segment);
        let taken = self.give_held(seat, &mut notes.reach, segment);
        self.let_go(seat);
        taken
    }
}

impl<K: Giver> Slot<K> {
    /// Takes the history once (`Coordination::take_history`). None says that another pass has the book at this moment: then nothing has
    /// changed, and the call can be made again at once. It wakes nobody: there is no entry.
    pub fn attempt_history(&self, pass: &mut Pass, segment: &mut Segment) -> Option<bool>
        requires { pass.old.service.table ≡ self.now.table.shared.table_id }
        ensures same { pass.new.service ≡ pass.old.service }
        ensures busy { IfNone result ((pass.new.sight ≡ pass.old.sight) × (segment.new ≡ segment.old)) }
        ensures taken { IfSome result (λ r. r ≡ true → HasTakenHistory pass.old.sight pass.new.sight segment.old segment.new) }
        ensures none { IfSome result (λ r. r ≡ false → HasTakenNone pass.old.sight pass.new.sight segment.old segment.new) }
    {
        let mut seat = seat_of(&mut pass.badge);
        let taken = self.attempt_history_at(&mut seat, &mut pass.notes, segment);
        pass.badge = seat.into_badge();
        taken
    }

    // `attempt_history` at the seat of the pass.
    fn attempt_history_at(
        &self,
        seat: &mut Seat<Kept<K>, SeatView>,
        notes: &mut Notes,
        segment: &mut Segment,
    ) -> Option<bool>
        requires id { seat.old.table_id ≡ self.now.table.shared.table_id }
        requires pass { IsPass (sight_of seat.old.me.0).worker notes.old seat.old.me }
        ensures same { (seat.new.table_id ≡ seat.old.table_id) × (seat.new.me.0.ledger ≡ seat.old.me.0.ledger) }
        ensures pass { IsPass (sight_of seat.old.me.0).worker notes.new seat.new.me }
        ensures stop { ((sight_of seat.new.me.0).stopped ≡ (sight_of seat.old.me.0).stopped)
            × ((sight_of seat.new.me.0).stopped_by ≡ (sight_of seat.old.me.0).stopped_by) }
        ensures busy { IfNone result ((seat.new.me ≡ seat.old.me) × (segment.new ≡ segment.old)) }
        ensures taken { IfSome result (λ r. r ≡ true
            → HasTakenHistory (sight_of seat.old.me.0) (sight_of seat.new.me.0) segment.old segment.new) }
        ensures none { IfSome result (λ r. r ≡ false
            → HasTakenNone (sight_of seat.old.me.0) (sight_of seat.new.me.0) segment.old segment.new) }
    {
        if !self.try_take(seat) {
            return None;
        }
        let taken = self.give_held(seat, &mut notes.reach, segment);
        self.put_back(seat);
        Some(taken)
    }

    // Has the book that the seat holds give its entries to the segment.
    fn give_held(
        &self,
        seat: &mut Seat<Kept<K>, SeatView>,
        reach: &mut Option<Reach>,
        segment: &mut Segment,
    ) -> bool
        requires id { seat.old.table_id ≡ self.now.table.shared.table_id }
        requires held { seat.old.me.1 ≡ (0, kept (carried_book seat.old.me.1) seat.old.me.0.ledger) ∷ [] }
        requires told { seat.old.me.0.ledger ≡ None → reach.old ≡ None }
        ensures same { (seat.new.table_id ≡ seat.old.table_id) × (seat.new.id ≡ seat.old.id) × (seat.new.me.0 ≡ seat.old.me.0) }
        ensures held { seat.new.me.1 ≡ (0, kept (carried_book seat.new.me.1) seat.old.me.0.ledger) ∷ [] }
        ensures told { IsTold seat.old.me.0.ledger reach.new (carried_book seat.new.me.1) }
        ensures given { result ≡ true → GivesTo (carried_book seat.old.me.1) (carried_book seat.new.me.1) segment.old segment.new }
        ensures can { result ≡ true → CanGive (carried_book seat.old.me.1) segment.old }
        ensures not { result ≡ false → (carried_book seat.new.me.1 ≡ carried_book seat.old.me.1) × (segment.new ≡ segment.old) }
        ensures why { result ≡ false → CanGive (carried_book seat.old.me.1) segment.old → ⊥ }
    {
        let kept = seat.slot_mut(&self.table.shared, 0);
        let given = kept.keeper.give(segment);
        kept.keeper.tell(reach);
        given
    }
}
