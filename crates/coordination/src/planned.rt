//! A book that offers its own queued units to be claimed, in a slot without a state lock. Nothing here waits.
ghost use Rattle.std.specs.Prelude.{◌≡◌, [], ◌∷◌, All, IfNone, IfOk, IfSome, None, map};
ghost use Rattle.resource_lock.specs.AtRest.{IsAtRest};
ghost use Rattle.coordination.specs.Kept.{kept};
ghost use Rattle.worker_notes.specs.Parts.{IsPartHere};
ghost use Rattle.coordination.specs.Passes.{IsPass};
ghost use Rattle.coordination.specs.Planned.{HasEndedTry, HasEndedTryOf, TellsOwn};
ghost use Rattle.history_views.specs.ShownBooks.{IsTold};
ghost use Rattle.coordination.specs.Rule.{carried_book};
ghost use Rattle.coordination.specs.Sights.{sight_of, sights_from, workers_from};
ghost use Rattle.coordination.specs.Turns.{HasLeft, HasTurned};

use crate::boxed_books::BoxedBook;
use crate::guarded::{Caller, Guarded};
use crate::keepers::{Keeper, Kept};
use crate::openings::open_slot;
use crate::passes::{Notes, Pass, seat_of};
use crate::rule::SeatView;
use crate::slots::Slot;
use crate::turns::{Came, Turn};
use atomic_table::Seat;
use history_views::Reach;
use lock_journal::Book;
use std::alloc::{AllocError, Global};
use std::marker::Model;
use worker_notes::{QueuedUnits, Wakes};

/// A book that offers its own queued units to be claimed, with who sleeps. Contracts see the book.
///
/// Between two holds somebody looks, or each worker that sleeps still waits for what it waits for. So nobody sleeps then that could
/// claim a unit, skip or start a task, resume, take up what it has parked, or end.
#[derive(Drop)]
pub struct Planned {
    guarded: Guarded<QueuedUnits, BoxedBook>,
}

impl Model for Planned {
    ghost use Rattle.ready_work.specs.Choices.{has_queued};
    ghost use Rattle.lock_journal.specs.BookView.{BookView};
    ghost use Rattle.worker_notes.specs.SleepAndWake.{AreQuiet};

    ghost Value = { BookView };

    ghost view = { λ p. p.guarded.keeper };

    ghost invariant = { λ p. AreQuiet p.guarded.keeper (has_queued p.guarded.keeper.state) p.guarded.sleepers.stances };
}

impl Planned {
    /// The book, whose index has its queued units from now on, while nobody sleeps. It fails for want of memory alone.
    pub fn new(alloc: Global, mut book: Box<Book>) -> Result<Planned, AllocError>
        ensures { IfOk result (λ planned. planned ≡ book.value) }
    {
        book.keep_queued(alloc)?;
        let guarded = Guarded::new(alloc, BoxedBook { inner: book }, QueuedUnits)?;
        Ok(Planned { guarded })
    }

    /// Has a worker's turn, has its part follow the book, and ends the hold.
    #[inline]
    pub(crate) fn act<T: Turn>(
        &mut self,
        caller: Caller,
        notes: &mut Notes,
        turn: &T,
    ) -> (Came<T::Outcome>, Wakes, Wakes)
        requires part { IsPartHere caller.worker self.old notes.old.part }
        requires untold { notes.old.reach ≡ None }
        ensures untold { notes.new.reach ≡ None }
        ensures left { HasLeft (T.gives turn.now TellsOwn) (T.waits_on turn.now TellsOwn) (T.runs turn.now TellsOwn)
            caller.worker self.old self.new notes.new.part result.0 }
        ensures ends { HasEndedTry caller.worker caller.behind self.old self.new result.1 result.2 }
    {
        turn.act(&mut self.guarded, caller, notes)
    }
}

impl Keeper for Planned {
    ghost book_of = { λ p. p };

    ghost ledger_of = { λ p. None };

    ghost keeps = { λ book. Unit {0} };

    fn book(&self) -> &Book {
        self.guarded.book()
    }

    #[inline]
    fn tell(&self, _: &mut Option<Reach>) {}

    fn into_book(self) -> Box<Book> {
        let Planned { guarded } = self;
        guarded.into_book()
    }
}

impl Slot<Planned> {
    /// A service without its state lock over the book, in which nobody has anything, with a pass for each worker of its graph in order.
    /// Each has seen this book. It fails for want of memory alone.
    pub fn planned(alloc: Global, book: Box<Book>) -> Result<(Slot<Planned>, Vec<Pass>), AllocError>
        requires rest { IsAtRest book.value.state }
        requires whole { book.value.given ≡ 0 }
        ensures book { IfOk result (λ opened. opened.0.table.shared.key.kept.value.book ≡ book.value) }
        ensures passes { IfOk result (λ opened. map (λ p. p.sight) opened.1.items ≡ sights_from 0 book.value.graph.workers book.value) }
        ensures workers { IfOk result (λ opened. map (λ p. p.sight.worker.0) opened.1.items ≡ workers_from 0 book.value.graph.workers) }
        ensures service { IfOk result (λ opened. All (λ p. p.service.table ≡ opened.0.table.shared.table_id) opened.1.items) }
        ensures seen { IfOk result (λ opened. All (λ p. p.sight.seen ≡ book.value) opened.1.items) }
    {
        let planned = Planned::new(alloc, book)?;
        open_slot(alloc, planned, &None)
    }

    /// Tries a worker's turn. None says that another pass has the book at this moment: then nothing has changed, and the call can be
    /// made again at once.
    ///
    /// Else it tells what came of the turn, whom that wakes of those that sleep, and whom the end of what comes behind a transform.
    /// Where the turn is to be had again (`Came::Again`), the worker is noted as asleep if it sleeps then, until what the turn waits for
    /// has come; if it doesn't it is away. Any later turn of the worker takes the note back.
    pub fn attempt_turn<T: Turn>(
        &self,
        pass: &mut Pass,
        sleeps: bool,
        turn: &T,
    ) -> Option<(Came<T::Outcome>, Wakes, Wakes)>
        requires { pass.old.service.table ≡ self.now.table.shared.table_id }
        ensures same { pass.new.service ≡ pass.old.service }
        ensures none { IfNone result (pass.new.sight ≡ pass.old.sight) }
        ensures turned { IfSome result (λ r. HasTurned (T.gives turn.now TellsOwn) (T.waits_on turn.now TellsOwn) (T.runs turn.now TellsOwn)
            pass.old.sight pass.new.sight r.0) }
        ensures ends { IfSome result (λ r. HasEndedTryOf pass.new.sight r.1 r.2) }
    {
        pass.make_room(turn.more_locks());
        let mut seat = seat_of(&mut pass.badge);
        let caller = Caller {
            worker: pass.worker,
            behind: pass.behind,
            woken: false,
            apart: true,
            sleeps,
        };
        let ended = self.attempt_turn_at(&mut seat, caller, &mut pass.notes, turn);
        pass.badge = seat.into_badge();
        ended
    }

    // `attempt_turn` at the seat of the pass.
    #[inline]
    fn attempt_turn_at<T: Turn>(
        &self,
        seat: &mut Seat<Kept<Planned>, SeatView>,
        caller: Caller,
        notes: &mut Notes,
        turn: &T,
    ) -> Option<(Came<T::Outcome>, Wakes, Wakes)>
        requires id { seat.old.table_id ≡ self.now.table.shared.table_id }
        requires pass { IsPass caller.worker notes.old seat.old.me }
        ensures same { (seat.new.table_id ≡ seat.old.table_id) × (seat.new.me.0.ledger ≡ seat.old.me.0.ledger) }
        ensures pass { IsPass caller.worker notes.new seat.new.me }
        ensures stop { ((sight_of seat.new.me.0).stopped ≡ (sight_of seat.old.me.0).stopped)
            × ((sight_of seat.new.me.0).stopped_by ≡ (sight_of seat.old.me.0).stopped_by) }
        ensures none { IfNone result (seat.new.me ≡ seat.old.me) }
        ensures turned { IfSome result (λ r. HasTurned (T.gives turn.now TellsOwn) (T.waits_on turn.now TellsOwn) (T.runs turn.now TellsOwn)
            (sight_of seat.old.me.0) (sight_of seat.new.me.0) r.0) }
        ensures ends { IfSome result (λ r. HasEndedTryOf (sight_of seat.new.me.0) r.1 r.2) }
    {
        if !self.try_take(seat) {
            return None;
        }
        let ended = self.act_planned(seat, caller, notes, turn);
        self.put_back(seat);
        Some(ended)
    }

    // Has the turn at the book that the seat holds.
    #[inline]
    fn act_planned<T: Turn>(
        &self,
        seat: &mut Seat<Kept<Planned>, SeatView>,
        caller: Caller,
        notes: &mut Notes,
        turn: &T,
    ) -> (Came<T::Outcome>, Wakes, Wakes)
        requires id { seat.old.table_id ≡ self.now.table.shared.table_id }
        requires held { seat.old.me.1 ≡ (0, kept (carried_book seat.old.me.1) seat.old.me.0.ledger) ∷ [] }
        requires part { IsPartHere caller.worker (carried_book seat.old.me.1) notes.old.part }
        requires told { seat.old.me.0.ledger ≡ None → notes.old.reach ≡ None }
        ensures same { (seat.new.table_id ≡ seat.old.table_id) × (seat.new.id ≡ seat.old.id) × (seat.new.me.0 ≡ seat.old.me.0) }
        ensures held { seat.new.me.1 ≡ (0, kept (carried_book seat.new.me.1) seat.old.me.0.ledger) ∷ [] }
        ensures told { IsTold seat.old.me.0.ledger notes.new.reach (carried_book seat.new.me.1) }
        ensures left { HasLeft (T.gives turn.now TellsOwn) (T.waits_on turn.now TellsOwn) (T.runs turn.now TellsOwn)
            caller.worker (carried_book seat.old.me.1) (carried_book seat.new.me.1) notes.new.part result.0 }
        ensures ends { HasEndedTry caller.worker caller.behind (carried_book seat.old.me.1) (carried_book seat.new.me.1) result.1 result.2 }
    {
        let kept = seat.slot_mut(&self.table.shared, 0);
        kept.keeper.act(caller, notes, turn)
    }
}
