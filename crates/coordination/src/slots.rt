//! The steps on the table.
ghost use Rattle.std.specs.Prelude.{◌≡◌, ◌≢◌, ◌<◌, ◌≤◌, ◌+◌, ◌-◌, ◌^◌, [], ◌∷◌, length, true, false, IfNone, IfSome, None};
ghost use Rattle.coordination.specs.Attempts.{Answers, HasRun, HasRunOn, Ran};
ghost use Rattle.coordination.specs.Decisions.{DecideGives, EndsDecision, HadStep, carried_out};
ghost use Rattle.worker_notes.specs.SleepAndWake.{EndsHold, stance_asking};
ghost use Rattle.history_views.specs.ShownBooks.{IsTold};
ghost use Rattle.coordination.specs.Kept.{kept};
ghost use Rattle.worker_notes.specs.Offered.{AnswersWith, WaitsWith};
ghost use Rattle.worker_notes.specs.Parts.{HasRoom, HasRoomIfFinished, IsPartHere};
ghost use Rattle.coordination.specs.Rule.{AddsOwn, Hears, Taken, carried_book};
ghost use Rattle.coordination.specs.Sights.{holding, one, seeing, sight_of, stopping};
ghost use Rattle.coordination.specs.Stops.{KnowsNoStop};
ghost use Rattle.coordination.specs.Turns.{HasLeft};

use crate::boxed_books::BoxedBook;
use crate::decisions::{Decided, Decision};
use crate::keepers::{Keeper, Kept, Runner};
use crate::passes::Notes;
use crate::questions::Question;
use crate::rule::{Hear, OpenedWith, Order, PutBack, SeatView, Stop, Take};
use crate::turns::Came;
use atomic_table::{Seat, Table};
use history_views::Reach;
use lock_transforms::{Disposition, Transform};
use resource_lock::WorkerId;
use std::alloc::{AllocError, Global};
use std::hint::spin_loop;
use std::sync::Wait;
use worker_choices::Awaited;
use worker_notes::{Sleepers, Wakes, WorkerPart};

// How often a worker looks whether the book is back before it sleeps.
const LOOKS: u32 = 100;

/// A service without its state lock: the book in its slot, with a word that says whether it is out and a word that says who
/// has stopped the service.
///
/// Its public calls never wait, and those of several passes may run at once. Who finds the book out gets no answer, and asks again.
/// Who sleeps and who is woken is the caller's affair. In a `Coordination` the first word is the state lock, and who finds the
/// book out sleeps on it (`take`, `let_go`).
#[derive(Drop)]
pub struct Slot<K: Keeper = BoxedBook> {
    pub(crate) table: Table<Kept<K>, SeatView, OpenedWith<K>, Order, Global>,
    pub ghost sized: { (table.shared.table_id.words ≡ 2) × (table.shared.table_id.slots ≡ 1) },
}

impl<K: Keeper> Slot<K> {
    /// Takes the book out. False says that it is out: then the seat is as before.
    pub(crate) fn try_take(&self, seat: &mut Seat<Kept<K>, SeatView>) -> bool
        requires id { seat.old.table_id ≡ self.now.table.shared.table_id }
        requires lone { seat.old.me ≡ (one seat.old.me.0.ledger (sight_of seat.old.me.0), []) }
        ensures same { (seat.new.table_id ≡ seat.old.table_id) × (seat.new.id ≡ seat.old.id) }
        ensures taken { result ≡ true → Taken seat.old.me seat.new.me }
        ensures busy { result ≡ false → seat.new.me ≡ seat.old.me }
    {
        self.table.shared.compare_exchange::<Take>(seat, 0, 0, 1) == 0
    }

    /// Takes the book out, and waits while another seat has it. There is a copy of it for each transform and question that it is
    /// taken for, so that each finds the book without a call.
    #[inline]
    pub(crate) fn take<R: Wait, W>(&self, rt: &R, seat: &mut Seat<Kept<K>, SeatView>, _for_whom: &W)
        requires id { seat.old.table_id ≡ self.now.table.shared.table_id }
        requires lone { seat.old.me ≡ (one seat.old.me.0.ledger (sight_of seat.old.me.0), []) }
        ensures same { (seat.new.table_id ≡ seat.old.table_id) × (seat.new.id ≡ seat.old.id) }
        ensures taken { Taken seat.old.me seat.new.me }
    {
        if !self.try_take(seat) {
            self.take_later(rt, seat);
        }
    }

    // `take` where another seat had the book just now.
    #[inline(never)]
    fn take_later<R: Wait>(&self, rt: &R, seat: &mut Seat<Kept<K>, SeatView>)
        requires id { seat.old.table_id ≡ self.now.table.shared.table_id }
        requires lone { seat.old.me ≡ (one seat.old.me.0.ledger (sight_of seat.old.me.0), []) }
        ensures same { (seat.new.table_id ≡ seat.old.table_id) × (seat.new.id ≡ seat.old.id) }
        ensures taken { Taken seat.old.me seat.new.me }
    {
        self.look_for_a_while();
        if self.try_take(seat) {
            return;
        }
        for _ in rt.forever() {
            if self.take_or_wait(seat) {
                return;
            }
            self.table.shared.park(rt, 0, 2);
            self.look_for_a_while();
        }
        unreachable!()
    }

    // Takes the book out, and leaves word as who may sleep until it is back. False says that it is out: then the seat is as
    // before.
    fn take_or_wait(&self, seat: &mut Seat<Kept<K>, SeatView>) -> bool
        requires id { seat.old.table_id ≡ self.now.table.shared.table_id }
        requires lone { seat.old.me ≡ (one seat.old.me.0.ledger (sight_of seat.old.me.0), []) }
        ensures same { (seat.new.table_id ≡ seat.old.table_id) × (seat.new.id ≡ seat.old.id) }
        ensures taken { result ≡ true → Taken seat.old.me seat.new.me }
        ensures busy { result ≡ false → seat.new.me ≡ seat.old.me }
    {
        self.table.shared.swap::<Take>(seat, 0, 2) == 0
    }

    // Looks for a while, as long as the book is out and nobody sleeps until it is back.
    fn look_for_a_while(&self) {
        for _ in 0..LOOKS {
            if self.table.shared.peek(0) != 1 {
                return;
            }
            spin_loop();
        }
    }

    /// `put_back`, and wakes one of those that sleep until the book is back.
    #[inline]
    pub(crate) fn let_go(&self, seat: &mut Seat<Kept<K>, SeatView>)
        requires id { seat.old.table_id ≡ self.now.table.shared.table_id }
        requires held { seat.old.me
            ≡ (holding seat.old.me.0.ledger (sight_of seat.old.me.0), (0, kept (carried_book seat.old.me.1) seat.old.me.0.ledger) ∷ []) }
        requires own { AddsOwn (sight_of seat.old.me.0) (carried_book seat.old.me.1) }
        ensures same { (seat.new.table_id ≡ seat.old.table_id) × (seat.new.id ≡ seat.old.id) }
        ensures view { seat.new.me ≡ (one seat.old.me.0.ledger (seeing (sight_of seat.old.me.0) (carried_book seat.old.me.1)), []) }
    {
        if self.table.shared.swap::<PutBack>(seat, 0, 0) == 2 {
            self.table.shared.wake_one(0);
        }
    }

    /// Asks the question of the book that the seat holds, and ends the hold.
    pub(crate) fn ask_book<Q: Question>(
        &self,
        seat: &mut Seat<Kept<K>, SeatView>,
        worker: WorkerId,
        reach: &mut Option<Reach>,
        question: &Q,
        sleepers: &mut Sleepers,
    ) -> (Option<Q::Answer>, Wakes)
        requires id { seat.old.table_id ≡ self.now.table.shared.table_id }
        requires held { seat.old.me.1 ≡ (0, kept (carried_book seat.old.me.1) seat.old.me.0.ledger) ∷ [] }
        requires known { worker.0 < (carried_book seat.old.me.1).graph.workers }
        requires told { seat.old.me.0.ledger ≡ None → reach.old ≡ None }
        ensures same { (seat.new.table_id ≡ seat.old.table_id) × (seat.new.id ≡ seat.old.id) × (seat.new.me ≡ seat.old.me) }
        ensures told { IsTold seat.old.me.0.ledger reach.new (carried_book seat.old.me.1) }
        ensures answer { Answers (AnswersWith sleepers.old.queued (Q.answers question.now)) (WaitsWith sleepers.old.queued (Q.waits_on question.now))
            worker (carried_book seat.old.me.1) result.0 }
        ensures ends { EndsHold (carried_book seat.old.me.1) worker (stance_asking sleepers.old.behind (Q.awaits question.now) result.0)
            false sleepers.old sleepers.new result.1 }
    {
        let kept = seat.slot_mut(&self.table.shared, 0);
        ask_of(
            &kept.keeper,
            worker,
            reach,
            question,
            question.awaited(),
            sleepers,
        )
    }

    /// Puts the book back, in which no entries but the worker's own are new. It is for a slot at which nobody sleeps until the book
    /// is back.
    pub(crate) fn put_back(&self, seat: &mut Seat<Kept<K>, SeatView>)
        requires id { seat.old.table_id ≡ self.now.table.shared.table_id }
        requires held { seat.old.me
            ≡ (holding seat.old.me.0.ledger (sight_of seat.old.me.0), (0, kept (carried_book seat.old.me.1) seat.old.me.0.ledger) ∷ []) }
        requires own { AddsOwn (sight_of seat.old.me.0) (carried_book seat.old.me.1) }
        ensures same { (seat.new.table_id ≡ seat.old.table_id) × (seat.new.id ≡ seat.old.id) }
        ensures view { seat.new.me ≡ (one seat.old.me.0.ledger (seeing (sight_of seat.old.me.0) (carried_book seat.old.me.1)), []) }
    {
        self.table.shared.store::<PutBack>(seat, 0, 0);
    }

    /// Stops the service, or says who has stopped it before.
    pub(crate) fn mark(
        &self,
        seat: &mut Seat<Kept<K>, SeatView>,
        worker: WorkerId,
    ) -> Option<WorkerId>
        requires id { seat.old.table_id ≡ self.now.table.shared.table_id }
        requires lone { seat.old.me ≡ (one seat.old.me.0.ledger (sight_of seat.old.me.0), []) }
        requires worker { worker ≡ (sight_of seat.old.me.0).worker }
        ensures same { (seat.new.table_id ≡ seat.old.table_id) × (seat.new.id ≡ seat.old.id) }
        ensures none { IfNone result (seat.new.me ≡ (one seat.old.me.0.ledger (stopping (sight_of seat.old.me.0)), [])) }
        ensures some { IfSome result (λ by. Hears seat.old.me by seat.new.me) }
    {
        let found = self
            .table
            .shared
            .compare_exchange::<Stop>(seat, 1, 0, u64::from(worker.0) + 1);
        if found == 0 {
            None
        } else {
            Some(WorkerId((found - 1) as u32))
        }
    }

    /// Who has stopped the service, or none.
    pub(crate) fn marked(&self, seat: &mut Seat<Kept<K>, SeatView>) -> Option<WorkerId>
        requires id { seat.old.table_id ≡ self.now.table.shared.table_id }
        requires lone { seat.old.me ≡ (one seat.old.me.0.ledger (sight_of seat.old.me.0), []) }
        ensures same { (seat.new.table_id ≡ seat.old.table_id) × (seat.new.id ≡ seat.old.id) }
        ensures none { IfNone result ((seat.new.me ≡ seat.old.me) × KnowsNoStop (sight_of seat.old.me.0)) }
        ensures some { IfSome result (λ by. Hears seat.old.me by seat.new.me) }
    {
        let found = self.table.shared.load::<Hear>(seat, 1);
        if found == 0 {
            None
        } else {
            Some(WorkerId((found - 1) as u32))
        }
    }
}

impl<K: Runner> Slot<K> {
    /// Runs the transform on the book that the seat holds, has the worker's part follow it, and ends the hold.
    pub(crate) fn run<T: Transform>(
        &self,
        seat: &mut Seat<Kept<K>, SeatView>,
        worker: WorkerId,
        notes: &mut Notes,
        transform: &T,
        sleepers: &mut Sleepers,
    ) -> (Result<Disposition, AllocError>, Wakes)
        requires id { seat.old.table_id ≡ self.now.table.shared.table_id }
        requires held { seat.old.me.1 ≡ (0, kept (carried_book seat.old.me.1) seat.old.me.0.ledger) ∷ [] }
        requires part { IsPartHere worker (carried_book seat.old.me.1) notes.old.part }
        requires told { seat.old.me.0.ledger ≡ None → notes.old.reach ≡ None }
        ensures same { (seat.new.table_id ≡ seat.old.table_id) × (seat.new.id ≡ seat.old.id) × (seat.new.me.0 ≡ seat.old.me.0) }
        ensures held { seat.new.me.1 ≡ (0, kept (carried_book seat.new.me.1) seat.old.me.0.ledger) ∷ [] }
        ensures told { IsTold seat.old.me.0.ledger notes.new.reach (carried_book seat.new.me.1) }
        ensures run { HasRun (T.kind_of transform.now) (T.makes transform.now) (T.fails_on transform.now)
            (T.retries_on transform.now) worker (carried_book seat.old.me.1)
            (carried_book seat.new.me.1) notes.new.part sleepers.old sleepers.new result }
    {
        let kept = seat.slot_mut(&self.table.shared, 0);
        run_on(&mut kept.keeper, worker, notes, transform, sleepers)
    }
}

// Runs the transform on the book, has the worker's part follow it, and ends the hold.
#[inline]
pub(crate) fn run_on<K: Runner, T: Transform>(
    keeper: &mut K,
    worker: WorkerId,
    notes: &mut Notes,
    transform: &T,
    sleepers: &mut Sleepers,
) -> (Result<Disposition, AllocError>, Wakes)
    requires part { IsPartHere worker (K.book_of keeper.old) notes.old.part }
    requires told { K.ledger_of keeper.old ≡ None → notes.old.reach ≡ None }
    ensures ledger { K.ledger_of keeper.new ≡ K.ledger_of keeper.old }
    ensures told { IsTold (K.ledger_of keeper.new) notes.new.reach (K.book_of keeper.new) }
    ensures run { HasRun (T.kind_of transform.now) (T.makes transform.now) (T.fails_on transform.now)
        (T.retries_on transform.now) worker (K.book_of keeper.old) (K.book_of keeper.new) notes.new.part sleepers.old sleepers.new result }
{
    let kind = transform.kind();
    let ran = run_with_room(keeper, worker, &notes.part, transform);
    let book = keeper.book();
    notes.part.follow(worker, kind, book, &ran);
    let wakes = sleepers.end_transform(book, worker, kind, &ran);
    keeper.tell(&mut notes.reach);
    (ran, wakes)
}

// The same where the hold goes on behind a transform that finishes.
#[inline]
pub(crate) fn go_on_by<K: Runner, T: Transform>(
    keeper: &mut K,
    worker: WorkerId,
    notes: &mut Notes,
    transform: &T,
    sleepers: &mut Sleepers,
) -> (Result<Disposition, AllocError>, Wakes)
    requires part { IsPartHere worker (K.book_of keeper.old) notes.old.part }
    requires told { K.ledger_of keeper.old ≡ None → notes.old.reach ≡ None }
    ensures ledger { K.ledger_of keeper.new ≡ K.ledger_of keeper.old }
    ensures told { IsTold (K.ledger_of keeper.new) notes.new.reach (K.book_of keeper.new) }
    ensures run { HasRunOn (T.kind_of transform.now) (T.makes transform.now) (T.fails_on transform.now)
        (T.retries_on transform.now) worker (K.book_of keeper.old) (K.book_of keeper.new) notes.new.part sleepers.old sleepers.new result }
{
    let kind = transform.kind();
    let ran = run_with_room(keeper, worker, &notes.part, transform);
    let book = keeper.book();
    notes.part.follow(worker, kind, book, &ran);
    let wakes = sleepers.go_on_or_end(book, worker, kind, &ran);
    keeper.tell(&mut notes.reach);
    (ran, wakes)
}

// Runs the transform on the book, where the worker's part has room for the locks that it may gain: its caller made that before it took the
// state lock, unless there was no memory for it.
#[inline]
fn run_with_room<K: Runner, T: Transform>(
    keeper: &mut K,
    worker: WorkerId,
    part: &WorkerPart,
    transform: &T,
) -> Result<Disposition, AllocError>
    requires known { worker.0 < (K.book_of keeper.old).graph.workers }
    requires room { HasRoom part.now }
    ensures ledger { K.ledger_of keeper.new ≡ K.ledger_of keeper.old }
    ensures graph { (K.book_of keeper.new).graph ≡ (K.book_of keeper.old).graph }
    ensures given { (K.book_of keeper.new).given ≡ (K.book_of keeper.old).given }
    ensures within { (K.book_of keeper.old).given ≤ length (K.book_of keeper.old).history }
    ensures ran { Ran (T.kind_of transform.now) (T.makes transform.now) (T.fails_on transform.now) (T.retries_on transform.now) worker
        (K.book_of keeper.old) (K.book_of keeper.new) result }
    ensures room { HasRoomIfFinished (T.kind_of transform.now) (K.book_of keeper.new) result part.now }
{
    // Of the length, that no more entries were given away than there are.
    let _ = keeper.book().len();
    if !part.has_room_for(transform.more_locks()) {
        return Err(AllocError);
    }
    keeper.run(worker, &part.locks, transform)
}

// Asks the question of the book, and ends the hold, where its worker sleeps until this comes if there is no answer.
#[inline]
pub(crate) fn ask_of<K: Keeper, Q: Question>(
    keeper: &K,
    worker: WorkerId,
    reach: &mut Option<Reach>,
    question: &Q,
    awaited: Option<Awaited>,
    sleepers: &mut Sleepers,
) -> (Option<Q::Answer>, Wakes)
    requires known { worker.0 < (K.book_of keeper.now).graph.workers }
    requires told { K.ledger_of keeper.now ≡ None → reach.old ≡ None }
    ensures told { IsTold (K.ledger_of keeper.now) reach.new (K.book_of keeper.now) }
    ensures answer { Answers (AnswersWith sleepers.old.queued (Q.answers question.now)) (WaitsWith sleepers.old.queued (Q.waits_on question.now))
        worker (K.book_of keeper.now) result.0 }
    ensures ends { EndsHold (K.book_of keeper.now) worker (stance_asking sleepers.old.behind awaited result.0)
        false sleepers.old sleepers.new result.1 }
{
    let book = keeper.book();
    let answer = question.ask(worker, book, sleepers.queued.has_some(book));
    let wakes = end_asked(keeper, worker, reach, awaited, &answer, sleepers);
    (answer, wakes)
}

// Decides on the book: asks, and runs the step of the answer, if it has one. It has the worker's part follow the book, and ends the
// hold once.
#[inline]
pub(crate) fn decide_on<K: Runner, Q: Decision>(
    keeper: &mut K,
    worker: WorkerId,
    notes: &mut Notes,
    decision: &Q,
    awaited: Option<Awaited>,
    sleepers: &mut Sleepers,
) -> (Came<Decided<Q::Answer>>, Wakes)
where
    Q::Answer: Drop,
    requires part { IsPartHere worker (K.book_of keeper.old) notes.old.part }
    requires told { K.ledger_of keeper.old ≡ None → notes.old.reach ≡ None }
    ensures ledger { K.ledger_of keeper.new ≡ K.ledger_of keeper.old }
    ensures told { IsTold (K.ledger_of keeper.new) notes.new.reach (K.book_of keeper.new) }
    ensures left { HasLeft (DecideGives (AnswersWith sleepers.old.queued (Q.answers decision.now)) (Q.step_of decision.now) Q.Step.kind_of
        Q.Step.makes Q.Step.fails_on Q.Step.retries_on) (WaitsWith sleepers.old.queued (Q.waits_on decision.now))
        (HadStep (AnswersWith sleepers.old.queued (Q.answers decision.now)) (Q.step_of decision.now)) worker (K.book_of keeper.old)
        (K.book_of keeper.new) notes.new.part result.0 }
    ensures ends { EndsDecision (K.book_of keeper.new) worker awaited (Q.step_of decision.now) Q.Step.kind_of
        sleepers.old sleepers.new result.1 result.0 }
{
    let book = keeper.book();
    let queued = sleepers.queued.has_some(book);
    let Some(answer) = decision.ask(worker, book, queued) else {
        let wakes = end_asked(
            keeper,
            worker,
            &mut notes.reach,
            awaited,
            &None::<()>,
            sleepers,
        );
        return (Came::Again, wakes);
    };
    match decision.step(&answer) {
        None => {
            let wakes = end_asked(
                keeper,
                worker,
                &mut notes.reach,
                awaited,
                &Some(()),
                sleepers,
            );
            (Came::Done(Decided::Answered(answer)), wakes)
        }
        Some(step) => {
            let (came, wakes) = run_on(keeper, worker, notes, &step, sleepers);
            (carried_out(answer, came), wakes)
        }
    }
}

// What came of the step of an answer.
#[inline]
fn carried_out<A: Drop>(answer: A, ran: Result<Disposition, AllocError>) -> Came<Decided<A>>
    ensures { result ≡ carried_out answer ran }
{
    match ran {
        Ok(Disposition::Finished) => Came::Done(Decided::Entered(answer, true)),
        Ok(Disposition::Failed) => Came::Done(Decided::Entered(answer, false)),
        Ok(Disposition::Retry) => Came::Done(Decided::Waiting(answer)),
        Err(_) => Came::NoMemory,
    }
}

// Ends the hold of a question that was asked of the book, by a worker that sleeps until this comes where there is no answer.
#[inline]
fn end_asked<K: Keeper, A>(
    keeper: &K,
    worker: WorkerId,
    reach: &mut Option<Reach>,
    awaited: Option<Awaited>,
    answer: &Option<A>,
    sleepers: &mut Sleepers,
) -> Wakes
    requires told { K.ledger_of keeper.now ≡ None → reach.old ≡ None }
    ensures told { IsTold (K.ledger_of keeper.now) reach.new (K.book_of keeper.now) }
    ensures ends { EndsHold (K.book_of keeper.now) worker (stance_asking sleepers.old.behind awaited answer.now)
        false sleepers.old sleepers.new result }
{
    let wakes = sleepers.end_question(keeper.book(), worker, awaited, answer);
    keeper.tell(reach);
    wakes
}
