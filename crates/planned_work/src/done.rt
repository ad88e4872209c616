//! A unit is closed: an item, or a fetch.
ghost use Rattle.std.specs.Prelude.{◌≡◌, ◌≢◌, Option, false, true, ℕ};
ghost use Rattle.coordination.specs.Stops.{KnowsNoStop};
ghost use Rattle.planned_work.specs.Done.{CloseLeaves, ClosedThen, DoneLeaves, DoneNextIn, DoneNextLeaves, answer_of, closed_as};
ghost use Rattle.planned_work.specs.Done.{ends_hold, had_hold_closing, next_of_answer};
ghost use Rattle.planned_work.specs.Places.{closes, place_of};
ghost use Rattle.planned_work.specs.Rings.{WakesBy};
ghost use Rattle.planned_work.specs.declared.answers.Answer.TheVariants as answers;
ghost use Rattle.planned_work.specs.declared.answers.Next.TheVariants as nexts;
ghost use Rattle.planned_work.specs.declared.places.Place.TheVariants as places;

use crate::answers::{Answer, Next};
use crate::deciding::{idle_then, parked_then};
use crate::places::{Place, place_of};
use crate::rings::Rings;
use crate::trying::{Ran, try_run, try_then};
use crate::workers::PlanWorker;
use async_tracker::{TakeNextWork, TakeParkedWork};
use coordination::Pass;
use item_actions::Outcome;
use lock_transforms::Closed;
use lock_transforms::kinds::Close;

impl PlanWorker {
    /// Closes the unit that the worker runs: it has passed with a number, or failed where there is none.
    ///
    /// A fetch waits for the lock and a lease that the worker takes again: it answers `Busy`, or `Stopped` once the service was stopped. A
    /// worker that sleeps then is noted as asleep, until it can have them. After every answer but `Done` the unit isn't closed. `Misused`
    /// comes where the worker runs no unit.
    pub fn done(&mut self, sleeps: bool, gave: Option<u64>) -> (Answer, Rings)
        ensures left { DoneLeaves gave self.old.pass.sight self.new.pass.sight result.0 }
        ensures closes { result.0 ≢ answers.Misused → closes (place_of self.old.pass.sight) ≡ true }
        ensures never { result.0 ≢ answers.Stuck }
        ensures wakes { WakesBy (ends_hold result.0) self.new.pass.sight result.1 }
    {
        match place_of(&self.pass) {
            Place::Item(unit) | Place::ItemIn(unit, _) => self.close_item(closed_as(unit, gave)),
            Place::Fetch(unit) => self.take_up(sleeps, Some(closed_as(unit, gave))),
            Place::Idle | Place::Outside | Place::InTask(_) | Place::Parked(_) | Place::Section => (
                Answer::Misused,
                Rings::nobody(),
            ),
        }
    }

    /// Closes the item that the worker runs, and says what it does next, as `try_next`: both in one hold, with no entry of another worker
    /// between the two. `GoesOn` says that the item is closed, and that `try_next` is the call to make: a task was skipped, or there is nothing
    /// to do yet, or there was no memory for what is next, or the worker knows of a stop, after which there is no more work.
    ///
    /// A fetch is closed alone, as by `done`, and then `GoesOn` is the answer. After every answer but `Do` and `GoesOn` the unit isn't closed.
    pub fn done_next(&mut self, sleeps: bool, gave: Option<u64>) -> (Next, Rings)
        ensures left { DoneNextLeaves gave self.old.pass.sight self.new.pass.sight result.0 }
        ensures closes { result.0 ≢ nexts.Misused → closes (place_of self.old.pass.sight) ≡ true }
        ensures never { result.0 ≢ nexts.Stuck }
        ensures wakes { WakesBy (had_hold_closing result.0) self.new.pass.sight result.1 }
    {
        let place = place_of(&self.pass);
        if !place.closes() {
            return (Next::Misused, Rings::nobody());
        }
        if knows_stop(&self.pass) {
            let (answer, rings) = self.done(sleeps, gave);
            return (next_of_answer(answer), rings);
        }
        self.done_next_in(place, sleeps, gave)
    }

    // `done_next` of a worker that knows of no stop, at a place where it has a unit.
    fn done_next_in(&mut self, place: Place, sleeps: bool, gave: Option<u64>) -> (Next, Rings)
        requires place { place ≡ place_of self.old.pass.sight }
        requires closes { closes place ≡ true }
        ensures left { DoneNextIn place gave self.old.pass.sight self.new.pass.sight result.0 }
        ensures wakes { WakesBy (had_hold_closing result.0) self.new.pass.sight result.1 }
    {
        match place {
            Place::Item(unit) => self.close_then_idle(closed_as(unit, gave)),
            Place::ItemIn(unit, action) => self.close_then_parked(closed_as(unit, gave), action),
            Place::Fetch(unit) => {
                let (answer, rings) = self.take_up(sleeps, Some(closed_as(unit, gave)));
                (next_of_answer(answer), rings)
            }
            Place::Idle | Place::Outside | Place::InTask(_) | Place::Parked(_) | Place::Section =>
                unreachable!(),
        }
    }

    // Closes an item that the worker runs.
    fn close_item(&mut self, closed: Closed) -> (Answer, Rings)
        ensures left { CloseLeaves closed self.old.pass.sight self.new.pass.sight result.0 }
        ensures wakes { WakesBy (ends_hold result.0) self.new.pass.sight result.1 }
    {
        let (ran, rings) = try_run(&self.service, &mut self.pass, &Close { closed });
        (answer_of(ran), rings)
    }

    // Closes an item, and decides what an idle worker does next.
    fn close_then_idle(&mut self, closed: Closed) -> (Next, Rings)
        ensures left { ClosedThen closed places.Idle self.old.pass.sight self.new.pass.sight result.0 }
        ensures wakes { WakesBy (had_hold_closing result.0) self.new.pass.sight result.1 }
    {
        let close = Close { closed };
        let (behind, rings) = try_then(&self.service, &mut self.pass, &close, &TakeNextWork);
        (idle_then(behind), rings)
    }

    // Closes an item, and decides what a worker does next that is parked in this action.
    fn close_then_parked(&mut self, closed: Closed, action: u32) -> (Next, Rings)
        requires { (u : ℕ) × (place_of self.old.pass.sight ≡ places.ItemIn u action) }
        ensures left { ClosedThen closed (places.Parked action) self.old.pass.sight self.new.pass.sight result.0 }
        ensures wakes { WakesBy (had_hold_closing result.0) self.new.pass.sight result.1 }
    {
        let close = Close { closed };
        let parked = TakeParkedWork { action };
        let (behind, rings) = try_then(&self.service, &mut self.pass, &close, &parked);
        (parked_then(action, behind), rings)
    }
}

/// A unit with what it gave: a number, or else that it failed. That is told as a fault, the one failing outcome that says nothing of
/// files.
fn closed_as(unit: u32, gave: Option<u64>) -> Closed
    ensures { result ≡ closed_as unit gave }
{
    let outcome = match gave {
        Some(number) => Outcome::Number(number),
        None => Outcome::Fault,
    };
    Closed { unit, outcome }
}

// Whether the worker has stopped the service, or heard of a stop.
fn knows_stop(pass: &Pass) -> bool
    ensures knows { result ≡ true → KnowsNoStop pass.now.sight → ⊥ }
    ensures unknown { result ≡ false → KnowsNoStop pass.now.sight }
{
    pass.stopped() || pass.stopped_by().is_some()
}

// What a transform came to.
pub(crate) fn answer_of(ran: Ran) -> Answer
    ensures { result ≡ answer_of ran }
{
    match ran {
        Ran::Finished => Answer::Done,
        Ran::NoMemory => Answer::NoMemory,
        Ran::Retry => Answer::Stuck,
        Ran::Again => Answer::Again,
    }
}

// The same of a closing that decides nothing: what is next is to be asked.
fn next_of_answer(answer: Answer) -> Next
    ensures { result ≡ next_of_answer answer }
{
    match answer {
        Answer::Done => Next::GoesOn,
        Answer::Busy => Next::Busy,
        Answer::Stopped => Next::Stopped,
        Answer::Again => Next::Again,
        Answer::NoMemory => Next::NoMemory,
        Answer::Misused => Next::Misused,
        Answer::Stuck => Next::Stuck,
    }
}
