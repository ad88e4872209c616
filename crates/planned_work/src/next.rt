//! What a worker does next.
ghost use Rattle.std.specs.Prelude.{◌≡◌, ◌≢◌, true};
ghost use Rattle.coordination.specs.Stops.{KnowsNoStop};
ghost use Rattle.planned_work.specs.Next.{NextIn, NextLeaves, had_hold};
ghost use Rattle.planned_work.specs.Places.{may_next, place_of};
ghost use Rattle.planned_work.specs.Rings.{WakesBy};
ghost use Rattle.planned_work.specs.declared.answers.Next.TheVariants as nexts;
ghost use Rattle.planned_work.specs.declared.places.Place.TheVariants as places;

use crate::answers::Next;
use crate::deciding::{idle_next, moved_next, parked_next};
use crate::places::{Place, place_of};
use crate::rings::Rings;
use crate::trying::try_decision;
use crate::workers::PlanWorker;
use async_tracker::{TakeNextWork, TakeParkedWork};
use single_steps::MoveInTask;

impl PlanWorker {
    /// Says what the worker does next, and makes the entry that this needs, in one hold: an item is claimed, a fetch begun, a task
    /// started, or the worker goes on behind an action whose items have ended. Each is what the rules give in the very book in which
    /// the entry stands.
    ///
    /// `GoesOn` says that an entry was made which is nothing for the caller: a task was skipped or ended, items were queued, or the wait for
    /// them has begun. `Busy` says that there is nothing to do yet: a worker that sleeps then is noted as asleep, until there is, and any
    /// later call takes the note back. Once a stop was heard there is no more work: `Stopped`. `Misused` comes where the worker has an
    /// item or a fetch to close, is in a blocking section, or has a lease or locks outside of the plan.
    pub fn try_next(&mut self, sleeps: bool) -> (Next, Rings)
        ensures left { NextLeaves self.old.pass.sight self.new.pass.sight result.0 }
        ensures may { result.0 ≢ nexts.Misused → may_next (place_of self.old.pass.sight) ≡ true }
        ensures never { result.0 ≢ nexts.Stuck }
        ensures unheard { result.0 ≢ nexts.Misused → result.0 ≢ nexts.Stopped → KnowsNoStop self.old.pass.sight }
        ensures wakes { WakesBy (had_hold result.0) self.new.pass.sight result.1 }
    {
        let place = place_of(&self.pass);
        if !place.may_next() {
            return (Next::Misused, Rings::nobody());
        }
        match self.hears_of_stop() {
            Some(_) => (Next::Stopped, Rings::nobody()),
            None => self.next_in(place, sleeps),
        }
    }

    // `try_next` at a place where the worker may ask so.
    fn next_in(&mut self, place: Place, sleeps: bool) -> (Next, Rings)
        requires place { place ≡ place_of self.old.pass.sight }
        requires may { may_next place ≡ true }
        ensures left { NextIn place self.old.pass.sight self.new.pass.sight result.0 }
        ensures wakes { WakesBy (had_hold result.0) self.new.pass.sight result.1 }
    {
        match place {
            Place::Idle => self.next_idle(sleeps),
            Place::InTask(task) => self.next_in_task(task),
            Place::Parked(action) => self.next_parked(action, sleeps),
            Place::Outside
            | Place::Fetch(_)
            | Place::Item(_)
            | Place::ItemIn(_, _)
            | Place::Section => unreachable!(),
        }
    }

    fn next_idle(&mut self, sleeps: bool) -> (Next, Rings)
        ensures left { NextIn places.Idle self.old.pass.sight self.new.pass.sight result.0 }
        ensures wakes { WakesBy (had_hold result.0) self.new.pass.sight result.1 }
    {
        let (tried, rings) = try_decision(&self.service, &mut self.pass, sleeps, &TakeNextWork);
        (idle_next(tried), rings)
    }

    fn next_in_task(&mut self, task: u32) -> (Next, Rings)
        requires { place_of self.old.pass.sight ≡ places.InTask task }
        ensures left { NextIn (places.InTask task) self.old.pass.sight self.new.pass.sight result.0 }
        ensures wakes { WakesBy (had_hold result.0) self.new.pass.sight result.1 }
    {
        let decision = MoveInTask { task };
        let (tried, rings) = try_decision(&self.service, &mut self.pass, false, &decision);
        (moved_next(tried), rings)
    }

    fn next_parked(&mut self, action: u32, sleeps: bool) -> (Next, Rings)
        requires { place_of self.old.pass.sight ≡ places.Parked action }
        ensures left { NextIn (places.Parked action) self.old.pass.sight self.new.pass.sight result.0 }
        ensures wakes { WakesBy (had_hold result.0) self.new.pass.sight result.1 }
    {
        let decision = TakeParkedWork { action };
        let (tried, rings) = try_decision(&self.service, &mut self.pass, sleeps, &decision);
        (parked_next(action, tried), rings)
    }
}
