//! Blocking sections: inside a task, or round a lease outside of the plan.
ghost use Rattle.std.specs.Prelude.{◌≡◌, ◌≢◌, None, true};
ghost use Rattle.planned_work.specs.Done.{TakeUpLeaves, ends_hold};
ghost use Rattle.planned_work.specs.Places.{may_enter, may_leave, place_of};
ghost use Rattle.planned_work.specs.Rings.{WakesBy};
ghost use Rattle.planned_work.specs.Sections.{EnterLeaves, LeaveLeaves};
ghost use Rattle.planned_work.specs.declared.answers.Answer.TheVariants as answers;

use crate::answers::Answer;
use crate::done::answer_of;
use crate::places::{Place, place_of};
use crate::rings::Rings;
use crate::trying::{Tried, try_decision, try_run};
use crate::workers::PlanWorker;
use blocking_section::TakeUp;
use coordination::Decided;
use lock_transforms::Closed;
use lock_transforms::kinds::Block;

impl PlanWorker {
    /// Enters a blocking section: gives the lease and all locks back, which the worker takes again when it leaves. Others never keep it from
    /// that. `Misused` comes where the worker has no lease, and where it runs a unit: there is no section inside an item.
    pub fn enter(&mut self) -> (Answer, Rings)
        ensures left { EnterLeaves self.old.pass.sight self.new.pass.sight result.0 }
        ensures may { result.0 ≢ answers.Misused → may_enter self.old.pass.sight ≡ true }
        ensures never { result.0 ≢ answers.Stuck }
        ensures wakes { WakesBy (ends_hold result.0) self.new.pass.sight result.1 }
    {
        let works = matches!(place_of(&self.pass), Place::InTask(_) | Place::Outside);
        if !works || !self.pass.has_lease() {
            return (Answer::Misused, Rings::nobody());
        }
        let (ran, rings) = try_run(&self.service, &mut self.pass, &Block { unit: None });
        (answer_of(ran), rings)
    }

    /// Leaves a blocking section, with the locks that the worker had and a lease. Where they aren't free it answers `Busy`, or `Stopped`
    /// once the service was stopped; a worker that sleeps then is noted as asleep, until they are. `Misused` comes where the worker
    /// is in no such section.
    pub fn leave(&mut self, sleeps: bool) -> (Answer, Rings)
        ensures left { LeaveLeaves self.old.pass.sight self.new.pass.sight result.0 }
        ensures may { result.0 ≢ answers.Misused → may_leave (place_of self.old.pass.sight) ≡ true }
        ensures never { result.0 ≢ answers.Stuck }
        ensures wakes { WakesBy (ends_hold result.0) self.new.pass.sight result.1 }
    {
        match place_of(&self.pass) {
            Place::Section => self.take_up(sleeps, None),
            _ => (Answer::Misused, Rings::nobody()),
        }
    }

    /// Takes up what the worker has parked and a lease, and ends the fetch that the section was for, if it was for one.
    pub(crate) fn take_up(&mut self, sleeps: bool, closed: Option<Closed>) -> (Answer, Rings)
        ensures left { TakeUpLeaves closed self.old.pass.sight self.new.pass.sight result.0 }
        ensures wakes { WakesBy (ends_hold result.0) self.new.pass.sight result.1 }
    {
        let decision = TakeUp { closed };
        let (tried, rings) = try_decision(&self.service, &mut self.pass, sleeps, &decision);
        let answer = match tried {
            Tried::Decided(Decided::Entered((), true)) => Answer::Done,
            Tried::Decided(_) => Answer::Stuck,
            Tried::NoMemory => Answer::NoMemory,
            Tried::Again => Answer::Again,
            Tried::Unanswered => match self.hears_of_stop() {
                Some(_) => Answer::Stopped,
                None => Answer::Busy,
            },
        };
        (answer, rings)
    }
}
