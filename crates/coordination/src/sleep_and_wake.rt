//! Sleep and wake: where workers sleep until their turn is to be had again, and how they are woken.
ghost use Rattle.std.specs.Prelude.{◌≡◌, IfOk, Err};
ghost use Rattle.resource_lock.specs.declared.ids.WorkerId.{WorkerId};
ghost use Rattle.coordination.specs.Calls.{AskedInVain, HasLooked};
ghost use Rattle.worker_notes.specs.Offered.{AreTold};
ghost use Rattle.coordination.specs.Turns.{HasDone};

use crate::halts::Halt;
use crate::keepers::Runner;
use crate::passes::Pass;
use crate::services::Coordination;
use crate::turns::{Awaits, Came, Turn};
use resource_lock::WorkerId;
use std::sync::{Condvar, Wait};
use std::time::Duration;
use worker_choices::Woken;
use worker_notes::{Offers, Wakes};

/// What the workers of a service sleep on.
#[derive(Drop)]
pub struct Condvars {
    // Questions sleep on this that wait for any entry.
    entered: Condvar,
    // A worker sleeps on its own, by worker, which comes once what its question waits for has come.
    own: Vec<Condvar>,
    // Transforms sleep on this, which comes with each entry that can let another worker go on.
    freed: Condvar,
}

impl Condvars {
    /// With one of its own for each worker.
    pub fn new(own: Vec<Condvar>) -> Condvars {
        Condvars {
            entered: Condvar::new(),
            own,
            freed: Condvar::new(),
        }
    }

    // What the worker sleeps on until this, and whether it sleeps there apart from the others.
    #[inline]
    fn place(&self, awaits: Awaits, worker: WorkerId) -> (&Condvar, bool) {
        match awaits {
            Awaits::LettingEntry => (&self.freed, false),
            Awaits::AnyEntry => (&self.entered, false),
            Awaits::OwnNews => match self.own.get(worker.0 as usize) {
                Some(own) => (own, true),
                None => (&self.entered, false),
            },
        }
    }

    // Wakes these, or nobody. Each Condvar that is touched costs more than an entry.
    #[inline]
    fn wake_if_any(&self, wakes: Wakes) {
        if wakes.wake_any() {
            self.wake(wakes);
        }
    }

    // Wakes these. It stands apart, so that who wakes nobody passes it by.
    #[inline(never)]
    fn wake(&self, wakes: Wakes) {
        if wakes.questions {
            self.entered.notify_all();
        }
        if wakes.transforms {
            self.freed.notify_all();
        }
        self.wake_workers(wakes.workers);
    }

    /// Wakes all.
    pub fn wake_all(&self) {
        self.wake(Wakes::ALL);
    }

    // Wakes workers that sleep on their own Condvar.
    fn wake_workers(&self, workers: Woken) {
        match workers {
            Woken::Nobody => {}
            Woken::One(worker) => {
                if let Some(own) = self.own.get(worker.0 as usize) {
                    own.notify_all();
                }
            }
            Woken::All => {
                for own in &self.own {
                    own.notify_all();
                }
            }
        }
    }
}

impl<O: Offers, K: Runner> Coordination<O, K> {
    /// Gets the state lock for a turn. Where that is to be had again, the worker sleeps until what it waits for has come, unless
    /// the service was stopped.
    #[inline]
    pub(crate) fn take_turn<T: Turn, R: Wait>(
        &self,
        rt: &R,
        pass: &mut Pass,
        turn: &T,
    ) -> Result<T::Outcome, Halt>
        requires { pass.old.service ≡ self.now.service }
        ensures service { pass.new.service ≡ pass.old.service }
        ensures worker { pass.new.sight.worker ≡ pass.old.sight.worker }
        ensures done { IfOk result (HasDone (T.gives turn.now (AreTold O.tells)) pass.old.sight pass.new.sight) }
        ensures no_memory { result ≡ Err Halt.NoMemory → HasLooked pass.old.sight pass.new.sight
            × T.runs turn.now (AreTold O.tells) pass.new.sight.worker pass.new.sight.seen }
        ensures stopped { (by : WorkerId) → result ≡ Err (Halt.Stopped by)
            → AskedInVain (T.waits_on turn.now (AreTold O.tells)) by pass.old.sight pass.new.sight }
    {
        pass.make_room(turn.more_locks());
        let (place, apart) = self.condvars.place(turn.awaits(), pass.worker);
        let mut woken = false;
        for _ in rt.forever() {
            // Read before the hold that may note this worker as asleep: any wake that comes of the note changes it. So the worker
            // needs no Mutex to let go of while it falls asleep, and a stop takes no state lock.
            let news = place.notifications();
            let (came, wakes, later) = self.slot.hold(rt, pass, woken, apart, turn);
            self.condvars.wake_if_any(wakes);
            self.condvars.wake_if_any(later);
            match came {
                Came::Done(outcome) => return Ok(outcome),
                Came::NoMemory => return Err(Halt::NoMemory),
                Came::Again => {
                    if let Some(by) = self.slot.hear(pass) {
                        return Err(Halt::Stopped(by));
                    }
                    place.sleep(rt, news, Duration::MAX);
                    woken = apart;
                }
            }
        }
        unreachable!()
    }
}
