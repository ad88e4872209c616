//! The pool of a run behind its lock, which is held for one call at a time: a daemon starts and works without it.
ghost use Rattle.std.specs.Prelude.{◌≡◌, IfErr, IfOk, MatchResult, false, true};
ghost use Rattle.daemon_requirements.specs.Covers.{Covers};
ghost use Rattle.daemon_manager.specs.Counts.{and_failed, and_reserved};
ghost use Rattle.daemon_manager.specs.Searches.{IsSettledSearch, after_search};
ghost use Rattle.file_access.specs.ReadView.{IsFaultCounted};
ghost use Rattle.item_work.specs.Searching.{FindsFor, IsForUnit};

use crate::ran::Wanted;
use daemon_desk::Desk;
use daemon_manager::{CountedPool, ReservationLedger, Reserved, Search, StartLeave, Tally};
use daemon_requirements::{Linked, Requirements};
use file_access::DeskFail;
use std::alloc::{AllocError, Global};
use std::sync::ledger::Ledger;
use std::sync::{Mutex, Wait};

/// The pool of a run's daemons, which its workers share, each with a tally of what it does. Neither it nor what it lends can be
/// dropped: whoever made it takes the pool out again and closes it.
pub type PoolLock<L, U, F> = Mutex<CountedPool<L, U, F>>;

/// A worker's way to the pool of a run.
#[derive(Drop)]
pub struct SharedPool<'a, R, L: Linked, U: ReservationLedger, F: Ledger> {
    /// What lets the worker wait.
    pub rt: &'a R,
    /// Where files, requests and replies are kept.
    pub alloc: Global,
    /// The pool.
    pub pool: &'a PoolLock<L, U, F>,
}

/// Reserves an idle daemon that covers what is wanted, for the request's unit. Where none does, it starts one. Its link is settled, and it
/// is counted as reserved. Where there is no memory to keep a daemon that was started, it is stopped. The unit may ask for it.
pub(crate) fn reserve<R: Wait, D: Desk, U: ReservationLedger, F: Ledger>(
    pool: &SharedPool<'_, R, D::Link, U, F>,
    desk: &mut D,
    mine: &mut Tally<U, F>,
    wanted: &Wanted<'_>,
) -> Result<Reserved<D::Link>, DeskFail>
    requires { U.asks wanted.now.request.now.unit wanted.now.requirements.now }
    ensures covers { IfOk result (λ reserved. Covers (D.Link.requirements reserved.link) wanted.now.requirements.now) }
    ensures unit { IfOk result (λ reserved. reserved.unit ≡ wanted.now.request.now.unit) }
    ensures settled { IfOk result (λ reserved. D.Link.settled reserved.link ≡ true) }
    ensures files { D.files desk.new ≡ D.files desk.old }
    ensures reads { D.reads desk.new ≡ D.reads desk.old }
    ensures faults { IsFaultCounted (D.faults desk.old) (D.faults desk.new) result }
    ensures sends { D.sends desk.new ≡ D.sends desk.old }
    ensures sent { D.sent desk.new ≡ D.sent desk.old }
    ensures counted { MatchResult result (λ _. mine.new ≡ and_reserved mine.old) (λ _. mine.new ≡ mine.old) }
{
    match pool.search(mine, wanted)? {
        Search::Idle(reserved) => Ok(reserved),
        Search::Start(leave) => start(pool, desk, mine, wanted, leave),
    }
}

// Starts a daemon by the leave, reserved for the request's unit. Where there is no memory to keep it, it is stopped.
fn start<R: Wait, D: Desk, U: ReservationLedger, F: Ledger>(
    pool: &SharedPool<'_, R, D::Link, U, F>,
    desk: &mut D,
    mine: &mut Tally<U, F>,
    wanted: &Wanted<'_>,
    leave: StartLeave<U>,
) -> Result<Reserved<D::Link>, DeskFail>
    requires leave { leave.asked.value ≡ wanted.now.requirements.now }
    requires asks { U.asks wanted.now.request.now.unit wanted.now.requirements.now }
    ensures made { IfOk result (λ reserved. D.Link.requirements reserved.link ≡ wanted.now.requirements.now) }
    ensures unit { IfOk result (λ reserved. reserved.unit ≡ wanted.now.request.now.unit) }
    ensures settled { IfOk result (λ reserved. D.Link.settled reserved.link ≡ true) }
    ensures files { D.files desk.new ≡ D.files desk.old }
    ensures reads { D.reads desk.new ≡ D.reads desk.old }
    ensures faults { IsFaultCounted (D.faults desk.old) (D.faults desk.new) result }
    ensures sends { D.sends desk.new ≡ D.sends desk.old }
    ensures sent { D.sent desk.new ≡ D.sent desk.old }
    ensures counted { MatchResult result (λ _. mine.new ≡ and_reserved mine.old) (λ _. mine.new ≡ mine.old) }
{
    let requirements = wanted.requirements.copy(pool.alloc)?;
    let link = desk.start(pool.alloc, wanted.requirements)?;
    match pool.adopt(mine, leave, link, requirements, wanted.request.unit) {
        Ok(reserved) => Ok(reserved),
        Err(link) => {
            desk.stop(link);
            Err(DeskFail::NoMemory)
        }
    }
}

impl<'a, R: Wait, L: Linked, U: ReservationLedger, F: Ledger> SharedPool<'a, R, L, U, F> {
    // Reserves the last released idle daemon that covers what is wanted, for the request's unit. Where none does, one may be started.
    fn search(
        &self,
        mine: &mut Tally<U, F>,
        wanted: &Wanted<'_>,
    ) -> Result<Search<L, U>, AllocError>
        requires { U.asks wanted.now.request.now.unit wanted.now.requirements.now }
        ensures found { IfOk result (FindsFor L.requirements wanted.now.requirements.now) }
        ensures unit { IfOk result (IsForUnit wanted.now.request.now.unit) }
        ensures settled { IfOk result (IsSettledSearch L.settled) }
        ensures counted { MatchResult result (λ found. mine.new ≡ after_search mine.old found) (λ _. mine.new ≡ mine.old) }
    {
        self.pool
            .lock(self.rt)
            .reserve_idle(mine, wanted.request.unit, wanted.requirements)
    }

    // Takes a daemon in that was started with these requirements, by this leave, and reserves it for the unit. Where there is no memory
    // its link comes back.
    fn adopt(
        &self,
        mine: &mut Tally<U, F>,
        leave: StartLeave<U>,
        link: L,
        requirements: Requirements,
        unit: u32,
    ) -> Result<Reserved<L>, L>
        requires made { L.requirements link ≡ requirements }
        requires leave { leave.asked.value ≡ requirements }
        requires asks { U.asks unit requirements }
        ensures adopted { IfOk result (λ reserved. reserved.link ≡ link) }
        ensures unit { IfOk result (λ reserved. reserved.unit ≡ unit) }
        ensures link { IfErr result (λ returned. returned ≡ link) }
        ensures counted { MatchResult result (λ _. mine.new ≡ and_reserved mine.old) (λ _. mine.new ≡ mine.old) }
    {
        self.pool
            .lock(self.rt)
            .adopt(mine, leave, link, requirements, unit)
    }

    /// Gives a daemon back whose link is settled, and the link of another to stop, where one too many is idle.
    pub(crate) fn release(&self, reserved: Reserved<L>) -> Option<L>
        requires { L.settled reserved.link ≡ true }
    {
        self.pool.lock(self.rt).release(reserved)
    }

    /// Lets a daemon be one that failed, whose link isn't settled, counts it, and gives its link to stop.
    pub(crate) fn fail(&self, mine: &mut Tally<U, F>, reserved: Reserved<L>) -> L
        requires { L.settled reserved.link ≡ false }
        ensures link { result ≡ reserved.link }
        ensures counted { mine.new ≡ and_failed mine.old }
    {
        self.pool.lock(self.rt).fail(mine, reserved)
    }
}
