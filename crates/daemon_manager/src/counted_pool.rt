//! A pool that counts what its users do.
ghost use Rattle.std.specs.Prelude.{◌≡◌, ◌≤◌, [], IfOk, IfErr, MatchResult, OnErr, false, true};
ghost use Rattle.daemon_manager.specs.Asking.{AreAskedFor};
ghost use Rattle.daemon_manager.specs.Calls.{Adopts, FailsOrNot, Releases, StopsOrNot};
ghost use Rattle.daemon_manager.specs.Counts.{and_failed, and_reserved, failures, reservations};
ghost use Rattle.daemon_manager.specs.Searches.{IsSettledSearch, Searches, after_search};

use crate::pools::Pool;
use crate::reserved::Reserved;
use crate::searches::{Search, StartLeave};
use crate::tallies::{ReservationLedger, Tallies, Tally, TallyBooks};
use daemon_requirements::{Linked, Requirements};
use std::alloc::AllocError;
use std::marker::Model;
use std::sync::ledger::{Blank, Ledger};

/// A pool that several workers share, each with its tally.
///
/// Behind a lock no contract sees what happens to the pool. So each call counts in the tally of who makes it: once all tallies
/// are together again, they tell how many daemons were reserved, and how many failed at most. What is counted takes no bytes
/// and no time. Each reservation is for a unit that may ask for it.
pub struct CountedPool<L: Linked, U: ReservationLedger, F: Ledger> {
    pool: Pool<L>,
    books: TallyBooks<U, F>,
}

impl<L: Linked, U: ReservationLedger, F: Ledger> Model for CountedPool<L, U, F> {
    ghost use Rattle.std.specs.Prelude.{◌≡◌, ◌≤◌};
    ghost use Rattle.daemon_manager.specs.Asking.{AreAskedFor};
    ghost use Rattle.daemon_manager.specs.Counts.{failures, reservations};
    ghost use Rattle.daemon_manager.specs.PoolView.{PoolView};

    ghost Value = { PoolView L };

    ghost view = { λ p. p.pool };

    ghost invariant = { λ p. (p.books.reserved ≡ reservations p.pool.events) × (failures p.pool.events ≤ p.books.failed)
        × AreAskedFor U.asks p.pool.events };
}

impl<L: Linked, U: ReservationLedger, F: Ledger> CountedPool<L, U, F> {
    /// Counts from now on in these ledgers, for a pool to which nothing has happened. It gives all parts, for the tallies.
    pub fn new(
        pool: Pool<L>,
        reserved: Blank,
        failed: Blank,
    ) -> (CountedPool<L, U, F>, Tallies<U, F>)
        requires empty { pool.events ≡ [] }
        requires reserved { (reserved.name ≡ U.name) × (reserved.parts ≡ U.parts) }
        requires failed { (failed.name ≡ F.name) × (failed.parts ≡ F.parts) }
        requires parts { U.parts ≡ F.parts }
        ensures pool { result.0 ≡ pool }
        ensures tallies { result.1 ≡ record { parts = U.parts; reserved = 0; failed = 0 } }
    {
        let (books, tallies) = TallyBooks::open(reserved, failed);
        (CountedPool { pool, books }, tallies)
    }

    /// As `Pool::reserve_idle`, for a unit that may ask for this. A daemon that it gives is counted as reserved. Where none covers, it
    /// gives the leave to start one.
    pub fn reserve_idle(
        &mut self,
        mine: &mut Tally<U, F>,
        unit: u32,
        asked: &Requirements,
    ) -> Result<Search<L, U>, AllocError>
        requires { U.asks unit asked.now }
        ensures found { IfOk result (Searches L.requirements self.old self.new asked.now unit) }
        ensures settled { IfOk result (IsSettledSearch L.settled) }
        ensures no_memory { OnErr result (self.new ≡ self.old) }
        ensures counted { MatchResult result (λ found. mine.new ≡ after_search mine.old found) (λ _. mine.new ≡ mine.old) }
    {
        let Some(reserved) = self.pool.reserve_idle(unit, asked)? else {
            return Ok(Search::Start(StartLeave::new(asked)));
        };
        self.books.add_reserved(mine);
        Ok(Search::Idle(reserved))
    }

    /// As `Pool::adopt`, of a daemon that was started with what the leave is for, and its unit may ask for: so none that covers it was
    /// idle. The daemon that it gives is counted as reserved.
    pub fn adopt(
        &mut self,
        mine: &mut Tally<U, F>,
        leave: StartLeave<U>,
        link: L,
        requirements: Requirements,
        unit: u32,
    ) -> Result<Reserved<L>, L>
        requires made { L.requirements link ≡ requirements }
        requires leave { leave.asked.value ≡ requirements }
        requires asks { U.asks unit requirements }
        ensures adopted { IfOk result (Adopts L.requirements self.old self.new link requirements unit) }
        ensures no_memory { OnErr result (self.new ≡ self.old) }
        ensures link { IfErr result (λ returned. returned ≡ link) }
        ensures counted { MatchResult result (λ _. mine.new ≡ and_reserved mine.old) (λ _. mine.new ≡ mine.old) }
    {
        drop(leave);
        let reserved = self.pool.adopt(link, requirements, unit)?;
        self.books.add_reserved(mine);
        Ok(reserved)
    }

    /// As `Pool::release`. A release isn't counted.
    pub fn release(&mut self, reserved: Reserved<L>) -> Option<L>
        requires { L.settled reserved.link ≡ true }
        ensures { Releases L.requirements self.old self.new reserved result }
    {
        self.pool.release(reserved)
    }

    /// As `Pool::fail`. The daemon is counted as failed, also where the value isn't this pool's: so the count is a bound, and what the
    /// pool noted needn't be asked.
    pub fn fail(&mut self, mine: &mut Tally<U, F>, reserved: Reserved<L>) -> L
        requires { L.settled reserved.link ≡ false }
        ensures failed { FailsOrNot L.requirements self.old self.new reserved result }
        ensures counted { mine.new ≡ and_failed mine.old }
    {
        self.books.add_failed(mine);
        self.pool.fail(reserved)
    }

    /// As `Pool::stop_idle`. A stop isn't counted.
    pub fn stop_idle(&mut self) -> Option<L>
        ensures { StopsOrNot self.old self.new result }
    {
        self.pool.stop_idle()
    }

    /// Ends the counting, and gives the pool. Where the tallies are all parts, as many daemons were reserved as they say, and
    /// no more failed than they say. Each was reserved for units alone that may ask for it.
    pub fn audit(self, all: Tallies<U, F>) -> Pool<L>
        ensures pool { result ≡ self }
        ensures reserved { all.parts ≡ U.parts → reservations result.events ≡ all.reserved }
        ensures failed { all.parts ≡ F.parts → failures result.events ≤ all.failed }
        ensures units { AreAskedFor U.asks result.events }
    {
        let CountedPool { pool, books } = self;
        books.audit(all);
        pool
    }
}
