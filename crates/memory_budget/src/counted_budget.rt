//! A pool within a budget that counts what its users do.
ghost use Rattle.std.specs.Prelude.{◌≡◌, ◌≤◌, [], IfErr, IfOk, MatchResult, OnErr, false, true};
ghost use Rattle.daemon_manager.specs.Calls.{FailsOrNot, Releases, StopsOrNot};
ghost use Rattle.daemon_manager.specs.Counts.{and_failed, and_reserved, failures, reservations};
ghost use Rattle.memory_budget.specs.Calls.{GivesUpOrNot};
ghost use Rattle.memory_budget.specs.Counting.{AdoptsOrAlone, ComesBack, after_room, plain_room};
ghost use Rattle.memory_budget.specs.Rooms.{IsSettledRoom, KeepsPermits, MakesRoom};

use crate::permits::{Permit, heap_of};
use crate::pools::BudgetPool;
use crate::rooms::{Room, Unadopted};
use daemon_manager::{Reserved, Tallies, Tally, TallyBooks};
use daemon_requirements::{Linked, Requirements};
use std::alloc::{AllocError, Global};
use std::marker::{Brand, Model, PhantomData};
use std::sync::ledger::{Blank, Ledger};

/// The ledger of the reservations of a pool with this budget.
pub trait BudgetLedger: Ledger {
    ghost use Rattle.std.specs.Prelude.{ℕ};

    ghost budget_mb: { ℕ };
}

impl BudgetLedger for Brand {
    ghost budget_mb = { 0 };
}

/// A permit of a counted pool. Only that pool gives it, and ends it: `U` is the ledger of its reservations, which no other has.
pub struct CountedPermit<U: BudgetLedger> {
    permit: Permit,
    pool: PhantomData<U>,
}

impl<U: BudgetLedger> CountedPermit<U> {
    /// What the daemon is to be started with.
    pub fn requirements(&self) -> &Requirements
        ensures { result.now ≡ self.now.permit.requirements }
    {
        self.permit.requirements()
    }
}

/// A pool within a budget that several workers share, each with its tally.
///
/// Behind a lock no contract sees what happens to the pool. So each call counts in the tally of who makes it: once all tallies
/// are together again, no more daemons were reserved than they say, and no more failed.
pub struct CountedBudget<L: Linked, U: BudgetLedger, F: Ledger> {
    pool: BudgetPool<L>,
    books: TallyBooks<U, F>,
    // The heaps of the daemons that it gave to stop and that haven't ended yet.
    ending_mb: u64,
}

impl<L: Linked, U: BudgetLedger, F: Ledger> Model for CountedBudget<L, U, F> {
    ghost use Rattle.std.specs.Prelude.{◌≡◌, ◌≤◌};
    ghost use Rattle.daemon_manager.specs.Counts.{failures, reservations};
    ghost use Rattle.memory_budget.specs.BudgetView.{BudgetView};

    ghost Value = { BudgetView L };

    ghost view = { λ p. p.pool };

    ghost invariant = { λ p. (reservations p.pool.pool.events ≤ p.books.reserved) × (failures p.pool.pool.events ≤ p.books.failed)
        × (p.pool.budget_mb ≡ U.budget_mb) };
}

impl<L: Linked, U: BudgetLedger, F: Ledger> CountedBudget<L, U, F> {
    /// Counts from now on in these ledgers, for a pool to which nothing has happened. It gives all parts, for the tallies.
    pub fn new(
        pool: BudgetPool<L>,
        reserved: Blank,
        failed: Blank,
    ) -> (CountedBudget<L, U, F>, Tallies<U, F>)
        requires empty { pool.pool.events ≡ [] }
        requires budget { pool.budget_mb ≡ U.budget_mb }
        requires reserved { (reserved.name ≡ U.name) × (reserved.parts ≡ U.parts) }
        requires failed { (failed.name ≡ F.name) × (failed.parts ≡ F.parts) }
        requires parts { U.parts ≡ F.parts }
        ensures pool { result.0 ≡ pool }
        ensures tallies { result.1 ≡ record { parts = U.parts; reserved = 0; failed = 0 } }
    {
        let (books, tallies) = TallyBooks::open(reserved, failed);
        let counted = CountedBudget {
            pool,
            books,
            ending_mb: 0,
        };
        (counted, tallies)
    }

    /// The budget.
    pub fn budget_mb(&self) -> u64
        ensures value { result ≡ self.now.budget_mb }
        ensures ledger { result ≡ U.budget_mb }
    {
        self.pool.budget_mb()
    }

    /// As `BudgetPool::room`. An idle daemon that it gives is counted as reserved.
    pub(crate) fn room(
        &mut self,
        alloc: Global,
        mine: &mut Tally<U, F>,
        unit: u32,
        asked: &Requirements,
    ) -> Result<Room<L, CountedPermit<U>>, AllocError>
        ensures room { IfOk result (λ room. MakesRoom L.requirements self.old self.new asked.now unit (plain_room room)) }
        ensures settled { IfOk result (IsSettledRoom L.settled) }
        ensures no_memory { OnErr result (self.new ≡ self.old) }
        ensures counted { MatchResult result (λ room. mine.new ≡ after_room mine.old room) (λ _. mine.new ≡ mine.old) }
    {
        match self.pool.room(alloc, unit, asked)? {
            Room::Idle(reserved) => {
                self.books.add_reserved(mine);
                Ok(Room::Idle(reserved))
            }
            Room::Start(permit, links) => {
                let ending_mb = heaps_of(&links);
                self.ending_mb = self.ending_mb.saturating_add(ending_mb);
                let pool = PhantomData;
                Ok(Room::Start(CountedPermit { permit, pool }, links))
            }
            Room::Over(firm_mb) => Ok(Room::Over(firm_mb)),
        }
    }

    /// As `BudgetPool::adopt`. The daemon that it gives is counted as reserved, also where the permit isn't out, which then ends: so the
    /// count is a bound. That daemon is no pool's, and still serves once, so that no outcome depends on what others did with the pool.
    pub(crate) fn adopt(
        &mut self,
        alloc: Global,
        mine: &mut Tally<U, F>,
        permit: CountedPermit<U>,
        link: L,
    ) -> Result<Reserved<L>, (CountedPermit<U>, L)>
        requires { L.requirements link ≡ permit.permit.requirements }
        ensures adopted { IfOk result (AdoptsOrAlone L.requirements self.old self.new permit.permit link) }
        ensures no_memory { OnErr result (self.new ≡ self.old) }
        ensures back { IfErr result (ComesBack permit link) }
        ensures counted { MatchResult result (λ _. mine.new ≡ and_reserved mine.old) (λ _. mine.new ≡ mine.old) }
    {
        let unit = permit.permit.unit();
        let CountedPermit { permit, pool } = permit;
        match self.pool.adopt(alloc, permit, link) {
            Ok(reserved) => {
                self.books.add_reserved(mine);
                Ok(reserved)
            }
            Err(Unadopted::NotOut(permit, link)) => {
                self.pool.give_up(permit);
                self.books.add_reserved(mine);
                Ok(Reserved::of_no_pool(unit, link))
            }
            Err(Unadopted::NoMemory(permit, link)) => Err((CountedPermit { permit, pool }, link)),
        }
    }

    /// As `BudgetPool::give_up`.
    pub(crate) fn give_up(&mut self, permit: CountedPermit<U>)
        ensures { GivesUpOrNot self.old self.new permit.permit }
    {
        let CountedPermit { permit, pool: _ } = permit;
        self.pool.give_up(permit);
    }

    /// As `BudgetPool::release`. A release isn't counted.
    pub(crate) fn release(&mut self, reserved: Reserved<L>) -> Option<L>
        requires { L.settled reserved.link ≡ true }
        ensures released { Releases L.requirements self.old.pool self.new.pool reserved result }
        ensures others { KeepsPermits self.old self.new }
    {
        let spare = self.pool.release(reserved);
        if let Some(link) = &spare {
            self.ending_mb = self.ending_mb.saturating_add(heap_of(link.made_for()));
        }
        spare
    }

    /// As `BudgetPool::fail`. The daemon is counted as failed, also where the value isn't this pool's.
    pub(crate) fn fail(&mut self, mine: &mut Tally<U, F>, reserved: Reserved<L>) -> L
        requires { L.settled reserved.link ≡ false }
        ensures failed { FailsOrNot L.requirements self.old.pool self.new.pool reserved result }
        ensures others { KeepsPermits self.old self.new }
        ensures counted { mine.new ≡ and_failed mine.old }
    {
        self.books.add_failed(mine);
        let link = self.pool.fail(reserved);
        self.ending_mb = self.ending_mb.saturating_add(heap_of(link.made_for()));
        link
    }

    /// As `BudgetPool::stop_idle`. A stop isn't counted.
    pub fn stop_idle(&mut self) -> Option<L>
        ensures stopped { StopsOrNot self.old.pool self.new.pool result }
        ensures others { KeepsPermits self.old self.new }
    {
        let link = self.pool.stop_idle()?;
        self.ending_mb = self.ending_mb.saturating_add(heap_of(link.made_for()));
        Some(link)
    }

    /// Takes note that a daemon that was given to stop has ended, which had this heap.
    pub(crate) fn end(&mut self, heap_mb: u64)
        ensures { self.new ≡ self.old }
    {
        self.ending_mb = self.ending_mb.saturating_sub(heap_mb);
    }

    /// Whether the daemons that are held, permitted or still ending have at most the budget together.
    pub(crate) fn is_within(&self) -> bool {
        let budget_mb = self.pool.budget_mb();
        let kept_mb = self.pool.held_mb() + self.pool.permitted_mb();
        kept_mb.saturating_add(self.ending_mb) <= budget_mb
    }

    /// Ends the counting, and gives the pool. Where the tallies are all parts, no more daemons were reserved than they say, and no
    /// more failed.
    pub fn audit(self, all: Tallies<U, F>) -> BudgetPool<L>
        ensures pool { result ≡ self }
        ensures reserved { all.parts ≡ U.parts → reservations result.pool.events ≤ all.reserved }
        ensures failed { all.parts ≡ F.parts → failures result.pool.events ≤ all.failed }
    {
        let CountedBudget {
            pool,
            books,
            ending_mb: _,
        } = self;
        books.audit(all);
        pool
    }
}

// The heaps of the daemons of these links.
fn heaps_of<L: Linked>(links: &Vec<L>) -> u64 {
    let mut sum_mb = 0u64;
    for link in links {
        sum_mb = sum_mb.saturating_add(heap_of(link.made_for()));
    }
    sum_mb
}
