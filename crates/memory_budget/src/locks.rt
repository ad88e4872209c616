//! A pool within a budget behind a lock.
ghost use Rattle.std.specs.Prelude.{◌≡◌, IfErr, IfOk, MatchResult, false, true};
ghost use Rattle.daemon_manager.specs.Counts.{and_failed, and_reserved};
ghost use Rattle.memory_budget.specs.Counting.{ComesBack, after_room};
ghost use Rattle.memory_budget.specs.Waiting.{IsRoomFor};

use crate::counted_budget::{BudgetLedger, CountedBudget, CountedPermit};
use crate::rooms::Room;
use daemon_manager::{Reserved, Tally};
use daemon_requirements::Linked;
use item_work::Wanted;
use std::alloc::{AllocError, Global};
use std::sync::ledger::Ledger;
use std::sync::{Condvar, Mutex, Wait};

/// A pool within a budget, behind a lock that is held for one call at a time: a daemon starts and works without it.
///
/// Who finds no room waits, and looks again after each release and failure of a daemon, each permit given up and each idle
/// daemon stopped. The memory of a daemon that was stopped or failed serves for another once that daemon has ended. It can't be
/// dropped: whoever made it takes the pool out again and closes it.
pub struct BudgetLock<L: Linked, U: BudgetLedger, F: Ledger> {
    shared: Mutex<CountedBudget<L, U, F>>,
    // Who waits for room, or for daemons to end, is woken by this. All are, by whatever makes room: a release, a failure, a permit
    // given up, an idle daemon stopped. The adoption of a daemon makes none.
    freed: Condvar,
    pub(crate) budget_mb: u64,
    ghost budget: { budget_mb ≡ U.budget_mb },
}

impl<L: Linked, U: BudgetLedger, F: Ledger> BudgetLock<L, U, F> {
    /// A lock round the pool.
    pub fn new(pool: CountedBudget<L, U, F>) -> BudgetLock<L, U, F>
        ensures { result.budget_mb ≡ pool.budget_mb }
    {
        let budget_mb = pool.budget_mb();
        BudgetLock {
            shared: Mutex::new(pool),
            freed: Condvar::new(),
            budget_mb,
        }
    }

    /// The budget of the pool that it was made of.
    pub fn budget_mb(&self) -> u64
        ensures { result ≡ self.now.budget_mb }
    {
        self.budget_mb
    }

    /// The pool, once nobody uses the lock any more. It is the one that the lock was made of, since no other counts in its ledgers.
    pub fn into_pool(self) -> CountedBudget<L, U, F>
        ensures { result.budget_mb ≡ self.budget_mb }
    {
        let BudgetLock {
            shared,
            freed: _,
            budget_mb: _,
        } = self;
        let pool = shared.into_inner();
        // Of the pool, that its budget is its ledger's.
        let _ = pool.budget_mb();
        pool
    }

    /// As `CountedBudget::stop_idle`.
    pub(crate) fn stop_idle<R: Wait>(&self, rt: &R) -> Option<L> {
        let link = self.shared.lock(rt).stop_idle()?;
        self.freed.notify_all();
        Some(link)
    }

    /// Waits until there is room for a daemon that covers what is wanted.
    pub(crate) fn wait_for_room<R: Wait>(
        &self,
        rt: &R,
        alloc: Global,
        mine: &mut Tally<U, F>,
        wanted: &Wanted<'_>,
    ) -> Result<Room<L, CountedPermit<U>>, AllocError>
        ensures room { IfOk result (IsRoomFor L.requirements L.settled wanted.now.requirements.now wanted.now.request.now.unit) }
        ensures counted { MatchResult result (λ room. mine.new ≡ after_room mine.old room) (λ _. mine.new ≡ mine.old) }
    {
        let unit = wanted.request.unit;
        let mut shared = self.shared.lock(rt);
        for _ in rt.forever() {
            match shared.room(alloc, mine, unit, wanted.requirements)? {
                Room::Over(_) => shared = self.freed.wait(rt, shared),
                room => return Ok(room),
            }
        }
        unreachable!()
    }

    /// Waits until so many of the daemons that were given to stop have ended that the others have at most the budget with them.
    pub(crate) fn wait_for_ends<R: Wait>(&self, rt: &R) {
        let mut shared = self.shared.lock(rt);
        for _ in rt.forever() {
            if shared.is_within() {
                return;
            }
            shared = self.freed.wait(rt, shared);
        }
        unreachable!()
    }

    /// A daemon that was given to stop has ended, which had this heap.
    pub(crate) fn ended<R: Wait>(&self, rt: &R, heap_mb: u64) {
        self.shared.lock(rt).end(heap_mb);
        self.freed.notify_all();
    }

    /// As `CountedBudget::adopt`. It makes no room.
    pub(crate) fn adopt<R: Wait>(
        &self,
        rt: &R,
        alloc: Global,
        mine: &mut Tally<U, F>,
        permit: CountedPermit<U>,
        link: L,
    ) -> Result<Reserved<L>, (CountedPermit<U>, L)>
        requires { L.requirements link ≡ permit.permit.requirements }
        ensures adopted { IfOk result (λ reserved. reserved.link ≡ link) }
        ensures unit { IfOk result (λ reserved. reserved.unit ≡ permit.permit.unit) }
        ensures back { IfErr result (ComesBack permit link) }
        ensures counted { MatchResult result (λ _. mine.new ≡ and_reserved mine.old) (λ _. mine.new ≡ mine.old) }
    {
        self.shared.lock(rt).adopt(alloc, mine, permit, link)
    }

    /// As `CountedBudget::give_up`.
    pub(crate) fn give_up<R: Wait>(&self, rt: &R, permit: CountedPermit<U>) {
        self.shared.lock(rt).give_up(permit);
        self.freed.notify_all();
    }

    /// As `CountedBudget::release`.
    pub(crate) fn release<R: Wait>(&self, rt: &R, reserved: Reserved<L>) -> Option<L>
        requires { L.settled reserved.link ≡ true }
    {
        let spare = self.shared.lock(rt).release(reserved);
        self.freed.notify_all();
        spare
    }

    /// As `CountedBudget::fail`.
    pub(crate) fn fail<R: Wait>(&self, rt: &R, mine: &mut Tally<U, F>, reserved: Reserved<L>) -> L
        requires { L.settled reserved.link ≡ false }
        ensures link { result ≡ reserved.link }
        ensures counted { mine.new ≡ and_failed mine.old }
    {
        let link = self.shared.lock(rt).fail(mine, reserved);
        self.freed.notify_all();
        link
    }
}
