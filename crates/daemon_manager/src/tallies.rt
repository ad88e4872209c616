//! How the users of a pool count what they do. What is counted takes no bytes and no time.
ghost use Rattle.std.specs.Prelude.{◌≡◌, ◌+◌, ◌<◌};
ghost use Rattle.daemon_manager.specs.Counts.{and_failed, and_reserved};

use std::marker::{Brand, Model};
use std::sync::ledger::{Blank, Book, Ledger, Share};

/// The ledger of the reservations of a pool, and what the units may ask the pool for.
pub trait ReservationLedger: Ledger {
    ghost use Rattle.std.specs.Prelude.{ℕ};
    ghost use Rattle.daemon_requirements.specs.RequirementsView.{RequirementsView};

    /// Whether the unit with a number may ask for a daemon that covers these requirements.
    ghost asks: { ℕ → RequirementsView → Type 0 };
}

impl ReservationLedger for Brand {
    ghost asks = { λ unit asked. ⊥ };
}

/// What one worker did with the daemons of a pool: how many it reserved, and how many it gave back as failed.
///
/// `U` is the ledger of the uses, and `F` that of the failures. Only the pool that has the books of these ledgers counts in it.
#[derive(Drop)]
pub struct Tally<U: Ledger, F: Ledger> {
    reserved: Share<U>,
    failed: Share<F>,
}

impl<U: Ledger, F: Ledger> Model for Tally<U, F> {
    ghost use Rattle.std.specs.Prelude.{◌≡◌};
    ghost use Rattle.daemon_manager.specs.Counts.{TallyView};

    ghost Value = { TallyView };

    ghost view = { λ t. record { reserved = t.reserved.amount; failed = t.failed.amount } };

    ghost invariant = { λ t. (t.reserved.parts ≡ 1) × (t.failed.parts ≡ 1) };
}

/// The tallies that came back, and those that weren't given out yet. Where they are all parts, they tell what all workers did.
#[derive(Drop)]
pub struct Tallies<U: Ledger, F: Ledger> {
    reserved: Share<U>,
    failed: Share<F>,
}

impl<U: Ledger, F: Ledger> Model for Tallies<U, F> {
    ghost use Rattle.std.specs.Prelude.{◌≡◌};
    ghost use Rattle.daemon_manager.specs.Counts.{TalliesView};

    ghost Value = { TalliesView };

    ghost view = { λ t. record { parts = t.reserved.parts; reserved = t.reserved.amount; failed = t.failed.amount } };

    ghost invariant = { λ t. t.reserved.parts ≡ t.failed.parts };
}

impl<U: Ledger, F: Ledger> Tallies<U, F> {
    /// A tally for a worker, in which nothing is counted. One part always stays.
    pub fn split_off(&mut self) -> Tally<U, F>
        requires { 1 < self.old.parts }
        ensures tally { result ≡ record { reserved = 0; failed = 0 } }
        ensures parts { self.new.parts + 1 ≡ self.old.parts }
        ensures reserved { self.new.reserved ≡ self.old.reserved }
        ensures failed { self.new.failed ≡ self.old.failed }
    {
        Tally {
            reserved: self.reserved.split_off(1, 0),
            failed: self.failed.split_off(1, 0),
        }
    }

    /// Takes a worker's tally back.
    pub fn merge(&mut self, tally: Tally<U, F>)
        ensures parts { self.new.parts ≡ self.old.parts + 1 }
        ensures reserved { self.new.reserved ≡ self.old.reserved + tally.reserved }
        ensures failed { self.new.failed ≡ self.old.failed + tally.failed }
    {
        let Tally { reserved, failed } = tally;
        self.reserved.merge(reserved);
        self.failed.merge(failed);
    }
}

/// The books of a pool, in which its users count what they do. They are the pool's own, so nobody counts but by its calls.
pub struct TallyBooks<U: Ledger, F: Ledger> {
    reserved: Book<U>,
    failed: Book<F>,
}

impl<U: Ledger, F: Ledger> Model for TallyBooks<U, F> {
    ghost use Rattle.daemon_manager.specs.Counts.{TallyView};

    ghost Value = { TallyView };

    ghost view = { λ b. record { reserved = b.reserved.total; failed = b.failed.total } };
}

impl<U: Ledger, F: Ledger> TallyBooks<U, F> {
    /// Opens these ledgers, in which nothing is counted. It gives all parts, for the tallies.
    pub fn open(reserved: Blank, failed: Blank) -> (TallyBooks<U, F>, Tallies<U, F>)
        requires reserved { (reserved.name ≡ U.name) × (reserved.parts ≡ U.parts) }
        requires failed { (failed.name ≡ F.name) × (failed.parts ≡ F.parts) }
        requires parts { U.parts ≡ F.parts }
        ensures books { result.0 ≡ record { reserved = 0; failed = 0 } }
        ensures tallies { result.1 ≡ record { parts = U.parts; reserved = 0; failed = 0 } }
    {
        let (reserved, uses) = reserved.open::<U>();
        let (failed, failures) = failed.open::<F>();
        let tallies = Tallies {
            reserved: uses,
            failed: failures,
        };
        (TallyBooks { reserved, failed }, tallies)
    }

    /// Counts a daemon that was reserved.
    pub fn add_reserved(&mut self, mine: &mut Tally<U, F>)
        ensures books { self.new ≡ and_reserved self.old }
        ensures tally { mine.new ≡ and_reserved mine.old }
    {
        self.reserved.add(&mut mine.reserved, 1);
    }

    /// Counts a daemon that failed.
    pub fn add_failed(&mut self, mine: &mut Tally<U, F>)
        ensures books { self.new ≡ and_failed self.old }
        ensures tally { mine.new ≡ and_failed mine.old }
    {
        self.failed.add(&mut mine.failed, 1);
    }

    /// Ends the counting. Where the tallies are all parts, they have what was counted.
    pub fn audit(self, all: Tallies<U, F>)
        ensures reserved { all.parts ≡ U.parts → self.reserved ≡ all.reserved }
        ensures failed { all.parts ≡ F.parts → self.failed ≡ all.failed }
    {
        let TallyBooks {
            mut reserved,
            mut failed,
        } = self;
        let mut all = all;
        reserved.audit(&mut all.reserved);
        failed.audit(&mut all.failed);
    }
}
