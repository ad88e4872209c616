//! How far the history has come, as one thread knows it.
ghost use Rattle.std.specs.Prelude.{◌≡◌, ◌≤◌, ◌⊎◌, true, false, length};
ghost use Rattle.resource_lock.specs.StateView.{leases_out};
ghost use Rattle.history_views.specs.Growing.{Exceeds, IsSound, last_book};

use lock_journal::Book;
use logbook::{Gain, Plain, Play, Rule, Seen};
use std::marker::Model;

/// The rule of a ledger: its books follow one another, and its word counts them.
pub struct Growing;

impl Rule<Book, u64> for Growing {
    ghost use Rattle.std.specs.Prelude.{[]};
    ghost use base.Fml.{ftrue};
    ghost use Rattle.history_views.specs.Growing.{IsKept};

    ghost holds = { λ cells log. IsKept cells log };

    ghost first = { [] };

    ghost hinted = { λ n log. Unit {0} };

    ghost shows = { λ log. [] };

    ghost keeps = { λ names log. ftrue };

    ghost moves = { λ ask before after answer. Unit {0} };
}

/// Threads trade nothing.
pub struct Nothing;

impl Gain<Book, u64> for Nothing {
    ghost use base.Fml.{ftrue};

    ghost after = { λ names about answer. ftrue };
}

/// The step that adds a book.
pub struct Add;

impl Play<Book, u64> for Add {
    ghost use Rattle.history_views.specs.Growing.{Adds};

    ghost then = { Adds };
}

impl Plain<Book, Book, u64> for Add {
    ghost use Rattle.std.specs.Prelude.{None};

    ghost ask = { λ book. book };

    ghost state = { λ book. None };
}

/// What somebody knows of a history: that it has come to a book with so many entries and so many leases out. Contracts see
/// which ledger says so, and the books that it had then.
pub struct Reach {
    pub(crate) entries: u64,
    pub(crate) leases: u32,
    pub(crate) token: Seen<Book, u64, Growing>,
}

// By hand, so that crates that let one go call this, in place of proving what it does anew.
impl Drop for Reach {
    fn drop(self) {
        let Reach {
            entries: _,
            leases: _,
            token: _,
        } = self;
    }
}

impl Model for Reach {
    ghost use Rattle.history_views.specs.Growing.{IsCounted, ReachView};

    ghost Value = { ReachView };

    ghost view = { λ r. record { ledger = r.token.book; log = r.token.log } };

    ghost invariant = { λ r. IsCounted r.entries r.leases r.token.log };
}

impl Reach {
    /// How many entries the history had.
    pub fn entries(&self) -> u64
        ensures { result ≡ length (last_book self.now.log).history }
    {
        self.entries
    }

    /// How many leases were out, which is never more than may be.
    pub fn leases(&self) -> u32
        ensures out { result ≡ leases_out (last_book self.now.log).state }
        ensures few { result ≤ (last_book self.now.log).graph.max_leases }
        ensures sound { IsSound (last_book self.now.log) }
    {
        self.leases
    }

    /// A copy.
    pub fn again(&self) -> Reach
        ensures { result ≡ self.now }
    {
        Reach {
            entries: self.entries,
            leases: self.leases,
            token: self.token.again(),
        }
    }

    /// Whether another has come further. Of two reaches of one history one is always a beginning of the other.
    pub fn is_behind(&self, other: &Reach) -> bool
        requires { other.now.ledger ≡ self.now.ledger }
        ensures behind { result ≡ true → Exceeds self.now other.now }
        ensures not { result ≡ false → Exceeds other.now self.now }
    {
        let mut both = self.token.again();
        both.learn(&other.token);
        self.entries < other.entries
    }

    #[tactic(auto, using(crate::proofs::Chains::later_self))]
    /// A copy of the one of two that has come further. The other is a beginning of it.
    pub fn further(&self, other: &Reach) -> Reach
        requires { other.now.ledger ≡ self.now.ledger }
        ensures one { (result ≡ self.now) ⊎ (result ≡ other.now) }
        ensures this { Exceeds self.now result }
        ensures that { Exceeds other.now result }
    {
        if self.is_behind(other) {
            other.again()
        } else {
            self.again()
        }
    }
}
