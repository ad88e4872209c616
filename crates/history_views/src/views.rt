//! Views of a history.
ghost use Rattle.std.specs.Prelude.{◌≡◌, ◌≤◌, true, false, length};
ghost use Rattle.resource_lock.specs.StateView.{leases_out};
ghost use Rattle.left_right.specs.Sides.{view as known_at};
ghost use Rattle.history_views.specs.Boards.{Names};
ghost use Rattle.history_views.specs.Growing.{Exceeds, IsSound, last_book};

use crate::boards::{BoardReader, read};
use crate::reaches::Reach;
use std::marker::Model;

/// How far a history has come: how many entries it has, and how many leases are out after them.
#[derive(Clone, Copy, PartialEq, Eq)]
pub struct Extent {
    pub entries: u64,
    pub leases: u32,
}

/// What a thread sees of a history without its lock. Contracts see the furthest that it has seen.
#[derive(Drop)]
pub struct View {
    // None while it reads.
    reader: Option<BoardReader>,
    reach: Reach,
}

impl Model for View {
    ghost use Rattle.std.specs.Prelude.{IfSome};
    ghost use Rattle.history_views.specs.Growing.{ReachView};
    ghost use Rattle.history_views.specs.Boards.{Names};
    ghost use Rattle.left_right.specs.Sides.{view as known_at};

    ghost Value = { ReachView };

    ghost view = { λ v. v.reach };

    ghost invariant = { λ v. IfSome v.reader (λ r. Names v.reach.ledger (known_at r.place)) };
}

impl View {
    /// A view over a reader.
    pub(crate) fn over(reader: BoardReader, reach: &Reach) -> View
        requires { Names reach.now.ledger (known_at reader.place) }
        ensures { result ≡ reach.now }
    {
        View {
            reader: Some(reader),
            reach: reach.again(),
        }
    }

    /// Looks. It never waits and takes no memory. It shows a prefix of the history, which has all that this view saw before
    /// and all that it learnt.
    #[tactic(auto, using(crate::proofs::Chains::later_self))]
    pub fn look(&mut self) -> Extent
        ensures ledger { self.new.ledger ≡ self.old.ledger }
        ensures entries { result.entries ≡ length (last_book self.new.log).history }
        ensures leases { result.leases ≡ leases_out (last_book self.new.log).state }
        ensures few { result.leases ≤ (last_book self.new.log).graph.max_leases }
        ensures sound { IsSound (last_book self.new.log) }
        ensures grows { Exceeds self.old self.new }
    {
        if let Some(reader) = self.reader.take() {
            let (reader, found) = read(reader, &self.reach);
            self.reader = Some(reader);
            if let Some(found) = found {
                self.reach = self.reach.further(&found);
            }
        }
        Extent {
            entries: self.reach.entries(),
            leases: self.reach.leases(),
        }
    }

    /// Learns how far somebody knows that the history has come. From now on it shows no less.
    pub fn learn(&mut self, reach: &Reach)
        requires { reach.now.ledger ≡ self.old.ledger }
        ensures ledger { self.new.ledger ≡ self.old.ledger }
        ensures grows { Exceeds self.old self.new }
        ensures learnt { Exceeds reach.now self.new }
    {
        self.reach = self.reach.further(reach);
    }

    /// Whether this view has seen less than another. Of two views of one history one has always seen a beginning of what the
    /// other has seen.
    pub fn is_behind(&self, other: &View) -> bool
        requires { other.now.ledger ≡ self.now.ledger }
        ensures behind { result ≡ true → Exceeds self.now other.now }
        ensures not { result ≡ false → Exceeds other.now self.now }
    {
        self.reach.is_behind(&other.reach)
    }

    /// Whether what this view has seen is a beginning of what somebody knows of the history, as who finished its book. It is false where
    /// the view has seen more.
    pub fn is_within(&self, reach: &Reach) -> bool
        requires { reach.now.ledger ≡ self.now.ledger }
        ensures within { result ≡ true → Exceeds self.now reach.now }
        ensures not { result ≡ false → Exceeds reach.now self.now }
    {
        !reach.is_behind(&self.reach)
    }
}
