//! The idle daemons in the order of their release. Their numbers are kept in a slab.
ghost use Rattle.std.specs.Prelude.{◌≡◌, ◌+◌, ◌<◌, ◌≤◌, ◌++◌, ◌∷◌, [], All, IfOk, IsSomeAnd, MatchOption, Some, drop};
ghost use Rattle.std.specs.Prelude.{length, remove, slice_get};
ghost use Rattle.daemon_requirements.specs.Covers.{Covers};
ghost use Rattle.daemon_manager.specs.IdleOrder.{IsLastCovering};

use daemon_requirements::{Linked, Requirements};
use slab::Slab;
use std::alloc::{AllocError, Global};
use std::marker::Model;

/// The most daemons that stay idle.
pub const MAX_IDLE_DAEMONS: usize = 8;

/// How many daemons there is room for: one more is idle until the least recently released one is stopped.
const ROOM: usize = MAX_IDLE_DAEMONS + 1;

/// A daemon that is idle, with the link to it. It can't be dropped, as the link can't.
pub struct IdleDaemon<L> {
    pub(crate) daemon: u64,
    pub(crate) link: L,
}

/// The link to an idle daemon, and the key of the daemon's number in the slab.
pub(crate) struct KeyedLink<L> {
    key: usize,
    link: L,
}

/// The idle daemons, the least recently released one first. A daemon's number says where it is kept, so no call looks through the
/// events. The links stand in the order itself, a `Vec`, which can be ended where it has no elements: a slab of values that can't be
/// dropped could never be let go, even when it is empty.
pub(crate) struct IdleDaemons<L> {
    numbers: Slab<u64>,
    order: Vec<KeyedLink<L>>,
}

impl<L> Model for IdleDaemons<L> {
    ghost use Rattle.std.specs.Prelude.{List, vec_capacity};
    ghost use Rattle.daemon_manager.specs.declared.idle.IdleDaemon.{IdleDaemon};

    ghost Value = { List (IdleDaemon L) };

    ghost use Rattle.daemon_manager.specs.IdleOrder.{in_order, IsInOrder};

    ghost view = { λ d. in_order d.numbers d.order.items };

    ghost invariant = { λ d. IsInOrder d.numbers d.order.items (vec_capacity d.order) };
}

impl<L> IdleDaemons<L> {
    /// None is idle. There is room for `MAX_IDLE_DAEMONS` and one more.
    pub(crate) fn new(alloc: Global) -> Result<IdleDaemons<L>, AllocError>
        ensures { IfOk result (λ d. d ≡ []) }
    {
        let numbers = Slab::with_capacity(alloc, ROOM)?;
        let order = Vec::with_capacity(alloc, ROOM)?;
        Ok(IdleDaemons { numbers, order })
    }

    /// How many daemons are idle.
    pub(crate) fn len(&self) -> usize
        ensures { result ≡ length self.now }
    {
        self.order.len()
    }

    /// The link of the daemon at this place of the order.
    pub(crate) fn link_at(&self, place: usize) -> &L
        requires { place < length self.now }
        ensures { IsSomeAnd (slice_get self.now place) (λ idle. idle.link ≡ result.now) }
    {
        &self.order[place].link
    }

    /// Puts a daemon at the end of the order; it takes no memory.
    pub(crate) fn push(&mut self, daemon: IdleDaemon<L>)
        requires { length self.old ≤ MAX_IDLE_DAEMONS }
        ensures { self.new ≡ self.old ++ daemon ∷ [] }
    {
        let IdleDaemon { daemon, link } = daemon;
        let key = self.numbers.insert_reserved(daemon);
        self.order.push_reserved(KeyedLink { key, link });
    }

    /// Takes the daemon at this place out of the order.
    pub(crate) fn remove(&mut self, place: usize) -> IdleDaemon<L>
        requires { place < length self.old }
        ensures daemon { slice_get self.old place ≡ Some result }
        ensures others { self.new ≡ remove self.old place }
    {
        let KeyedLink { key, link } = self.order.remove(place);
        let daemon = self.numbers.remove(key);
        IdleDaemon { daemon, link }
    }

    /// Ends an order without daemons.
    pub(crate) fn destroy_empty(self)
        requires { self ≡ [] }
    {
        let IdleDaemons { numbers: _, order } = self;
        order.destroy_empty();
    }
}

impl<L: Linked> IdleDaemons<L> {
    /// The place of the last daemon that covers what is asked.
    pub(crate) fn last_covering(&self, asked: &Requirements) -> Option<usize>
        ensures { IsLastCovering L.requirements self.now asked.now result }
    {
        for place in (0..self.len()).rev() {
            if self.link_at(place).made_for().covers(asked) {
                return Some(place);
            }
        }
        None
    }
}
