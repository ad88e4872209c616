//! A pool that knows the heaps of its daemons.
ghost use Rattle.std.specs.Prelude.{◌≡◌, ◌+◌, ◌<◌, ◌≤◌, ◌^◌, [], IfOk, IfErr, IfSome, OnOk, OnErr, false, length, true};
ghost use Rattle.std.specs.Prelude.{vec_capacity, vec_len};
ghost use Rattle.daemon_manager.specs.Calls.{Adopts, FailsOrNot, Releases, ReservesOrNot, StopsOrNot};
ghost use Rattle.daemon_manager.specs.Events.{IsLegal, NoneIdle};
ghost use Rattle.daemon_manager.specs.PoolView.{IsPool};
ghost use Rattle.memory_budget.specs.Heaps.{busy_heaps, held, idle_heaps};
ghost use Rattle.memory_budget.specs.Limits.{KeepsWithin};
ghost use Rattle.memory_budget.specs.Stops.{StopsShortest};

use crate::permits::heap_of;
use daemon_manager::{Event, Pool, Reserved};
use daemon_requirements::{Linked, Requirements};
use std::alloc::{AllocError, Global};
use std::marker::Model;

/// A pool, and the sums of the heaps of its daemons, which each call keeps. No call lets more be held at any moment than before, but the
/// adoption of a daemon.
pub(crate) struct HeldPool<L: Linked> {
    pool: Pool<L>,
    // Of those that are busy or idle.
    held_mb: u64,
    // Of those that are busy.
    busy_mb: u64,
}

impl<L: Linked> Model for HeldPool<L> {
    ghost use Rattle.daemon_manager.specs.PoolView.{PoolView};
    ghost use Rattle.memory_budget.specs.Sums.{AreSums};

    ghost Value = { PoolView L };

    ghost view = { λ p. p.pool };

    ghost invariant = { λ p. AreSums L.requirements p.pool p.held_mb p.busy_mb };
}

impl<L: Linked> HeldPool<L> {
    /// A pool without daemons.
    pub(crate) fn new(alloc: Global) -> Result<HeldPool<L>, AllocError>
        ensures events { IfOk result (λ p. p.events ≡ []) }
        ensures idle { IfOk result (λ p. p.idle ≡ []) }
    {
        let pool = Pool::new(alloc)?;
        Ok(HeldPool {
            pool,
            held_mb: 0,
            busy_mb: 0,
        })
    }

    /// The heaps of the daemons that are busy or idle.
    pub(crate) fn held_mb(&self) -> u64
        ensures value { result ≡ held self.now.events }
        ensures sums { held self.now.events ≡ busy_heaps self.now.events + idle_heaps L.requirements self.now.idle }
    {
        self.held_mb
    }

    /// The heaps of the busy daemons.
    pub(crate) fn busy_mb(&self) -> u64
        ensures value { result ≡ busy_heaps self.now.events }
        ensures most { busy_heaps self.now.events ≤ held self.now.events }
    {
        self.busy_mb
    }

    /// How many daemons are idle.
    pub(crate) fn idle(&self) -> usize
        ensures { result ≡ length self.now.idle }
    {
        self.pool.idle() as usize
    }

    /// All that happened.
    pub(crate) fn events(&self) -> &[Event]
        ensures value { result.now ≡ self.now.events }
        ensures sound { IsPool L.requirements self.now }
    {
        self.pool.events()
    }

    /// As `Pool::reserve_idle`.
    pub(crate) fn reserve_idle(
        &mut self,
        unit: u32,
        asked: &Requirements,
    ) -> Result<Option<Reserved<L>>, AllocError>
        ensures reserved { IfOk result (ReservesOrNot L.requirements self.old self.new asked.now unit) }
        ensures settled { IfOk result (λ found. IfSome found (λ reserved. L.settled reserved.link ≡ true)) }
        ensures no_memory { OnErr result (self.new ≡ self.old) }
        ensures held { held self.new.events ≡ held self.old.events }
        ensures within { KeepsWithin (held self.old.events) self.old.events self.new.events }
    {
        // Of the pool, that its events tell which daemons are idle.
        let _ = self.pool.events();
        let Some(mut reserved) = self.pool.reserve_idle(unit, asked)? else {
            return Ok(None);
        };
        self.busy_mb += heap_of(reserved.link().made_for());
        Ok(Some(reserved))
    }

    /// As `Pool::adopt`.
    pub(crate) fn adopt(
        &mut self,
        link: L,
        requirements: Requirements,
        unit: u32,
    ) -> Result<Reserved<L>, L>
        requires made { L.requirements link ≡ requirements }
        requires fits { held self.old.events + requirements.heap_mb < 2 ^ 64 }
        ensures adopted { IfOk result (Adopts L.requirements self.old self.new link requirements unit) }
        ensures no_memory { OnErr result (self.new ≡ self.old) }
        ensures link { IfErr result (λ returned. returned ≡ link) }
        ensures held { OnOk result (held self.new.events ≡ held self.old.events + requirements.heap_mb) }
        ensures within { KeepsWithin (held self.old.events + requirements.heap_mb) self.old.events self.new.events }
    {
        let heap_mb = heap_of(&requirements);
        let reserved = self.pool.adopt(link, requirements, unit)?;
        self.held_mb += heap_mb;
        self.busy_mb += heap_mb;
        Ok(reserved)
    }

    /// As `Pool::release`.
    pub(crate) fn release(&mut self, reserved: Reserved<L>) -> Option<L>
        requires { L.settled reserved.link ≡ true }
        ensures released { Releases L.requirements self.old self.new reserved result }
        ensures held { held self.new.events ≤ held self.old.events }
        ensures within { KeepsWithin (held self.old.events) self.old.events self.new.events }
    {
        let mut reserved = reserved;
        let heap_mb = heap_of(reserved.link().made_for());
        let events = self.pool.events().len();
        let spare = self.pool.release(reserved);
        // The pool has no more events where the daemon isn't its own.
        if self.pool.events().len() == events {
            return spare;
        }
        self.busy_mb -= heap_mb;
        match &spare {
            Some(link) => self.held_mb -= heap_of(link.made_for()),
            None => {}
        }
        spare
    }

    /// As `Pool::fail`.
    pub(crate) fn fail(&mut self, reserved: Reserved<L>) -> L
        requires { L.settled reserved.link ≡ false }
        ensures failed { FailsOrNot L.requirements self.old self.new reserved result }
        ensures held { held self.new.events ≤ held self.old.events }
        ensures within { KeepsWithin (held self.old.events) self.old.events self.new.events }
    {
        let events = self.pool.events().len();
        let link = self.pool.fail(reserved);
        if self.pool.events().len() > events {
            let heap_mb = heap_of(link.made_for());
            self.held_mb -= heap_mb;
            self.busy_mb -= heap_mb;
        }
        link
    }

    /// As `Pool::stop_idle`. No more than the heap of that daemon isn't held any more.
    pub(crate) fn stop_idle(&mut self) -> Option<L>
        ensures stopped { StopsOrNot self.old self.new result }
        ensures held { IfSome result (λ link. held self.old.events ≡ held self.new.events + (L.requirements link).heap_mb) }
        ensures most { held self.new.events ≤ held self.old.events }
        ensures busy { busy_heaps self.new.events ≡ busy_heaps self.old.events }
        ensures within { KeepsWithin (held self.old.events) self.old.events self.new.events }
    {
        // Of the pool, that its events tell which daemons are idle.
        let _ = self.pool.events();
        let link = self.pool.stop_idle()?;
        self.held_mb -= heap_of(link.made_for());
        Some(link)
    }

    /// Stops idle daemons, the first one first, until no more than this much memory is held. It looks at no further ones, and
    /// takes no memory.
    pub(crate) fn stop_down_to(&mut self, most_mb: u64, links: &mut Vec<L>)
        requires possible { busy_heaps self.old.events ≤ most_mb }
        requires empty { links.old.items ≡ [] }
        requires room { length self.old.idle ≤ vec_capacity links.old }
        ensures stopped { StopsShortest L.requirements self.old self.new most_mb links.new.items }
        ensures held { held self.new.events ≤ most_mb }
        ensures within { KeepsWithin (held self.old.events) self.old.events self.new.events }
    {
        while self.held_mb() > most_mb {
            // What is held and isn't busy is idle.
            let Some(link) = self.stop_idle() else {
                unreachable!()
            };
            links.push_reserved(link);
        }
    }

    /// All that happened, once no daemon is idle.
    pub(crate) fn into_events(self) -> Vec<Event>
        requires { self.idle ≡ [] }
        ensures value { result.items ≡ self.events }
        ensures legal { IsLegal result.items }
        ensures none_idle { NoneIdle result.items }
    {
        let HeldPool {
            pool,
            held_mb: _,
            busy_mb: _,
        } = self;
        pool.into_events()
    }
}
