//! A pool of daemons: what happened to all, and the links to the idle ones.
ghost use Rattle.std.specs.Prelude.{◌≡◌, ◌+◌, ◌<◌, ◌^◌, [], IfOk, IfErr, IfSome, OnErr, false, length, true};
ghost use Rattle.daemon_manager.specs.Calls.{Adopts, FailsOrNot, Releases, ReservesOrNot, StopsOrNot};
ghost use Rattle.daemon_manager.specs.Events.{NoneIdle, IsLegal, idle};
ghost use Rattle.daemon_manager.specs.PoolView.{HasRoom, IsPool};

use crate::event_log::EventLog;
use crate::events::{DaemonState, Event};
use crate::idle::{IdleDaemon, IdleDaemons, MAX_IDLE_DAEMONS};
use crate::reserved::Reserved;
use daemon_requirements::{Linked, Requirements};
use std::alloc::{AllocError, Global};
use std::marker::Model;

/// The daemons of a run, by what happened to them. The pool holds the links to the idle ones itself, so nobody
/// else has one. It can't be dropped: it ends by `into_events`, once no daemon is idle.
pub struct Pool<L: Linked> {
    event_log: EventLog,
    idle: IdleDaemons<L>,
}

impl<L: Linked> Model for Pool<L> {
    ghost use Rattle.std.specs.Prelude.{length};
    ghost use Rattle.daemon_manager.specs.PoolView.{PoolView, AreSettled, HasRoom, IsPool};

    ghost Value = { PoolView L };

    ghost view = { λ p. record { events = p.event_log.events; idle = p.idle } };

    ghost invariant = { λ p. IsPool L.requirements (record { events = p.event_log.events; idle = p.idle })
        × HasRoom p.event_log (length p.idle) × AreSettled L.settled p.idle };
}

impl<L: Linked> Pool<L> {
    /// A pool to which nothing has happened. The error is want of memory alone.
    pub fn new(alloc: Global) -> Result<Pool<L>, AllocError>
        ensures events { IfOk result (λ p. p.events ≡ []) }
        ensures idle { IfOk result (λ p. p.idle ≡ []) }
    {
        let event_log = EventLog::new(alloc);
        let idle = IdleDaemons::new(alloc)?;
        Ok(Pool { event_log, idle })
    }

    /// Reserves for the unit, of the idle daemons that cover what is asked, the one that was released last. Its link is
    /// settled. It gives None, and changes nothing, exactly where none covers. The error is want of memory alone, and
    /// changes nothing.
    pub fn reserve_idle(
        &mut self,
        unit: u32,
        asked: &Requirements,
    ) -> Result<Option<Reserved<L>>, AllocError>
        ensures reserved { IfOk result (ReservesOrNot L.requirements self.old self.new asked.now unit) }
        ensures settled { IfOk result (λ found. IfSome found (λ reserved. L.settled reserved.link ≡ true)) }
        ensures no_memory { OnErr result (self.new ≡ self.old) }
    {
        let Some(place) = self.idle.last_covering(asked) else {
            return Ok(None);
        };
        let more = needed(&self.event_log, self.idle.len()) + 2;
        self.event_log.make_room(more)?;
        let IdleDaemon { daemon, link } = self.idle.remove(place);
        self.event_log
            .note(Event::Reserved(daemon, unit), DaemonState::Idle);
        Ok(Some(Reserved { daemon, unit, link }))
    }

    /// Takes a daemon in that was just started with these requirements, reserved for the unit. Where there is no memory
    /// the link comes back, and nothing changes.
    pub fn adopt(
        &mut self,
        link: L,
        requirements: Requirements,
        unit: u32,
    ) -> Result<Reserved<L>, L>
        requires { L.requirements link ≡ requirements }
        ensures adopted { IfOk result (Adopts L.requirements self.old self.new link requirements unit) }
        ensures no_memory { OnErr result (self.new ≡ self.old) }
        ensures link { IfErr result (λ returned. returned ≡ link) }
    {
        let more = needed(&self.event_log, self.idle.len()) + 2;
        let Ok(daemon) = self.event_log.start(requirements, unit, more) else {
            return Err(link);
        };
        Ok(Reserved { daemon, unit, link })
    }

    /// Takes a daemon back, which becomes the last released one. Its link has to be settled. Where `MAX_IDLE_DAEMONS` were
    /// idle before, the first of them is stopped: its link is given, for the caller to stop. The link of a value that isn't
    /// this pool's comes back, and nothing changes. It takes no memory.
    pub fn release(&mut self, reserved: Reserved<L>) -> Option<L>
        requires { L.settled reserved.link ≡ true }
        ensures { Releases L.requirements self.old self.new reserved result }
    {
        let asked = reserved.link.made_for();
        let is_own = self.event_log.is_busy_with(reserved.daemon, asked);
        let Reserved {
            daemon,
            unit: _,
            link,
        } = reserved;
        if !is_own {
            return Some(link);
        }
        self.event_log
            .note(Event::Released(daemon), DaemonState::Busy);
        self.idle.push(IdleDaemon { daemon, link });
        if self.idle.len() <= MAX_IDLE_DAEMONS {
            return None;
        }
        let IdleDaemon { daemon, link } = self.idle.remove(0);
        self.event_log
            .note(Event::Stopped(daemon), DaemonState::Idle);
        Some(link)
    }

    /// Takes note that a daemon failed its unit: it is never idle again. Its link isn't settled, and is given, for the
    /// caller to stop. The link of a value that isn't this pool's comes back, and nothing changes. It takes no memory.
    pub fn fail(&mut self, reserved: Reserved<L>) -> L
        requires { L.settled reserved.link ≡ false }
        ensures { FailsOrNot L.requirements self.old self.new reserved result }
    {
        let asked = reserved.link.made_for();
        let is_own = self.event_log.is_busy_with(reserved.daemon, asked);
        let Reserved {
            daemon,
            unit: _,
            link,
        } = reserved;
        if is_own {
            self.event_log
                .note(Event::Failed(daemon), DaemonState::Busy);
        }
        link
    }

    /// Gives the link of the idle daemon that was released first, for the caller to stop. It gives None exactly where
    /// none is idle. It takes no memory.
    pub fn stop_idle(&mut self) -> Option<L>
        ensures { StopsOrNot self.old self.new result }
    {
        if self.idle.len() == 0 {
            return None;
        }
        let IdleDaemon { daemon, link } = self.idle.remove(0);
        self.event_log
            .note(Event::Stopped(daemon), DaemonState::Idle);
        Some(link)
    }

    /// How many daemons are idle.
    pub fn idle(&self) -> u32
        ensures count { result ≡ length self.now.idle }
        ensures events { result ≡ length (idle self.now.events) }
    {
        self.idle.len() as u32
    }

    /// All that happened, in its order.
    pub fn events(&self) -> &[Event]
        ensures value { result.now ≡ self.now.events }
        ensures sound { IsPool L.requirements self.now }
    {
        self.event_log.events()
    }

    /// All that happened, once no daemon is idle. It takes no memory.
    pub fn into_events(self) -> Vec<Event>
        requires { self.idle ≡ [] }
        ensures value { result.items ≡ self.events }
        ensures legal { IsLegal result.items }
        ensures none_idle { NoneIdle result.items }
    {
        let Pool { event_log, idle } = self;
        idle.destroy_empty();
        event_log.into_events()
    }
}

// How many more events the daemons may need: two of each busy one (its release or failure, its stop), and one of each idle one. Room
// for them is taken when a daemon is reserved.
fn needed(event_log: &EventLog, idle_count: usize) -> usize
    requires { HasRoom event_log.now idle_count }
    ensures value { result ≡ event_log.now.busy + event_log.now.busy + idle_count }
    ensures bound { result < 2 ^ 63 }
{
    let busy = event_log.busy();
    busy + busy + idle_count
}
