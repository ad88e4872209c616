//! All events, and what each daemon does.
ghost use Rattle.std.specs.Prelude.{◌≡◌, ◌↔◌, ◌+◌, ◌<◌, ◌≤◌, ◌^◌, ◌++◌, ◌∷◌, [], IfOk, IsSomeAnd, IsTrue};
ghost use Rattle.std.specs.Prelude.{None, OnOk, OnErr, Some, length, vec_capacity, vec_len};
ghost use Rattle.daemon_manager.specs.Events.{daemon_of, pool, started_with};
ghost use Rattle.daemon_manager.specs.EventLogView.{Notes, NotesStart, OnlyMoreRoom, one_if_busy};
ghost use Rattle.daemon_manager.specs.declared.events.DaemonState.TheVariants.{Busy};
ghost use Rattle.daemon_manager.specs.declared.events.Event.TheVariants.{Reserved, Started};

use crate::events::{DaemonState, Event};
use daemon_requirements::Requirements;
use std::alloc::{AllocError, Global};
use std::marker::Model;

/// What is kept of a daemon beside its events.
#[derive(Drop)]
pub(crate) struct Daemon {
    // The place of its Started event.
    started: usize,
    state: DaemonState,
}

/// All events in their order, with room for more.
#[derive(Drop)]
pub(crate) struct EventLog {
    events: Vec<Event>,
    // The daemons by their numbers.
    daemons: Vec<Daemon>,
    // How many daemons are busy.
    busy: usize,
}

impl Model for EventLog {
    ghost use Rattle.std.specs.Prelude.{◌-◌, vec_capacity, vec_len};
    ghost use Rattle.daemon_manager.specs.EventLogView.{EventLogView, IsEventLog};

    ghost Value = { EventLogView };

    ghost view = { λ l. record { events = l.events.items; busy = l.busy; room = vec_capacity l.events - vec_len l.events } };

    ghost invariant = { λ l. IsEventLog l.events.items l.daemons.items l.busy };
}

impl EventLog {
    /// No events.
    pub(crate) fn new(alloc: Global) -> EventLog
        ensures events { result.events ≡ [] }
        ensures busy { result.busy ≡ 0 }
    {
        EventLog {
            events: Vec::new(alloc),
            daemons: Vec::new(alloc),
            busy: 0,
        }
    }

    /// What happened so far, in order.
    pub(crate) fn events(&self) -> &[Event]
        ensures { result.now ≡ self.now.events }
    {
        self.events.as_slice()
    }

    /// What happened, in order.
    pub(crate) fn into_events(self) -> Vec<Event>
        ensures { result.items ≡ self.events }
    {
        self.events
    }

    /// How many daemons are busy.
    pub(crate) fn busy(&self) -> usize
        ensures value { result ≡ self.now.busy }
        ensures room { self.now.room < 2 ^ 63 }
    {
        // Of the events, that there are fewer than addresses.
        let _ = &self.events;
        self.busy
    }

    /// Takes memory for `more` further events.
    pub(crate) fn make_room(&mut self, more: usize) -> Result<(), AllocError>
        ensures same { OnlyMoreRoom self.old self.new }
        ensures room { OnOk result (more ≤ self.new.room) }
    {
        self.events.reserve(more)
    }

    /// Notes that the next daemon was started and reserved for the unit, and takes memory for `more` further events.
    pub(crate) fn start(
        &mut self,
        requirements: Requirements,
        unit: u32,
        more: usize,
    ) -> Result<u64, AllocError>
        requires { more + 2 < 2 ^ 64 }
        ensures started { IfOk result (λ daemon. NotesStart self.old self.new requirements unit more daemon) }
        ensures no_memory { OnErr result (OnlyMoreRoom self.old self.new) }
    {
        self.events.reserve(more + 2)?;
        let daemon = add_busy(&mut self.daemons, self.events.len())?;
        add_start(&mut self.events, daemon, requirements, unit);
        self.busy += 1;
        Ok(daemon)
    }

    /// Notes an event of a daemon that was started, and did `before` until now; it takes no memory.
    pub(crate) fn note(&mut self, event: Event, before: DaemonState)
        requires known { IsSomeAnd (pool self.old.events (daemon_of event)) (λ daemon. daemon.state ≡ before) }
        requires no_start { started_with event ≡ None }
        requires room { 1 ≤ self.old.room }
        ensures { Notes self.old self.new event before }
    {
        let daemon = event.daemon() as usize;
        let state = event.state();
        let _ = self.events.push(event);
        self.daemons[daemon].state = state;
        self.busy = self.busy + one_if_busy(state) - one_if_busy(before);
    }

    /// Whether the daemon is busy and was started with these requirements.
    pub(crate) fn is_busy_with(&self, daemon: u64, requirements: &Requirements) -> bool
        ensures value { IsTrue result ↔ (pool self.now.events daemon ≡ Some (record { requirements = requirements.now; state = Busy })) }
        ensures counted { IsTrue result → 1 ≤ self.now.busy }
    {
        match self.daemons.get(daemon as usize) {
            Some(kept) => {
                is_busy(kept.state) && is_start_with(&self.events[kept.started], requirements)
            }
            None => false,
        }
    }
}

// Puts one more daemon, which is busy, behind the others, and gives its number.
fn add_busy(daemons: &mut Vec<Daemon>, started: usize) -> Result<u64, AllocError>
    ensures number { IfOk result (λ daemon. daemon ≡ length daemons.old.items) }
    ensures added { OnOk result (daemons.new.items ≡ daemons.old.items ++ record { started = started; state = Busy } ∷ []) }
    ensures no_memory { OnErr result (daemons.new.items ≡ daemons.old.items) }
{
    let daemon = daemons.len() as u64;
    let state = DaemonState::Busy;
    daemons.push(Daemon { started, state })?;
    Ok(daemon)
}

// Puts the start of a daemon and its reservation behind the events; it takes no memory.
fn add_start(events: &mut Vec<Event>, daemon: u64, requirements: Requirements, unit: u32)
    requires { vec_len events.old + 2 ≤ vec_capacity events.old }
    ensures items { events.new.items ≡ (events.old.items ++ Started daemon requirements ∷ []) ++ Reserved daemon unit ∷ [] }
    ensures len { vec_len events.new ≡ vec_len events.old + 2 }
    ensures capacity { vec_capacity events.old ≤ vec_capacity events.new }
{
    let _ = events.push(Event::Started(daemon, requirements));
    let _ = events.push(Event::Reserved(daemon, unit));
}

// 1 for a daemon that is busy, and else 0.
fn one_if_busy(state: DaemonState) -> usize
    ensures { result ≡ one_if_busy state }
{
    match state {
        DaemonState::Busy => 1,
        _ => 0,
    }
}

// Whether a daemon in this state is busy.
fn is_busy(state: DaemonState) -> bool
    ensures { IsTrue result ↔ (state ≡ Busy) }
{
    matches!(state, DaemonState::Busy)
}

// Whether the event is the start of a daemon with these requirements.
fn is_start_with(event: &Event, requirements: &Requirements) -> bool
    ensures { IsTrue result ↔ (started_with event.now ≡ Some requirements.now) }
{
    match event {
        Event::Started(_, started) => started.equals(requirements),
        _ => false,
    }
}
