//! What happens to daemons.
ghost use Rattle.std.specs.Prelude.{◌≡◌};
ghost use Rattle.daemon_manager.specs.Events.{daemon_of, state_after};

use daemon_requirements::Requirements;

/// What happened to the daemon with a number. Daemons are numbered from 0 in the order of their start.
#[derive(Drop)]
pub enum Event {
    /// It was started with these requirements.
    Started(u64, Requirements),
    /// It was reserved for the unit with this number.
    Reserved(u64, u32),
    /// Its user gave it back, and it can be reserved again.
    Released(u64),
    /// It failed its user, and is never used again.
    Failed(u64),
    /// It was idle and was stopped.
    Stopped(u64),
}

/// What a daemon is doing.
#[derive(Clone, Copy)]
pub enum DaemonState {
    /// It was started or reserved, and works for a unit.
    Busy,
    /// It was released, and waits.
    Idle,
    /// It failed, for good.
    Failed,
    /// It was stopped, for good.
    Stopped,
}

impl Event {
    /// The number of the daemon that the event is about.
    pub fn daemon(&self) -> u64
        ensures { result ≡ daemon_of self.now }
    {
        match self {
            Event::Started(daemon, _) | Event::Reserved(daemon, _) => *daemon,
            Event::Released(daemon) | Event::Failed(daemon) | Event::Stopped(daemon) => *daemon,
        }
    }

    /// What the daemon does from this event on.
    pub fn state(&self) -> DaemonState
        ensures { result ≡ state_after self.now }
    {
        match self {
            Event::Started(..) | Event::Reserved(..) => DaemonState::Busy,
            Event::Released(_) => DaemonState::Idle,
            Event::Failed(_) => DaemonState::Failed,
            Event::Stopped(_) => DaemonState::Stopped,
        }
    }
}
