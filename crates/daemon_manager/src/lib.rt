//! The pool of daemons: which are idle, and everything that happened to each.
#![tactic(auto)]

mod counted_pool;
mod event_log;
mod events;
mod idle;
mod laws;
mod pools;
mod reserved;
mod searches;
mod tallies;

pub use counted_pool::CountedPool;
pub use events::{DaemonState, Event};
pub use idle::MAX_IDLE_DAEMONS;
pub use laws::{busy_daemons_are_given_to_nobody_else, events_about_others_leave_a_daemon_alone};
pub use pools::Pool;
pub use reserved::Reserved;
pub use searches::{Search, StartLeave};
pub use tallies::{ReservationLedger, Tallies, Tally, TallyBooks};
