//! Tickets of work, in a queue that threads share without a lock: first in, first out, each popped at most once.
#![tactic(auto)]

mod opening;
mod rule;
mod seats;
mod tickets;

pub use rule::{Line, Sight};
pub use seats::TicketSeat;
pub use tickets::{Tickets, TicketsOpened};
