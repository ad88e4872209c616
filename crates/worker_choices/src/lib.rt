//! What a worker can do next, by the index of a book, and whom of those that sleep the end of a hold of the state lock wakes.
#![tactic(auto)]

mod awaited;
mod choices;
mod going_on;
mod next_steps;
mod open_items;
mod stances;
mod woken;

pub use awaited::Awaited;
pub use choices::{Choice, ParkedChoice, has_come, next_of_idle, next_of_parked};
pub use going_on::{last_lets_go_on, lets_go_on};
pub use next_steps::{all_ended, can_claim, can_go_on, can_take_up, lease_is_free, task_to_start};
pub use open_items::first_open;
pub use stances::Stance;
pub use woken::{Woken, whom_to_wake};
