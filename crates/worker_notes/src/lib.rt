//! What a service notes of its workers: what each has of the book, and who sleeps and is woken.
#![tactic(auto)]

mod last_entries;
mod outside_work;
mod parts;
mod sleepers;
mod sorted_lists;
mod stances;

pub use last_entries::last_number;
pub use outside_work::{Offers, Queued, QueuedUnits};
pub use parts::WorkerPart;
pub use sleepers::{Sleepers, Then, Wakes};
pub use stances::Stances;
