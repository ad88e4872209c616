//! What a worker does with an item that it has claimed: it works the item out in its own thread, or has a daemon of the pool do it.
#![tactic(auto)]

mod daemons;
mod items;
mod processes;
mod ran;

pub use daemons::{PoolLock, SharedPool};
pub use items::run_item;
pub use processes::{ask, request_for};
pub use ran::{Answered, Ran, Wanted};
