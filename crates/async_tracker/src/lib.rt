//! A task's start, skip and end, and work that it waits for without holding a lease: items are
//! queued, run by any worker, and waited for, after Gradle's tracker of asynchronous work. What is next
//! is decided and done in one hold of the state lock; `single_steps` has the calls that do one step.
#![tactic(auto)]

mod closing;
mod ending;
mod failed_units;
mod items;
mod next_work;
mod parked;
mod queueing;
mod work_steps;

pub use closing::{CloseHalt, close_then};
pub use ending::end_then;
pub use failed_units::has_failed;
pub use items::close;
pub use next_work::{
    NextWork, ParkedWork, TakeNextWork, TakeParkedWork, next_work_of, parked_work_of,
};
pub use parked::Parked;
pub use queueing::{ThenPark, submit_and_park};
pub use work_steps::WorkStep;
