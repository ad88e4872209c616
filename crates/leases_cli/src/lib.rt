//! The program as one call: reads the words, and runs a plan and prints what the words ask for,
//! serves as a worker, checks a printed history, drives a recorded run again, or prints a large plan.
//! What each command answers, but for the run itself, stands in `command_answers`.
#![tactic(auto)]

mod top;

pub use command_answers::{Ended, Status};
pub use top::{DESKS, leases};
