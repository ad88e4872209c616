//! Runs a plan on several threads: each worker has a pass and a desk, and all share one book and one
//! pool of daemons. What a single worker does stands in `build_workers`.
#![tactic(auto)]

mod daemons;
mod prepared;
mod room;
mod runs;
mod team;
mod watching;

pub use build_workers::{RunEnd, RunOptions};
pub use runs::run_plan;
