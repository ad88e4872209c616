//! Leases against the maximum and project locks, for the threads of a build.
#![tactic(auto)]

mod holders;
mod project_locks;

pub use coordination::{Lease, current_lease};
pub use holders::{Tried, hand_back, run_as_worker, take_locks, try_take_locks};
pub use lock_transforms::kinds::{Acquire, HandBack, take_all};
pub use project_locks::ProjectLocks;
