//! Services that several workers share, each by at most so many at once, as the locks of a state.
#![tactic(auto)]

mod job_laws;
mod jobs;
mod laws;
mod opening;
mod runs;
mod services;
mod shares;
mod taking;
mod team;
mod turns;
mod uses;
mod workers;

pub use job_laws::fresh_passes_can_run;
pub use jobs::{Job, JobDone, MAX_DESKS, MAX_JOB_LEASES, MAX_JOBS};
pub use laws::{no_service_has_more_users_than_its_maximum, uses_can_be_taken_again};
pub use runs::{JobsEnd, run_jobs};
pub use services::{MAX_SERVICES, MAX_USES, ServiceTable};
pub use taking::TakeUses;
pub use turns::run_in_turn;
pub use uses::{take_uses, try_take_uses};
