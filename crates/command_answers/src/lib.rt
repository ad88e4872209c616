//! What each command of the program answers: its status, the lines and texts that it prints, and what `check`, `again`,
//! `worker` and `make` do. `leases_cli` runs plans, and joins all in the program's one call.
#![tactic(auto)]

mod again;
mod check;
mod ended;
pub mod first_desk;
mod laws;
mod make;
mod plans;
mod refusals;
mod reports;
mod status;
mod watches;
mod worker;

pub use again::again_history;
pub use check::check_history;
pub use ended::{Ended, refuse, refuse_plan, without_run};
pub use laws::results_are_the_plans_own;
pub use make::make_plan;
pub use reports::report_run;
pub use status::Status;
pub use worker::serve_worker;
