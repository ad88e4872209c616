//! What one worker of a run does: it runs tasks and items over a service, a desk and a pool of daemons that others use too. And
//! what a whole run is given and leaves, which `build_runner` proves of it: so whatever tells of a run needs only this crate.
#![tactic(auto)]

mod fetching;
mod idle;
mod items;
mod kits;
mod options;
mod parked;
mod run_end;
mod run_types;
mod site;
mod spares;
mod tasks;
mod worker;
mod working;

pub use kits::Kit;
pub use options::RunOptions;
pub use run_end::RunEnd;
pub use run_types::{RunTypes, Types};
pub use site::{RunService, Site};
pub use worker::Worker;
pub use working::work_alone;
