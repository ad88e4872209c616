//! A plan that is made by calls, and what its workers do next, one try at a time. No call waits, and calls with several workers may
//! run at once.
#![tactic(auto)]

mod answers;
mod closing;
mod deciding;
mod done;
mod laws;
mod next;
mod numbers;
mod opening;
mod outcomes;
mod places;
mod plan_graphs;
mod plans;
mod questions;
mod rings;
mod sections;
mod trying;
mod workers;

pub use answers::{Answer, Next, Work};
pub use closing::{close_plan, spare_book};
pub use laws::{
    calls_are_never_stuck, choices_are_never_refused, sections_are_never_stuck,
    workers_are_in_place,
};
pub use numbers::{Numbered, action_place};
pub use opening::{OpenRefusal, open_plan};
pub use outcomes::{Ended, task_outcome, unit_outcome};
pub use places::Place;
pub use plans::{PlanRefusal, PlannedAction, PlannedTask, WorkPlan};
pub use rings::Rings;
pub use workers::PlanWorker;
