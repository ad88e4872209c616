//! The lease service for programs in C and for all that call C. Each worker has a handle of its own. No call waits, and calls
//! with several handles may run at once.
#![tactic(auto)]

mod acting;
mod answers;
mod asking;
mod book_handles;
mod calls;
mod closing;
mod handles;
mod held;
mod held_books;
mod held_parts;
mod held_planned;
mod held_plans;
mod loose;
mod opening;
mod outcome_calls;
mod part_handles;
mod plan_answers;
mod plan_calls;
mod plan_handles;
mod planned_calls;
mod planned_closing;
mod planned_handles;
mod planned_opening;
mod questions;
mod taken_parts;
mod taking;
mod texts;
mod tries;
mod uses;
mod workers;

pub use answers::{Answer, Told};
pub use book_handles::BookHandle;
pub use handles::Handle;
pub use held::{Held, Opaque};
pub use held_books::HeldBook;
pub use held_parts::HeldPart;
pub use held_planned::HeldPlanned;
pub use held_plans::HeldPlan;
pub use part_handles::PartHandle;
pub use plan_answers::{PlanAnswer, PlanOutcome, PlanTold, PlanWork};
pub use plan_handles::PlanHandle;
pub use planned_handles::PlannedHandle;
pub use taken_parts::TakenPart;
pub use workers::Worker;
