//! The index of what can be done next: the units that are queued, the tasks that can be skipped or
//! started, and those that haven't ended.
#![tactic(auto)]

mod bits;
mod choices;
mod cycles;
mod dependency_counts;
mod dependent_lists;
mod dependents;
mod linked_lists;
mod lock_orders;
mod number_sets;
mod rank_laws;
mod rank_search;
mod ready_works;
mod startable_tasks;
mod task_sets;

pub use cycles::first_cycle;
pub use dependent_lists::{dependents_at, dependents_of};
pub use number_sets::NumberSet;
pub use rank_laws::{first_cycle_is_unique, ranks_give_a_numbering};
pub use ready_works::ReadyWork;
