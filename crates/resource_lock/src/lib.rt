//! The graph of a plan's tasks, and the state of a run of it: who owns which project lock, who has a
//! lease, and how far each task, action and unit has come.
#![tactic(auto)]

mod changes;
mod fitting;
mod graph_tasks;
mod graphs;
mod ids;
mod laws;
mod limits;
mod marks;
mod number_lists;
mod project_locks;
mod states;

pub use changes::Change;
pub use graph_tasks::{GraphTask, GraphTasks};
pub use graphs::{Graph, GraphAction, Retention};
pub use ids::{LockId, WorkerId};
pub use laws::{
    owners_of_conflicting_locks_keep_others_from_them, retentions_have_words_of_their_own,
};
pub use limits::{
    MAX_ACTIONS_PER_TASK, MAX_AFTER, MAX_LEASES, MAX_LOCKS, MAX_TASKS, MAX_UNITS, MAX_WORKERS,
};
pub use marks::{Mark, MarkId};
pub use number_lists::NumberLists;
pub use project_locks::{project_lock, project_lock_count};
pub use states::State;
