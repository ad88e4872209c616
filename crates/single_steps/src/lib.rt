//! A task started, skipped or ended, an action's items queued, an item claimed, and waited for: each
//! in a call of its own, where `async_tracker` decides and does in one; and the next move within a
//! task.
#![tactic(auto)]

mod actions;
mod items;
mod laws;
mod open_items;
mod resuming;
mod task_moves;
mod tasks;

pub use actions::{park, submit};
pub use items::claim;
pub use laws::{closing_undoes_claiming, next_moves_are_possible, next_work_is_possible};
pub use open_items::ready;
pub use resuming::{Held, resume};
pub use task_moves::{MoveInTask, TaskMove, next_of_task};
pub use tasks::{end_task, skip_task, start_task};
