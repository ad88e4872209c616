//! What the workers of a run see of its history while they work.
#![tactic(auto)]

mod boards;
mod closings;
mod lines;
mod watchers;

pub use boards::{Board, BoardRoom, Watch};
pub use watchers::Watcher;
