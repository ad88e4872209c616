//! Items: an action on a file, in a thread or in a process.
use crate::requirement::Requirements;
use item_actions::{ItemAction, Text};

/// Where an item runs.
#[derive(Drop)]
pub enum Isolation {
    /// In the worker's own thread.
    InThread,
    /// In a daemon that covers these requirements.
    Process(Requirements),
}

/// An item: an action on a file.
#[derive(Drop)]
pub struct Work {
    pub action: ItemAction,
    pub file: Text,
    pub isolation: Isolation,
}
