//! Why a call under the state lock came to nothing.
use resource_lock::WorkerId;

/// Why a call under the state lock came to nothing.
#[derive(Clone, Copy, PartialEq, Eq)]
pub enum Halt {
    /// There wasn't enough memory.
    NoMemory,
    /// The service was stopped with the pass of this worker.
    Stopped(WorkerId),
}
