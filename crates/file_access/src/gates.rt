//! What an item passes before it runs.
/// What an item passes before it runs.
pub trait Gate {
    /// Is called before the worker runs the unit, with the unit's lease in hand. The worker is a
    /// number below 32. The call returns, though it may hold its caller for a bounded number of
    /// turns, and changes nothing that a clause sees.
    fn enter(&self, worker: u32, unit: u32);
}

/// A gate that holds nobody.
#[derive(Clone, Copy)]
pub struct OpenGate;

impl Gate for OpenGate {
    fn enter(&self, _worker: u32, _unit: u32) {}
}
