//! Workers that wait for the items of an action.
ghost use Rattle.std.specs.Prelude.{◌≡◌};

use resource_lock::WorkerId;
use std::marker::Model;

/// A worker that waits for the items of an action. `submit_and_park` makes it, or `single_steps::park`, and `single_steps::resume` takes
/// it. Where the worker's entry of kind `Resume` is the step of a decision, it can be let go then.
#[derive(Drop)]
pub struct Parked {
    worker: WorkerId,
    action: u32,
}

impl Model for Parked {
    ghost use Rattle.async_tracker.specs.ParkedView.{ParkedView};

    ghost Value = { ParkedView };

    ghost view = { λ p. record { worker = p.worker; action = p.action } };
}

impl Parked {
    /// What a worker keeps that waits for the items of an action. It is of use only where the worker's pass shows that it parked that
    /// action (`IsParkedBy`).
    pub fn new(worker: WorkerId, action: u32) -> Parked
        ensures worker { result.worker ≡ worker }
        ensures action { result.action ≡ action }
    {
        Parked { worker, action }
    }

    /// The worker.
    pub fn worker(&self) -> WorkerId
        ensures { result ≡ self.now.worker }
    {
        self.worker
    }

    /// The action, by its number.
    pub fn action(&self) -> u32
        ensures { result ≡ self.now.action }
    {
        self.action
    }
}
