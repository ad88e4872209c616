//! What a worker gave back to wait, until it takes it again.
ghost use Rattle.std.specs.Prelude.{◌≡◌};

use coordination::Pass;
use resource_lock::WorkerId;
use std::marker::Model;
use std::snapshot::Snapshot;

/// What a worker gave back when it entered a blocking section. `enter` makes it, and `leave` takes
/// it.
#[derive(Drop)]
pub struct Blocked {
    pub(crate) worker: WorkerId,
    pub(crate) unit: Option<u32>,
    // The pass before, which shows the locks. They aren't kept: the pass has them parked.
    pub(crate) before: Snapshot<Pass>,
}

impl Model for Blocked {
    ghost use Rattle.blocking_section.specs.BlockedView.{BlockedView, blocked_view};

    ghost Value = { BlockedView };

    ghost view = { blocked_view };
}

impl Blocked {
    /// The worker.
    pub fn worker(&self) -> WorkerId
        ensures { result ≡ self.now.worker }
    {
        self.worker
    }

    /// The fetch that the section is for, by its number among the units, if it is for one.
    pub fn unit(&self) -> Option<u32>
        ensures { result ≡ self.now.unit }
    {
        self.unit
    }
}
