//! What comes of a search for an idle daemon.
ghost use Rattle.std.specs.Prelude.{◌≡◌};

use crate::reserved::Reserved;
use daemon_requirements::Requirements;
use std::marker::PhantomData;
use std::snapshot::Snapshot;
use std::sync::ledger::Ledger;

/// What a pool answers to who wants a daemon. It can't be dropped, as a reserved daemon can't.
pub enum Search<L, U: Ledger> {
    /// This idle daemon covers what is asked, and was reserved.
    Idle(Reserved<L>),
    /// No idle daemon covers it, so one may be started.
    Start(StartLeave<U>),
}

/// The leave to start one daemon. When the pool gave it, no idle daemon covered these requirements. Only a pool's search gives
/// one, and the adoption of the daemon ends it. It takes no bytes.
///
/// `U` is the ledger of the pool's reservations, which no other pool has: so it is worth nothing in another.
#[derive(Drop)]
pub struct StartLeave<U: Ledger> {
    asked: Snapshot<Requirements>,
    pool: PhantomData<U>,
}

impl<U: Ledger> StartLeave<U> {
    /// The leave to start a daemon with what is asked.
    pub(crate) fn new(asked: &Requirements) -> StartLeave<U>
        ensures { result.asked.value ≡ asked.now }
    {
        StartLeave {
            asked: Snapshot::of(asked),
            pool: PhantomData,
        }
    }
}
