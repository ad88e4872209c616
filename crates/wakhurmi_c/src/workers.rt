//! A worker as a handle owns it.
ghost use Rattle.std.specs.Prelude.{◌≡◌, []};
ghost use Rattle.std.specs.Arc.{arc_value};
ghost use Rattle.resource_lock.specs.Made.{made_of};

use coordination::{Pass, Sleepers, Slot};
use resource_lock::LockId;
use std::alloc::Global;
use std::sync::Arc;

/// A worker of a service: the service, which all its workers share, and its pass.
#[derive(Drop)]
pub struct Worker {
    /// The service.
    pub service: Arc<Slot, Global>,
    /// The pass.
    pub pass: Pass,
    /// How many workers the service has.
    pub workers: u32,
    /// How many project locks it has.
    pub locks: u32,
    /// The all-projects lock, where one of the locks is that.
    pub all: Option<LockId>,
    /// How many leases may be out at once.
    pub max_leases: u32,
    // The locks that a call asks for. It is kept, so that most calls take no memory for them.
    pub(crate) asked: Vec<LockId>,
    // Who sleeps is known to C alone. So each entry is asked whether it would wake a transform that sleeps.
    pub(crate) sleepers: Sleepers,
    ghost own: { pass.service.table ≡ (arc_value service).table.shared.table_id },
    // There is no task: so all that keeps a call from its entry is what other workers have.
    ghost graph_is: { pass.sight.seen.graph ≡ made_of locks all workers max_leases [] [] },
    ghost workers_are: { workers ≡ (arc_value service).table.shared.key.kept.value.book.graph.workers },
}
