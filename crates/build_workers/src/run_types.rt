//! The types of a run.
use daemon_desk::Desk;
use daemon_manager::ReservationLedger;
use file_access::Gate;
use std::marker::PhantomData;
use std::sync::ledger::Ledger;
use std::sync::{Mutex, Wait};
use std::thread::Threads;

/// The types of a run: of what its workers share, and of what each has for itself.
pub trait RunTypes: Send + Sync {
    /// What starts threads and lets them wait.
    type Runtime: Threads + Wait + Sync;

    /// A worker's way to files and daemons.
    type Desk: Desk + Send + Drop;

    /// What an item passes before it runs.
    type Gate: Gate + Sync;

    /// The ledger of the daemons that were reserved, which knows what the units ask for.
    type Reserved: ReservationLedger + Send + Sync;

    /// The ledger of the daemons that failed.
    type Failed: Ledger + Send + Sync;
}

/// These types, as those of a run.
pub struct Types<'a, R, D, G, U, F>(PhantomData<(&'a R, Mutex<D>, &'a G, U, F)>);

impl<
    'a,
    R: Threads + Wait + Sync,
    D: Desk + Send + Drop,
    G: Gate + Sync,
    U: ReservationLedger + Send + Sync,
    F: Ledger + Send + Sync,
> RunTypes for Types<'a, R, D, G, U, F> {
    type Runtime = R;

    type Desk = D;

    type Gate = G;

    type Reserved = U;

    type Failed = F;
}
