//! What each worker does in its thread.
ghost use Rattle.std.specs.Prelude.{◌≡◌, All, map};
ghost use Rattle.coordination.specs.Holds.{HoldsNothing};
ghost use Rattle.shared_services.specs.Takings.{HasTheLocks};
ghost use Rattle.shared_services.specs.Shows.{MayTakeUses};

use coordination::{Coordination, Halt, Pass, used_passes_have_their_numbers};
use lease_service::hand_back;
use shared_services::{ServiceTable, take_uses};
use std::sync::Wait;
use std::thread;
use std::thread::Threads;

/// The number of the database in the table.
const DATABASE: u32 = 0;

// Sends a query: waits for a connection and a lease, takes both at once, and gives both back at once.
fn query<R: Wait>(
    rt: &R,
    service: &Coordination,
    table: &ServiceTable,
    pass: &mut Pass,
    uses: &[u32],
) -> Result<(), Halt>
    requires service { pass.old.service ≡ service.now.service }
    requires may { MayTakeUses table.now uses.now pass.old.sight }
    ensures service { pass.new.service ≡ pass.old.service }
    ensures worker { pass.new.sight.worker ≡ pass.old.sight.worker }
{
    take_uses(rt, service, table, pass, uses)?;
    // Here the worker would send its query over the connection.
    match hand_back(rt, service, pass) {
        Ok(()) => Ok(()),
        Err(_) => Err(Halt::NoMemory),
    }
}

// Sends a worker's query. Whoever finds no memory stops the others, so that none waits for it.
fn work<R: Wait>(rt: &R, service: &Coordination, table: &ServiceTable, pass: &mut Pass)
    requires service { pass.old.service ≡ service.now.service }
    requires locks { HasTheLocks table.now pass.old.sight.seen.graph }
    requires rest { HoldsNothing pass.old.sight }
    ensures service { pass.new.service ≡ pass.old.service }
    ensures worker { pass.new.sight.worker ≡ pass.old.sight.worker }
{
    let uses = [DATABASE];
    if !table.are_services(&uses) {
        return;
    }
    if matches!(query(rt, service, table, pass, &uses), Err(Halt::NoMemory)) {
        service.stop_all(rt, pass);
    }
}

/// Has each worker work in a thread of its own, and waits for all of them.
pub(crate) fn work_in_threads<R: Threads + Wait + Sync>(
    rt: &R,
    service: &Coordination,
    table: &ServiceTable,
    passes: &mut [Pass],
)
    requires service { All (λ p. p.service ≡ service.now.service) passes.old }
    requires locks { All (λ p. HasTheLocks table.now p.sight.seen.graph) passes.old }
    requires rest { All (λ p. HoldsNothing p.sight) passes.old }
    ensures service { All (λ p. p.service ≡ service.now.service) passes.new }
    ensures workers { map (λ p. p.sight.worker.0) passes.new ≡ map (λ p. p.sight.worker.0) passes.old }
{
    used_passes_have_their_numbers();
    let threads = passes.len().max(1);
    thread::for_each_mut(
        rt,
        passes,
        threads,
        &|_, pass| { work(rt, service, table, pass) },
    );
}
