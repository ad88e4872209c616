//! All that a worker does in a run.
ghost use Rattle.std.specs.Prelude.{◌≡◌, [], true};
ghost use Rattle.coordination.specs.Holds.{HoldsNothing};
ghost use Rattle.build_workers.specs.Kept.{HasClosed};
ghost use Rattle.build_workers.specs.Looking.{LooksAt};
ghost use Rattle.build_workers.specs.Points.{HasFinishedWork};
ghost use Rattle.build_workers.specs.Steps.{MovesPass, Steps};
ghost use Rattle.build_workers.specs.Worked.{CanWork, HasWorked};
ghost use Rattle.build_workers.specs.WorkerView.{IsOf};

use crate::idle::work_to_the_end;
use crate::run_types::RunTypes;
use crate::site::Site;
use crate::worker::Worker;
use coordination::Halt;

// Stops the service, so that no other worker waits for this one.
fn stop_all<T: RunTypes>(site: &Site<'_, '_, T>, worker: &mut Worker<T>)
    requires { IsOf site.now worker.old }
    ensures moves { MovesPass worker.old worker.new }
    ensures closed { HasClosed [] worker.old.pass.sight worker.new.pass.sight }
{
    site.service.stop_all(site.rt, &mut worker.pass);
}

// Works until all tasks have ended, and says whether they have. Where the worker finds no memory it stops the service.
fn work_or_stop<T: RunTypes>(site: &Site<'_, '_, T>, worker: &mut Worker<T>) -> bool
    requires of { IsOf site.now worker.old }
    requires rests { HoldsNothing worker.old.pass.sight }
    ensures step { Steps site.now worker.old worker.new result }
    ensures finished { result ≡ true → HasFinishedWork worker.new.pass.sight }
{
    match work_to_the_end(site, worker) {
        Ok(()) => true,
        Err(Halt::NoMemory) => {
            stop_all(site, worker);
            false
        }
        Err(Halt::Stopped(_)) => false,
    }
}

/// Has a worker work until all tasks have ended, and notes whether it saw that they have.
///
/// It doesn't where the service was stopped, and where it finds no memory: then it stops the service, so that no other worker waits for it.
pub fn work_alone<T: RunTypes>(site: &Site<'_, '_, T>, worker: &mut Worker<T>)
    requires can { CanWork site.now.service site.now.graph worker.old.pass }
    requires looks { LooksAt site.now.service.service worker.old.watcher }
    ensures { HasWorked site.now worker.old worker.new }
{
    worker.promise_to_come_again();
    let ended = work_or_stop(site, worker);
    worker.ended = ended;
}
