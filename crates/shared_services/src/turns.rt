//! Jobs run one after another by one worker.
ghost use Rattle.std.specs.Prelude.{◌≡◌, ◌≤◌, ◌∷◌, ◌++◌, [], All, Err, IfErr, OnOk};
ghost use Rattle.resource_lock.specs.declared.ids.WorkerId.{WorkerId};
ghost use Rattle.shared_services.specs.Services.{AreServices};
ghost use Rattle.shared_services.specs.Worked.{CanRun, HasRun, WasStoppedAtOne};

use crate::ServiceTable;
use crate::jobs::{Job, JobDone, run_job};
use coordination::{Coordination, Halt, Pass};
use file_access::Files;
use std::alloc::Global;
use std::sync::Wait;

/// Runs jobs in their order with a pass, on the files of a desk, and notes what each gave. Other workers may run jobs of their own
/// with the same service meanwhile.
///
/// Of each job one entry takes just its uses and a lease, and waits until all can be taken at once; the worker's next entry gives
/// all back. What happens between the two entries the history doesn't say. Where the files are known a job's outcome is its value
/// on them, or `Fault` or `NoMemory`; the desk counts its faults, until its count stands at its end.
///
/// `Stopped` comes only where the worker had to wait at a job, whose uses or a lease weren't to be had, while the service was
/// stopped. The jobs before it were run, what they gave is noted, and the worker has nothing. After `NoMemory` the worker may hold
/// the uses of the job that it was at.
pub fn run_in_turn<R: Wait, F: Files>(
    rt: &R,
    alloc: Global,
    service: &Coordination,
    table: &ServiceTable,
    pass: &mut Pass,
    desk: &mut F,
    jobs: &[Job],
    done: &mut Vec<JobDone>,
) -> Result<(), Halt>
    requires service { pass.old.service ≡ service.now.service }
    requires ready { CanRun table.now pass.old.sight }
    requires services { All (λ job. AreServices table.now job.uses.items) jobs.now }
    requires empty { done.old.items ≡ [] }
    ensures service { pass.new.service ≡ pass.old.service }
    ensures worker { pass.new.sight.worker ≡ pass.old.sight.worker }
    ensures files { F.files desk.new ≡ F.files desk.old }
    ensures kept { F.faults desk.old ≤ F.faults desk.new }
    ensures ran { OnOk result (HasRun table.now (F.files desk.old) (F.faults desk.old) (F.faults desk.new)
        pass.old.sight jobs.now pass.new.sight done.new.items) }
    ensures stopped { (by : WorkerId) → result ≡ Err (Halt.Stopped by) → WasStoppedAtOne table.now (F.files desk.old) (F.faults desk.old)
        pass.old.sight jobs.now by pass.new.sight done.new.items }
{
    for job in jobs {
        let ran = run_job(rt, alloc, service, table, pass, desk, job)?;
        note(done, ran)?;
    }
    Ok(())
}

// Notes a job that was run.
fn note(done: &mut Vec<JobDone>, ran: JobDone) -> Result<(), Halt>
    ensures noted { OnOk result (done.new.items ≡ done.old.items ++ ran ∷ []) }
    ensures no_memory { IfErr result (λ halt. halt ≡ Halt.NoMemory) }
{
    match done.push(ran) {
        Ok(()) => Ok(()),
        Err(_) => Err(Halt::NoMemory),
    }
}
