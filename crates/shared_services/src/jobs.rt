//! A job, taken with its uses, worked out and given back.
ghost use Rattle.std.specs.Prelude.{◌≡◌, ◌≤◌, Err, IfOk, IfSome};
ghost use Rattle.file_access.specs.ReadView.{IsOutcomeCounted};
ghost use Rattle.resource_lock.specs.declared.ids.WorkerId.{WorkerId};
ghost use Rattle.coordination.specs.Calls.{WasStopped};
ghost use Rattle.shared_services.specs.Shows.{MayTakeUses};
ghost use Rattle.shared_services.specs.Takings.{IsShort};
ghost use Rattle.shared_services.specs.Done.{IsHonestJob};
ghost use Rattle.shared_services.specs.Worked.{HasRunJob};

use crate::{ServiceTable, take_uses};
use coordination::{Coordination, Halt, Pass};
use file_access::{Files, work_out};
use item_actions::{ItemAction, Outcome, Text};
use lease_service::hand_back;
use resource_lock::WorkerId;
use std::alloc::Global;
use std::sync::Wait;

/// How many jobs a run has at most.
pub const MAX_JOBS: usize = 8192;

/// On how many desks jobs are run at most, each with a worker of its own.
pub const MAX_DESKS: usize = 32;

/// How many leases may be out at once at most in a run of jobs.
pub const MAX_JOB_LEASES: u32 = 32;

/// An action that is to be worked out on a file, while a use of each of these services is held.
#[derive(Drop)]
pub struct Job {
    /// What is worked out.
    pub action: ItemAction,
    /// The file's name.
    pub file: Text,
    /// The numbers of the services, in strictly rising order.
    pub uses: Vec<u32>,
}

/// A job that was run.
#[derive(Clone, Copy)]
pub struct JobDone {
    /// Who ran it.
    pub worker: WorkerId,
    /// The number of the entry that took its uses, counted from 1.
    pub taken: u64,
    /// What it gave.
    pub outcome: Outcome,
}

/// Takes a job's uses and a lease, works it out, and gives all back.
#[tactic(auto, using(file_access::proofs::lemmas::Counting::outcome_kept))]
pub(crate) fn run_job<R: Wait, F: Files>(
    rt: &R,
    alloc: Global,
    service: &Coordination,
    table: &ServiceTable,
    pass: &mut Pass,
    desk: &mut F,
    job: &Job,
) -> Result<JobDone, Halt>
    requires service { pass.old.service ≡ service.now.service }
    requires may { MayTakeUses table.now job.now.uses.items pass.old.sight }
    ensures service { pass.new.service ≡ pass.old.service }
    ensures worker { pass.new.sight.worker ≡ pass.old.sight.worker }
    ensures files { F.files desk.new ≡ F.files desk.old }
    ensures kept { F.faults desk.old ≤ F.faults desk.new }
    ensures ran { IfOk result (HasRunJob table.now job.now.uses.items pass.old.sight pass.new.sight) }
    ensures counted { IfOk result (λ done. IsOutcomeCounted (F.faults desk.old) (F.faults desk.new) done.outcome) }
    ensures honest { IfOk result (IsHonestJob (F.files desk.old) job.now) }
    ensures stopped { (by : WorkerId) → result ≡ Err (Halt.Stopped by)
        → WasStopped (λ g w s. IsShort table.now job.now.uses.items s) by pass.old.sight pass.new.sight }
{
    take_uses(rt, service, table, pass, &job.uses)?;
    let taken = pass.last();
    let outcome = work_out(alloc, &job.action, &job.file, desk);
    match hand_back(rt, service, pass) {
        Ok(()) => Ok(JobDone {
            worker: pass.worker(),
            taken,
            outcome,
        }),
        Err(_) => Err(Halt::NoMemory),
    }
}
