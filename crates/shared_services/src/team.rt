//! The workers of a run, each with its pass and its desk.
ghost use Rattle.std.specs.Prelude.{◌≡◌, ◌<◌, ◌≤◌, ℕ, [], All, IfOk, flat_map, get_or, length, map, true, vec_capacity, vec_len};
ghost use Rattle.shared_services.specs.declared.jobs.TheConstants.{MAX_DESKS};
ghost use Rattle.shared_services.specs.Fit.{FitJobs};
ghost use Rattle.shared_services.specs.Shares.{jobs_of};
ghost use Rattle.shared_services.specs.Team.{HasWorked};
ghost use Rattle.shared_services.specs.Worked.{CanRun};

use crate::jobs::JobDone;
use crate::workers::{Site, Worker};
use coordination::Pass;
use file_access::Files;
use std::alloc::{AllocError, Global};
use std::sync::Wait;
use std::thread;
use std::thread::Threads;

/// Gives each worker its pass and its desk.
pub(crate) fn seat<F: Drop>(
    alloc: Global,
    passes: Vec<Pass>,
    desks: Vec<F>,
    team: &mut Vec<Worker<F>>,
)
    requires same { vec_len passes ≡ vec_len desks }
    requires empty { team.old.items ≡ [] }
    requires room { vec_len passes ≤ vec_capacity team.old }
    ensures passes { map (λ w. w.pass) team.new.items ≡ passes.items }
    ensures desks { map (λ w. w.desk) team.new.items ≡ desks.items }
{
    let mut rest = desks.into_iter();
    for pass in passes {
        let Some(desk) = rest.next() else {
            unreachable!()
        };
        team.push_reserved(Worker {
            pass,
            desk,
            done: Vec::new(alloc),
            ended: false,
        });
    }
}

/// Has each worker work in a thread of its own, and waits for all of them.
pub(crate) fn work<R: Threads + Wait + Sync, F: Files + Send + Drop>(
    rt: &R,
    site: &Site<'_>,
    team: &mut [Worker<F>],
)
    requires workers { length team.old ≡ site.now.workers }
    requires few_workers { site.now.workers ≤ MAX_DESKS }
    requires jobs { FitJobs site.now.table.now site.now.jobs.now }
    requires service { All (λ w. w.pass.service ≡ site.now.service.now.service) team.old }
    requires ready { All (λ w. CanRun site.now.table.now w.pass.sight) team.old }
    ensures len { length team.new ≡ length team.old }
    ensures worked { (i : ℕ) (d : Worker F) → i < length team.old
        → HasWorked site.now.table.now F.files F.faults (jobs_of site.now.workers site.now.jobs.now i)
        (get_or team.old i d).pass (get_or team.new i d).pass (get_or team.old i d).desk (get_or team.new i d).desk
        (get_or team.new i d).done.items (get_or team.new i d).ended }
{
    let threads = team.len().max(1);
    thread::for_each_mut(
        rt,
        team,
        threads,
        &|place: usize, worker: &mut Worker<F>|
            requires place { place < site.now.workers }
            requires workers { site.now.workers ≤ MAX_DESKS }
            requires jobs { FitJobs site.now.table.now site.now.jobs.now }
            requires service { worker.old.pass.service ≡ site.now.service.now.service }
            requires ready { CanRun site.now.table.now worker.old.pass.sight }
            ensures { HasWorked site.entry.now.table.now F.files F.faults (jobs_of site.entry.now.workers site.entry.now.jobs.now place)
                worker.old.pass worker.new.pass worker.old.desk worker.new.desk worker.new.done.items worker.new.ended }
        { worker.work(rt, site, place) },
    );
}

// Whether each worker has run all of its jobs.
fn all_ended<F>(team: &[Worker<F>]) -> bool
    ensures { result ≡ true → All (λ w. w.ended ≡ true) team.now }
{
    team.iter().all(|worker| worker.ended)
}

/// What all workers have run, one worker's jobs behind the other's. It fails where one of them has not run all of its jobs, and
/// for want of memory.
pub(crate) fn all_done<F>(alloc: Global, team: &[Worker<F>]) -> Result<Vec<JobDone>, AllocError>
    ensures ended { IfOk result (λ done. All (λ w. w.ended ≡ true) team.now) }
    ensures done { IfOk result (λ done. done.items ≡ flat_map (λ w. w.done.items) team.now) }
{
    let mut done = Vec::new(alloc);
    if !all_ended(team) {
        return Err(AllocError);
    }
    for worker in team {
        done.extend_from_slice(&worker.done)?;
    }
    Ok(done)
}

/// Takes the passes and the desks of the workers again.
pub(crate) fn part<F: Drop>(team: Vec<Worker<F>>, passes: &mut Vec<Pass>, desks: &mut Vec<F>)
    requires empty { (passes.old.items ≡ []) × (desks.old.items ≡ []) }
    requires room { (vec_len team ≤ vec_capacity passes.old) × (vec_len team ≤ vec_capacity desks.old) }
    ensures passes { passes.new.items ≡ map (λ w. w.pass) team.items }
    ensures desks { desks.new.items ≡ map (λ w. w.desk) team.items }
{
    for worker in team {
        passes.push_reserved(worker.pass);
        desks.push_reserved(worker.desk);
    }
}
