//! A whole run of jobs, on as many threads as there are desks.
ghost use Rattle.std.specs.Prelude.{◌≡◌, ◌<◌, ◌≤◌, ◌+◌, ◌-◌, ◌^◌, ℕ, [], All, IfOk, Ok, get_or, length, map};
ghost use Rattle.std.specs.Prelude.{vec_capacity, vec_len};
ghost use Rattle.resource_lock.specs.AtRest.{IsAtRest};
ghost use Rattle.worker_notes.specs.Agrees.{Agrees, IsSoundBook};
ghost use Rattle.coordination.specs.Holds.{HoldsNothing};
ghost use Rattle.coordination.specs.Passes.{PassView};
ghost use Rattle.coordination.specs.Sights.{workers_from};
ghost use Rattle.coordination.specs.Together.{ComeTo};
ghost use Rattle.shared_services.specs.declared.jobs.TheConstants.{MAX_DESKS, MAX_JOB_LEASES};
ghost use Rattle.shared_services.specs.Fit.{FitJobs};
ghost use Rattle.shared_services.specs.Done.{IsHonestJob, faults_of};
ghost use Rattle.shared_services.specs.OneByOne.{OneByOne};
ghost use Rattle.shared_services.specs.Run.{IsRunOfJobs};
ghost use Rattle.shared_services.specs.Shares.{jobs_of};
ghost use Rattle.shared_services.specs.Team.{HasComeBack, HaveRun};
ghost use Rattle.shared_services.specs.Worked.{CanRun};

use crate::ServiceTable;
use crate::jobs::{Job, JobDone};
use crate::opening::{RunBuffers, open};
use crate::team::{all_done, part, seat, work};
use crate::workers::Site;
use coordination::{Opened, Pass};
use file_access::Files;
use lock_journal::Book;
use std::alloc::{AllocError, Global};
use std::mem;
use std::sync::Wait;
use std::thread::Threads;

/// What a run of jobs leaves.
#[derive(Drop)]
pub struct JobsEnd {
    /// The history, and the state that it led to.
    pub book: Box<Book>,
    /// What each job gave, in the jobs' order.
    pub done: Vec<JobDone>,
}

// Has each worker run its jobs with its pass and its desk. The passes and the desks then lie in their places again.
fn run_team<R: Threads + Wait + Sync, F: Files + Send + Drop>(
    rt: &R,
    site: &Site<'_>,
    passes: &mut Vec<Pass>,
    desks: &mut Vec<F>,
    room: RunBuffers<F>,
) -> Result<Vec<JobDone>, AllocError>
    requires same { vec_len passes.old ≡ vec_len desks.old }
    requires workers { vec_len desks.old ≡ site.now.workers }
    requires few_workers { site.now.workers ≤ MAX_DESKS }
    requires empty { (room.team.items ≡ []) × (room.passes.items ≡ []) × (room.desks.items ≡ []) }
    requires room { (vec_len desks.old ≤ vec_capacity room.team) × (vec_len desks.old ≤ vec_capacity room.passes)
        × (vec_len desks.old ≤ vec_capacity room.desks) }
    requires jobs { FitJobs site.now.table.now site.now.jobs.now }
    requires service { All (λ p. p.service ≡ site.now.service.now.service) passes.old.items }
    requires ready { All (λ p. CanRun site.now.table.now p.sight) passes.old.items }
    ensures passes { length passes.new.items ≡ vec_len desks.old }
    ensures desks { length desks.new.items ≡ vec_len desks.old }
    ensures back { (i : ℕ) (p : PassView) (d : F) → i < vec_len desks.old → HasComeBack F.files F.faults
        (get_or passes.old.items i p) (get_or passes.new.items i p) (get_or desks.old.items i d) (get_or desks.new.items i d) }
    ensures ran { IfOk result (λ done. HaveRun site.now.table.now F.files F.faults (jobs_of site.now.workers site.now.jobs.now)
        passes.old.items passes.new.items desks.old.items desks.new.items done.items) }
{
    let RunBuffers {
        mut team,
        passes: left,
        desks: back,
    } = room;
    seat(
        site.alloc,
        mem::replace(passes, left),
        mem::replace(desks, back),
        &mut team,
    );
    work(rt, site, team.as_mut_slice());
    let done = all_done(site.alloc, team.as_slice());
    part(team, passes, desks);
    done
}

// Takes the book out of the service for good.
fn close(opened: Box<Opened>) -> Box<Book>
    requires service { All (λ p. p.service ≡ opened.value.service.service) opened.value.passes.items }
    requires workers { map (λ p. p.sight.worker.0) opened.value.passes.items ≡ workers_from 0 opened.value.service.book.graph.workers }
    ensures graph { result.value.graph ≡ opened.value.service.book.graph }
    ensures agrees { All (λ p. Agrees p.sight.worker p.sight.seen result.value) opened.value.passes.items }
    ensures rest { All (λ p. HoldsNothing p.sight) opened.value.passes.items → IsAtRest result.value.state }
    ensures together { ComeTo opened.value.passes.items result.value }
    ensures sound { IsSoundBook result.value }
{
    let Opened { service, passes } = Box::into_inner(opened);
    let book = service.finish(passes);
    // Of the book's state, that the book is sound.
    let _ = book.state();
    book
}

// The end of a run that all workers have ended.
fn end_of(book: Box<Book>, done: Result<Vec<JobDone>, AllocError>) -> Result<JobsEnd, AllocError>
    ensures { IfOk result (λ end. (end.book.value ≡ book.value) × (done ≡ Ok end.done)) }
{
    match done {
        Ok(done) => Ok(JobsEnd { book, done }),
        Err(AllocError) => Err(AllocError),
    }
}

/// Runs jobs on as many threads as there are desks: each worker has a desk of its own, worker i the desk with number i. They
/// share one book with the locks of the services.
///
/// After no entry of the book does a service have more users than its maximum. Of each job one entry takes just its uses and a
/// lease, and that worker's next entry gives all back; there are no other entries, and at the end nobody has anything. What
/// happens between the two entries the history doesn't say.
///
/// What the jobs gave stands in their order. Where the files of a worker's desk are known, an outcome is the job's value on
/// them, or `Fault` or `NoMemory`; the desk counts its faults, until its count stands at its end. The desks are in their places
/// again, also after an error.
///
/// It fails for want of memory alone. What had run is lost then.
pub fn run_jobs<R: Threads + Wait + Sync, F: Files + Send + Drop>(
    rt: &R,
    alloc: Global,
    table: &ServiceTable,
    jobs: &[Job],
    max_leases: u32,
    desks: &mut Vec<F>,
) -> Result<JobsEnd, AllocError>
    requires some_desk { 1 ≤ length desks.old.items }
    requires few_desks { length desks.old.items ≤ MAX_DESKS }
    requires some_lease { 1 ≤ max_leases }
    requires few_leases { max_leases ≤ MAX_JOB_LEASES }
    requires jobs { FitJobs table.now jobs.now }
    ensures places { length desks.new.items ≡ length desks.old.items }
    ensures files { (i : ℕ) (d : F) → F.files (get_or desks.new.items i d) ≡ F.files (get_or desks.old.items i d) }
    ensures counts { (i : ℕ) (d : F) → F.faults (get_or desks.old.items i d) ≤ F.faults (get_or desks.new.items i d) }
    ensures run { IfOk result (λ end. IsRunOfJobs table.now (length desks.old.items) max_leases jobs.now end.book.value end.done.items) }
    ensures honest { (d : F) → IfOk result (λ end. OneByOne
        (λ job done. IsHonestJob (F.files (get_or desks.old.items done.worker.0 d)) job done) jobs.now end.done.items) }
    ensures faults { (i : ℕ) (d : F) → i < length desks.old.items → F.faults (get_or desks.new.items i d) < 2 ^ 64 - 1
        → IfOk result (λ end. faults_of (record { 0 = i }) end.done.items + F.faults (get_or desks.old.items i d)
        ≤ F.faults (get_or desks.new.items i d)) }
{
    let workers = desks.len();
    let mut opened = open(alloc, table, jobs, workers as u32, max_leases)?;
    let room = RunBuffers::new(alloc, workers)?;
    let parts: &mut Opened = &mut opened;
    let site = Site {
        service: &parts.service,
        table,
        jobs,
        workers,
        alloc,
    };
    let done = run_team(rt, &site, &mut parts.passes, desks, room);
    let book = close(opened);
    end_of(book, done)
}
