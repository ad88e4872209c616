//! A worker, and the jobs that it runs.
ghost use Rattle.std.specs.Prelude.{◌≡◌, ◌<◌, ◌≤◌, [], All, length};
ghost use Rattle.shared_services.specs.declared.jobs.TheConstants.{MAX_DESKS};
ghost use Rattle.shared_services.specs.Fit.{FitJobs};
ghost use Rattle.shared_services.specs.Shares.{jobs_of};
ghost use Rattle.shared_services.specs.Team.{HasWorked};
ghost use Rattle.shared_services.specs.Worked.{CanRun};

use crate::ServiceTable;
use crate::jobs::{Job, JobDone};
use crate::shares::share_of;
use crate::turns::run_in_turn;
use coordination::{Coordination, Halt, Pass};
use file_access::Files;
use std::alloc::Global;
use std::sync::Wait;

/// What the workers of a run share.
#[derive(Drop)]
pub(crate) struct Site<'a> {
    pub service: &'a Coordination,
    pub table: &'a ServiceTable,
    pub jobs: &'a [Job],
    /// How many workers there are.
    pub workers: usize,
    /// Where files are read to.
    pub alloc: Global,
}

/// A worker of a run.
#[derive(Drop)]
pub(crate) struct Worker<F> {
    pub pass: Pass,
    pub desk: F,
    /// The jobs that it has run, in their order.
    pub done: Vec<JobDone>,
    /// Whether it has run all of its jobs.
    pub ended: bool,
}

impl<F: Files> Worker<F> {
    /// Runs the jobs of the worker at this place. Where it finds no memory it stops the service, so that no other worker waits
    /// for it.
    pub fn work<R: Wait>(&mut self, rt: &R, site: &Site<'_>, place: usize)
        requires place { place < site.now.workers }
        requires workers { site.now.workers ≤ MAX_DESKS }
        requires jobs { FitJobs site.now.table.now site.now.jobs.now }
        requires service { self.old.pass.service ≡ site.now.service.now.service }
        requires ready { CanRun site.now.table.now self.old.pass.sight }
        ensures { HasWorked site.now.table.now F.files F.faults (jobs_of site.now.workers site.now.jobs.now place) self.old.pass
            self.new.pass self.old.desk self.new.desk self.new.done.items self.new.ended }
    {
        let jobs = share_of(site.table, site.jobs, site.workers, place);
        let mut done = Vec::new(site.alloc);
        let ran = run_in_turn(
            rt,
            site.alloc,
            site.service,
            site.table,
            &mut self.pass,
            &mut self.desk,
            jobs,
            &mut done,
        );
        self.done = done;
        match ran {
            Ok(()) => self.ended = true,
            Err(Halt::NoMemory) => {
                site.service.stop_all(rt, &mut self.pass);
                self.ended = false;
            }
            Err(Halt::Stopped(_)) => self.ended = false,
        }
    }
}
