//! Which jobs a worker runs.
ghost use Rattle.std.specs.Prelude.{◌≡◌, ◌<◌, ◌≤◌, All, length};
ghost use Rattle.shared_services.specs.declared.jobs.TheConstants.{MAX_DESKS};
ghost use Rattle.shared_services.specs.Services.{AreServices};
ghost use Rattle.shared_services.specs.Fit.{FitJobs};
ghost use Rattle.shared_services.specs.Shares.{jobs_of};

use crate::ServiceTable;
use crate::jobs::Job;

/// The jobs of the worker at this place, each of which asks for services of the table. No worker has two jobs more than another.
pub(crate) fn share_of<'a>(
    table: &ServiceTable,
    jobs: &'a [Job],
    workers: usize,
    place: usize,
) -> &'a [Job]
    requires place { place < workers }
    requires workers { workers ≤ MAX_DESKS }
    requires jobs { FitJobs table.now jobs.now }
    ensures jobs { result.now ≡ jobs_of workers jobs.entry.now place }
    ensures services { All (λ job. AreServices table.now job.uses.items) result.now }
{
    // The table stands in what is promised alone.
    let _ = table;
    let start = place * jobs.len() / workers;
    let end = (place + 1) * jobs.len() / workers;
    &jobs[start..end]
}
