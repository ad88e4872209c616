//! A history of jobs, followed entry by entry beside the maxima of eight services.
ghost use Rattle.std.specs.Prelude.{◌≡◌, ◌<◌, true};

use lock_journal::{Book, Changes};
use resource_lock::Change;
use shared_services::{Job, JobDone, JobsEnd};
use std::alloc::{AllocError, Global};

/// How many may use each of the services at once.
pub static MAXIMA: [u32; 8] = [8, 7, 6, 5, 4, 3, 2, 1];

/// The service of each lock.
static SERVICES: [u32; 36] = [
    0, 0, 0, 0, 0, 0, 0, 0, 1, 1, 1, 1, 1, 1, 1, 2, 2, 2, 2, 2, 2, 3, 3, 3, 3, 3, 4, 4, 4, 4, 5, 5,
    5, 6, 6, 7,
];

/// The owner of a lock that nobody owns.
const NOBODY: u32 = 32;

/// Who owns each lock, and how many leases each worker has.
#[derive(Drop)]
struct Replay {
    owners: [u32; 36],
    leases: [u32; 32],
}

/// Changes a cell from one value to another. False where it has another value.
fn exchange(cells: &mut [u32], place: usize, from: u32, to: u32) -> bool {
    let there = place < cells.len() && cells[place] == from;
    if there {
        cells[place] = to;
    }
    there
}

impl Replay {
    /// Follows a change of a worker. False where it can't be made.
    fn follow(&mut self, worker: u32, change: &Change) -> bool {
        match change {
            Change::Lock(lock) => exchange(&mut self.owners, lock.0 as usize, NOBODY, worker),
            Change::Unlock(lock) => exchange(&mut self.owners, lock.0 as usize, worker, NOBODY),
            Change::Take => exchange(&mut self.leases, worker as usize, 0, 1),
            Change::Give => exchange(&mut self.leases, worker as usize, 1, 0),
            _ => false,
        }
    }

    /// The workers that own a lock of the service, as bits. All bits where one of them owns two.
    fn users(&self, service: u32) -> u32 {
        let mut users = 0u32;
        for (of, owner) in SERVICES.iter().zip(&self.owners) {
            if *of == service && *owner != NOBODY {
                let user = 1u32.wrapping_shl(*owner);
                users = if users & user == 0 {
                    users | user
                } else {
                    u32::MAX
                };
            }
        }
        users
    }

    /// Whether no service has more users than its maximum.
    fn keeps_maxima(&self) -> bool {
        for (service, most) in MAXIMA.iter().enumerate() {
            if self.users(service as u32).count_ones() > *most {
                return false;
            }
        }
        true
    }

    /// How many leases are out.
    fn leases_out(&self) -> u32 {
        let mut out = 0u32;
        for count in &self.leases {
            out = out.saturating_add(*count);
        }
        out
    }

    /// Whether nobody has anything.
    fn is_at_rest(&self) -> bool {
        for owner in &self.owners {
            if *owner != NOBODY {
                return false;
            }
        }
        self.leases_out() == 0
    }
}

/// Whether the entries of the book can follow one another, and each leaves the maxima and the number of leases kept. At the end
/// nobody has anything.
fn keeps_all_maxima(book: &Book, max_leases: u32) -> bool {
    let mut replay = Replay {
        owners: [NOBODY; 36],
        leases: [0; 32],
    };
    for place in book.given()..book.len() {
        let shown = book.entry(place);
        for change in shown.changes {
            if !replay.follow(shown.worker.0, &change) {
                return false;
            }
        }
        if !replay.keeps_maxima() || replay.leases_out() > max_leases {
            return false;
        }
    }
    replay.is_at_rest()
}

/// Whether the change locks a lock of the service.
fn is_use_of(change: &Change, service: u32) -> bool {
    match change {
        Change::Lock(lock) => SERVICES.get(lock.0 as usize) == Some(&service),
        _ => false,
    }
}

/// Whether the changes are one lock of each of the services, and a lease.
fn takes(mut changes: Changes<'_>, uses: &[u32]) -> bool {
    for service in uses {
        match changes.next() {
            Some(change) if is_use_of(&change, *service) => {}
            _ => return false,
        }
    }
    changes.eq([Change::Take])
}

/// Whether the job's entry is its worker's, and takes its uses. The entry has a number then.
fn took_its_uses(book: &Book, job: &Job, ran: &JobDone) -> bool
    ensures { result ≡ true → 0 < ran.now.taken }
{
    if ran.taken <= book.given() || ran.taken > book.len() {
        return false;
    }
    let shown = book.entry(ran.taken - 1);
    shown.worker.0 == ran.worker.0 && takes(shown.changes, &job.uses)
}

/// Whether a run of jobs is right: its history keeps all maxima, and each job has an entry of its own that takes its uses.
pub fn is_run_of(
    alloc: Global,
    end: &JobsEnd,
    jobs: &[Job],
    max_leases: u32,
) -> Result<bool, AllocError> {
    let mut used = Vec::new(alloc);
    used.resize(end.book.len() as usize, 0)?;
    for (job, ran) in jobs.iter().zip(&end.done) {
        if !took_its_uses(&end.book, job, ran)
            || !exchange(&mut used, ran.taken as usize - 1, 0, 1)
        {
            return Ok(false);
        }
    }
    let as_many = end.done.len() == jobs.len() && end.book.len() == 2 * jobs.len() as u64;
    Ok(as_many && keeps_all_maxima(&end.book, max_leases))
}
