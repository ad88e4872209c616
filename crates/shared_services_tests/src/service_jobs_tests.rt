//! Runs of jobs on one desk and on several.
ghost use Rattle.std.specs.Prelude.{◌≡◌, All, true};
ghost use Rattle.shared_services.specs.Services.{AreServices};
ghost use Rattle.shared_services.specs.Fit.{FitJobs};

use crate::books::{EntryRow, TWO_SERVICES, has_entries, table_of};
use crate::replays::{MAXIMA, is_run_of};
use item_actions::{ItemAction, Outcome, Text};
use memory_files::{FileEntry, FileMap};
use resource_lock::{Change, LockId};
use shared_services::{Job, JobDone, JobsEnd, MAX_DESKS, MAX_JOBS, ServiceTable, run_jobs};
use std::alloc::{AllocError, Global};
use std::process::Abort;
use std::sync::Wait;
use std::test::Fail;
use std::thread::Threads;

/// How many leases a run has at most.
const LEASES: u32 = 24;

/// How many lines, words and bytes b.txt has.
static NUMBERS: [u64; 3] = [2, 3, 14];

/// The files of a desk.
static FILES: [(&str, &[u8]); 2] = [
    ("a.txt", b"one\ntwo\nthree\n"),
    ("b.txt", b"one two\nthree\n"),
];

/// The uses of three jobs, which work out the lines, the words and the bytes of a.txt, and what each gives.
static JOBS: [(&[u32], u64); 3] = [(&[0], 3), (&[0, 1], 3), (&[], 14)];

/// The entries of these jobs.
static ENTRIES: [EntryRow; 6] = [
    (0, Some(&[Change::Lock(LockId(0)), Change::Take])),
    (0, Some(&[Change::Unlock(LockId(0)), Change::Give])),
    (
        0,
        Some(&[
            Change::Lock(LockId(0)),
            Change::Lock(LockId(2)),
            Change::Take,
        ]),
    ),
    (
        0,
        Some(&[
            Change::Unlock(LockId(0)),
            Change::Unlock(LockId(2)),
            Change::Give,
        ]),
    ),
    (0, Some(&[Change::Take])),
    (0, Some(&[Change::Give])),
];

/// The uses of the job with this number: every second job uses the first service, every third the second, and so on.
fn uses_of(alloc: Global, number: usize, services: u32) -> Result<Vec<u32>, AllocError> {
    let mut uses = Vec::new(alloc);
    for service in 0..services {
        if number % (service as usize + 2) == 0 {
            uses.push(service)?;
        }
    }
    Ok(uses)
}

/// What the job with this number works out.
fn action_of(number: usize) -> ItemAction {
    match number % 3 {
        0 => ItemAction::Lines,
        1 => ItemAction::Words,
        _ => ItemAction::Bytes,
    }
}

/// The three jobs of a.txt.
fn three_jobs(alloc: Global) -> Result<Vec<Job>, AllocError> {
    let mut jobs = Vec::new(alloc);
    for (number, (uses, _)) in JOBS.iter().enumerate() {
        let action = action_of(number);
        let file = Text::from_str(alloc, "a.txt")?;
        let uses = uses.to_vec(alloc)?;
        jobs.push(Job { action, file, uses })?;
    }
    Ok(jobs)
}

/// So many jobs. They work out the lines, the words and the bytes of b.txt in turns, and their uses differ.
fn jobs_of(alloc: Global, count: usize, services: u32) -> Result<Vec<Job>, AllocError> {
    let mut jobs = Vec::new(alloc);
    for number in 0..count {
        let action = action_of(number);
        let file = Text::from_str(alloc, "b.txt")?;
        let uses = uses_of(alloc, number, services)?;
        jobs.push(Job { action, file, uses })?;
    }
    Ok(jobs)
}

fn desk(alloc: Global) -> Result<FileMap, AllocError> {
    let mut entries = Vec::new(alloc);
    for (name, bytes) in &FILES {
        let name = Text::from_str(alloc, name)?;
        let bytes = Vec::from_slice(alloc, bytes)?;
        entries.push(FileEntry { name, bytes })?;
    }
    Ok(FileMap::new(entries))
}

/// Whether each job asks for services of the table.
fn ask_for_services(table: &ServiceTable, jobs: &[Job]) -> bool
    ensures { result ≡ true → All (λ job. AreServices table.now job.uses.items) jobs.now }
{
    jobs.iter().all(|job| table.are_services(&job.uses))
}

/// Whether the jobs can be run on the services of the table.
fn fit(table: &ServiceTable, jobs: &[Job]) -> bool
    ensures { result ≡ true → FitJobs table.now jobs.now }
{
    jobs.len() <= MAX_JOBS && ask_for_services(table, jobs)
}

/// Runs the jobs on so many desks with so many leases.
fn run_on<R: Threads + Wait + Sync + Abort>(
    rt: &R,
    alloc: Global,
    table: &ServiceTable,
    jobs: &[Job],
    count: u32,
    leases: u32,
) -> Result<JobsEnd, AllocError> {
    let mut desks = Vec::new(alloc);
    for _ in 0..count {
        desks.push(desk(alloc)?)?;
    }
    assert!(rt; !desks.is_empty() && desks.len() <= MAX_DESKS && fit(table, jobs));
    assert!(rt; 1 <= leases && leases <= LEASES);
    run_jobs(rt, alloc, table, jobs, leases, &mut desks)
}

/// Whether each job gave the number of its action.
fn gave_all(done: &[JobDone]) -> bool {
    for (number, ran) in done.iter().enumerate() {
        if !matches!(ran.outcome, Outcome::Number(told) if told == NUMBERS[number % 3]) {
            return false;
        }
    }
    true
}

#[test]
fn jobs_of_one_desk_run_in_turn(rt: HostRuntime) -> Result<(), Fail> {
    let table = table_of(&rt, rt.alloc(), &TWO_SERVICES)?;
    let jobs = three_jobs(rt.alloc())?;
    let end = run_on(&rt, rt.alloc(), &table, &jobs, 1, 1)?;
    assert!(rt; has_entries(&end.book, &ENTRIES) && ran_in_turn(&end.done));
    Ok(())
}

// Whether these are the three jobs, each with the second entry behind the one before it, and its own number.
fn ran_in_turn(done: &[JobDone]) -> bool {
    for (place, ran) in done.iter().enumerate() {
        let is_number = matches!(ran.outcome, Outcome::Number(told) if told == JOBS[place % 3].1);
        if !is_number || ran.taken != place as u64 * 2 + 1 {
            return false;
        }
    }
    done.len() == 3
}

/// Runs so many jobs on eight services and so many desks with so many leases, follows the history, and compares what the jobs gave.
fn runs_well<R: Threads + Wait + Sync + Abort>(
    rt: &R,
    alloc: Global,
    count: usize,
    desks: u32,
    leases: u32,
) -> Result<bool, AllocError> {
    let table = table_of(rt, alloc, &MAXIMA)?;
    let jobs = jobs_of(alloc, count, 8)?;
    let end = run_on(rt, alloc, &table, &jobs, desks, leases)?;
    Ok(gave_all(&end.done) && is_run_of(alloc, &end, &jobs, leases)?)
}

#[test]
fn four_desks_give_what_one_gives(rt: HostRuntime) -> Result<(), Fail> {
    assert!(rt; runs_well(&rt, rt.alloc(), 200, 1, 1)?);
    assert!(rt; runs_well(&rt, rt.alloc(), 200, 4, 2)?);
    Ok(())
}

#[test]
fn many_jobs_keep_the_maxima(rt: HostRuntime) -> Result<(), Fail> {
    for _ in 0..20 {
        assert!(rt; runs_well(&rt, rt.alloc(), 2000, 32, LEASES)?);
    }
    Ok(())
}
