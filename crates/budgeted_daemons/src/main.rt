//! Eight threads whose worker processes have together no more memory than a budget.
//!
//! Called as `worker` it is such a process itself. Called as `events` it prints what happened to each of them.
#![tactic(auto)]

ghost use Rattle.std.specs.Prelude.{◌≡◌, ◌+◌, ◌≤◌, []};

mod asked;
mod opening;
mod working;

use crate::opening::open;
use crate::working::{OutcomeCounts, Shared, work_in_threads};
use anyhow::{Result, bail};
use coordination::Opened;
use daemon_desk::{Desk, FolderDesk, FolderLink, Served, serve};
use daemon_manager::{Event, Tallies, Tally};
use file_access::{FolderFiles, StdSink, StdSource};
use item_actions::Text;
use memory_budget::{BudgetLedger, BudgetLock, BudgetPool, CountedBudget};
use std::alloc::AllocError;
use std::marker::Brand;
use std::sync::ledger::{Blank, Ledger};
use std::sync::{Mutex, Wait};
use std::thread::Threads;
use std::{env, io};

/// How many threads there are.
const WORKERS: u32 = 8;

/// How many MB their worker processes may have together.
const BUDGET_MB: u64 = 1600;

/// The system's own link to the running program, by which it is started again as a worker process.
const RUNNING_PROGRAM: &str = "/proc/self/exe";

// A desk of the current folder, whose worker processes are this program.
pub(crate) fn desk(rt: &HostRuntime) -> Result<FolderDesk<&HostRuntime>> {
    let alloc = rt.alloc();
    let program = Text::from_str(alloc, RUNNING_PROGRAM)?;
    Ok(FolderDesk::new(rt, alloc, program))
}

// Answers the requests of the program that started this one.
fn serve_requests(rt: &HostRuntime) -> Result<()> {
    let alloc = rt.alloc();
    let mut input = StdSource::new(rt.stdin());
    let mut out = StdSink::new(io::writer(rt));
    let mut files = FolderFiles::new(rt, alloc);
    match serve(alloc, &mut input, &mut out, &mut files) {
        Served::Done => Ok(()),
        _ => bail!("the requests broke off"),
    }
}

// What happened to a worker process, in words. Of a reservation the unit is told, of a start the heap.
fn tell(rt: &HostRuntime, event: &Event) -> Result<()> {
    match event {
        Event::Started(daemon, asked) => println!(rt;
            "started {daemon} {}",
            asked.fields().heap_mb
        )?,
        Event::Reserved(daemon, unit) => println!(rt; "reserved {daemon} {unit}")?,
        Event::Released(daemon) => println!(rt; "released {daemon}")?,
        Event::Failed(daemon) => println!(rt; "failed {daemon}")?,
        Event::Stopped(daemon) => println!(rt; "stopped {daemon}")?,
    }
    Ok(())
}

// Stops the idle worker processes, and gives all that happened to any.
fn close<D: Desk, U: BudgetLedger, F: Ledger>(
    pool: BudgetLock<D::Link, U, F>,
    tallies: Tallies<U, F>,
    desk: &mut D,
) -> Vec<Event> {
    let mut pool = pool.into_pool().audit(tallies);
    stop_all_idle(&mut pool, desk);
    pool.into_events()
}

// Stops the idle worker processes, the first released first.
fn stop_all_idle<D: Desk>(pool: &mut BudgetPool<D::Link>, desk: &mut D)
    ensures { pool.new.pool.idle ≡ [] }
{
    while let Some(link) = pool.stop_idle() {
        desk.stop(link);
    }
}

// A tally for each worker. One part stays.
fn split_tallies<U: Ledger, F: Ledger>(
    rt: &HostRuntime,
    all: &mut Tallies<U, F>,
) -> Result<Vec<Mutex<Tally<U, F>>>, AllocError>
    requires { WORKERS + 1 ≤ all.old.parts }
{
    let mut tallies = Vec::new(rt.alloc());
    for _worker in 0..WORKERS {
        tallies.push(Mutex::new(all.split_off()))?;
    }
    Ok(tallies)
}

// Has the threads work, each with a pass, and gives how many leases are out once all have ended.
fn work_all<R: Threads + Wait + Sync, U: BudgetLedger + Send + Sync, F: Ledger + Send + Sync>(
    rt: &HostRuntime,
    threads: &R,
    pool: &BudgetLock<FolderLink, U, F>,
    counts: &Mutex<OutcomeCounts>,
    all: &mut Tallies<U, F>,
) -> Result<u32>
    requires { WORKERS + 1 ≤ all.old.parts }
{
    let opened = open(rt.alloc(), WORKERS)?;
    let Opened {
        service,
        mut passes,
    } = Box::into_inner(opened);
    let tallies = split_tallies(rt, all)?;
    let shared = Shared {
        threads,
        service: &service,
        pool,
        counts,
        tallies: tallies.as_slice(),
    };
    work_in_threads(rt, &shared, &mut passes);
    for tally in tallies {
        all.merge(tally.into_inner());
    }
    let book = service.finish(passes);
    Ok(book.state().leases_out())
}

// Has the threads work, stops what is idle then, and prints what came of it. The ledgers have a part for each worker and one more.
fn run_counted<R: Threads + Wait + Sync, U: BudgetLedger + Send + Sync, F: Ledger + Send + Sync>(
    rt: &HostRuntime,
    threads: &R,
    told: bool,
    reserved: Blank,
    failed: Blank,
) -> Result<()>
    requires budget { BUDGET_MB ≡ U.budget_mb }
    requires reserved { (reserved.name ≡ U.name) × (reserved.parts ≡ U.parts) × (U.parts ≡ WORKERS + 1) }
    requires failed { (failed.name ≡ F.name) × (failed.parts ≡ F.parts) × (F.parts ≡ WORKERS + 1) }
{
    let mut last = desk(rt)?;
    let pool = BudgetPool::new(rt.alloc(), BUDGET_MB)?;
    let (pool, mut all) = CountedBudget::<FolderLink, U, F>::new(pool, reserved, failed);
    let pool = BudgetLock::new(pool);
    let counts = Mutex::new(OutcomeCounts::new());
    let worked = work_all(rt, threads, &pool, &counts, &mut all);
    let events = close(pool, all, &mut last);
    let leases_out = worked?;
    let OutcomeCounts { right, wrong } = counts.into_inner();
    println!(rt; "items: {right} right, {wrong} wrong")?;
    println!(rt; "leases out: {leases_out}")?;
    if told {
        for event in &events {
            tell(rt, event)?;
        }
    }
    Ok(())
}

// The same in new ledgers.
fn run<R: Threads + Wait + Sync>(rt: &HostRuntime, threads: &R, told: bool) -> Result<()> {
    let parts = u64::from(WORKERS) + 1;
    let reserved = Blank::new(parts);
    let failed = Blank::new(parts);
    run_counted::<R, Brand, Brand>(rt, threads, told, reserved, failed)
}

fn main(rt: HostRuntime) -> Result<()> {
    let mut words = env::args(&rt)?.skip(1);
    match words.next() {
        Some(word) if word.as_str() == "worker" => serve_requests(&rt),
        Some(word) => run(&rt, &rt, word.as_str() == "events"),
        None => run(&rt, &rt, false),
    }
}
