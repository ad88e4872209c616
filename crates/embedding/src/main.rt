//! Two threads of one's own that share two project locks and one lease: the calls that whoever embeds the crates makes.
#![tactic(auto)]

mod opening;
mod working;

use crate::opening::open;
use crate::working::{Parts, work_in_threads};
use anyhow::Result;
use coordination::Opened;
use lock_journal::Segment;
use std::sync::{Mutex, Wait};
use std::thread::Threads;

/// How many workers there are, each with a project of its own, and how many of them may work at once.
const WORKERS: u32 = 2;

// How many leases are out at most.
const MAX_LEASES: u32 = 1;

// Has the workers work, and prints what came of it.
fn run<R: Threads + Wait + Sync>(rt: &HostRuntime, threads: &R) -> Result<()> {
    let opened = open(rt.alloc(), WORKERS, MAX_LEASES)?;
    let Opened {
        service,
        mut passes,
    } = Box::into_inner(opened);
    // The service has no plan, and so no units.
    let segment = Segment::opening(rt.alloc(), 0, 0, 0)?;
    let parts = Mutex::new(Parts {
        segment,
        entries: 0,
    });
    work_in_threads(threads, &service, &mut passes, WORKERS, &parts);
    let book = service.finish(passes);
    println!(rt; "entries: {}", book.len())?;
    println!(rt; "taken on the way: {}", parts.into_inner().entries)?;
    println!(rt; "leases out: {}", book.state().leases_out())?;
    Ok(())
}

fn main(rt: HostRuntime) -> Result<()> {
    run(&rt, &rt)
}
