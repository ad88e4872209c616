//! Eight threads of one's own that share the three connections of a database.
#![tactic(auto)]

mod opening;
mod working;

use crate::opening::{connections, open};
use crate::working::work_in_threads;
use anyhow::Result;
use coordination::Opened;
use std::sync::Wait;
use std::thread::Threads;

/// How many threads there are, and how many connections. As many leases as threads: only the connections are short.
const WORKERS: u32 = 8;

// How many connections there are.
const CONNECTIONS: u32 = 3;

// Has the workers send their queries, and prints what came of it.
fn run<R: Threads + Wait + Sync>(rt: &HostRuntime, threads: &R) -> Result<()> {
    let table = connections(rt.alloc(), CONNECTIONS)?;
    let opened = open(rt.alloc(), &table, WORKERS)?;
    let Opened {
        service,
        mut passes,
    } = Box::into_inner(opened);
    work_in_threads(threads, &service, &table, &mut passes);
    let book = service.finish(passes);
    println!(rt; "entries: {}", book.len())?;
    println!(rt; "leases out: {}", book.state().leases_out())?;
    Ok(())
}

fn main(rt: HostRuntime) -> Result<()> {
    run(&rt, &rt)
}
