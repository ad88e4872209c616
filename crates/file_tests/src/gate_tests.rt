//! Gates, shared by two threads.
use file_access::{Gate, OpenGate};
use memory_files::MeetingGate;
use std::thread::{Threads, join};

// Has two workers enter, each in a thread of its own.
fn enter_both<R: Threads, G: Gate + Sync>(rt: &R, gate: &G) {
    join(rt, || gate.enter(0, 0), || gate.enter(1, 1));
}

#[test]
fn two_workers_meet(rt: HostRuntime) {
    let gate = MeetingGate::new(10_000_000);
    enter_both(&rt, &gate);
    assert!(rt; gate.met());
    enter_both(&rt, &OpenGate);
}

#[test]
fn one_worker_meets_nobody(rt: HostRuntime) {
    let gate = MeetingGate::new(3);
    gate.enter(0, 0);
    gate.enter(0, 1);
    gate.enter(0, 2);
    assert!(rt; !gate.met());
}
