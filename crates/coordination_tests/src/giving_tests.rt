//! Services whose history is taken while their workers go on.
ghost use Rattle.std.specs.Prelude.{◌≡◌, All};

use crate::services::{let_go, open};
use coordination::{Coordination, Opened, Pass};
use lock_journal::{Book, Segment, Shown};
use lock_transforms::kinds::{Acquire, HandBack, Shortage};
use resource_lock::{Change, LockId};
use state_tests::books::book_of;
use state_tests::rows::Limits;
use std::alloc::{AllocError, Global};
use std::process::Abort;
use std::sync::{Mutex, Wait};
use std::thread;
use std::thread::Threads;

/// Eight workers share four locks.
const LIMITS: Limits = Limits {
    locks: 4,
    all: None,
    workers: 8,
    max_leases: 8,
};

/// How often each takes a lock and hands it back.
const TURNS: u32 = 400;

/// After so many turns each takes a part of the history.
const TURNS_TO_A_PART: u32 = 40;

// Takes what the service keeps of its history, as the next of the parts. False says that it could not be taken or kept.
fn take_part<R: Wait>(
    rt: &R,
    alloc: Global,
    service: &Coordination,
    pass: &mut Pass,
    parts: &Mutex<Vec<Segment>>,
) -> bool
    requires { pass.old.service ≡ service.now.service }
    ensures { pass.new.service ≡ pass.old.service }
{
    let Ok(mut segment) = Segment::opening(alloc, 0, 64, 128) else {
        return false;
    };
    let taken = service.take_history(rt, pass, &mut segment);
    let kept = parts.lock(rt).push(segment);
    taken && kept.is_ok()
}

// Takes a lock and hands it back.
fn take_turn<R: Wait>(rt: &R, service: &Coordination, pass: &mut Pass) -> bool
    requires { pass.old.service ≡ service.now.service }
    ensures { pass.new.service ≡ pass.old.service }
{
    let locks = [LockId(pass.worker().0 % 4)];
    let acquire = Acquire {
        locks: &locks,
        shortage: Shortage::Waits,
    };
    matches!(service.with_state_lock(rt, pass, &acquire), Ok(true))
        && matches!(service.with_state_lock(rt, pass, &HandBack), Ok(true))
}

// Takes turns, and a part of the history now and then.
fn take_turns<R: Wait + Abort>(
    rt: &R,
    alloc: Global,
    service: &Coordination,
    pass: &mut Pass,
    parts: &Mutex<Vec<Segment>>,
)
    requires { pass.old.service ≡ service.now.service }
    ensures { pass.new.service ≡ pass.old.service }
{
    for turn in 0..TURNS {
        let went = take_turn(rt, service, pass);
        assert!(rt;
            went && (turn % TURNS_TO_A_PART != 0 || take_part(rt, alloc, service, pass, parts))
        );
    }
}

// Has each worker take its turns in a thread of its own.
fn take_turns_in_threads<R: Threads + Wait + Abort + Sync>(
    rt: &R,
    alloc: Global,
    service: &Coordination,
    passes: &mut [Pass],
    parts: &Mutex<Vec<Segment>>,
)
    requires { All (λ p. p.service ≡ service.now.service) passes.old }
    ensures { All (λ p. p.service ≡ service.now.service) passes.new }
{
    let threads = passes.len().max(1);
    thread::for_each_mut(
        rt,
        passes,
        threads,
        &|_, pass| { take_turns(rt, alloc, service, pass, parts) },
    );
}

// Has each worker take what is left of the history.
fn take_rest<R: Wait + Abort>(
    rt: &R,
    alloc: Global,
    service: &Coordination,
    passes: &mut [Pass],
    parts: &Mutex<Vec<Segment>>,
)
    requires { All (λ p. p.service ≡ service.now.service) passes.old }
{
    for pass in passes {
        assert!(rt; take_part(rt, alloc, service, pass, parts));
    }
}

// Has the workers of a new service take their turns and its history.
fn take_all<R: Threads + Wait + Abort + Sync>(
    rt: &R,
    alloc: Global,
    parts: &Mutex<Vec<Segment>>,
) -> Result<(), AllocError> {
    let mut opened = open(alloc, &LIMITS, &[], &[])?.expect(rt, "a graph that fits");
    let Opened { service, passes } = &mut *opened;
    take_turns_in_threads(rt, alloc, service, passes, parts);
    take_rest(rt, alloc, service, passes, parts);
    let_go(opened);
    Ok(())
}

// Admits an entry behind the others.
fn goes_on_with(alloc: Global, book: &mut Book, entry: &Shown<'_>) -> Result<bool, AllocError> {
    if entry.failed {
        return book.admit(entry.worker, &entry.kind, None);
    }
    let changes: Vec<Change> = entry.changes.collect(alloc)?;
    let admitted = book.admit(entry.worker, &entry.kind, Some(changes.as_slice()));
    drop(changes);
    admitted
}

// Admits the entries of a part behind the others.
fn goes_on_with_part(alloc: Global, book: &mut Book, part: &Segment) -> Result<bool, AllocError> {
    for place in 0..part.len() {
        if !goes_on_with(alloc, book, &part.entry(place))? {
            return Ok(false);
        }
    }
    Ok(true)
}

// Admits the entries of the parts in order, and answers whether they are one history from the first entry on.
fn are_one_history(alloc: Global, book: &mut Book, parts: &[Segment]) -> Result<bool, AllocError> {
    for _ in 0..parts.len() {
        for part in parts {
            if part.before() == book.len() && !goes_on_with_part(alloc, book, part)? {
                return Ok(false);
            }
        }
    }
    Ok(true)
}

// Whether the parts are one history of all turns, at whose end no lease is out.
fn are_the_history(rt: &impl Abort, alloc: Global, parts: &[Segment]) -> Result<bool, AllocError> {
    let mut book = book_of(alloc, &LIMITS, &[], &[])?.expect(rt, "a graph that fits");
    let are_one = are_one_history(alloc, &mut book, parts);
    let is_whole = book.len() == 8 * u64::from(TURNS) * 2 && book.state().leases_out() == 0;
    drop(book);
    Ok(are_one? && is_whole)
}

#[test]
fn the_parts_of_a_history_are_one_history(rt: HostRuntime) -> Result<(), AllocError> {
    let parts = Mutex::new(Vec::new(rt.alloc()));
    let taken = take_all(&rt, rt.alloc(), &parts);
    let parts = parts.into_inner();
    let are_one = are_the_history(&rt, rt.alloc(), &parts);
    drop(parts);
    taken?;
    assert!(rt; are_one?);
    Ok(())
}
