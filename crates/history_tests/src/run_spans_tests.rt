//! The spans and the levels of a run, and of one that is cut off.
use resource_lock::{LockId, MarkId, WorkerId};
use run_spans::{Level, Span, Subject, levels_of, spans_of};
use std::test::Fail;
use whole_histories::read_history;

/// A task whose item another worker works on, while its lock is parked.
static RUN: &[u8] = b"history 1\nworkers 2 max 1 parallel yes\n\
    1 w0 start 0 | lock 3, take, task 0 waiting running\n\
    2 w0 submit 0 | action 0 waiting queued, unit 0 waiting queued\n\
    3 w0 park 0 | give, unlock 3, park 3, action 0 queued running\n\
    4 w1 claim 0 | take, unit 0 queued running\n\
    5 w1 close 0 number 3 | unit 0 running passed, give\n\
    6 w0 resume 0 | unpark 3, lock 3, take, action 0 running passed\n\
    7 w0 end 0 | task 0 running passed, unlock 3, give\n\
    8 w1 acquire | failed\n\
    9 w1 block - | enter\n\
    end 9\n";

/// What holds, for which worker, from which entry, and until which.
static SPANS: [(Subject, u32, u64, u64); 10] = [
    (Subject::Owned(LockId(3)), 0, 1, 3),
    (Subject::Lease(WorkerId(0)), 0, 1, 3),
    (Subject::Running(MarkId::Task(0)), 0, 1, 7),
    (Subject::Parked(WorkerId(0), LockId(3)), 0, 3, 6),
    (Subject::Running(MarkId::Action(0)), 0, 3, 6),
    (Subject::Lease(WorkerId(1)), 1, 4, 5),
    (Subject::Running(MarkId::Unit(0)), 1, 4, 5),
    (Subject::Owned(LockId(3)), 0, 6, 7),
    (Subject::Lease(WorkerId(0)), 0, 6, 7),
    (Subject::Blocked(WorkerId(1)), 1, 9, 10),
];

/// The leases out and the units queued after each entry.
static LEVELS: [(u64, u64); 9] = [
    (1, 0),
    (1, 1),
    (0, 1),
    (1, 0),
    (0, 0),
    (1, 0),
    (0, 0),
    (0, 0),
    (0, 0),
];

fn is_same(one: Subject, other: Subject) -> bool {
    match (one, other) {
        (Subject::Lease(v), Subject::Lease(w)) => v == w,
        (Subject::Blocked(v), Subject::Blocked(w)) => v == w,
        (Subject::Owned(k), Subject::Owned(l)) => k == l,
        (Subject::Parked(v, k), Subject::Parked(w, l)) => v == w && k == l,
        (Subject::Running(m), Subject::Running(n)) => m == n,
        _ => false,
    }
}

// Whether the spans are those of the run.
fn are_its_spans(spans: &[Span]) -> bool {
    for (span, (subject, worker, from, until)) in spans.iter().zip(&SPANS) {
        let is_its = is_same(span.subject, *subject)
            && span.worker == WorkerId(*worker)
            && (span.from, span.until) == (*from, *until);
        if !is_its {
            return false;
        }
    }
    spans.len() == SPANS.len()
}

#[test]
fn spans_of_a_run(rt: HostRuntime) -> Result<(), Fail> {
    let history = read_history(rt.alloc(), RUN)?;
    let spans = spans_of(rt.alloc(), &history.entries);
    drop(history);
    assert!(rt; are_its_spans(&spans?));
    Ok(())
}

// Whether the levels are those of the run.
fn are_its_levels(levels: &[Level]) -> bool {
    for (level, told) in levels.iter().zip(&LEVELS) {
        if (level.out, level.queued) != *told {
            return false;
        }
    }
    levels.len() == LEVELS.len()
}

#[test]
fn levels_of_a_run(rt: HostRuntime) -> Result<(), Fail> {
    let history = read_history(rt.alloc(), RUN)?;
    let levels = levels_of(rt.alloc(), &history.entries);
    drop(history);
    assert!(rt; are_its_levels(&levels?));
    Ok(())
}
