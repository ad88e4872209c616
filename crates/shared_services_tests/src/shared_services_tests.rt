//! Uses of two services, taken and given back by three workers, one entry after another.

use crate::books::{EntryRow, TWO_SERVICES, book_of, has_entries, table_of};
use lock_journal::Book;
use lock_transforms::kinds::{HandBack, Shortage};
use lock_transforms::{Disposition, Transform};
use resource_lock::{Change, LockId, WorkerId};
use shared_services::{ServiceTable, TakeUses};
use std::alloc::AllocError;
use std::process::Abort;
use std::test::Fail;

/// What a worker does: it tries to take uses, or gives all back.
#[derive(Clone, Copy)]
enum Call {
    Try(&'static [u32]),
    GiveBack,
}

/// A worker's call, whether it comes to anything, and how many workers use each of the services then.
type Turn = (u32, Call, bool, [u32; 2]);

static TURNS: [Turn; 6] = [
    (0, Call::Try(&[0]), true, [1, 0]),
    (1, Call::Try(&[0, 1]), true, [2, 1]),
    (2, Call::Try(&[0]), false, [2, 1]),
    (2, Call::Try(&[1]), false, [2, 1]),
    (0, Call::GiveBack, true, [1, 1]),
    (2, Call::Try(&[0]), true, [2, 1]),
];

static ENTRIES: [EntryRow; 6] = [
    (0, Some(&[Change::Lock(LockId(0)), Change::Take])),
    (
        1,
        Some(&[
            Change::Lock(LockId(1)),
            Change::Lock(LockId(2)),
            Change::Take,
        ]),
    ),
    (2, None),
    (2, None),
    (0, Some(&[Change::Unlock(LockId(0)), Change::Give])),
    (2, Some(&[Change::Lock(LockId(0)), Change::Take])),
];

/// Runs a transform of a worker. Whether it finished.
fn finishes<T: Transform>(book: &mut Book, worker: u32, transform: &T) -> Result<bool, AllocError> {
    if worker >= book.graph().workers() {
        return Ok(false);
    }
    let disposition = book.run(WorkerId(worker), &[], transform)?;
    Ok(matches!(disposition, Disposition::Finished))
}

fn comes_to_something(
    rt: &impl Abort,
    table: &ServiceTable,
    book: &mut Book,
    worker: u32,
    call: Call,
) -> Result<bool, AllocError> {
    match call {
        Call::Try(asked) => {
            assert!(rt; table.are_services(asked));
            let take = TakeUses {
                table,
                asked,
                shortage: Shortage::Fails,
            };
            finishes(book, worker, &take)
        }
        Call::GiveBack => finishes(book, worker, &HandBack),
    }
}

/// How many workers use a service.
fn users(table: &ServiceTable, book: &Book, service: u32) -> u32 {
    if service >= table.services() || table.locks() != book.graph().locks() {
        return u32::MAX;
    }
    table.in_use(book.state(), service)
}

#[test]
fn uses_are_taken_whole_or_not_at_all(rt: HostRuntime) -> Result<(), Fail> {
    let table = table_of(&rt, rt.alloc(), &TWO_SERVICES)?;
    let mut book = book_of(&rt, rt.alloc(), &table, 3)?;
    for turn in &TURNS {
        assert!(rt; goes(&rt, &table, &mut book, turn)?);
    }
    assert!(rt; has_entries(&book, &ENTRIES));
    Ok(())
}

// Whether a turn goes as it has to.
fn goes(
    rt: &impl Abort,
    table: &ServiceTable,
    book: &mut Book,
    turn: &Turn,
) -> Result<bool, AllocError> {
    let (worker, call, comes, [first, second]) = *turn;
    Ok(
        comes_to_something(rt, table, book, worker, call)? == comes
            && users(table, book, 0) == first
            && users(table, book, 1) == second,
    )
}

#[test]
fn locks_are_those_of_their_services(rt: HostRuntime) -> Result<(), Fail> {
    let table = table_of(&rt, rt.alloc(), &TWO_SERVICES)?;
    assert!(rt; has_services(&table) && fit_within_limits() && are_services_rising(&table));
    Ok(())
}

/// The service of each lock, and of a lock that no service has.
static SERVICES: [Option<u32>; 4] = [Some(0), Some(0), Some(1), None];

// Whether the table of two services has their locks.
fn has_services(table: &ServiceTable) -> bool {
    for (lock, service) in SERVICES.iter().enumerate() {
        if table.service_of(LockId(lock as u32)) != *service {
            return false;
        }
    }
    table.locks() == 3 && table.services() == 2
}

/// Maxima, and whether they fit: each is 1 to 32, of 1 to 64 services.
static MAXIMA: [(&[u32], bool); 6] = [
    (&[0], false),
    (&[33], false),
    (&[], false),
    (&[1; 65], false),
    (&[32; 64], true),
    (&[1], true),
];

fn fit_within_limits() -> bool {
    for (maxima, fit) in &MAXIMA {
        if ServiceTable::fits(maxima) != *fit {
            return false;
        }
    }
    true
}

/// Numbers, and whether they are services of a table of two, in strictly rising order.
static ASKED: [(&[u32], bool); 5] = [
    (&[1, 0], false),
    (&[0, 0], false),
    (&[2], false),
    (&[], true),
    (&[0, 1], true),
];

fn are_services_rising(table: &ServiceTable) -> bool {
    for (asked, are_services) in &ASKED {
        if table.are_services(asked) != *are_services {
            return false;
        }
    }
    true
}
