//! Tests of `item_work`: items on a.txt that daemons in memory work out, one after the other.
ghost use Rattle.std.specs.Prelude.{◌≡◌, [], All, IfOk};
ghost use Rattle.item_work.specs.Sends.{IsNamedFor};
ghost use Rattle.daemon_tests.specs.Asking.{AnyMayAsk, AsksProcess};

use crate::asked::requirements_of;
use crate::claimed_items::{claim, close as close_item, last_pass, queue_items, run_claimed};
use crate::lines::{add_events, add_outcome, check};
use crate::memory_desks::desk;
use coordination::{Coordination, Opened, Pass};
use daemon_desk::Desk;
use daemon_manager::{CountedPool, Event, Pool, ReservationLedger, Tallies, Tally};
use daemon_requirements::{Isolation, Work};
use item_actions::{ItemAction, Outcome, Text, is_file_name};
use item_work::{PoolLock, Ran, SharedPool};
use lock_transforms::Closed;
use memory_desk::MemoryDesk;
use std::alloc::{AllocError, Global};
use std::marker::Brand;
use std::process::Abort;
use std::sync::ledger::{Blank, Ledger};
use std::sync::{Mutex, Wait};

/// The work of a unit, in a daemon with this heap at least: the first asks for the lines of a.txt, and all others for its bytes.
pub(crate) fn work(
    rt: &impl Abort,
    alloc: Global,
    unit: u32,
    heap_mb: u32,
) -> Result<Work, AllocError>
    ensures named { IfOk result (λ work. IsNamedFor work.isolation work.file) }
    ensures process { IfOk result (λ work. AsksProcess work.isolation) }
{
    let file = Text::from_str(alloc, "a.txt")?;
    assert!(rt; is_file_name(file.bytes()));
    let action = match unit {
        0 => ItemAction::Lines,
        _ => ItemAction::Bytes,
    };
    Ok(Work {
        action,
        file,
        isolation: Isolation::Process(requirements_of(alloc, heap_mb)?),
    })
}

/// A pass of a service.
#[derive(Drop)]
struct Seat<'a> {
    service: &'a Coordination,
    pass: Pass,
}

// Has a worker claim a unit's item, run it in a daemon, and close it.
fn run_unit<R: Wait + Abort, D: Desk, U: ReservationLedger, F: Ledger>(
    pool: &SharedPool<'_, R, D::Link, U, F>,
    desk: &mut D,
    mine: &mut Tally<U, F>,
    seat: &mut Seat<'_>,
    unit: u32,
    work: &Work,
) -> Result<Outcome, AllocError>
    requires service { seat.old.pass.service ≡ seat.old.service.now.service }
    requires named { IsNamedFor work.now.isolation work.now.file }
    requires asks { AnyMayAsk U.asks }
    ensures { seat.new.pass.service ≡ seat.new.service.now.service }
{
    let Seat { service, pass } = seat;
    claim(pool.rt, service, pass, unit)?;
    let Ran { outcome, spare } = run_claimed(pool, pass, desk, mine, unit, work);
    let closed = close_item(pool.rt, service, pass, Closed { unit, outcome });
    stop_spare(desk, spare);
    closed?;
    Ok(outcome)
}

// Has a worker run items, units 0 and so on, each in a daemon with this heap at least.
fn add_each<R: Wait + Abort, D: Desk, U: ReservationLedger, F: Ledger>(
    pool: &SharedPool<'_, R, D::Link, U, F>,
    desk: &mut D,
    mine: &mut Tally<U, F>,
    seat: &mut Seat<'_>,
    heaps: &[u32],
    line: &mut String,
) -> Result<(), AllocError>
    requires service { seat.old.pass.service ≡ seat.old.service.now.service }
    requires asks { AnyMayAsk U.asks }
{
    let mut unit = 0u32;
    for heap_mb in heaps {
        let work = work(pool.rt, pool.alloc, unit, *heap_mb)?;
        let outcome = run_unit(pool, desk, mine, seat, unit, &work);
        drop(work);
        add_outcome(outcome?, line)?;
        unit = unit.saturating_add(1);
    }
    Ok(())
}

// Has a worker of the service run queued items.
fn add_queued<R: Wait + Abort, D: Desk, U: ReservationLedger, F: Ledger>(
    pool: &SharedPool<'_, R, D::Link, U, F>,
    desk: &mut D,
    mine: &mut Tally<U, F>,
    opened: &mut Opened,
    heaps: &[u32],
    line: &mut String,
) -> Result<(), AllocError>
    requires service { All (λ p. p.service ≡ opened.old.service.service) opened.old.passes.items }
    requires asks { AnyMayAsk U.asks }
{
    let Opened { service, passes } = opened;
    let pass = last_pass(service, passes)?;
    let mut seat = Seat { service, pass };
    let added = add_each(pool, desk, mine, &mut seat, heaps, line);
    drop(seat);
    added
}

// Queues items, and has a worker run them.
fn add_items<R: Wait + Abort, D: Desk, U: ReservationLedger, F: Ledger>(
    pool: &SharedPool<'_, R, D::Link, U, F>,
    desk: &mut D,
    mine: &mut Tally<U, F>,
    heaps: &[u32],
    line: &mut String,
) -> Result<(), AllocError>
    requires { AnyMayAsk U.asks }
{
    let mut opened = queue_items(pool.rt, pool.alloc)?;
    let added = add_queued(pool, desk, mine, &mut opened, heaps, line);
    drop(opened);
    added
}

/// Stops a daemon that is one too many, if there is one.
pub(crate) fn stop_spare<D: Desk>(desk: &mut D, spare: Option<Box<D::Link>>)
    ensures { D.sends desk.new ≡ D.sends desk.old }
{
    if let Some(link) = spare {
        desk.stop(Box::into_inner(link));
    }
}

/// Stops the idle daemons.
pub(crate) fn stop_idle<D: Desk, U: ReservationLedger, F: Ledger>(
    desk: &mut D,
    pool: &mut CountedPool<D::Link, U, F>,
)
    ensures idle { pool.new.idle ≡ [] }
    ensures sends { D.sends desk.new ≡ D.sends desk.old }
{
    while let Some(link) = pool.stop_idle() {
        desk.stop(link);
    }
}

// Stops the idle daemons, and gives all events.
fn close<D: Desk, U: ReservationLedger, F: Ledger>(
    desk: &mut D,
    pool: PoolLock<D::Link, U, F>,
    all: Tallies<U, F>,
) -> Vec<Event> {
    let mut pool = pool.into_inner();
    stop_idle(desk, &mut pool);
    pool.audit(all).into_events()
}

// The outcomes of these items on a new pool, and all events. The counts of reserved and of failed daemons are in these ledgers.
fn add_counted<R: Wait + Abort, D: Desk, U: ReservationLedger, F: Ledger>(
    rt: &R,
    alloc: Global,
    desk: &mut D,
    blanks: (Blank, Blank),
    heaps: &[u32],
    line: &mut String,
) -> Result<(), AllocError>
    requires reserved { (blanks.0.name ≡ U.name) × (blanks.0.parts ≡ U.parts) × (U.parts ≡ 2) }
    requires failed { (blanks.1.name ≡ F.name) × (blanks.1.parts ≡ F.parts) × (F.parts ≡ 2) }
    requires asks { AnyMayAsk U.asks }
{
    let pool = Pool::new(alloc)?;
    let (reserved, failed) = blanks;
    let (pool, mut all) = CountedPool::<D::Link, U, F>::new(pool, reserved, failed);
    let pool = Mutex::new(pool);
    let mut mine = all.split_off();
    let shared = SharedPool {
        rt,
        alloc,
        pool: &pool,
    };
    let added = add_items(&shared, desk, &mut mine, heaps, line);
    all.merge(mine);
    let events = close(desk, pool, all);
    added?;
    add_events(&events, line)
}

// What comes of items that ask for these heaps, on a new pool and a desk with these failing calls and this lie, with how many
// of its calls failed.
fn ran<R: Wait + Abort>(
    rt: &R,
    alloc: Global,
    failing: &[u64],
    lie: Option<&[u8]>,
    heaps: &[u32],
) -> Result<String, AllocError> {
    let mut desk = desk(alloc, failing, lie)?;
    let mut line = String::new(alloc);
    let blanks = (Blank::new(2), Blank::new(2));
    let added = add_counted::<R, MemoryDesk, Brand, Brand>(
        rt, alloc, &mut *desk, blanks, heaps, &mut line,
    );
    let count = desk.count();
    drop(desk);
    added?;
    write!(line, "{count} failed")?;
    Ok(line)
}

/// Calls of the desk that fail, a lie in place of the first reply, the heaps that items ask for, and what comes of them.
type Row = (
    &'static [u64],
    Option<&'static [u8]>,
    &'static [u32],
    &'static str,
);

const ANSWERED: &str =
    "3. 14. started 0. reserved 0 for 0. released 0. reserved 0 for 1. released 0. stopped 0. 0 failed";

const NOT_STARTED: &str = "fault. 14. started 0. reserved 0 for 1. released 0. stopped 0. 1 failed";

const FIRST_FAILED: &str =
    "fault. 14. started 0. reserved 0 for 0. failed 0. started 1. reserved 1 for 1. released 1. stopped 1. 1 failed";

const SECOND_FAILED: &str =
    "3. fault. started 0. reserved 0 for 0. released 0. reserved 0 for 1. failed 0. 1 failed";

const NEITHER_ANSWERED: &str = "fault. fault. started 0. reserved 0 for 0. failed 0. 2 failed";

// Two items that ask for the same.
const TWO: &[u32] = &[512, 512];

// Which calls fail. They are start, send, receive, send, receive and stop. Where the first item failed its daemon is stopped
// by call 3, and the next is started by call 4.
const FAILING: &[Row] = &[
    (&[0], None, TWO, NOT_STARTED),
    (&[1], None, TWO, FIRST_FAILED),
    (&[2], None, TWO, FIRST_FAILED),
    (&[3], None, TWO, SECOND_FAILED),
    (&[4], None, TWO, SECOND_FAILED),
    (&[5], None, TWO, ANSWERED),
    (&[6], None, TWO, ANSWERED),
    (&[2, 4], None, TWO, NEITHER_ANSWERED),
];

// No bytes; a beginning of a reply; a reply of a shorter body; a request; a Stop; a reply for unit 1; a fault.
const LIES: &[Row] = &[
    (&[], Some(b""), TWO, FIRST_FAILED),
    (
        &[],
        Some(b"\x12\0\0\0\x0e\0\0\0\0\x01\x01\0\0\0\0"),
        TWO,
        FIRST_FAILED,
    ),
    (
        &[],
        Some(b"\x12\0\0\0\x0d\0\0\0\0\x01\x01\0\0\0\0\0\0\0"),
        TWO,
        FIRST_FAILED,
    ),
    (
        &[],
        Some(b"\x11\0\0\0\x0d\0\0\0\0\x01\x01\0\x05a.txt"),
        TWO,
        FIRST_FAILED,
    ),
    (&[], Some(b"\x03\0\0\0\0"), TWO, FIRST_FAILED),
    (
        &[],
        Some(b"\x12\0\0\0\x0e\0\0\0\x01\x01\x01\0\0\0\0\0\0\0\x03"),
        TWO,
        FIRST_FAILED,
    ),
    (
        &[],
        Some(b"\x12\0\0\0\x06\0\0\0\0\x01\x05"),
        TWO,
        FIRST_FAILED,
    ),
];

// A daemon without memory is used again.
const WITHOUT_MEMORY: &[Row] = &[(
    &[],
    Some(b"\x12\0\0\0\x06\0\0\0\0\x01\x06"),
    TWO,
    "no memory. 14. started 0. reserved 0 for 0. released 0. reserved 0 for 1. released 0. stopped 0. 0 failed",
)];

const SMALLER_FIRST: &str =
    "3. 14. started 0. reserved 0 for 0. released 0. started 1. reserved 1 for 1. released 1. stopped 0. stopped 1. 0 failed";

// A daemon is used again where it covers.
const COVERING: &[Row] = &[
    (&[], None, &[512, 1024], SMALLER_FIRST),
    (&[], None, &[1024, 512], ANSWERED),
];

/// What comes of nine daemons, of which the first is stopped when the last is released, with the outcome of an item after
/// them and how many calls failed.
macro_rules! nine {
    ($last:literal, $failed:literal) => {
        concat!(
            "3. 14. 14. 14. 14. 14. 14. 14. 14. ",
            $last,
            "started 0. reserved 0 for 0. released 0. started 1. reserved 1 for 1. released 1. ",
            "started 2. reserved 2 for 2. released 2. started 3. reserved 3 for 3. released 3. ",
            "started 4. reserved 4 for 4. released 4. started 5. reserved 5 for 5. released 5. ",
            "started 6. reserved 6 for 6. released 6. started 7. reserved 7 for 7. released 7. ",
            "started 8. reserved 8 for 8. released 8. stopped 0. stopped 1. stopped 2. stopped 3. ",
            "stopped 4. stopped 5. stopped 6. stopped 7. stopped 8. ",
            $failed
        )
    };
}

// The first of nine idle daemons is stopped. Each item takes three calls. The stop of the first daemon is call 27, so the next start is call 28.
const NINE: &[Row] = &[
    (
        &[],
        None,
        &[1, 2, 3, 4, 5, 6, 7, 8, 9],
        nine!("", "0 failed"),
    ),
    (
        &[28],
        None,
        &[1, 2, 3, 4, 5, 6, 7, 8, 9, 10],
        nine!("fault. ", "1 failed"),
    ),
];

static ROWS: [&[Row]; 5] = [FAILING, LIES, WITHOUT_MEMORY, COVERING, NINE];

#[test]
fn items_come_to_what_their_daemons_give(rt: HostRuntime) -> Result<(), AllocError> {
    for rows in &ROWS {
        for (failing, lie, heaps, expected) in *rows {
            check(&rt, &ran(&rt, rt.alloc(), failing, *lie, heaps)?, expected);
        }
    }
    Ok(())
}
