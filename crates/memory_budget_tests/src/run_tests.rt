//! Tests of `run_in_budget`: items that daemons in memory work out within a budget, on one thread and on several.
ghost use Rattle.std.specs.Prelude.{◌≡◌, ◌+◌, ◌≤◌, [], All, IfOk, true, vec_len};
ghost use Rattle.item_actions.specs.Forms.{is_file_name};
ghost use Rattle.daemon_manager.specs.Counts.{failures, reservations};
ghost use Rattle.memory_budget.specs.Limits.{StaysWithin};
ghost use Rattle.memory_budget.specs.Waiting.{AsksProcess};
ghost use Rattle.resource_lock.specs.Opening.{opening_of};

use crate::asked::requirements_of;
use coordination::{Coordination, Opened, Pass, openings_are_at_rest};
use daemon_desk::Desk;
use daemon_manager::{Event, Tallies, Tally};
use daemon_requirements::{Isolation, Linked, Work};
use item_actions::{ItemAction, Outcome, Text, is_file_name};
use lease_service::current_lease;
use lock_journal::Book;
use lock_transforms::kinds::{Acquire, Shortage};
use memory_budget::{
    BudgetLedger, BudgetLock, BudgetPool, Budgeted, BudgetedRun, CountedBudget, MAX_BUDGET_MB,
    SharedBudget, run_in_budget, stop_daemon,
};
use memory_desk::{MemoryDesk, MemoryLink};
use memory_files::{FileEntry, FileMap};
use resource_lock::{Graph, GraphTasks};
use std::alloc::{AllocError, Global};
use std::marker::Brand;
use std::process::Abort;
use std::sync::Wait;
use std::sync::ledger::{Blank, Ledger};
use std::thread;
use std::thread::Threads;

/// A worker: its pass has a lease.
#[derive(Drop)]
pub(crate) struct Seat {
    pass: Pass,
    pub(crate) desk: Box<MemoryDesk>,
    first: u32,
    right: u32,
}

/// The heaps that items ask for, by their number. Two of them fit at a time, and no three.
static HEAPS: [u32; 4] = [550, 600, 700, 800];

const BUDGET_MB: u64 = 1600;

const WORKERS: u32 = 8;

const ITEMS: u32 = 200;

// The lines of a.txt, in a daemon with this heap at least.
fn work<R: Abort>(rt: &R, alloc: Global, heap_mb: u32) -> Work
    ensures form { is_file_name result.file ≡ true }
    ensures process { AsksProcess result.isolation }
{
    let file = Text::from_str(alloc, "a.txt").expect(rt, "memory");
    assert!(rt; is_file_name(file.bytes()));
    let asked = requirements_of(alloc, heap_mb).expect(rt, "a heap in range");
    Work {
        action: ItemAction::Lines,
        file,
        isolation: Isolation::Process(asked),
    }
}

/// A desk with a.txt, which has 3 lines. These calls fail.
pub(crate) fn desk(alloc: Global, failing: &[u64]) -> Result<Box<MemoryDesk>, AllocError> {
    let name = Text::from_str(alloc, "a.txt")?;
    let bytes = Vec::from_slice(alloc, b"one\ntwo\nthree\n")?;
    let mut entries = Vec::new(alloc);
    entries.push(FileEntry { name, bytes })?;
    let failing = Vec::from_slice(alloc, failing)?;
    let desk = MemoryDesk::new(alloc, FileMap::new(entries), failing, Vec::new(alloc));
    Ok(Box::new(alloc, desk)?)
}

fn book<R: Abort>(rt: &R, alloc: Global) -> Result<Box<Book>, AllocError>
    ensures state { IfOk result (λ book. book.value.state ≡ opening_of book.value.graph) }
    ensures whole { IfOk result (λ book. book.value.given ≡ 0) }
{
    let tasks = GraphTasks::none(alloc);
    let actions = Vec::new(alloc);
    assert!(rt; Graph::fits(0, None, 1, 1, &tasks, &actions));
    let graph = Graph::new(0, None, 1, 1, tasks, actions);
    Ok(Box::new(alloc, Book::opening(alloc, graph, 0, 0)?)?)
}

fn open<R: Abort>(rt: &R, alloc: Global) -> Result<Opened, AllocError>
    ensures { IfOk result (λ opened. All (λ p. p.service ≡ opened.service.service) opened.passes.items) }
{
    openings_are_at_rest();
    let book = book(rt, alloc)?;
    Coordination::open(alloc, book)
}

// The last of the service's passes.
fn last_pass(service: &Coordination, passes: &mut Vec<Pass>) -> Result<Pass, AllocError>
    requires { All (λ p. p.service ≡ service.now.service) passes.old.items }
    ensures { IfOk result (λ pass. pass.service ≡ service.now.service) }
{
    passes.pop().ok_or(AllocError)
}

// The pass of the one worker of a service, which has a lease.
fn leased<R: Wait + Abort>(rt: &R, alloc: Global) -> Result<Pass, AllocError> {
    let Opened {
        service,
        mut passes,
    } = open(rt, alloc)?;
    let mut pass = last_pass(&service, &mut passes)?;
    let acquire = Acquire {
        locks: &[],
        shortage: Shortage::Fails,
    };
    let got = service.with_state_lock(rt, &mut pass, &acquire);
    assert!(rt; matches!(got, Ok(true)));
    Ok(pass)
}

/// The ledgers of a pool's counts, of which no part was given out.
#[derive(Drop)]
pub(crate) struct Blanks {
    pub(crate) reserved: Blank,
    pub(crate) failed: Blank,
}

impl Blanks {
    /// Ledgers of so many parts.
    pub(crate) fn new(parts: u64) -> Blanks
        ensures { (result.reserved.parts ≡ parts) × (result.failed.parts ≡ parts) }
    {
        Blanks {
            reserved: Blank::new(parts),
            failed: Blank::new(parts),
        }
    }
}

/// A lock round a new pool with this budget, which counts in these ledgers.
pub(crate) fn new_lock<R: Abort, L: Linked, U: BudgetLedger, F: Ledger>(
    rt: &R,
    alloc: Global,
    budget_mb: u64,
    blanks: Blanks,
) -> (BudgetLock<L, U, F>, Tallies<U, F>)
    requires most { budget_mb ≤ MAX_BUDGET_MB }
    requires budget { budget_mb ≡ U.budget_mb }
    requires reserved { (blanks.reserved.name ≡ U.name) × (blanks.reserved.parts ≡ U.parts) }
    requires failed { (blanks.failed.name ≡ F.name) × (blanks.failed.parts ≡ F.parts) }
    requires parts { U.parts ≡ F.parts }
    ensures { result.1.parts ≡ U.parts }
{
    let Blanks { reserved, failed } = blanks;
    let pool = BudgetPool::new(alloc, budget_mb).expect(rt, "memory");
    let (pool, tallies) = CountedBudget::<L, U, F>::new(pool, reserved, failed);
    (BudgetLock::new(pool), tallies)
}

/// Stops the idle daemons, and gives all that happened, in which no more daemons were reserved, and no more failed, than the tallies
/// say. At each moment those that were busy or idle had at most the budget together.
pub(crate) fn close<D: Desk, U: BudgetLedger, F: Ledger>(
    lock: BudgetLock<D::Link, U, F>,
    tallies: Tallies<U, F>,
    desk: &mut D,
) -> Vec<Event>
    requires { (tallies.parts ≡ U.parts) × (tallies.parts ≡ F.parts) }
    ensures reserved { reservations result.items ≤ tallies.reserved }
    ensures failed { failures result.items ≤ tallies.failed }
    ensures limit { StaysWithin U.budget_mb result.items }
{
    let mut pool = lock.into_pool();
    stop_all_idle(&mut pool, desk);
    // Of the pool, that its budget is its ledger's.
    let _ = pool.budget_mb();
    pool.audit(tallies).into_events()
}

fn stop_all_idle<D: Desk, U: BudgetLedger, F: Ledger>(
    pool: &mut CountedBudget<D::Link, U, F>,
    desk: &mut D,
)
    ensures { pool.new.pool.idle ≡ [] }
{
    while let Some(link) = pool.stop_idle() {
        desk.stop(link);
    }
}

// The greatest memory that was held at any time.
fn most_held(events: &[Event]) -> u64 {
    let mut heaps = [0u64; 1024];
    let mut held = 0u64;
    let mut most = 0u64;
    for event in events {
        let place = event.daemon() as usize % 1024;
        match event {
            Event::Started(_, requirements) => {
                heaps[place] = u64::from(requirements.fields().heap_mb);
                held = held.saturating_add(heaps[place]);
            }
            Event::Failed(_) | Event::Stopped(_) => held = held.saturating_sub(heaps[place]),
            Event::Reserved(..) | Event::Released(_) => {}
        }
        most = most.max(held);
    }
    most
}

/// A way to a pool of daemons in memory.
pub(crate) type MemoryBudget<'a, R, U, F> = SharedBudget<'a, R, MemoryLink, U, F>;

/// What comes of an item, and the heap of the daemon that was one too many behind it, which is stopped.
pub(crate) fn run_and_stop<R: Wait + Abort, U: BudgetLedger, F: Ledger>(
    pool: &MemoryBudget<'_, R, U, F>,
    seat: &mut Seat,
    mine: &mut Tally<U, F>,
    unit: u32,
    work: &Work,
) -> (Budgeted, Option<u32>)
    requires process { AsksProcess work.now.isolation }
    requires form { is_file_name work.now.file ≡ true }
{
    let lease = &current_lease(&seat.pass).expect(pool.rt, "a lease");
    let desk = &mut *seat.desk;
    let BudgetedRun { budgeted, spare } = run_in_budget(pool, lease, desk, mine, unit, work);
    match spare {
        Some(link) => {
            let heap_mb = link.made_for().fields().heap_mb;
            stop_daemon(pool, desk, link);
            (budgeted, Some(heap_mb))
        }
        None => (budgeted, None),
    }
}

impl Seat {
    /// Runs an item that asks for this heap, as `run_and_stop`.
    pub(crate) fn run_told<R: Wait + Abort, U: BudgetLedger, F: Ledger>(
        &mut self,
        pool: &MemoryBudget<'_, R, U, F>,
        mine: &mut Tally<U, F>,
        unit: u32,
        heap_mb: u32,
    ) -> (Budgeted, Option<u32>) {
        let work = work(pool.rt, pool.alloc, heap_mb);
        run_and_stop(pool, self, mine, unit, &work)
    }

    // Runs each eighth item, and counts those of which this came.
    fn run_share<R: Wait + Abort, U: BudgetLedger, F: Ledger>(
        &mut self,
        pool: &MemoryBudget<'_, R, U, F>,
        mine: &mut Tally<U, F>,
        came: Came,
    ) {
        for unit in 0..ITEMS {
            if unit % WORKERS == self.first {
                let heap_mb = HEAPS[unit as usize % 4];
                let (budgeted, _) = self.run_told(pool, mine, unit, heap_mb);
                if is_what_came(&budgeted, came) {
                    self.right = self.right.saturating_add(1);
                }
            }
        }
    }
}

/// A seat with this desk, whose pass has a lease.
pub(crate) fn seat_at<R: Wait + Abort>(
    rt: &R,
    alloc: Global,
    first: u32,
    desk: Box<MemoryDesk>,
) -> Result<Seat, AllocError> {
    let pass = leased(rt, alloc)?;
    Ok(Seat {
        pass,
        desk,
        first,
        right: 0,
    })
}

/// A seat, and the tally of what it does.
#[derive(Drop)]
struct Counted<U: Ledger, F: Ledger> {
    seat: Seat,
    mine: Tally<U, F>,
}

// The seats, with a tally each, at desks of whose calls these fail. One part stays.
fn seats<R: Wait + Abort, U: Ledger, F: Ledger>(
    rt: &R,
    alloc: Global,
    tallies: &mut Tallies<U, F>,
    failing: &[u64],
) -> Result<Vec<Counted<U, F>>, AllocError>
    requires { tallies.old.parts ≡ WORKERS + 1 }
    ensures { IfOk result (λ seats. tallies.new.parts + vec_len seats ≡ WORKERS + 1) }
{
    let mut seats = Vec::new(alloc);
    for first in 0..WORKERS {
        let mine = tallies.split_off();
        let seat = seat_at(rt, alloc, first, desk(alloc, failing)?)?;
        seats.push(Counted { seat, mine })?;
    }
    Ok(seats)
}

/// Which calls of each desk fail, and what comes of each item then.
struct Course {
    failing: &'static [u64],
    came: Came,
}

/// No call fails.
const NONE_FAILS: Course = Course {
    failing: &[],
    came: Came::Three,
};

/// A worker has 25 items, and each of their starts fails.
const ALL_STARTS_FAIL: Course = Course {
    failing: &[
        0, 1, 2, 3, 4, 5, 6, 7, 8, 9, 10, 11, 12, 13, 14, 15, 16, 17, 18, 19, 20, 21, 22, 23, 24,
    ],
    came: Came::Fault,
};

// Runs all items on all seats at once, on a new pool. Tells how many came out as they have to, and how many MB were held at most.
fn run_all<
    R: Threads + Wait + Abort + Sync,
    U: BudgetLedger + Send + Sync,
    F: Ledger + Send + Sync,
>(rt: &R, alloc: Global, course: &Course, blanks: Blanks) -> (u32, u64)
    requires budget { BUDGET_MB ≡ U.budget_mb }
    requires reserved { (blanks.reserved.name ≡ U.name) × (blanks.reserved.parts ≡ U.parts) × (U.parts ≡ WORKERS + 1) }
    requires failed { (blanks.failed.name ≡ F.name) × (blanks.failed.parts ≡ F.parts) × (F.parts ≡ WORKERS + 1) }
{
    let (pool, mut tallies) = new_lock::<R, MemoryLink, U, F>(rt, alloc, BUDGET_MB, blanks);
    let mut seats = seats(rt, alloc, &mut tallies, course.failing).expect(rt, "memory");
    let came = course.came;
    let shared = &SharedBudget {
        rt,
        alloc,
        pool: &pool,
    };
    let threads = seats.len().max(1);
    thread::for_each_mut(
        rt,
        &mut seats,
        threads,
        &|_, counted: &mut Counted<U, F>| {
            counted.seat.run_share(shared, &mut counted.mine, came)
        },
    );
    let mut right = 0u32;
    while let Some(Counted { seat, mine }) = seats.pop() {
        right = right.saturating_add(seat.right);
        tallies.merge(mine);
    }
    seats.destroy_empty();
    let mut last = desk(alloc, &[]).expect(rt, "memory");
    let events = close(pool, tallies, &mut *last);
    (right, most_held(&events))
}

// The same in new ledgers.
fn run_all_counted<R: Threads + Wait + Abort + Sync>(
    rt: &R,
    alloc: Global,
    course: &Course,
) -> (u32, u64) {
    let blanks = Blanks::new(u64::from(WORKERS) + 1);
    run_all::<R, Brand, Brand>(rt, alloc, course, blanks)
}

#[test]
fn no_more_is_held_than_the_budget_while_items_wait_for_room(rt: HostRuntime) {
    for _ in 0..50 {
        let (right, most) = run_all_counted(&rt, rt.alloc(), &NONE_FAILS);
        assert!(rt;
            right == ITEMS && most <= BUDGET_MB && most >= 800,
            "{right} items were right, and {most} MB were held"
        );
    }
}

// Where no daemon ever starts, nothing but a permit that is given up wakes who waits for room.
#[test]
fn a_start_that_fails_wakes_who_waits_for_room(rt: HostRuntime) {
    for _ in 0..50 {
        let (right, most) = run_all_counted(&rt, rt.alloc(), &ALL_STARTS_FAIL);
        assert!(rt; (right, most) == (ITEMS, 0));
    }
}

/// What comes of an item.
#[derive(Clone, Copy)]
pub(crate) enum Came {
    /// The number of lines.
    Three,
    Fault,
    /// It asks for so many MB, which is over the budget.
    Over(u64),
}

/// Whether this came of an item.
pub(crate) fn is_what_came(budgeted: &Budgeted, came: Came) -> bool {
    match (budgeted, came) {
        (Budgeted::Done(Outcome::Number(3)), Came::Three)
        | (Budgeted::Done(Outcome::Fault), Came::Fault) => true,
        (Budgeted::Over(asked), Came::Over(expected)) => *asked == expected,
        _ => false,
    }
}
