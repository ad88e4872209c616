//! A history of many workers, beside a reckoning of the test's own.
ghost use Rattle.std.specs.Prelude.{◌≡◌};
ghost use Rattle.lock_transforms.specs.Taking.{rises};

use crate::fitting::fitting_graph;
use crate::numbers::Numbers;
use crate::rows::Limits;
use lock_journal::{Book, Changes};
use lock_transforms::Disposition;
use lock_transforms::kinds::{Acquire, Block, HandBack, Shortage, Unblock};
use resource_lock::{Change, LockId, WorkerId};
use std::alloc::{AllocError, Global};
use std::process::Abort;

const WORKERS: u32 = 200;

const LEASES: u32 = 150;

const LOCKS: u32 = 250;
/// The all-projects lock.
const ALL: u32 = 249;

const LIMITS: Limits = Limits {
    locks: LOCKS,
    all: Some(LockId(ALL)),
    workers: WORKERS,
    max_leases: LEASES,
};

/// The owner of a lock that nobody owns.
const NOBODY: u32 = u32::MAX;

/// How many deeds are tried. Of each row of them the last ones are calm: workers hand back what they have, and hardly any takes more.
const DEEDS: u32 = 24_000;

const ROW: u32 = 8_000;

const CALM_FROM: u32 = 3_000;

/// What a worker tries.
#[derive(Clone, Copy)]
enum Deed {
    /// To take these two locks and a lease.
    Acquire(u32, u32),
    HandBack,
    Block,
    Unblock,
}

/// How often a deed was done, failed, and was left for later, and how often the all-projects lock was taken.
#[derive(Clone, Copy)]
struct Counts {
    done: u32,
    failed: u32,
    later: u32,
    of_all: u32,
}

/// Who has what, by the changes so far. What is there has a 1.
#[derive(Drop)]
struct Reckoning {
    /// By lock.
    owners: Vec<u32>,
    /// By worker.
    leases: Vec<u32>,
    blocked: Vec<u32>,
    /// By worker and lock.
    parked: Vec<u32>,
    /// What a run names as the worker's locks.
    named: Vec<LockId>,
}

// Changes a cell from one value to another. False where it has another value.
fn exchange(cells: &mut Vec<u32>, place: usize, from: u32, to: u32) -> bool {
    let there = place < cells.len() && cells[place] == from;
    if there {
        cells[place] = to;
    }
    there
}

// What stands in a cell, or the other value where there is no cell.
fn cell_or(cells: &[u32], place: usize, other: u32) -> u32 {
    match cells.get(place) {
        Some(cell) => *cell,
        None => other,
    }
}

// How many cells have a 1.
fn count_of(cells: &[u32]) -> u32 {
    let mut count = 0u32;
    for cell in cells {
        count = count.saturating_add(*cell);
    }
    count
}

// The place of a lock among those that a worker has parked.
fn place_of(worker: u32, lock: u32) -> usize {
    worker.saturating_mul(LOCKS).saturating_add(lock) as usize
}

impl Reckoning {
    // Nobody has anything.
    fn opening(alloc: Global) -> Result<Reckoning, AllocError> {
        let owners = vec![in alloc; NOBODY; LOCKS as usize]?;
        let leases = vec![in alloc; 0; WORKERS as usize]?;
        let blocked = vec![in alloc; 0; WORKERS as usize]?;
        let parked = vec![in alloc; 0; place_of(WORKERS, 0)]?;
        Ok(Reckoning {
            owners,
            leases,
            blocked,
            parked,
            named: Vec::new(alloc),
        })
    }

    fn owner(&self, lock: u32) -> u32 {
        cell_or(&self.owners, lock as usize, NOBODY)
    }

    fn has_lease(&self, worker: u32) -> bool {
        cell_or(&self.leases, worker as usize, 0) == 1
    }

    fn is_blocked(&self, worker: u32) -> bool {
        cell_or(&self.blocked, worker as usize, 0) == 1
    }

    fn has_parked(&self, worker: u32, lock: u32) -> bool {
        cell_or(&self.parked, place_of(worker, lock), 0) == 1
    }

    fn owns_any(&self, worker: u32) -> bool {
        self.owners.iter().any(|owner| *owner == worker)
    }

    fn others_own(&self, worker: u32) -> bool {
        self.owners
            .iter()
            .any(|owner| *owner != NOBODY && *owner != worker)
    }

    // Names the locks of a worker, or one more or less of them: what comes of a run doesn't depend on that.
    fn name_locks(&mut self, worker: u32, mistake: u32) -> Result<(), AllocError> {
        self.named.clear();
        for lock in 0..LOCKS {
            if self.owner(lock) == worker {
                self.named.push(LockId(lock))?;
            }
        }
        match mistake {
            0 => self.named.push(LockId(ALL))?,
            1 => {
                let _ = self.named.pop();
            }
            _ => {}
        }
        Ok(())
    }

    // Whether a worker owns a lock or could take it now.
    fn can_own(&self, worker: u32, lock: u32) -> bool {
        let (owner, of_all) = (self.owner(lock), self.owner(ALL));
        if owner == worker {
            return true;
        }
        if lock == ALL {
            return owner == NOBODY && !self.others_own(worker);
        }
        owner == NOBODY && (of_all == NOBODY || of_all == worker)
    }

    // Whether a worker has a lease or could take one now.
    fn can_lease(&self, worker: u32) -> bool {
        self.has_lease(worker) || count_of(&self.leases) < LEASES
    }

    // Whether a worker could take again all that it has parked, and a lease.
    fn can_take_up(&self, worker: u32) -> bool {
        for lock in 0..LOCKS {
            if self.has_parked(worker, lock) && !self.can_own(worker, lock) {
                return false;
            }
        }
        self.can_lease(worker)
    }

    // What has to come of an Acquire that fails where it can't be had.
    fn expects_acquire(&self, worker: u32, first: u32, second: u32) -> Disposition {
        if self.is_blocked(worker) || first >= LOCKS || second >= LOCKS {
            return Disposition::Retry;
        }
        if self.can_own(worker, first) && self.can_own(worker, second) && self.can_lease(worker) {
            Disposition::Finished
        } else {
            Disposition::Failed
        }
    }

    // What has to come of a deed.
    fn expects(&self, worker: u32, deed: Deed) -> Disposition {
        let can = match deed {
            Deed::Acquire(first, second) => return self.expects_acquire(worker, first, second),
            Deed::HandBack => {
                !self.is_blocked(worker) && (self.has_lease(worker) || self.owns_any(worker))
            }
            Deed::Block => self.has_lease(worker),
            Deed::Unblock => self.is_blocked(worker) && self.can_take_up(worker),
        };
        if can {
            Disposition::Finished
        } else {
            Disposition::Retry
        }
    }

    // Follows a change of a worker. False where it can't be made.
    fn follow(&mut self, worker: u32, change: &Change) -> bool {
        match change {
            Change::Lock(lock) => {
                self.can_own(worker, lock.0)
                    && exchange(&mut self.owners, lock.0 as usize, NOBODY, worker)
            }
            Change::Unlock(lock) => exchange(&mut self.owners, lock.0 as usize, worker, NOBODY),
            Change::Take => {
                self.can_lease(worker) && exchange(&mut self.leases, worker as usize, 0, 1)
            }
            Change::Give => exchange(&mut self.leases, worker as usize, 1, 0),
            Change::Park(lock) => exchange(&mut self.parked, place_of(worker, lock.0), 0, 1),
            Change::Unpark(lock) => exchange(&mut self.parked, place_of(worker, lock.0), 1, 0),
            Change::Enter => exchange(&mut self.blocked, worker as usize, 0, 1),
            Change::Leave => exchange(&mut self.blocked, worker as usize, 1, 0),
            Change::Move(_, _, _) => false,
        }
    }

    // Follows changes of a worker in order.
    fn follow_all(&mut self, worker: u32, changes: Changes<'_>) -> bool {
        for change in changes {
            if !self.follow(worker, &change) {
                return false;
            }
        }
        true
    }

    // Whether a worker has in the book what it has here.
    fn agrees_of_worker(&self, book: &Book, worker: u32) -> bool {
        if worker >= book.graph().workers() {
            return false;
        }
        let (state, id) = (book.state(), WorkerId(worker));
        for lock in state.parked(id) {
            if !self.has_parked(worker, lock.0) {
                return false;
            }
        }
        state.has_lease(id) == self.has_lease(worker)
            && state.blocked(id) == self.is_blocked(worker)
    }

    // Whether the book says of each lock and each worker what is said here.
    fn agrees(&self, book: &Book) -> bool {
        let mut parked = 0usize;
        for worker in 0..book.graph().workers() {
            if !self.agrees_of_worker(book, worker) {
                return false;
            }
            parked = parked.saturating_add(book.state().parked(WorkerId(worker)).len());
        }
        for lock in 0..book.graph().locks() {
            let owner = match book.state().owner(LockId(lock)) {
                Some(worker) => worker.0,
                None => NOBODY,
            };
            if owner != self.owner(lock) {
                return false;
            }
        }
        parked == count_of(&self.parked) as usize
    }
}

// Whether locks strictly rise.
fn do_rise(locks: &[LockId]) -> bool
    ensures { result ≡ rises 0 locks.now }
{
    let mut low = 0;
    for lock in locks {
        if u64::from(lock.0) < low {
            return false;
        }
        low = u64::from(lock.0) + 1;
    }
    true
}

// Takes locks and a lease for a worker, or fails.
fn acquire(book: &mut Book, worker: WorkerId, locks: &[LockId]) -> Result<Disposition, AllocError> {
    if worker.0 >= book.graph().workers() {
        return Ok(Disposition::Retry);
    }
    if !do_rise(locks) {
        return Ok(Disposition::Retry);
    }
    let shortage = Shortage::Fails;
    book.run(worker, &[], &Acquire { locks, shortage })
}

// Has a worker try a deed. These locks are named as its own.
fn run(
    book: &mut Book,
    worker: WorkerId,
    own: &[LockId],
    deed: Deed,
) -> Result<Disposition, AllocError> {
    if worker.0 >= book.graph().workers() {
        return Ok(Disposition::Retry);
    }
    match deed {
        Deed::Acquire(first, second) => acquire(book, worker, &[LockId(first), LockId(second)]),
        Deed::HandBack => book.run(worker, own, &HandBack),
        Deed::Block => book.run(worker, own, &Block { unit: None }),
        Deed::Unblock => book.run(worker, own, &Unblock { closed: None }),
    }
}

// What a worker tries. Some locks are none of the graph's.
fn draw(numbers: &mut Numbers, is_calm: bool) -> Deed {
    let low = numbers.below(ALL);
    if is_calm {
        return match numbers.below(100) {
            0 => Deed::Acquire(low, ALL),
            1..=40 => Deed::Unblock,
            _ => Deed::HandBack,
        };
    }
    match numbers.below(8) {
        0 => Deed::Acquire(low, ALL),
        1 | 2 | 3 => Deed::Acquire(low, low + 1 + numbers.below(9)),
        4 => Deed::Block,
        5 | 6 => Deed::Unblock,
        _ => Deed::HandBack,
    }
}

// Whether what came of a deed is what was expected, and left an entry of the worker that can follow, or none.
fn goes_as_reckoned(
    book: &mut Book,
    reckoning: &mut Reckoning,
    worker: WorkerId,
    deed: Deed,
) -> Result<Option<Disposition>, AllocError> {
    let (len, expected) = (book.len(), reckoning.expects(worker.0, deed));
    let ran = run(book, worker, &reckoning.named, deed)?;
    let entries = u64::from(ran != Disposition::Retry);
    if ran != expected || book.len().checked_sub(len) != Some(entries) {
        return Ok(None);
    }
    if ran == Disposition::Retry {
        return Ok(Some(ran));
    }
    if book.given() >= book.len() {
        return Ok(None);
    }
    let shown = book.entry(book.len() - 1);
    let is_right = shown.worker == worker
        && shown.failed == (ran == Disposition::Failed)
        && reckoning.follow_all(worker.0, shown.changes);
    Ok(if is_right { Some(ran) } else { None })
}

impl Counts {
    // Counts what came of a deed.
    fn count(&mut self, ran: Disposition, deed: Deed) {
        match ran {
            Disposition::Finished => {
                self.done = self.done.saturating_add(1);
                if let Deed::Acquire(_, ALL) = deed {
                    self.of_all = self.of_all.saturating_add(1);
                }
            }
            Disposition::Failed => self.failed = self.failed.saturating_add(1),
            Disposition::Retry => self.later = self.later.saturating_add(1),
        }
    }
}

// How often deeds came to what, where all came to what they had to.
fn walk(book: &mut Book, reckoning: &mut Reckoning) -> Result<Option<Counts>, AllocError> {
    let mut numbers = Numbers { state: 3 };
    let mut counts = Counts {
        done: 0,
        failed: 0,
        later: 0,
        of_all: 0,
    };
    for deed in 0..DEEDS {
        let drawn = draw(&mut numbers, deed % ROW >= CALM_FROM);
        let worker = WorkerId(numbers.below(WORKERS));
        reckoning.name_locks(worker.0, numbers.below(8))?;
        let Some(ran) = goes_as_reckoned(book, reckoning, worker, drawn)? else {
            return Ok(None);
        };
        counts.count(ran, drawn);
    }
    Ok(Some(counts))
}

// A book without tasks and entries.
fn opening(rt: &impl Abort, alloc: Global) -> Result<Box<Book>, AllocError> {
    let graph = fitting_graph(rt, alloc, &LIMITS, &[], &[])?;
    let book = Book::opening(alloc, Box::into_inner(graph), 0, 0)?;
    Ok(Box::new(alloc, book)?)
}

#[test]
fn two_hundred_workers_have_what_a_reckoning_says(rt: HostRuntime) -> Result<(), AllocError> {
    let mut book = opening(&rt, rt.alloc())?;
    let mut reckoning = Reckoning::opening(rt.alloc())?;
    let counts = walk(&mut book, &mut reckoning)?.expect(&rt, "a walk as reckoned");
    assert!(rt; reckoning.agrees(&book));
    // Each outcome comes often, and the all-projects lock is had now and then.
    assert!(rt; counts.done > 1_000 && counts.failed > 1_000 && counts.later > 2_000);
    assert!(rt; counts.of_all > 0);
    Ok(())
}
