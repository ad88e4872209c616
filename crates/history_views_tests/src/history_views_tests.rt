//! Views of a book that threads change one at a time.
ghost use Rattle.std.specs.Prelude.{◌≡◌, ◌<◌, ◌≤◌, ◌+◌, IfOk, IfSome, IsSome, Some, length};
ghost use Rattle.resource_lock.specs.StateView.{leases_out};
ghost use Rattle.history_views.specs.Growing.{IsLater, last_book};

use crate::services::{Limits, book_of};
use history_views::{Extent, ShownBook, View};
use lock_journal::Book;
use lock_transforms::Disposition;
use lock_transforms::kinds::{Acquire, HandBack, Shortage};
use resource_lock::{Graph, LockId, WorkerId};
use std::alloc::{AllocError, Global};
use std::process::Abort;
use std::sync::{Mutex, Wait};
use std::thread;
use std::thread::Threads;

const WORKERS: u32 = 8;

const MAX_LEASES: u32 = 3;

const ROUNDS: u32 = 200;

const LOOKS: u32 = 5_000;

/// Eight workers with three leases, and a lock for each worker.
const LIMITS: Limits = Limits {
    locks: WORKERS,
    workers: WORKERS,
    max_leases: MAX_LEASES,
};

/// A book without entries, with room for so many views.
fn shown<R: Wait + Drop + Abort>(
    rt: R,
    alloc: Global,
    views: u32,
) -> Result<ShownBook<R>, AllocError>
    requires { 0 < views }
    ensures { IfOk result (λ s. IsSome s.ledger) }
{
    let book = book_of(&rt, alloc, &LIMITS)?;
    ShownBook::open(alloc, rt, book, views)
}

/// The worker takes its lock and a lease. Where none is left it fails.
fn take<R: Wait + Drop>(
    shown: &mut ShownBook<R>,
    worker: WorkerId,
) -> Result<Disposition, AllocError>
    ensures { shown.new.ledger ≡ shown.old.ledger }
{
    if worker.0 >= shown.book().graph().workers() {
        return Ok(Disposition::Retry);
    }
    let locks = [LockId(worker.0)];
    let shortage = Shortage::Fails;
    shown.run(
        worker,
        &[],
        &Acquire {
            locks: &locks,
            shortage,
        },
    )
}

/// The worker hands back what it has.
fn hand_back<R: Wait + Drop>(
    shown: &mut ShownBook<R>,
    worker: WorkerId,
) -> Result<Disposition, AllocError>
    ensures { shown.new.ledger ≡ shown.old.ledger }
{
    if worker.0 >= shown.book().graph().workers() {
        return Ok(Disposition::Retry);
    }
    shown.run(worker, &[], &HandBack)
}

/// The view learns how far the history of the book has come.
fn learn<R: Wait + Drop>(view: &mut View, shown: &ShownBook<R>)
    requires { shown.now.ledger ≡ Some view.old.ledger }
    ensures ledger { view.new.ledger ≡ view.old.ledger }
    ensures learnt { length shown.now.book.history ≤ length (last_book view.new.log).history }
{
    match shown.reach() {
        Some(reach) => view.learn(&reach),
        None => unreachable!(),
    }
}

/// The book once its history is complete, of which the view has seen a beginning. None would say that the view has seen more.
fn finish<R: Wait + Drop>(shown: ShownBook<R>, view: &View) -> Option<Box<Book>>
    requires { shown.ledger ≡ Some view.now.ledger }
    ensures book { IfSome result (λ book. book.value ≡ shown.book) }
    ensures beginning { IfSome result (λ book. IsLater (last_book view.now.log) book.value) }
{
    let Some(reach) = shown.reach() else {
        unreachable!()
    };
    if view.is_within(&reach) {
        Some(shown.into_book())
    } else {
        None
    }
}

/// The book once its history is complete, after a last look that shows all of it: what was learnt is in it.
fn finish_looking<R: Wait + Drop>(shown: ShownBook<R>, view: &mut View) -> (Box<Book>, Extent)
    requires { shown.ledger ≡ Some view.old.ledger }
    ensures book { result.0.value ≡ shown.book }
    ensures learnt { length shown.book.history ≤ result.1.entries }
{
    learn(view, &shown);
    let extent = view.look();
    (shown.into_book(), extent)
}

/// What views are shown where nobody else changes the book: one learns, another doesn't.
fn look_in_turn<R: Wait + Drop>(
    shown: &mut ShownBook<R>,
    first: &mut View,
    second: &mut View,
) -> Result<[Extent; 5], AllocError>
    requires first { shown.old.ledger ≡ Some first.old.ledger }
    ensures ledger { shown.new.ledger ≡ shown.old.ledger }
    ensures second { second.new.ledger ≡ second.old.ledger }
{
    let opened = first.look();
    take(shown, WorkerId(0))?;
    learn(first, shown);
    let taken = first.look();
    let unasked = second.look();
    hand_back(shown, WorkerId(0))?;
    learn(first, shown);
    let free = first.look();
    let again = first.look();
    Ok([opened, taken, unasked, free, again])
}

/// Takes, and looks at once. The view shows the entry, whoever else made entries meanwhile.
fn take_and_look<R: Wait + Drop>(
    shown: &mut ShownBook<R>,
    view: &mut View,
    worker: WorkerId,
) -> Result<Extent, AllocError>
    requires { shown.old.ledger ≡ Some view.old.ledger }
    ensures ledger { shown.new.ledger ≡ shown.old.ledger }
    ensures view { view.new.ledger ≡ view.old.ledger }
    ensures shown { IfOk result (λ e. length shown.new.book.history ≤ e.entries) }
{
    take(shown, worker)?;
    learn(view, shown);
    Ok(view.look())
}

/// How many workers more could have had a lease when the view looked.
fn free_leases(view: &mut View, graph: &Graph) -> u32
    requires { graph.now ≡ (last_book view.old.log).graph }
    ensures ledger { view.new.ledger ≡ view.old.ledger }
    ensures graph { graph.now ≡ (last_book view.new.log).graph }
    ensures free { result + leases_out (last_book view.new.log).state ≡ graph.now.max_leases }
{
    graph.max_leases() - view.look().leases
}

const fn extent(entries: u64, leases: u32) -> Extent {
    Extent { entries, leases }
}

/// What the views are shown in turn.
const SEEN: [Extent; 5] = [
    Extent {
        entries: 0,
        leases: 0,
    },
    Extent {
        entries: 1,
        leases: 1,
    },
    Extent {
        entries: 1,
        leases: 1,
    },
    Extent {
        entries: 2,
        leases: 0,
    },
    Extent {
        entries: 2,
        leases: 0,
    },
];

#[test]
fn views_show_each_entry_once_it_was_made(rt: HostRuntime) -> Result<(), AllocError> {
    let mut shown = shown(&rt, rt.alloc(), 2)?;
    let mut first = shown.view()?;
    let mut second = shown.view()?;
    let seen = look_in_turn(&mut shown, &mut first, &mut second)?;
    let untaught = second.look();
    let taken = take_and_look(&mut shown, &mut second, WorkerId(1))?;
    let (book, last) = finish_looking(shown, &mut second);
    assert!(rt;
        seen == SEEN
            && (untaught, taken, last) == (extent(2, 0), extent(3, 1), extent(3, 1))
            && (second.look(), first.look()) == (extent(3, 1), extent(2, 0))
            && book.len() == 3
    );
    Ok(())
}

/// Whether an entry was made and shown, or none was and nothing is shown of it.
fn is_whole<R: Wait + Drop>(
    shown: &mut ShownBook<R>,
    view: &mut View,
    worker: WorkerId,
    takes: bool,
) -> bool
    ensures ledger { shown.new.ledger ≡ shown.old.ledger }
    ensures view { view.new.ledger ≡ view.old.ledger }
{
    let before = view.look();
    let made = if takes {
        take(shown, worker)
    } else {
        hand_back(shown, worker)
    };
    let after = view.look();
    let book = shown.book();
    let same = after.entries == book.len() && after.leases == book.state().leases_out();
    match made {
        Ok(Disposition::Finished | Disposition::Failed) => {
            same && before.entries.checked_add(1) == Some(after.entries)
        }
        Ok(Disposition::Retry) | Err(_) => same && before == after,
    }
}

/// Whether each worker takes and hands back so.
fn are_whole<R: Wait + Drop>(shown: &mut ShownBook<R>, view: &mut View, takes: bool) -> bool
    ensures ledger { shown.new.ledger ≡ shown.old.ledger }
    ensures view { view.new.ledger ≡ view.old.ledger }
{
    for worker in 0..WORKERS {
        if !is_whole(shown, view, WorkerId(worker), takes) {
            return false;
        }
    }
    true
}

#[test]
fn an_entry_that_cannot_be_shown_is_taken_back(rt: HostRuntime) -> Result<(), AllocError> {
    let mut shown = shown(&rt, rt.alloc(), 1)?;
    let mut view = shown.view()?;
    assert!(rt; free_leases(&mut view, shown.book().graph()) == MAX_LEASES);
    let took = are_whole(&mut shown, &mut view, true);
    let handed_back = are_whole(&mut shown, &mut view, false);
    assert!(rt; took && handed_back);
    assert!(rt; finish(shown, &view).is_some());
    Ok(())
}

/// What one thread does.
#[derive(Drop)]
enum ThreadWork {
    Takes(WorkerId),
    Looks(View),
}

/// Takes and hands back.
fn take_turns<R: Wait + Abort, S: Wait + Drop>(
    rt: &R,
    book: &Mutex<ShownBook<S>>,
    worker: WorkerId,
) {
    for _ in 0..ROUNDS {
        let taken = take(&mut book.lock(rt), worker);
        let back = hand_back(&mut book.lock(rt), worker);
        assert!(rt;
            matches!(taken, Ok(Disposition::Finished | Disposition::Failed)) && back.is_ok()
        );
    }
}

/// Looks over and over. What it sees never goes back and is never too much.
fn look_often<R: Abort>(rt: &R, view: &mut View) {
    let mut last = view.look();
    for _ in 0..LOOKS {
        let seen = view.look();
        let goes_on = seen.entries > last.entries || seen == last;
        assert!(rt; goes_on && seen.leases <= MAX_LEASES);
        last = seen;
    }
}

fn play<R: Wait + Abort, S: Wait + Drop>(
    rt: &R,
    book: &Mutex<ShownBook<S>>,
    part: &mut ThreadWork,
) {
    match part {
        ThreadWork::Takes(worker) => take_turns(rt, book, *worker),
        ThreadWork::Looks(view) => look_often(rt, view),
    }
}

fn play_in_threads<R: Threads + Wait + Abort + Sync>(
    rt: &R,
    book: &Mutex<ShownBook<&R>>,
    parts: &mut [ThreadWork],
) {
    thread::for_each_mut(
        rt,
        parts,
        parts.len().max(1),
        &|_, part: &mut ThreadWork| { play(rt, book, part) },
    );
}

/// Whether a view shows so many entries and no lease.
fn has_come_to(part: &mut ThreadWork, entries: u64) -> bool {
    match part {
        ThreadWork::Takes(_) => true,
        ThreadWork::Looks(view) => view.look() == extent(entries, 0),
    }
}

#[test]
fn a_view_never_goes_back_while_eight_threads_take_and_hand_back(
    rt: HostRuntime,
) -> Result<(), AllocError> {
    let mut shown = shown(&rt, rt.alloc(), 1)?;
    let mut parts = Vec::new(rt.alloc());
    parts.push(ThreadWork::Looks(shown.view()?))?;
    for worker in 0..WORKERS {
        parts.push(ThreadWork::Takes(WorkerId(worker)))?;
    }
    let book = Mutex::new(shown);
    play_in_threads(&rt, &book, &mut parts);
    let entries = book.lock(&rt).book().len();
    for part in &mut parts {
        assert!(rt; entries > 0 && has_come_to(part, entries));
    }
    Ok(())
}
