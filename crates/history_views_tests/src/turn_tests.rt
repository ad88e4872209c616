//! What views show of one worker's entries, in turn.
ghost use Rattle.std.specs.Prelude.{◌≡◌, ◌≤◌, IfOk, Some, length};

use crate::services::{Limits, open};
use coordination::{Halt, OpenedWithViews, Pass, ShownService};
use history_views::{Extent, View};
use lock_transforms::kinds::{Acquire, HandBack, Shortage};
use resource_lock::LockId;
use std::alloc::AllocError;
use std::sync::Wait;

// Two workers, of whom one can have the one lock and the one lease.
fn two_workers() -> Limits
    ensures { result.workers ≡ 2 }
{
    Limits {
        locks: 1,
        workers: 2,
        max_leases: 1,
    }
}

// The worker takes lock 0 and a lease, or fails.
fn take<R: Wait, S: Wait + Drop>(
    rt: &R,
    service: &ShownService<(), S>,
    pass: &mut Pass,
) -> Result<bool, Halt>
    requires { pass.old.service ≡ service.now.service }
    ensures { pass.new.service ≡ pass.old.service }
{
    let locks = [LockId(0)];
    let acquire = Acquire {
        locks: &locks,
        shortage: Shortage::Fails,
    };
    service.with_state_lock(rt, pass, &acquire)
}

// The worker hands back what it has.
fn hand_back<R: Wait, S: Wait + Drop>(
    rt: &R,
    service: &ShownService<(), S>,
    pass: &mut Pass,
) -> Result<bool, Halt>
    requires { pass.old.service ≡ service.now.service }
    ensures { pass.new.service ≡ pass.old.service }
{
    service.with_state_lock(rt, pass, &HandBack)
}

// What two views show while a worker takes and hands back. The first learns from its pass each time, the second at the end.
fn look_in_turn<R: Wait, S: Wait + Drop>(
    rt: &R,
    service: &ShownService<(), S>,
    pass: &mut Pass,
    first: &mut View,
    second: &mut View,
) -> Result<[Extent; 7], Halt>
    requires pass { pass.old.service ≡ service.now.service }
    requires first { service.now.service.ledger ≡ Some first.old.ledger }
    requires second { service.now.service.ledger ≡ Some second.old.ledger }
{
    let opened = first.look();
    take(rt, service, pass)?;
    pass.teach(first);
    let taken = first.look();
    let untold = second.look();
    hand_back(rt, service, pass)?;
    pass.teach(first);
    let free = first.look();
    let again = first.look();
    let last = second.look();
    Ok([
        opened,
        taken,
        untold,
        free,
        again,
        last,
        learn_and_look(pass, second),
    ])
}

// What a view shows that has learnt from a pass has all of the book that the pass has seen.
fn learn_and_look(pass: &Pass, view: &mut View) -> Extent
    requires { pass.now.service.ledger ≡ Some view.old.ledger }
    ensures ledger { view.new.ledger ≡ view.old.ledger }
    ensures all { length pass.now.sight.seen.history ≤ result.entries }
{
    pass.teach(view);
    view.look()
}

const fn extent(entries: u64, leases: u32) -> Extent {
    Extent { entries, leases }
}

/// What the two views show in turn: the number of entries, and of leases.
static SEEN: [(u64, u32); 7] = [(0, 0), (1, 1), (1, 1), (2, 0), (2, 0), (2, 0), (2, 0)];

// Whether the views show what they have to.
fn is_shown(seen: &[Extent; 7]) -> bool {
    for (seen, (entries, leases)) in seen.iter().zip(&SEEN) {
        if *seen != extent(*entries, *leases) {
            return false;
        }
    }
    true
}

#[test]
fn views_show_what_their_reader_was_told_of(rt: HostRuntime) -> Result<(), AllocError> {
    let mut opened = open(&rt, rt.alloc(), &rt, &two_workers(), 2)?;
    let OpenedWithViews {
        service,
        passes,
        views,
    } = &mut *opened;
    let (first, second) = views.split_at_mut(1);
    let seen = look_in_turn(&rt, service, &mut passes[0], &mut first[0], &mut second[0]);
    assert!(rt; matches!(seen, Ok(seen) if is_shown(&seen)));
    Ok(())
}

#[test]
fn a_service_with_views_gives_its_book_back(rt: HostRuntime) -> Result<(), AllocError> {
    let opened = open(&rt, rt.alloc(), &rt, &two_workers(), 1)?;
    let OpenedWithViews {
        service,
        passes,
        mut views,
    } = Box::into_inner(opened);
    let book = service.finish(passes);
    assert!(rt; book.len() == 0 && views[0].look() == extent(0, 0));
    Ok(())
}

// Has the worker take where it has nothing, and hand back where it has something. Whether an entry was made and is shown, or none was and
// nothing is shown of it, whatever memory there is.
fn is_whole<R: Wait, S: Wait + Drop>(
    rt: &R,
    service: &ShownService<(), S>,
    pass: &mut Pass,
    view: &mut View,
) -> bool
    requires pass { pass.old.service ≡ service.now.service }
    requires view { service.now.service.ledger ≡ Some view.old.ledger }
    ensures pass { pass.new.service ≡ pass.old.service }
    ensures view { view.new.ledger ≡ view.old.ledger }
{
    let before = view.look();
    let last = pass.last();
    let made = if pass.has_lease() {
        hand_back(rt, service, pass)
    } else {
        take(rt, service, pass)
    };
    let after = learn_and_look(pass, view);
    match made {
        Ok(_) => after.entries > before.entries && pass.last() == after.entries,
        Err(_) => after == before && pass.last() == last,
    }
}

// Whether each of so many entries is whole.
fn are_whole<R: Wait, S: Wait + Drop>(
    rt: &R,
    service: &ShownService<(), S>,
    pass: &mut Pass,
    view: &mut View,
    entries: u32,
) -> bool
    requires pass { pass.old.service ≡ service.now.service }
    requires view { service.now.service.ledger ≡ Some view.old.ledger }
{
    for _ in 0..entries {
        if !is_whole(rt, service, pass, view) {
            return false;
        }
    }
    true
}

#[test]
fn an_entry_that_cannot_be_shown_is_taken_back(rt: HostRuntime) -> Result<(), AllocError> {
    let mut opened = open(&rt, rt.alloc(), &rt, &two_workers(), 1)?;
    let OpenedWithViews {
        service,
        passes,
        views,
    } = &mut *opened;
    assert!(rt; are_whole(&rt, service, &mut passes[0], &mut views[0], 64));
    Ok(())
}

// Whether the worker takes the lock where nobody is shown it.
fn takes_unseen<R: Wait, S: Wait + Drop>(
    rt: &R,
    service: &ShownService<(), S>,
    pass: &mut Pass,
) -> bool
    requires { pass.old.service ≡ service.now.service }
{
    matches!(take(rt, service, pass), Ok(true)) && pass.has_lease() && pass.last() == 1
}

#[test]
fn a_service_without_views_works_the_same(rt: HostRuntime) -> Result<(), AllocError> {
    let mut opened = open(&rt, rt.alloc(), &rt, &two_workers(), 0)?;
    let OpenedWithViews {
        service,
        passes,
        views,
    } = &mut *opened;
    assert!(rt; views.is_empty() && takes_unseen(&rt, service, &mut passes[0]));
    Ok(())
}
