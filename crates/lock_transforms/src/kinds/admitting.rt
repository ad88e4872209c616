//! Entries with given changes: whether they are allowed.
ghost use Rattle.std.specs.Prelude.{◌≡◌, ◌↔◌, ◌+◌, IsTrue, [], Some, true, false};
ghost use Rattle.std.specs.Bool.{Decides};
ghost use Rattle.std.specs.List.{list_all};
ghost use Rattle.resource_lock.specs.StateView.{holding_of};
ghost use Rattle.lock_transforms.specs.Admitting.{IsAcquire, HasTried, takes_within};
ghost use Rattle.lock_transforms.specs.Allowed.{Allowed, IsClosedOf, IsKindOf};
ghost use Rattle.lock_transforms.specs.Entry.{entry};
ghost use Rattle.lock_transforms.specs.MostChanges.{IsRoomFor};
ghost use Rattle.lock_transforms.specs.Table.{acquires, condition};
ghost use Rattle.lock_transforms.specs.TentativeView.{IsSoundTentative};
ghost use Rattle.lock_transforms.specs.declared.entries.Kind.TheVariants as kinds;

use crate::entries::{Closed, Kind};
use crate::kinds::blocks::Block;
use crate::kinds::claims::Claim;
use crate::kinds::closes::Close;
use crate::kinds::ends::End;
use crate::kinds::fixed::{FixedKind, Progress, run_fixed};
use crate::kinds::hand_backs::HandBack;
use crate::kinds::making::try_changes;
use crate::kinds::parks::Park;
use crate::kinds::resumes::Resume;
use crate::kinds::skips::Skip;
use crate::kinds::starts::Start;
use crate::kinds::submits::Submit;
use crate::kinds::unblocks::Unblock;
use crate::tentatives::Tentative;
use item_actions::Outcome;
use resource_lock::{Change, Graph, LockId};

/// Makes the changes given, where an entry of the kind is allowed with them, and answers whether it
/// is. Where it isn't, some changes may be made.
pub(crate) fn make_given(work: &mut Tentative, kind: Kind, changes: &[Change]) -> bool
    requires fresh { work.old.made ≡ [] }
    requires room { IsRoomFor work.old.graph work.old.room }
    ensures { HasTried work.old work.new kind changes.now result }
{
    match kind {
        Kind::Start(task) => make_fixed(work, &Start { task }, changes),
        Kind::Skip(task) => make_fixed(work, &Skip { task }, changes),
        Kind::Submit(action) => make_fixed(work, &Submit { action }, changes),
        Kind::Park(action) => make_fixed(work, &Park { action }, changes),
        Kind::Resume(action) => make_fixed(work, &Resume { action }, changes),
        Kind::Claim(unit) => make_fixed(work, &Claim { unit }, changes),
        Kind::Close(closed) => make_fixed(work, &Close { closed }, changes),
        Kind::Block(unit) => make_fixed(work, &Block { unit }, changes),
        Kind::Unblock(closed) => make_fixed(work, &Unblock { closed }, changes),
        Kind::End(task) => make_fixed(work, &End { task }, changes),
        Kind::Acquire => acquire_given(work, changes),
        Kind::HandBack => make_fixed(work, &HandBack, changes),
    }
}

// `make_given` for a kind whose changes the graph, the state and the worker fix: they are made, and
// compared with those given.
fn make_fixed<K: FixedKind>(work: &mut Tentative, kind: &K, changes: &[Change]) -> bool
    requires fresh { work.old.made ≡ [] }
    requires room { IsRoomFor work.old.graph work.old.room }
    ensures { HasTried work.old work.new (K.kind_of kind.now) changes.now result }
{
    // Of the graph and the state, that the room for any entry is enough.
    let _ = work.graph();
    let _ = work.state();
    match run_fixed(kind, work, &[]) {
        Progress::Made => are_same(work.made(), changes),
        Progress::NotEnabled | Progress::OutOfRange => false,
    }
}

// Whether two lists have the same changes.
fn are_same(made: &[Change], given: &[Change]) -> bool
    ensures { Decides result (made.now ≡ given.now) }
{
    if made.len() != given.len() {
        return false;
    }
    for place in 0..made.len() {
        if !is_same(made[place], given[place]) {
            return false;
        }
    }
    true
}

// Whether two changes are the same.
fn is_same(made: Change, given: Change) -> bool
    ensures { Decides result (made ≡ given) }
{
    made == given
}

// `make_given` for an `Acquire`, which may take any locks in rising order.
fn acquire_given(work: &mut Tentative, changes: &[Change]) -> bool
    requires fresh { work.old.made ≡ [] }
    requires room { IsRoomFor work.old.graph work.old.room }
    ensures { HasTried work.old work.new kinds.Acquire changes.now result }
{
    are_acquired(work, changes) && try_changes(work, changes)
}

// Whether an `Acquire` is allowed with the changes, if only each can be made.
fn are_acquired(work: &Tentative, changes: &[Change]) -> bool
    ensures acquired { result ≡ true → IsAcquire work.now changes.now }
    ensures refused { result ≡ false → ¬ Allowed work.now.graph work.now.state (entry work.now.worker kinds.Acquire (Some changes.now)) }
{
    if !may_take(work) {
        return false;
    }
    if !acquires(changes, is_leased(work)) {
        return false;
    }
    are_within(work, changes)
}

// Whether the worker isn't blocked and runs nothing.
fn may_take(work: &Tentative) -> bool
    ensures condition { result ≡ condition work.now.graph work.now.state work.now.worker kinds.Acquire }
    ensures sound { IsSoundTentative work.now }
{
    // Of the graph, that the worker is one of its workers: it is part of what holds of a sound `Tentative`.
    let _ = work.graph();
    !work.state().blocked(work.worker()) && !work.state().runs_any(work.worker())
}

// Whether the worker has a lease.
fn is_leased(work: &Tentative) -> bool
    ensures { result ≡ (holding_of work.now.state work.now.worker).lease }
{
    work.state().has_lease(work.worker())
}

// Whether each lock that changes take is the state's.
fn are_within(work: &Tentative, changes: &[Change]) -> bool
    ensures { result ≡ list_all (takes_within work.now.graph.locks) changes.now }
{
    take_below(changes, work.graph().locks())
}

// Whether changes take locks in strictly rising order, and then a lease where there is none.
fn acquires(changes: &[Change], leased: bool) -> bool
    ensures { result ≡ acquires 0 leased changes.now }
{
    let mut low = 0;
    for (place, change) in changes.iter().enumerate() {
        match *change {
            Change::Lock(lock) => {
                if u64::from(lock.0) < low {
                    return false;
                }
                low = number_after(lock);
            }
            Change::Take => return !leased && place + 1 == changes.len(),
            _ => return false,
        }
    }
    leased
}

// The number after a lock's.
fn number_after(lock: LockId) -> u64
    ensures { result ≡ lock.0 + 1 }
{
    u64::from(lock.0) + 1
}

// Whether each lock that changes take is one of so many.
fn take_below(changes: &[Change], locks: u32) -> bool
    ensures { result ≡ list_all (takes_within locks) changes.now }
{
    changes.iter().all(|change| match *change {
        Change::Lock(lock) => lock.0 < locks,
        _ => true,
    })
}

/// Whether the numbers in a kind are the graph's, and it doesn't carry Skipped.
pub fn is_kind_of(graph: &Graph, kind: Kind) -> bool
    ensures { IsTrue result ↔ IsKindOf graph.now kind }
{
    match kind {
        Kind::Start(task) | Kind::Skip(task) | Kind::End(task) => {
            (task as usize) < graph.tasks().len()
        }
        Kind::Submit(action) | Kind::Park(action) | Kind::Resume(action) => {
            (action as usize) < graph.actions().len()
        }
        Kind::Claim(unit) | Kind::Block(Some(unit)) => unit < graph.units(),
        Kind::Close(closed) | Kind::Unblock(Some(closed)) => is_closed_of(graph, closed),
        Kind::Block(None) | Kind::Unblock(None) | Kind::Acquire | Kind::HandBack => true,
    }
}

// Whether it is a unit of the graph with an outcome of work that was done.
fn is_closed_of(graph: &Graph, closed: Closed) -> bool
    ensures { IsTrue result ↔ IsClosedOf graph.now closed }
{
    closed.unit < graph.units() && !matches!(closed.outcome, Outcome::Skipped)
}
