//! What C calls with a worker's handle. A call that finds the handle empty answers so, and touches nothing.
ghost use Rattle.std.specs.Prelude.{◌≡◌, ◌≢◌, ◌&&◌, true, false};
ghost use Rattle.worker_choices.specs.GoingOn.{last_lets_go_on};
ghost use Rattle.coordination.specs.Calls.{HasStopped};
ghost use Rattle.lock_transforms.specs.declared.kinds.acquires.Shortage.TheVariants as shortages;
ghost use Rattle.wakhurmi_c.specs.Calls.{CountLeaves, EnterLeaves, HandBackLeaves, IsToldParked, LeaveLeaves, TakeLeaves};
ghost use Rattle.wakhurmi_c.specs.Leaves.{is_entry};
ghost use Rattle.wakhurmi_c.specs.Locks.{locks_of};
ghost use Rattle.wakhurmi_c.specs.Numbers.{answer_of};
ghost use Rattle.wakhurmi_c.specs.declared.answers.Answer.TheVariants as answers;

use crate::answers::{Answer, Outcome, Told};
use crate::handles::Handle;
use lock_transforms::kinds::Shortage;
use std::alloc::Global;

/// Takes a lease, where the worker has none, and those of these locks that it doesn't own, in one entry. Where it can't have
/// all of them it answers `Busy` without an entry, and `Stopped` where the service has been stopped.
#[unsafe(no_mangle)]
pub extern "C" fn wakhurmi_c_take(alloc: Global, handle: &mut Handle, locks: &[u32]) -> Told
    ensures full { handle.new.full ≡ handle.old.full }
    ensures empty { handle.old.full ≡ false → answer_of result.answer ≡ answers.Empty }
    ensures left { handle.old.full ≡ true → TakeLeaves shortages.Waits (locks_of locks.now) handle.old.held.worker.pass.sight handle.new.held.worker.pass.sight
        (answer_of result.answer) }
    ensures wakes { handle.old.full ≡ true
        → result.wakes ≡ (is_entry (answer_of result.answer) && last_lets_go_on handle.new.held.worker.pass.sight.seen.history) }
{
    if !handle.full {
        return Outcome::without_entry(Answer::Empty).told();
    }
    let mut worker = handle.take(alloc);
    let outcome = worker.acquire(locks, Shortage::Waits);
    *handle = Handle::of(worker);
    outcome.told()
}

/// Takes what `wakhurmi_c_take` takes. Where it can't have all of it it answers `Refused`, with a failed entry.
#[unsafe(no_mangle)]
pub extern "C" fn wakhurmi_c_try_take(alloc: Global, handle: &mut Handle, locks: &[u32]) -> Told
    ensures full { handle.new.full ≡ handle.old.full }
    ensures empty { handle.old.full ≡ false → answer_of result.answer ≡ answers.Empty }
    ensures left { handle.old.full ≡ true → TakeLeaves shortages.Fails (locks_of locks.now) handle.old.held.worker.pass.sight handle.new.held.worker.pass.sight
        (answer_of result.answer) }
    ensures wakes { handle.old.full ≡ true
        → result.wakes ≡ (is_entry (answer_of result.answer) && last_lets_go_on handle.new.held.worker.pass.sight.seen.history) }
{
    if !handle.full {
        return Outcome::without_entry(Answer::Empty).told();
    }
    let mut worker = handle.take(alloc);
    let outcome = worker.acquire(locks, Shortage::Fails);
    *handle = Handle::of(worker);
    outcome.told()
}

/// Hands back the lease and all locks of the worker, in one entry.
#[unsafe(no_mangle)]
pub extern "C" fn wakhurmi_c_hand_back(alloc: Global, handle: &mut Handle) -> Told
    ensures full { handle.new.full ≡ handle.old.full }
    ensures empty { handle.old.full ≡ false → answer_of result.answer ≡ answers.Empty }
    ensures left { handle.old.full ≡ true → HandBackLeaves handle.old.held.worker.pass.sight handle.new.held.worker.pass.sight (answer_of result.answer) }
    ensures wakes { handle.old.full ≡ true
        → result.wakes ≡ (is_entry (answer_of result.answer) && last_lets_go_on handle.new.held.worker.pass.sight.seen.history) }
{
    if !handle.full {
        return Outcome::without_entry(Answer::Empty).told();
    }
    let mut worker = handle.take(alloc);
    let outcome = worker.hand_back();
    *handle = Handle::of(worker);
    outcome.told()
}

/// Enters a blocking section: hands back the lease and all locks, which the worker takes again when it leaves.
#[unsafe(no_mangle)]
pub extern "C" fn wakhurmi_c_enter(alloc: Global, handle: &mut Handle) -> Told
    ensures full { handle.new.full ≡ handle.old.full }
    ensures empty { handle.old.full ≡ false → answer_of result.answer ≡ answers.Empty }
    ensures left { handle.old.full ≡ true → EnterLeaves handle.old.held.worker.pass.sight handle.new.held.worker.pass.sight (answer_of result.answer) }
    ensures wakes { handle.old.full ≡ true
        → result.wakes ≡ (is_entry (answer_of result.answer) && last_lets_go_on handle.new.held.worker.pass.sight.seen.history) }
{
    if !handle.full {
        return Outcome::without_entry(Answer::Empty).told();
    }
    let mut worker = handle.take(alloc);
    let outcome = worker.enter();
    *handle = Handle::of(worker);
    outcome.told()
}

/// Leaves a blocking section, with all that the worker handed back. `Busy` and `Stopped` come as at `wakhurmi_c_take`.
#[unsafe(no_mangle)]
pub extern "C" fn wakhurmi_c_leave(alloc: Global, handle: &mut Handle) -> Told
    ensures full { handle.new.full ≡ handle.old.full }
    ensures empty { handle.old.full ≡ false → answer_of result.answer ≡ answers.Empty }
    ensures left { handle.old.full ≡ true → LeaveLeaves handle.old.held.worker.pass.sight handle.new.held.worker.pass.sight (answer_of result.answer) }
    ensures wakes { handle.old.full ≡ true
        → result.wakes ≡ (is_entry (answer_of result.answer) && last_lets_go_on handle.new.held.worker.pass.sight.seen.history) }
{
    if !handle.full {
        return Outcome::without_entry(Answer::Empty).told();
    }
    let mut worker = handle.take(alloc);
    let outcome = worker.leave();
    *handle = Handle::of(worker);
    outcome.told()
}

/// Stops the service. Where it was stopped before, the worker hears by whom.
#[unsafe(no_mangle)]
pub extern "C" fn wakhurmi_c_stop(alloc: Global, handle: &mut Handle) -> u32
    ensures full { handle.new.full ≡ handle.old.full }
    ensures empty { handle.old.full ≡ false → answer_of result ≡ answers.Empty }
    ensures done { handle.old.full ≡ true → answer_of result ≡ answers.Done }
    ensures stopped { handle.old.full ≡ true → HasStopped handle.old.held.worker.pass.sight handle.new.held.worker.pass.sight }
{
    if !handle.full {
        return Answer::Empty.number();
    }
    let mut worker = handle.take(alloc);
    worker.stop();
    *handle = Handle::of(worker);
    Answer::Done.number()
}

/// Tells how many leases are out.
#[unsafe(no_mangle)]
pub extern "C" fn wakhurmi_c_leases_out(alloc: Global, handle: &mut Handle, leases: &mut u32) -> u32
    ensures full { handle.new.full ≡ handle.old.full }
    ensures empty { handle.old.full ≡ false → answer_of result ≡ answers.Empty }
    ensures told { handle.old.full ≡ true
        → CountLeaves leases.new handle.old.held.worker.pass.sight handle.new.held.worker.pass.sight (answer_of result) }
    ensures kept { answer_of result ≢ answers.Done → leases.new ≡ leases.old }
{
    if !handle.full {
        return Answer::Empty.number();
    }
    let mut worker = handle.take(alloc);
    let counted = worker.leases_out();
    *handle = Handle::of(worker);
    match counted {
        Some(count) => {
            *leases = count;
            Answer::Done.number()
        }
        None => Answer::Again.number(),
    }
}

/// Tells one of the locks that the worker takes again when it leaves its blocking section, by its place among them: the last parked stands
/// last. `BadNumber` says that there are no more.
#[unsafe(no_mangle)]
pub extern "C" fn wakhurmi_c_parked(
    alloc: Global,
    handle: &mut Handle,
    place: usize,
    lock: &mut u32,
) -> u32
    ensures full { handle.new.full ≡ handle.old.full }
    ensures empty { handle.old.full ≡ false → answer_of result ≡ answers.Empty }
    ensures worker { handle.old.full ≡ true → handle.new.held.worker ≡ handle.old.held.worker }
    ensures told { handle.old.full ≡ true → IsToldParked place handle.old.held.worker.pass.sight lock.new (answer_of result) }
    ensures kept { answer_of result ≢ answers.Done → lock.new ≡ lock.old }
{
    if !handle.full {
        return Answer::Empty.number();
    }
    let worker = handle.take(alloc);
    let found = worker.parked(place);
    *handle = Handle::of(worker);
    match found {
        Some(number) => {
            *lock = number;
            Answer::Done.number()
        }
        None => Answer::BadNumber.number(),
    }
}

/// Closes a worker's part. The last one of a service closes the service.
#[unsafe(no_mangle)]
pub extern "C" fn wakhurmi_c_close(alloc: Global, handle: &mut Handle) -> u32
    ensures empty { handle.old.full ≡ false → answer_of result ≡ answers.Empty }
    ensures closed { handle.old.full ≡ true → answer_of result ≡ answers.Done }
    ensures emptied { handle.new.full ≡ false }
{
    if !handle.full {
        return Answer::Empty.number();
    }
    drop(handle.take(alloc));
    Answer::Done.number()
}
