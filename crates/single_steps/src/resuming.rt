//! Going on after the items of an action have ended.
ghost use Rattle.std.specs.Prelude.{◌≡◌, ℕ, Err, None, OnErr, OnOk, Some};
ghost use Rattle.resource_lock.specs.GraphView.{action_of};
ghost use Rattle.resource_lock.specs.Ranges.{lock_with};
ghost use Rattle.resource_lock.specs.declared.ids.WorkerId.{WorkerId};
ghost use Rattle.lock_transforms.specs.Allowed.{IsFixedList};
ghost use Rattle.lock_transforms.specs.declared.entries.Kind.TheVariants as kinds;
ghost use Rattle.worker_notes.specs.Agrees.{IsSoundBook};
ghost use Rattle.coordination.specs.Calls.{HasFinished, IsAnswered, WasStopped};
ghost use Rattle.coordination.specs.Shown.{ShowsTheSame};
ghost use Rattle.async_tracker.specs.ParkedView.{ParkedView};
ghost use Rattle.async_tracker.specs.Shows.{IsFree, IsParkedBy, ShowsResumed};
ghost use Rattle.single_steps.specs.Waits.{CannotResume, IsFirstOpen};
ghost use Rattle.worker_choices.specs.NextSteps.{first_open};

use crate::open_items::FirstOpen;
use async_tracker::Parked;
use coordination::{Coordination, Halt, Offers, Pass, Runner};
use lock_transforms::kinds::Resume;
use resource_lock::WorkerId;
use std::sync::Wait;

/// Why a worker still waits. It has the parked value, with which the worker can resume yet.
#[derive(Drop)]
pub enum Held {
    /// An item of the action hasn't ended: this unit is the first.
    StillWaiting(Parked, u32),
    /// There wasn't enough memory.
    NoMemory(Parked),
    /// The service was stopped with the pass of this worker.
    Stopped(Parked, WorkerId),
}

/// Goes on after the items of the action have ended: in one entry the worker takes again the lock and
/// the lease that it gave back, as the action's retention says.
///
/// It answers `StillWaiting` exactly where an item hasn't ended. Else it waits while the worker is kept
/// from the lock or no lease is free. After an error the pass shows what it showed, and the parked
/// value comes back as it was.
pub fn resume<R: Wait, O: Offers, K: Runner>(
    rt: &R,
    service: &Coordination<O, K>,
    pass: &mut Pass,
    parked: Parked,
) -> Result<(), Held>
    requires service { pass.old.service ≡ service.now.service }
    requires own { IsParkedBy pass.old.sight parked }
    requires free { IsFree pass.old.sight }
    ensures service { pass.new.service ≡ pass.old.service }
    ensures entry { OnOk result (HasFinished (kinds.Resume parked.action) (IsFixedList (kinds.Resume parked.action)) pass.old.sight pass.new.sight) }
    ensures shows { OnOk result (ShowsResumed (action_of pass.old.sight.seen.graph parked.action).retention
        (lock_with pass.old.sight.seen.graph parked.action) parked.action pass.old.sight pass.new.sight) }
    ensures kept { OnErr result (ShowsTheSame pass.old.sight pass.new.sight) }
    ensures still_waiting { (p : ParkedView) (unit : ℕ) → result ≡ Err (Held.StillWaiting p unit) → (p ≡ parked)
        × IsAnswered (IsFirstOpen parked.action) (Some unit) pass.old.sight pass.new.sight }
    ensures no_memory { (p : ParkedView) → result ≡ Err (Held.NoMemory p) → (p ≡ parked)
        × IsAnswered (IsFirstOpen parked.action) None pass.old.sight pass.new.sight }
    ensures stopped { (p : ParkedView) (by : WorkerId) → result ≡ Err (Held.Stopped p by) → (p ≡ parked)
        × WasStopped (CannotResume parked.action) by pass.old.sight pass.new.sight }
{
    if let Some(unit) = ask_first_open(rt, service, pass, parked.action()) {
        return Err(Held::StillWaiting(parked, unit));
    }
    match go_on(rt, service, pass, &parked) {
        Ok(()) => Ok(()),
        Err(Halt::NoMemory) => Err(Held::NoMemory(parked)),
        Err(Halt::Stopped(by)) => Err(Held::Stopped(parked, by)),
    }
}

// The first item of an action that hasn't ended.
fn ask_first_open<R: Wait, O: Offers, K: Runner>(
    rt: &R,
    service: &Coordination<O, K>,
    pass: &mut Pass,
    action: u32,
) -> Option<u32>
    requires service { pass.old.service ≡ service.now.service }
    ensures service { pass.new.service ≡ pass.old.service }
    ensures answered { IsAnswered (IsFirstOpen action) result pass.old.sight pass.new.sight }
{
    match service.ask(rt, pass, &FirstOpen { action }) {
        Ok(unit) => unit,
        Err(Halt::NoMemory) => unreachable!(),
        Err(Halt::Stopped(_)) => unreachable!(),
    }
}

// Makes the entry, once the pass has seen that all items have ended: so it is in every later state.
fn go_on<R: Wait, O: Offers, K: Runner>(
    rt: &R,
    service: &Coordination<O, K>,
    pass: &mut Pass,
    parked: &Parked,
) -> Result<(), Halt>
    requires service { pass.old.service ≡ service.now.service }
    requires sound { IsSoundBook pass.old.sight.seen }
    requires own { IsParkedBy pass.old.sight parked.now }
    requires free { IsFree pass.old.sight }
    requires ended { first_open pass.old.sight.seen.graph pass.old.sight.seen.state parked.now.action ≡ None }
    ensures service { pass.new.service ≡ pass.old.service }
    ensures entry { OnOk result (HasFinished (kinds.Resume parked.now.action) (IsFixedList (kinds.Resume parked.now.action)) pass.old.sight pass.new.sight) }
    ensures no_memory { result ≡ Err Halt.NoMemory → IsAnswered (IsFirstOpen parked.now.action) None pass.old.sight pass.new.sight }
    ensures stopped { (by : WorkerId) → result ≡ Err (Halt.Stopped by) → WasStopped (CannotResume parked.now.action) by pass.old.sight pass.new.sight }
{
    let action = parked.action();
    service.with_state_lock(rt, pass, &Resume { action })?;
    Ok(())
}
