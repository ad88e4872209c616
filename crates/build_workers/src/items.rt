//! An item that a worker has claimed: it is run and closed, and what is next is decided.
ghost use Rattle.std.specs.Prelude.{◌≡◌, ◌≢◌, ◌∷◌, [], Contains, IfOk, OnErr, OnOk, false, true};
ghost use Rattle.item_actions.specs.declared.outcomes.Outcome.TheVariants as outcomes;
ghost use Rattle.resource_lock.specs.Fits.{Fits};
ghost use Rattle.resource_lock.specs.declared.marks.MarkId.TheVariants as ids;
ghost use Rattle.coordination.specs.Decisions.{HasDecided};
ghost use Rattle.worker_notes.specs.Offered.{AsTold};
ghost use Rattle.coordination.specs.Planned.{TellsOwn};
ghost use Rattle.coordination.specs.Shown.{claimed_shown, lease_shown};
ghost use Rattle.async_tracker.specs.Shows.{IsItemHere, ShowsClosed};
ghost use Rattle.build_workers.specs.Helping.{HasClosedBefore, HasRunBefore, MayHaveClosed};
ghost use Rattle.build_workers.specs.Kept.{HasClosed};
ghost use Rattle.build_workers.specs.Site.{IsAt};
ghost use Rattle.build_workers.specs.Steps.{HasRunItem, MovesPass, Steps};
ghost use Rattle.build_workers.specs.WorkerView.{IsOf};

use crate::run_types::RunTypes;
use crate::site::Site;
use crate::spares::stop_spare;
use crate::worker::Worker;
use async_tracker::{close, close_then};
use coordination::{Decided, Decision, Halt, Pass, current_lease};
use daemon_desk::Desk;
use daemon_requirements::Linked;
use file_access::Gate;
use item_work::{Ran, SharedPool, run_item};
use lock_transforms::Closed;

// An item that was run: what is closed, and a daemon that is one too many.
struct RanItem<L: Linked> {
    closed: Closed,
    spare: Option<Box<L>>,
}

// Runs an item that the worker has claimed, and says what it gives. A daemon that is one too many comes with it.
fn run_claimed<T: RunTypes>(
    site: &Site<'_, '_, T>,
    worker: &mut Worker<T>,
    unit: u32,
) -> RanItem<<T::Desk as Desk>::Link>
    requires item { IsItemHere site.now.graph unit }
    requires claimed { Contains (claimed_shown worker.old.pass.sight) (ids.Unit unit) }
    requires lease { lease_shown worker.old.pass.sight ≡ true }
    ensures fits { Fits site.now.graph }
    ensures unit { result.closed.unit ≡ unit }
    ensures ran { HasRunItem site.now.units worker.old worker.new result.closed }
{
    let Some(lease) = current_lease(&worker.pass) else {
        unreachable!()
    };
    site.gate.enter(worker.pass.worker().0, unit);
    let work = site.item(unit);
    let pool = SharedPool {
        rt: site.rt,
        alloc: site.alloc,
        pool: site.pool,
    };
    let Ran { outcome, spare } = run_item(
        &pool,
        &lease,
        &mut worker.desk,
        &mut worker.tally,
        unit,
        work,
    );
    RanItem {
        closed: Closed { unit, outcome },
        spare,
    }
}

/// Decides what is next.
pub(crate) fn decide<T: RunTypes, Q: Decision>(
    site: &Site<'_, '_, T>,
    worker: &mut Worker<T>,
    next: &Q,
) -> Result<Decided<Q::Answer>, Halt>
where
    Q::Answer: Drop,
    requires { worker.old.pass.service ≡ site.now.service.service }
    ensures fits { Fits site.now.graph }
    ensures moves { MovesPass worker.old worker.new }
    ensures decided { IfOk result (HasDecided (AsTold TellsOwn (Q.answers next.now)) (Q.step_of next.now) Q.Step.kind_of Q.Step.makes Q.Step.fails_on
        Q.Step.retries_on worker.old.pass.sight worker.new.pass.sight) }
    ensures closed { OnErr result (HasClosed [] worker.old.pass.sight worker.new.pass.sight) }
{
    site.service.decide(site.rt, &mut worker.pass, next)
}

// Closes an item that the worker has claimed.
fn close_item<T: RunTypes>(
    site: &Site<'_, '_, T>,
    pass: &mut Pass,
    closed: Closed,
) -> Result<(), Halt>
    requires at { IsAt site.now pass.old }
    requires item { IsItemHere site.now.graph closed.unit }
    requires claimed { Contains (claimed_shown pass.old.sight) (ids.Unit closed.unit) }
    requires lease { lease_shown pass.old.sight ≡ true }
    requires outcome { closed.outcome ≢ outcomes.Skipped }
    ensures service { pass.new.service ≡ pass.old.service }
    ensures closed { OnOk result (HasClosed (closed ∷ []) pass.old.sight pass.new.sight) }
    ensures shows { OnOk result (ShowsClosed closed.unit pass.old.sight pass.new.sight) }
    ensures still { OnErr result (HasClosed [] pass.old.sight pass.new.sight) }
{
    match close(site.rt, site.service, pass, closed.unit, closed.outcome) {
        Ok(()) => Ok(()),
        Err(_) => Err(Halt::NoMemory),
    }
}

// Closes an item that the worker has claimed, notes what a view shows then, and stops a daemon that is one too many, also where the close
// failed: while its end is waited for, the item is over, and no lease is kept.
fn close_alone<T: RunTypes>(
    site: &Site<'_, '_, T>,
    worker: &mut Worker<T>,
    closed: Closed,
    spare: Option<Box<<T::Desk as Desk>::Link>>,
) -> Result<(), Halt>
    requires of { IsOf site.now worker.old }
    requires item { IsItemHere site.now.graph closed.unit }
    requires claimed { Contains (claimed_shown worker.old.pass.sight) (ids.Unit closed.unit) }
    requires lease { lease_shown worker.old.pass.sight ≡ true }
    requires outcome { closed.outcome ≢ outcomes.Skipped }
    ensures moves { MovesPass worker.old worker.new }
    ensures closed { OnOk result (HasClosed (closed ∷ []) worker.old.pass.sight worker.new.pass.sight) }
    ensures shows { OnOk result (ShowsClosed closed.unit worker.old.pass.sight worker.new.pass.sight) }
    ensures still { OnErr result (HasClosed [] worker.old.pass.sight worker.new.pass.sight) }
{
    let unit = closed.unit;
    let closed = close_item(site, &mut worker.pass, closed);
    if closed.is_ok() {
        worker.kit.watch(&worker.pass, unit);
    }
    stop_spare(site.service, &mut worker.desk, spare);
    closed
}

// Closes an item that the worker has claimed, and decides what is next in the same hold of the state lock.
fn close_at_once<T: RunTypes, Q: Decision>(
    site: &Site<'_, '_, T>,
    worker: &mut Worker<T>,
    closed: Closed,
    next: &Q,
) -> Result<Decided<Q::Answer>, Halt>
where
    Q::Answer: Drop,
    requires of { IsOf site.now worker.old }
    requires item { IsItemHere site.now.graph closed.unit }
    requires claimed { Contains (claimed_shown worker.old.pass.sight) (ids.Unit closed.unit) }
    requires lease { lease_shown worker.old.pass.sight ≡ true }
    requires outcome { closed.outcome ≢ outcomes.Skipped }
    ensures moves { MovesPass worker.old worker.new }
    ensures decided { IfOk result (λ decided. HasClosedBefore closed worker.old.pass.sight (λ s. HasDecided (AsTold TellsOwn (Q.answers next.now))
        (Q.step_of next.now) Q.Step.kind_of Q.Step.makes Q.Step.fails_on Q.Step.retries_on s worker.new.pass.sight decided)) }
    ensures closed { OnErr result (MayHaveClosed closed worker.old.pass.sight worker.new.pass.sight) }
{
    match close_then(site.rt, site.service, &mut worker.pass, closed, next) {
        Ok(decided) => Ok(decided),
        Err(halt) => Err(halt.halt()),
    }
}

// Closes an item that the worker has claimed, and decides what is next: in the same hold of the state lock, but where a view looks at the
// closing, or a daemon is stopped behind it, the decision has a hold of its own. So it has where there are fewer leases than workers: else
// the next claim takes the lease that the closing gives back, and who waits for one gets none as long as units are queued.
fn close_and_decide<T: RunTypes, Q: Decision>(
    site: &Site<'_, '_, T>,
    worker: &mut Worker<T>,
    ran: RanItem<<T::Desk as Desk>::Link>,
    next: &Q,
) -> Result<Decided<Q::Answer>, Halt>
where
    Q::Answer: Drop,
    requires of { IsOf site.now worker.old }
    requires item { IsItemHere site.now.graph ran.closed.unit }
    requires claimed { Contains (claimed_shown worker.old.pass.sight) (ids.Unit ran.closed.unit) }
    requires lease { lease_shown worker.old.pass.sight ≡ true }
    requires outcome { ran.closed.outcome ≢ outcomes.Skipped }
    ensures moves { MovesPass worker.old worker.new }
    ensures decided { IfOk result (λ decided. HasClosedBefore ran.closed worker.old.pass.sight (λ s. HasDecided (AsTold TellsOwn (Q.answers next.now))
        (Q.step_of next.now) Q.Step.kind_of Q.Step.makes Q.Step.fails_on Q.Step.retries_on s worker.new.pass.sight decided)) }
    ensures closed { OnErr result (MayHaveClosed ran.closed worker.old.pass.sight worker.new.pass.sight) }
{
    let RanItem { closed, spare } = ran;
    match spare {
        None if !worker.is_watched() && site.has_lease_for_each() => {
            close_at_once(site, worker, closed, next)
        }
        spare => {
            close_alone(site, worker, closed, spare)?;
            decide(site, worker, next)
        }
    }
}

/// Runs an item that the worker has claimed, closes it with what it gives, and decides what is next.
///
/// It fails for want of memory, and where the service was stopped.
pub(crate) fn run_and_close<T: RunTypes, Q: Decision>(
    site: &Site<'_, '_, T>,
    worker: &mut Worker<T>,
    unit: u32,
    next: &Q,
) -> Result<Decided<Q::Answer>, Halt>
where
    Q::Answer: Drop,
    requires of { IsOf site.now worker.old }
    requires item { IsItemHere site.now.graph unit }
    requires claimed { Contains (claimed_shown worker.old.pass.sight) (ids.Unit unit) }
    requires lease { lease_shown worker.old.pass.sight ≡ true }
    ensures fits { Fits site.now.graph }
    ensures ran { IfOk result (λ decided. HasRunBefore site.now worker.old worker.new (ShowsClosed unit)
        (λ s. HasDecided (AsTold TellsOwn (Q.answers next.now))
        (Q.step_of next.now) Q.Step.kind_of Q.Step.makes Q.Step.fails_on Q.Step.retries_on s worker.new.pass.sight decided)) }
    ensures broken_off { OnErr result (Steps site.now worker.old worker.new false) }
{
    let ran = run_claimed(site, worker, unit);
    close_and_decide(site, worker, ran, next)
}
