ghost use Rattle.std.specs.Prelude.{◌≡◌, ◌≢◌, Contains, IfSome};
ghost use Rattle.item_actions.specs.Value.{IsHonest, value_on};
ghost use Rattle.item_actions.specs.declared.outcomes.Outcome.TheVariants as outcomes;
ghost use Rattle.resource_lock.specs.declared.marks.MarkId.TheVariants as ids;
ghost use Rattle.coordination.specs.Shown.{claimed_shown};
ghost use Rattle.file_access.specs.ReadView.{IsOutcomeCounted, and_read};
ghost use Rattle.item_work.specs.Requests.{request_for};
ghost use Rattle.item_work.specs.Sends.{IsNamedFor, MayAskFor, ReadsFileFor, SendsFor, SparesFor};
ghost use Rattle.item_work.specs.Tallying.{TalliesFor};

use crate::daemons::SharedPool;
use crate::processes::run_in_process;
use crate::ran::Ran;
use coordination::Lease;
use daemon_desk::Desk;
use daemon_manager::{ReservationLedger, Tally};
use daemon_requirements::{Isolation, Work};
use file_access::work_out;
use item_actions::{ItemAction, Outcome, Text};
use std::alloc::Global;
use std::sync::Wait;
use std::sync::ledger::Ledger;

/// Runs an item: works its action out on its file, in the worker's own thread or in a daemon of the pool.
///
/// The pass of the lease has claimed the item. While the item runs the lease borrows the pass, so the
/// worker takes part in no transform. The file of an item in a process has the form of a file's name, and the item may ask the pool for
/// the daemon that it asks for.
/// Where the files are known the outcome is the action's value on them, NotThere or TooLong; else Fault,
/// where the desk failed, or NoMemory. The desk's count of faults rises by one at Fault, and at no other
/// outcome.
///
/// For an item in the worker's own thread its file is read once, nothing is sent, and the worker's tally
/// stays as it is. For one in a process no file is read here. At most one request is sent, this unit's, to a
/// daemon that covers what is asked; it is sent where the outcome is neither Fault nor NoMemory. The tally rises by the daemon that was reserved, one at
/// least for a request that was sent and one at most, and by the daemon that failed: none where the outcome
/// is neither Fault nor NoMemory, and else one at most.
///
/// Where one daemon too many is idle behind an item in a process, it comes back with the outcome, which then isn't Fault. The
/// caller stops it once the item is closed. Where there is no memory for the box of its link, it was stopped here, and its end
/// waited for with the lease; the outcome stands. A daemon that failed was stopped here: nothing more is waited for at its end.
pub fn run_item<R: Wait, D: Desk, U: ReservationLedger, F: Ledger>(
    pool: &SharedPool<'_, R, D::Link, U, F>,
    lease: &Lease<'_>,
    desk: &mut D,
    mine: &mut Tally<U, F>,
    unit: u32,
    work: &Work,
) -> Ran<Box<D::Link>>
    requires claimed { Contains (claimed_shown lease.now.sight) (ids.Unit unit) }
    requires form { IsNamedFor work.now.isolation work.now.file }
    requires asks { MayAskFor (U.asks unit) work.now.isolation }
    ensures files { D.files desk.new ≡ D.files desk.old }
    ensures reads { ReadsFileFor work.now.isolation (D.reads desk.old) (D.reads desk.new) }
    ensures ran { result.outcome ≢ outcomes.Skipped }
    ensures faults { IsOutcomeCounted (D.faults desk.old) (D.faults desk.new) result.outcome }
    ensures honest { IfSome (D.files desk.old) (λ known. IsHonest result.outcome (value_on known work.now.action work.now.file)) }
    ensures sent { SendsFor work.now.isolation (record { count = D.sends desk.old; requests = D.sent desk.old })
        (record { count = D.sends desk.new; requests = D.sent desk.new }) (request_for unit work.now) result.outcome }
    ensures counted { TalliesFor work.now.isolation mine.old mine.new (D.sends desk.old) (D.sends desk.new) result.outcome }
    ensures spare { SparesFor work.now.isolation result.spare result.outcome }
{
    match &work.isolation {
        Isolation::InThread => {
            let outcome = work_in_thread(pool.alloc, desk, &work.action, &work.file);
            Ran::alone(outcome)
        }
        Isolation::Process(asked) => run_in_process(pool, desk, mine, unit, work, asked),
    }
}

// Works an action out on a file in the worker's own thread, which sends nothing.
fn work_in_thread<D: Desk>(alloc: Global, desk: &mut D, action: &ItemAction, file: &Text) -> Outcome
    ensures files { D.files desk.new ≡ D.files desk.old }
    ensures read { D.reads desk.new ≡ and_read (D.reads desk.old) }
    ensures ran { result ≢ outcomes.Skipped }
    ensures faults { IsOutcomeCounted (D.faults desk.old) (D.faults desk.new) result }
    ensures honest { IfSome (D.files desk.old) (λ known. IsHonest result (value_on known action.now file.now)) }
    ensures sends { D.sends desk.new ≡ D.sends desk.old }
    ensures sent { D.sent desk.new ≡ D.sent desk.old }
{
    work_out(alloc, action, file, desk)
}
