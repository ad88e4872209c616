//! An item that a daemon works out, within a budget of memory.
ghost use Rattle.std.specs.Prelude.{◌≡◌, ◌≢◌, IfOk, IfSome, MatchResult, true};
ghost use Rattle.item_actions.specs.Forms.{is_file_name};
ghost use Rattle.item_actions.specs.Value.{IsHonest, value_on};
ghost use Rattle.item_actions.specs.declared.outcomes.Outcome.TheVariants as outcomes;
ghost use Rattle.daemon_requirements.specs.Covers.{Covers};
ghost use Rattle.daemon_manager.specs.Counts.{and_reserved};
ghost use Rattle.daemon_desk.specs.Replies.{IsReplyTo};
ghost use Rattle.file_access.specs.ReadView.{IsFaultCounted, IsOutcomeCounted};
ghost use Rattle.item_work.specs.Requests.{Asks, Sends, request_for};
ghost use Rattle.item_work.specs.Tallying.{TallyRises, one_if_err, one_if_unreal};
ghost use Rattle.memory_budget.specs.Waiting.{AsksProcess, IfDone, IsAnswered, IsCountedWithin, IsOverFor, SendsWithinFor, TalliesWithin};

use crate::counted_budget::{BudgetLedger, CountedPermit};
use crate::locks::BudgetLock;
use crate::permits::heap_of;
use crate::rooms::Room;
use coordination::Lease;
use daemon_desk::Desk;
use daemon_manager::{Reserved, Tally};
use daemon_requirements::{Isolation, Linked, Work};
use file_access::DeskFail;
use item_actions::Outcome;
use item_work::{Answered, Ran, Wanted, ask, request_for};
use std::alloc::Global;
use std::sync::Wait;
use std::sync::ledger::Ledger;

/// What came of an item within a budget.
#[derive(Clone, Copy, Drop)]
pub enum Budgeted {
    /// It was run, with this outcome.
    Done(Outcome),
    /// It asks for so many MB, which is over the budget. Nothing was done.
    Over(u64),
}

/// What came of an item within a budget, and perhaps a daemon to stop: one that was idle, where one too many was.
///
/// It can't be dropped, since the link can't. Who has it closes the item first, and gives the link to `stop_daemon` then: the wait
/// for the daemon's end keeps no lease. It does so before it runs another item, which could else wait for this very memory.
pub struct BudgetedRun<L> {
    pub budgeted: Budgeted,
    pub spare: Option<L>,
}

impl<L> BudgetedRun<L> {
    // An item that was run.
    fn of(ran: Ran<L>) -> BudgetedRun<L>
        ensures { result ≡ record { budgeted = Budgeted.Done ran.outcome; spare = ran.spare } }
    {
        let Ran { outcome, spare } = ran;
        BudgetedRun {
            budgeted: Budgeted::Done(outcome),
            spare,
        }
    }
}

/// A worker's way to a pool within a budget.
#[derive(Drop)]
pub struct SharedBudget<'a, R, L: Linked, U: BudgetLedger, F: Ledger> {
    /// What lets the worker wait.
    pub rt: &'a R,
    /// Where requests and replies are kept.
    pub alloc: Global,
    /// The pool.
    pub pool: &'a BudgetLock<L, U, F>,
}

/// Has a daemon of the pool work an item out, once there is room for one within the budget.
///
/// While the item waits and runs the lease borrows its pass, so the worker takes part in no transform. The item runs in a process,
/// and its file has the form of a file's name. What asks for more than the budget is `Over`, and nothing else is. Where the files
/// are known the outcome is the action's value on them, NotThere or TooLong; else Fault, where the desk failed, or NoMemory. The
/// desk's count of faults rises by one at Fault, and at no other answer. No file is read here. At most one request is sent, this
/// unit's, to a daemon that covers what is asked; it is sent where the outcome is neither Fault nor NoMemory. The worker's tally rises
/// as by `run_item`, and stays as it is at `Over`. Where one daemon too many is idle behind it, that one comes back with the answer,
/// which then is no fault and not `Over`. Its memory stays taken until it was stopped.
pub fn run_in_budget<R: Wait, D: Desk, U: BudgetLedger, F: Ledger>(
    pool: &SharedBudget<'_, R, D::Link, U, F>,
    lease: &Lease<'_>,
    desk: &mut D,
    mine: &mut Tally<U, F>,
    unit: u32,
    work: &Work,
) -> BudgetedRun<D::Link>
    requires process { AsksProcess work.now.isolation }
    requires form { is_file_name work.now.file ≡ true }
    ensures files { D.files desk.new ≡ D.files desk.old }
    ensures reads { D.reads desk.new ≡ D.reads desk.old }
    ensures over { IsOverFor work.now.isolation pool.now.pool.now.budget_mb result.budgeted }
    ensures ran { IfDone result.budgeted (λ outcome. outcome ≢ outcomes.Skipped) }
    ensures faults { IsCountedWithin (D.faults desk.old) (D.faults desk.new) result.budgeted }
    ensures honest { IfDone result.budgeted (λ outcome.
        IfSome (D.files desk.old) (λ known. IsHonest outcome (value_on known work.now.action work.now.file))) }
    ensures sent { SendsWithinFor work.now.isolation (record { count = D.sends desk.old; requests = D.sent desk.old })
        (record { count = D.sends desk.new; requests = D.sent desk.new }) (request_for unit work.now) result.budgeted }
    ensures counted { TalliesWithin mine.old mine.new (D.sends desk.old) (D.sends desk.new) result.budgeted }
    ensures spare { IfSome result.spare (λ _. IsAnswered result.budgeted) }
{
    match &work.isolation {
        Isolation::InThread => unreachable!(),
        Isolation::Process(asked) => {
            let heap_mb = heap_of(asked);
            if heap_mb > pool.pool.budget_mb() {
                return BudgetedRun {
                    budgeted: Budgeted::Over(heap_mb),
                    spare: None,
                };
            }
            match request_for(pool.alloc, unit, work) {
                Ok(request) => {
                    let wanted = Wanted {
                        request: &request,
                        requirements: asked,
                    };
                    BudgetedRun::of(work_in_daemon(pool, desk, mine, &wanted))
                }
                Err(_) => BudgetedRun::of(Ran::alone(Outcome::NoMemory)),
            }
        }
    }
}

// Lets a daemon work the item out, one that covers what is asked, or starts one. The pool's lock is held only for the pool's own
// calls.
fn work_in_daemon<R: Wait, D: Desk, U: BudgetLedger, F: Ledger>(
    pool: &SharedBudget<'_, R, D::Link, U, F>,
    desk: &mut D,
    mine: &mut Tally<U, F>,
    wanted: &Wanted<'_>,
) -> Ran<D::Link>
    requires form { is_file_name wanted.now.request.now.file ≡ true }
    ensures files { D.files desk.new ≡ D.files desk.old }
    ensures reads { D.reads desk.new ≡ D.reads desk.old }
    ensures ran { result.outcome ≢ outcomes.Skipped }
    ensures faults { IsOutcomeCounted (D.faults desk.old) (D.faults desk.new) result.outcome }
    ensures honest { IfSome (D.files desk.old) (λ known. IsHonest result.outcome (value_on known wanted.now.request.now.action wanted.now.request.now.file)) }
    ensures sent { Sends wanted.now.requirements.now (record { count = D.sends desk.old; requests = D.sent desk.old })
        (record { count = D.sends desk.new; requests = D.sent desk.new }) wanted.now.request.now result.outcome }
    ensures counted { TallyRises mine.old mine.new (D.sends desk.old) (D.sends desk.new) (one_if_unreal result.outcome) }
    ensures spare { IfSome result.spare (λ _. result.outcome ≢ outcomes.Fault) }
{
    match ask_daemon(pool, desk, mine, wanted) {
        Ok(answered) => {
            let Answered { reply, spare } = answered;
            Ran {
                outcome: reply.outcome,
                spare,
            }
        }
        Err(DeskFail::Failed) => Ran::alone(Outcome::Fault),
        Err(DeskFail::NoMemory) => Ran::alone(Outcome::NoMemory),
    }
}

// Asks a daemon of the pool, or a new one, and gives it back. One that gave no reply is never used again: it is stopped.
fn ask_daemon<R: Wait, D: Desk, U: BudgetLedger, F: Ledger>(
    pool: &SharedBudget<'_, R, D::Link, U, F>,
    desk: &mut D,
    mine: &mut Tally<U, F>,
    wanted: &Wanted<'_>,
) -> Result<Answered<D::Link>, DeskFail>
    requires { is_file_name wanted.now.request.now.file ≡ true }
    ensures files { D.files desk.new ≡ D.files desk.old }
    ensures reads { D.reads desk.new ≡ D.reads desk.old }
    ensures faults { IsFaultCounted (D.faults desk.old) (D.faults desk.new) result }
    ensures reply { IfOk result (λ answered. IsReplyTo (D.files desk.old) wanted.now.request.now answered.reply) }
    ensures sent { Asks (record { count = D.sends desk.old; requests = D.sent desk.old })
        (record { count = D.sends desk.new; requests = D.sent desk.new }) wanted.now.requirements.now wanted.now.request.now result }
    ensures counted { TallyRises mine.old mine.new (D.sends desk.old) (D.sends desk.new) (one_if_err result) }
{
    let mut reserved = reserve(pool, desk, mine, wanted)?;
    match ask(pool.alloc, desk, &mut reserved, wanted) {
        Ok(reply) => {
            let spare = pool.pool.release(pool.rt, reserved);
            Ok(Answered { reply, spare })
        }
        Err(failed) => {
            let link = pool.pool.fail(pool.rt, mine, reserved);
            stop_daemon(pool, desk, link);
            Err(failed)
        }
    }
}

// Reserves an idle daemon that covers what is wanted for the request's unit, or starts one, once there is room for it: the idle daemons
// that made the room are stopped first. Its link is settled, and it is counted as reserved.
fn reserve<R: Wait, D: Desk, U: BudgetLedger, F: Ledger>(
    pool: &SharedBudget<'_, R, D::Link, U, F>,
    desk: &mut D,
    mine: &mut Tally<U, F>,
    wanted: &Wanted<'_>,
) -> Result<Reserved<D::Link>, DeskFail>
    ensures covers { IfOk result (λ reserved. Covers (D.Link.requirements reserved.link) wanted.now.requirements.now) }
    ensures unit { IfOk result (λ reserved. reserved.unit ≡ wanted.now.request.now.unit) }
    ensures settled { IfOk result (λ reserved. D.Link.settled reserved.link ≡ true) }
    ensures files { D.files desk.new ≡ D.files desk.old }
    ensures reads { D.reads desk.new ≡ D.reads desk.old }
    ensures faults { IsFaultCounted (D.faults desk.old) (D.faults desk.new) result }
    ensures sends { D.sends desk.new ≡ D.sends desk.old }
    ensures sent { D.sent desk.new ≡ D.sent desk.old }
    ensures counted { MatchResult result (λ _. mine.new ≡ and_reserved mine.old) (λ _. mine.new ≡ mine.old) }
{
    match pool.pool.wait_for_room(pool.rt, pool.alloc, mine, wanted)? {
        Room::Idle(reserved) => Ok(reserved),
        Room::Start(permit, links) => {
            stop_each(pool, desk, links);
            pool.pool.wait_for_ends(pool.rt);
            start(pool, desk, mine, permit)
        }
        Room::Over(_) => unreachable!(),
    }
}

// Starts a daemon on the permit. The permit is given up where none was started, or there is no memory to keep it; then the daemon has
// ended before.
fn start<R: Wait, D: Desk, U: BudgetLedger, F: Ledger>(
    pool: &SharedBudget<'_, R, D::Link, U, F>,
    desk: &mut D,
    mine: &mut Tally<U, F>,
    permit: CountedPermit<U>,
) -> Result<Reserved<D::Link>, DeskFail>
    ensures made { IfOk result (λ reserved. D.Link.requirements reserved.link ≡ permit.permit.requirements) }
    ensures unit { IfOk result (λ reserved. reserved.unit ≡ permit.permit.unit) }
    ensures settled { IfOk result (λ reserved. D.Link.settled reserved.link ≡ true) }
    ensures files { D.files desk.new ≡ D.files desk.old }
    ensures reads { D.reads desk.new ≡ D.reads desk.old }
    ensures faults { IsFaultCounted (D.faults desk.old) (D.faults desk.new) result }
    ensures sends { D.sends desk.new ≡ D.sends desk.old }
    ensures sent { D.sent desk.new ≡ D.sent desk.old }
    ensures counted { MatchResult result (λ _. mine.new ≡ and_reserved mine.old) (λ _. mine.new ≡ mine.old) }
{
    match desk.start(pool.alloc, permit.requirements()) {
        Ok(link) => match pool.pool.adopt(pool.rt, pool.alloc, mine, permit, link) {
            Ok(reserved) => Ok(reserved),
            Err((permit, link)) => {
                desk.stop(link);
                pool.pool.give_up(pool.rt, permit);
                Err(DeskFail::NoMemory)
            }
        },
        Err(fail) => {
            pool.pool.give_up(pool.rt, permit);
            Err(fail)
        }
    }
}

// Stops these daemons, in this order.
fn stop_each<R: Wait, D: Desk, U: BudgetLedger, F: Ledger>(
    pool: &SharedBudget<'_, R, D::Link, U, F>,
    desk: &mut D,
    links: Vec<D::Link>,
)
    ensures files { D.files desk.new ≡ D.files desk.old }
    ensures reads { D.reads desk.new ≡ D.reads desk.old }
    ensures faults { D.faults desk.new ≡ D.faults desk.old }
    ensures sends { D.sends desk.new ≡ D.sends desk.old }
    ensures sent { D.sent desk.new ≡ D.sent desk.old }
{
    let mut links = links;
    links.reverse();
    while let Some(link) = links.pop() {
        stop_daemon(pool, desk, link);
    }
    links.destroy_empty();
}

/// Stops a daemon that the pool gave to stop, as the spare one of a run. Once it has ended, its memory serves for others.
pub fn stop_daemon<R: Wait, D: Desk, U: BudgetLedger, F: Ledger>(
    pool: &SharedBudget<'_, R, D::Link, U, F>,
    desk: &mut D,
    link: D::Link,
)
    ensures files { D.files desk.new ≡ D.files desk.old }
    ensures reads { D.reads desk.new ≡ D.reads desk.old }
    ensures faults { D.faults desk.new ≡ D.faults desk.old }
    ensures sends { D.sends desk.new ≡ D.sends desk.old }
    ensures sent { D.sent desk.new ≡ D.sent desk.old }
{
    let heap_mb = heap_of(link.made_for());
    desk.stop(link);
    pool.pool.ended(pool.rt, heap_mb);
}

/// Stops the idle daemon of the pool that was released first, if one is idle, and tells whether it did. Who waits for room looks
/// again once the daemon has ended.
pub fn stop_idle<R: Wait, D: Desk, U: BudgetLedger, F: Ledger>(
    pool: &SharedBudget<'_, R, D::Link, U, F>,
    desk: &mut D,
) -> bool
    ensures files { D.files desk.new ≡ D.files desk.old }
    ensures reads { D.reads desk.new ≡ D.reads desk.old }
    ensures faults { D.faults desk.new ≡ D.faults desk.old }
    ensures sends { D.sends desk.new ≡ D.sends desk.old }
    ensures sent { D.sent desk.new ≡ D.sent desk.old }
{
    match pool.pool.stop_idle(pool.rt) {
        Some(link) => {
            stop_daemon(pool, desk, link);
            true
        }
        None => false,
    }
}
