//! An item that a daemon works out.
ghost use Rattle.std.specs.Prelude.{◌≡◌, ◌≢◌, ◌≤◌, ◌+◌, IfOk, IfSome, Some, true};
ghost use Rattle.std.specs.Result.{is_ok};
ghost use Rattle.item_actions.specs.Forms.{is_file_name};
ghost use Rattle.item_actions.specs.Value.{IsHonest, value_on};
ghost use Rattle.item_actions.specs.declared.outcomes.Outcome.TheVariants as outcomes;
ghost use Rattle.daemon_requirements.specs.Covers.{Covers};
ghost use Rattle.daemon_requirements.specs.declared.work.Isolation.TheVariants.{Process};
ghost use Rattle.daemon_desk.specs.Replies.{IsReplyTo};
ghost use Rattle.file_access.specs.ReadView.{IsFaultCounted, IsOutcomeCounted};
ghost use Rattle.item_work.specs.Requests.{Asks, Sends, mode_of, request_for};
ghost use Rattle.item_work.specs.Tallying.{TallyRises, one_if_err, one_if_unreal};

use crate::daemons::{SharedPool, reserve};
use crate::ran::{Answered, Ran, Wanted};
use daemon_desk::Desk;
use daemon_manager::{ReservationLedger, Reserved, Tally};
use daemon_protocol::{Reply, Request};
use daemon_requirements::{Isolation, Linked, Requirements, Work};
use file_access::DeskFail;
use item_actions::{KeepAlive, Outcome};
use std::alloc::{AllocError, Global};
use std::sync::Wait;
use std::sync::ledger::Ledger;

/// Has a daemon of the pool work an item out: one that covers what the item asks for.
///
/// What `run_item` says of an item in a process holds of it. A daemon that gave no reply is stopped, and never used again: its link is
/// broken, and only settled ones are given back. No daemon is lost, since neither a reservation nor a link can be dropped.
pub(crate) fn run_in_process<R: Wait, D: Desk, U: ReservationLedger, F: Ledger>(
    pool: &SharedPool<'_, R, D::Link, U, F>,
    desk: &mut D,
    mine: &mut Tally<U, F>,
    unit: u32,
    work: &Work,
    asked: &Requirements,
) -> Ran<Box<D::Link>>
    requires asked { work.now.isolation ≡ Process asked.now }
    requires asks { U.asks unit asked.now }
    requires form { is_file_name work.now.file ≡ true }
    ensures files { D.files desk.new ≡ D.files desk.old }
    ensures reads { D.reads desk.new ≡ D.reads desk.old }
    ensures ran { result.outcome ≢ outcomes.Skipped }
    ensures faults { IsOutcomeCounted (D.faults desk.old) (D.faults desk.new) result.outcome }
    ensures honest { IfSome (D.files desk.old) (λ known. IsHonest result.outcome (value_on known work.now.action work.now.file)) }
    ensures sent { Sends asked.now (record { count = D.sends desk.old; requests = D.sent desk.old })
        (record { count = D.sends desk.new; requests = D.sent desk.new }) (request_for unit work.now) result.outcome }
    ensures counted { TallyRises mine.old mine.new (D.sends desk.old) (D.sends desk.new) (one_if_unreal result.outcome) }
    ensures spare { IfSome result.spare (λ _. result.outcome ≢ outcomes.Fault) }
{
    match request_for(pool.alloc, unit, work) {
        Ok(request) => {
            let wanted = Wanted {
                request: &request,
                requirements: asked,
            };
            work_in_daemon(pool, desk, mine, &wanted)
        }
        Err(_) => Ran::alone(Outcome::NoMemory),
    }
}

// Lets a daemon of the pool answer the request, and says what it gives.
fn work_in_daemon<R: Wait, D: Desk, U: ReservationLedger, F: Ledger>(
    pool: &SharedPool<'_, R, D::Link, U, F>,
    desk: &mut D,
    mine: &mut Tally<U, F>,
    wanted: &Wanted<'_>,
) -> Ran<Box<D::Link>>
    requires asks { U.asks wanted.now.request.now.unit wanted.now.requirements.now }
    requires form { is_file_name wanted.now.request.now.file ≡ true }
    ensures files { D.files desk.new ≡ D.files desk.old }
    ensures reads { D.reads desk.new ≡ D.reads desk.old }
    ensures ran { result.outcome ≢ outcomes.Skipped }
    ensures faults { IsOutcomeCounted (D.faults desk.old) (D.faults desk.new) result.outcome }
    ensures honest { IfSome (D.files desk.old) (λ known. IsHonest result.outcome (value_on known wanted.now.request.now.action wanted.now.request.now.file)) }
    ensures sent { Sends wanted.now.requirements.now (record { count = D.sends desk.old; requests = D.sent desk.old })
        (record { count = D.sends desk.new; requests = D.sent desk.new }) wanted.now.request.now result.outcome }
    ensures counted { TallyRises mine.old mine.new (D.sends desk.old) (D.sends desk.new) (one_if_unreal result.outcome) }
    ensures spare { IfSome result.spare (λ _. result.outcome ≢ outcomes.Fault) }
{
    match ask_daemon(pool, desk, mine, wanted) {
        Ok(answered) => {
            let Answered { reply, spare } = answered;
            Ran {
                outcome: reply.outcome,
                spare,
            }
        }
        Err(DeskFail::Failed) => Ran::alone(Outcome::Fault),
        Err(DeskFail::NoMemory) => Ran::alone(Outcome::NoMemory),
    }
}

/// The request for the unit's action on its file, in the keep-alive mode that is asked for. The error is want of memory alone.
pub fn request_for(alloc: Global, unit: u32, work: &Work) -> Result<Request, AllocError>
    ensures { IfOk result (λ request. request ≡ request_for unit work.now) }
{
    Ok(Request {
        unit,
        action: work.action,
        file: work.file.copy(alloc)?,
        keep: mode_of(&work.isolation),
    })
}

// The keep-alive mode that an item asks for, where it asks for a daemon.
fn mode_of(isolation: &Isolation) -> Option<KeepAlive>
    ensures { result ≡ mode_of isolation.now }
{
    match isolation {
        Isolation::InThread => None,
        Isolation::Process(asked) => Some(asked.fields().keep),
    }
}

// Asks a daemon of the pool, and gives it back. One that gave no reply is never used again: it is stopped, which takes no time, as it
// is killed.
fn ask_daemon<R: Wait, D: Desk, U: ReservationLedger, F: Ledger>(
    pool: &SharedPool<'_, R, D::Link, U, F>,
    desk: &mut D,
    mine: &mut Tally<U, F>,
    wanted: &Wanted<'_>,
) -> Result<Answered<Box<D::Link>>, DeskFail>
    requires asks { U.asks wanted.now.request.now.unit wanted.now.requirements.now }
    requires form { is_file_name wanted.now.request.now.file ≡ true }
    ensures files { D.files desk.new ≡ D.files desk.old }
    ensures reads { D.reads desk.new ≡ D.reads desk.old }
    ensures faults { IsFaultCounted (D.faults desk.old) (D.faults desk.new) result }
    ensures reply { IfOk result (λ answered. IsReplyTo (D.files desk.old) wanted.now.request.now answered.reply) }
    ensures sent { Asks (record { count = D.sends desk.old; requests = D.sent desk.old })
        (record { count = D.sends desk.new; requests = D.sent desk.new }) wanted.now.requirements.now wanted.now.request.now result }
    ensures counted { TallyRises mine.old mine.new (D.sends desk.old) (D.sends desk.new) (one_if_err result) }
{
    let mut reserved = reserve(pool, desk, mine, wanted)?;
    match ask(pool.alloc, desk, &mut reserved, wanted) {
        Ok(reply) => {
            let spare = boxed_or_stopped(pool.alloc, desk, pool.release(reserved));
            Ok(Answered { reply, spare })
        }
        Err(failed) => {
            desk.stop(pool.fail(mine, reserved));
            Err(failed)
        }
    }
}

// Boxes the link of a daemon that is one too many, for the caller to stop: a box costs an item that leaves none less than the link itself
// does. Where there is no memory for it the daemon is stopped.
fn boxed_or_stopped<D: Desk>(
    alloc: Global,
    desk: &mut D,
    spare: Option<D::Link>,
) -> Option<Box<D::Link>>
    ensures boxed { IfSome result (λ boxed. spare ≡ Some boxed.value) }
    ensures files { D.files desk.new ≡ D.files desk.old }
    ensures reads { D.reads desk.new ≡ D.reads desk.old }
    ensures faults { D.faults desk.new ≡ D.faults desk.old }
    ensures sends { D.sends desk.new ≡ D.sends desk.old }
    ensures sent { D.sent desk.new ≡ D.sent desk.old }
{
    match Box::new(alloc, spare?) {
        Ok(boxed) => Some(boxed),
        Err(refused) => {
            desk.stop(refused.value);
            None
        }
    }
}

/// Sends the request to a daemon that is reserved for its unit, covers what is asked and has a settled link, and receives the reply. The
/// link is then settled exactly where there is one; another is for `stop` alone.
pub fn ask<D: Desk>(
    alloc: Global,
    desk: &mut D,
    reserved: &mut Reserved<D::Link>,
    wanted: &Wanted<'_>,
) -> Result<Reply, DeskFail>
    requires unit { reserved.old.unit ≡ wanted.now.request.now.unit }
    requires covers { Covers (D.Link.requirements reserved.old.link) wanted.now.requirements.now }
    requires form { is_file_name wanted.now.request.now.file ≡ true }
    requires settled { D.Link.settled reserved.old.link ≡ true }
    ensures settled { D.Link.settled reserved.new.link ≡ is_ok result }
    ensures same { (reserved.new.daemon ≡ reserved.old.daemon) × (reserved.new.unit ≡ reserved.old.unit) }
    ensures files { D.files desk.new ≡ D.files desk.old }
    ensures reads { D.reads desk.new ≡ D.reads desk.old }
    ensures faults { IsFaultCounted (D.faults desk.old) (D.faults desk.new) result }
    ensures reply { IfOk result (λ reply. IsReplyTo (D.files desk.old) wanted.now.request.now reply) }
    ensures sent { Asks (record { count = D.sends desk.old; requests = D.sent desk.old })
        (record { count = D.sends desk.new; requests = D.sent desk.new }) wanted.now.requirements.now wanted.now.request.now result }
    ensures sends { D.sends desk.new ≤ D.sends desk.old + 1 }
{
    let link = reserved.link();
    desk.send(alloc, link, wanted.request)?;
    desk.receive(alloc, link)
}
