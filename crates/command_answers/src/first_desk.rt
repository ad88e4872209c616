//! What is done through the first of the program's desks. The others stay as they are.
ghost use Rattle.std.specs.Prelude.{◌≡◌, ◌≤◌, ℕ, [], None, IfErr, IfOk, drop, get_or, length};
ghost use Rattle.build_workers.specs.Sent.{sent_view};
ghost use Rattle.command_answers.specs.Again.{HasDrivenHistory};
ghost use Rattle.command_answers.specs.Answered.{AreEventsOf, book_of};
ghost use Rattle.command_answers.specs.Causes.{IsFileCause, IsFileOf, OrNoMemory};
ghost use Rattle.command_answers.specs.Check.{HasCheckedHistory};
ghost use Rattle.command_answers.specs.Worker.{HasWorked};

use crate::again::again_history;
use crate::check::check_history;
use crate::ended::{Ended, without_run};
use crate::plans::read;
use crate::status::Status;
use crate::worker::serve_worker;
use daemon_desk::Desk;
use file_access::{Files, Sink, Source};
use item_actions::Text;
use plan_reader::Plan;
use std::alloc::Global;

/// The plan of this name by the first desk, or the refusal. No request is sent.
pub fn read_first<D: Desk>(alloc: Global, name: &Text, desks: &mut Vec<D>) -> Result<Plan, Status>
    requires { 1 ≤ length desks.old.items }
    ensures places { length desks.new.items ≡ length desks.old.items }
    ensures files { (i : ℕ) (d : D) → D.files (get_or desks.new.items i d) ≡ D.files (get_or desks.old.items i d) }
    ensures counts { (i : ℕ) (d : D) → D.faults (get_or desks.old.items i d) ≤ D.faults (get_or desks.new.items i d) }
    ensures rest { drop 1 desks.new.items ≡ drop 1 desks.old.items }
    ensures sent { (i : ℕ) (d : D) → sent_view D.sends D.sent (get_or desks.new.items i d) ≡ sent_view D.sends D.sent (get_or desks.old.items i d) }
    ensures plan { (d : D) → IfOk result (λ plan. IsFileOf (D.files (get_or desks.old.items 0 d)) name.now plan) }
    ensures refused { (d : D) → IfErr result
        (λ status. OrNoMemory (IsFileCause (D.files (get_or desks.old.items 0 d)) (D.faults (get_or desks.old.items 0 d))
        (D.faults (get_or desks.new.items 0 d)) name.now status) status) }
{
    read(alloc, name, &mut desks[0])
}

/// Answers requests by the first desk, as `serve_worker` does.
pub fn work<F: Files, I: Source, O: Sink>(
    alloc: Global,
    desks: &mut Vec<F>,
    input: &mut I,
    out: &mut O,
) -> Ended
    requires { 1 ≤ length desks.old.items }
    ensures places { length desks.new.items ≡ length desks.old.items }
    ensures files { (i : ℕ) (d : F) → F.files (get_or desks.new.items i d) ≡ F.files (get_or desks.old.items i d) }
    ensures counts { (i : ℕ) (d : F) → F.faults (get_or desks.old.items i d) ≤ F.faults (get_or desks.new.items i d) }
    ensures rest { drop 1 desks.new.items ≡ drop 1 desks.old.items }
    ensures input_count { (I.seen input.old).faults ≤ (I.seen input.new).faults }
    ensures book { result.book ≡ None }
    ensures events { AreEventsOf (book_of result.book) result.events.items }
    ensures watch { result.book ≡ None → result.watch.items ≡ [] }
    ensures worked { (d : F) → HasWorked
        record {
          source = I.seen input.old;
          sink = O.seen out.old;
          files = F.files (get_or desks.old.items 0 d);
          faults = F.faults
              (get_or desks.old.items 0 d);
        }
        record {
          source = I.seen input.new;
          sink = O.seen out.new;
          files = F.files (get_or desks.new.items 0 d);
          faults = F.faults
              (get_or desks.new.items 0 d);
        }
        result.status }
{
    without_run(alloc, serve_worker(alloc, &mut desks[0], input, out))
}

/// Checks a history against the plan of this name by the first desk, as `check_history` does.
pub fn check<D: Desk, I: Source, O: Sink>(
    alloc: Global,
    plan: &Text,
    desks: &mut Vec<D>,
    input: &mut I,
    out: &mut O,
) -> Ended
    requires { 1 ≤ length desks.old.items }
    ensures places { length desks.new.items ≡ length desks.old.items }
    ensures files { (i : ℕ) (d : D) → D.files (get_or desks.new.items i d) ≡ D.files (get_or desks.old.items i d) }
    ensures counts { (i : ℕ) (d : D) → D.faults (get_or desks.old.items i d) ≤ D.faults (get_or desks.new.items i d) }
    ensures sent { (i : ℕ) (d : D) → sent_view D.sends D.sent (get_or desks.new.items i d) ≡ sent_view D.sends D.sent (get_or desks.old.items i d) }
    ensures rest { drop 1 desks.new.items ≡ drop 1 desks.old.items }
    ensures input_count { (I.seen input.old).faults ≤ (I.seen input.new).faults }
    ensures book { result.book ≡ None }
    ensures events { AreEventsOf (book_of result.book) result.events.items }
    ensures watch { result.book ≡ None → result.watch.items ≡ [] }
    ensures checked { (d : D) → HasCheckedHistory plan.now
        record {
          source = I.seen input.old;
          sink = O.seen out.old;
          files = D.files (get_or desks.old.items 0 d);
          faults = D.faults
              (get_or desks.old.items 0 d);
        }
        record {
          source = I.seen input.new;
          sink = O.seen out.new;
          files = D.files (get_or desks.new.items 0 d);
          faults = D.faults
              (get_or desks.new.items 0 d);
        }
        result.status }
{
    without_run(alloc, check_history(alloc, plan, &mut desks[0], input, out))
}

/// Drives a recorded run of the plan of this name again by the first desk, as `again_history` does.
pub fn again<D: Desk, I: Source, O: Sink>(
    alloc: Global,
    plan: &Text,
    desks: &mut Vec<D>,
    input: &mut I,
    out: &mut O,
) -> Ended
    requires { 1 ≤ length desks.old.items }
    ensures places { length desks.new.items ≡ length desks.old.items }
    ensures files { (i : ℕ) (d : D) → D.files (get_or desks.new.items i d) ≡ D.files (get_or desks.old.items i d) }
    ensures counts { (i : ℕ) (d : D) → D.faults (get_or desks.old.items i d) ≤ D.faults (get_or desks.new.items i d) }
    ensures sent { (i : ℕ) (d : D) → sent_view D.sends D.sent (get_or desks.new.items i d) ≡ sent_view D.sends D.sent (get_or desks.old.items i d) }
    ensures rest { drop 1 desks.new.items ≡ drop 1 desks.old.items }
    ensures input_count { (I.seen input.old).faults ≤ (I.seen input.new).faults }
    ensures book { result.book ≡ None }
    ensures events { AreEventsOf (book_of result.book) result.events.items }
    ensures watch { result.book ≡ None → result.watch.items ≡ [] }
    ensures driven { (d : D) → HasDrivenHistory plan.now
        record {
          source = I.seen input.old;
          sink = O.seen out.old;
          files = D.files (get_or desks.old.items 0 d);
          faults = D.faults
              (get_or desks.old.items 0 d);
        }
        record {
          source = I.seen input.new;
          sink = O.seen out.new;
          files = D.files (get_or desks.new.items 0 d);
          faults = D.faults
              (get_or desks.new.items 0 d);
        }
        result.status }
{
    without_run(alloc, again_history(alloc, plan, &mut desks[0], input, out))
}
