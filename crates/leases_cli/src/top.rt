//! The program's call.
ghost use Rattle.std.specs.Prelude.{◌≡◌, ◌≢◌, ◌≤◌, ℕ, false, [], Some, None, length, drop};
ghost use Rattle.std.specs.Prelude.{get_or, min};
ghost use Rattle.file_access.specs.SourceView.{SourceView};
ghost use Rattle.build_workers.specs.Desks.{desk_view};
ghost use Rattle.build_workers.specs.RunDesks.{AreAlike, desks_view};
ghost use Rattle.build_workers.specs.Sent.{sent_view};
ghost use Rattle.command_words.specs.Reading.{IsBounded, command_of};
ghost use Rattle.command_words.specs.Run.{HasBounds};
ghost use Rattle.command_words.specs.declared.commands.Command.TheVariants as commands;
ghost use Rattle.command_answers.specs.declared.status.Status.TheVariants as status;
ghost use Rattle.command_answers.specs.Around.{around, desks_used, takes_input};
ghost use Rattle.command_answers.specs.Answered.{Answered, AreEventsOf, RunAnswered, book_of, call_of};
ghost use Rattle.command_answers.specs.Complete.{IsComplete};
ghost use Rattle.leases_cli.specs.declared.top.TheConstants.{DESKS};

use build_runner::{RunOptions, run_plan};
use command_answers::first_desk::{again, check, read_first, work};
use command_answers::{Ended, Status, make_plan, refuse, refuse_plan, report_run, without_run};
use command_words::{Command, RunWords, WordsFail, read_command};
use daemon_desk::Desk;
use file_access::{Gate, Sink, Source};
use item_actions::Text;
use plan_reader::MAX_WORKERS;
use ready_work::first_cycle_is_unique;
use std::alloc::Global;
use std::mem;
use std::sync::Wait;
use std::thread::Threads;

/// How many desks a call is given: as many as a run may have threads.
pub const DESKS: usize = MAX_WORKERS as usize;

// Reads a plan through the first desk, runs it on as many threads as the words say, each with a desk
// of its own, and prints.
fn run<R: Threads + Wait + Sync, D: Desk + Send + Drop, G: Gate + Sync, O: Sink>(
    rt: &R,
    alloc: Global,
    asked: &RunWords,
    desks: &mut Vec<D>,
    gate: &G,
    out: &mut O,
) -> Ended
    requires bounds { HasBounds asked.now }
    requires desks { length desks.old.items ≡ DESKS }
    requires alike { (d : D) → AreAlike asked.now.threads (desks_view (desk_view D.files D.faults D.sends D.sent) desks.old.items d) }
    ensures places { length desks.new.items ≡ DESKS }
    ensures files { (i : ℕ) (d : D) → D.files (get_or desks.new.items i d) ≡ D.files (get_or desks.old.items i d) }
    ensures counts { (i : ℕ) (d : D) → D.faults (get_or desks.old.items i d) ≤ D.faults (get_or desks.new.items i d) }
    ensures rest { drop asked.now.threads desks.new.items ≡ drop asked.now.threads desks.old.items }
    ensures refused { result.book ≡ None → result.status ≢ status.NoMemory → drop 1 desks.new.items ≡ drop 1 desks.old.items }
    ensures unsent { result.book ≡ None → result.status ≢ status.NoMemory → (i : ℕ) (d : D)
        → sent_view D.sends D.sent (get_or desks.new.items i d) ≡ sent_view D.sends D.sent (get_or desks.old.items i d) }
    ensures events { AreEventsOf (book_of result.book) result.events.items }
    ensures watch { result.book ≡ None → result.watch.items ≡ [] }
    ensures answer { (d : D) (source : SourceView) → RunAnswered asked.now (call_of
        (around source (O.seen out.old) (desks_view (desk_view D.files D.faults D.sends D.sent) desks.old.items d))
        (around source (O.seen out.new) (desks_view (desk_view D.files D.faults D.sends D.sent) desks.new.items d)) result) }
{
    let plan = match read_first(alloc, &asked.plan, desks) {
        Ok(plan) => plan,
        Err(refusal) => return refuse_plan(alloc, refusal, out),
    };
    let options = RunOptions {
        workers: asked.threads,
        max_leases: asked.max_leases,
        parallel: asked.parallel,
        watch: asked.watch,
    };
    match run_plan(rt, alloc, &plan, &options, desks, gate) {
        Ok(end) => {
            let ended = report_run(asked, &plan, end, out);
            // The program ends next, and its memory with it: to release a plan piece by piece takes a tenth of a run of small tasks.
            mem::forget(plan);
            ended
        }
        Err(_) => without_run(alloc, Status::NoMemory),
    }
}

// Carries a command out.
fn perform<R: Threads + Wait + Sync, D: Desk + Send + Drop, I: Source, G: Gate + Sync, O: Sink>(
    rt: &R,
    alloc: Global,
    command: &Command,
    desks: &mut Vec<D>,
    input: &mut I,
    gate: &G,
    out: &mut O,
) -> Ended
    requires bounded { IsBounded command.now }
    requires desks { length desks.old.items ≡ DESKS }
    requires alike { (d : D) → AreAlike (desks_used (Some command.now)) (desks_view (desk_view D.files D.faults D.sends D.sent) desks.old.items d) }
    ensures places { length desks.new.items ≡ DESKS }
    ensures files { (i : ℕ) (d : D) → D.files (get_or desks.new.items i d) ≡ D.files (get_or desks.old.items i d) }
    ensures counts { (i : ℕ) (d : D) → D.faults (get_or desks.old.items i d) ≤ D.faults (get_or desks.new.items i d) }
    ensures rest { drop (desks_used (Some command.now)) desks.new.items ≡ drop (desks_used (Some command.now)) desks.old.items }
    ensures refused { result.book ≡ None → result.status ≢ status.NoMemory → drop 1 desks.new.items ≡ drop 1 desks.old.items }
    ensures unsent { Some command.now ≢ Some commands.Worker → result.book ≡ None → result.status ≢ status.NoMemory
        → (i : ℕ) (d : D) → sent_view D.sends D.sent (get_or desks.new.items i d) ≡ sent_view D.sends D.sent
        (get_or desks.old.items i d) }
    ensures input { takes_input (Some command.now) ≡ false → I.seen input.new ≡ I.seen input.old }
    ensures input_count { (I.seen input.old).faults ≤ (I.seen input.new).faults }
    ensures events { AreEventsOf (book_of result.book) result.events.items }
    ensures watch { result.book ≡ None → result.watch.items ≡ [] }
    ensures answer { (d : D) → Answered (Some command.now) (call_of
        (around (I.seen input.old) (O.seen out.old) (desks_view (desk_view D.files D.faults D.sends D.sent) desks.old.items d))
        (around (I.seen input.new) (O.seen out.new) (desks_view (desk_view D.files D.faults D.sends D.sent) desks.new.items d)) result) }
{
    match command {
        Command::Run(asked) => run(rt, alloc, asked, desks, gate, out),
        Command::Worker => work(alloc, desks, input, out),
        Command::Check(plan) => check(alloc, plan, desks, input, out),
        Command::Again(plan) => again(alloc, plan, desks, input, out),
        Command::Make(asked) => without_run(alloc, make_plan(asked.seed, &asked.file, out)),
    }
}

/// Does what the words after the program's name ask for, and answers with what is told of it and its exit status.
///
/// `run` reads the plan through the first desk; its thread i has desk i, and what each desk sent is what its thread closed. `worker`,
/// `check` and `again` take their input from `input`. All that is written goes to `out`: the beginning of it at SinkFault, and nothing
/// at NoMemory, but by a worker its replies up to then. NoMemory can come for any words, since reading them takes memory. The memory of a plan
/// that was run isn't released.
pub fn leases<R: Threads + Wait + Sync, D: Desk + Send + Drop, I: Source, G: Gate + Sync, O: Sink>(
    rt: &R,
    alloc: Global,
    words: &[Text],
    desks: &mut Vec<D>,
    input: &mut I,
    gate: &G,
    out: &mut O,
) -> Ended
    requires desks { length desks.old.items ≡ DESKS }
    requires alike { (d : D) → AreAlike (min (desks_used (command_of words.now)) DESKS)
        (desks_view (desk_view D.files D.faults D.sends D.sent) desks.old.items d) }
    ensures places { length desks.new.items ≡ DESKS }
    ensures files { (i : ℕ) (d : D) → D.files (get_or desks.new.items i d) ≡ D.files (get_or desks.old.items i d) }
    ensures counts { (i : ℕ) (d : D) → D.faults (get_or desks.old.items i d) ≤ D.faults (get_or desks.new.items i d) }
    ensures rest { drop (desks_used (command_of words.now)) desks.new.items ≡ drop (desks_used (command_of words.now)) desks.old.items }
    ensures refused { result.book ≡ None → result.status ≢ status.NoMemory → drop 1 desks.new.items ≡ drop 1 desks.old.items }
    ensures unsent { command_of words.now ≢ Some commands.Worker → result.book ≡ None → result.status ≢ status.NoMemory
        → (i : ℕ) (d : D) → sent_view D.sends D.sent (get_or desks.new.items i d) ≡ sent_view D.sends D.sent
        (get_or desks.old.items i d) }
    ensures input { takes_input (command_of words.now) ≡ false → I.seen input.new ≡ I.seen input.old }
    ensures input_count { (I.seen input.old).faults ≤ (I.seen input.new).faults }
    ensures events { AreEventsOf (book_of result.book) result.events.items }
    ensures watch { result.book ≡ None → result.watch.items ≡ [] }
    ensures answer { (d : D) → Answered (command_of words.now) (call_of
        (around (I.seen input.old) (O.seen out.old) (desks_view (desk_view D.files D.faults D.sends D.sent) desks.old.items d))
        (around (I.seen input.new) (O.seen out.new) (desks_view (desk_view D.files D.faults D.sends D.sent) desks.new.items d)) result) }
    ensures complete { (d : D) → IsComplete (command_of words.now) (call_of
        (around (I.seen input.old) (O.seen out.old) (desks_view (desk_view D.files D.faults D.sends D.sent) desks.old.items d))
        (around (I.seen input.new) (O.seen out.new) (desks_view (desk_view D.files D.faults D.sends D.sent) desks.new.items d)) result) }
{
    first_cycle_is_unique();
    match read_command(alloc, words) {
        Ok(command) => perform(rt, alloc, &command, desks, input, gate, out),
        Err(WordsFail::NoCommand) => refuse(alloc, Status::BadWords, out),
        Err(WordsFail::NoMemory) => without_run(alloc, Status::NoMemory),
    }
}
