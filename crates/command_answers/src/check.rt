//! The command `check`.
ghost use Rattle.std.specs.Prelude.{◌≡◌, ◌≤◌};
ghost use Rattle.file_access.specs.SinkView.{Prints};
ghost use Rattle.command_answers.specs.Check.{HasCheckedHistory, IsFoundTold};
ghost use Rattle.command_answers.specs.Lines.{lawful_line};
ghost use Rattle.command_answers.specs.Told.{IsLineOf};
ghost use Rattle.command_answers.specs.declared.status.Status.TheVariants as status;

use crate::plans::read;
use crate::refusals::{told, told_but_no_memory};
use crate::status::Status;
use file_access::{Failed, Files, Page, Sink, Source};
use history_check::{CheckFail, Checked, check_input};
use item_actions::Text;
use std::alloc::Global;

// Prints that so many entries are lawful. It takes no memory.
fn print_lawful<O: Sink>(entries: u64, out: &mut O) -> Result<(), Failed>
    ensures { Prints (O.seen out.old) (O.seen out.new) (lawful_line entries) result }
{
    let mut page = Page::new();
    page.text(out, b"lawful ");
    page.number(out, entries);
    page.text(out, b"\n");
    page.end(out)
}

// Prints that so many entries are lawful, and says how that ended.
fn told_lawful<O: Sink>(entries: u64, out: &mut O) -> Status
    ensures { IsLineOf status.Passed (lawful_line entries) (O.seen out.old) (O.seen out.new) result }
{
    match print_lawful(entries, out) {
        Ok(()) => Status::Passed,
        Err(Failed) => Status::SinkFault,
    }
}

// Prints what was found, and says how that ended.
fn told_found<O: Sink>(found: Result<Checked, CheckFail>, out: &mut O) -> Status
    ensures { IsFoundTold found (O.seen out.old) (O.seen out.new) result }
{
    match found {
        Ok(Checked::Lawful(entries)) => told_lawful(entries, out),
        Ok(Checked::NotLawful(number)) => told(Status::NotLawful(number), out),
        Err(CheckFail::SourceFault) => told(Status::SourceFault, out),
        Err(CheckFail::NoMemory) => Status::NoMemory,
    }
}

/// Checks the history that the input gives against the plan of this name, by `history_check::check_input`, and
/// prints what was found.
///
/// The input is touched only where the plan was read and accepted. Passed comes where all entries are lawful,
/// NotLawful where one isn't or the text stops being a history, SourceFault where the input failed, and before
/// these the refusals of the plan. Each has its line. At SinkFault the beginning of the line was written, and at
/// NoMemory nothing.
pub fn check_history<F: Files, I: Source, O: Sink>(
    alloc: Global,
    plan: &Text,
    files: &mut F,
    input: &mut I,
    out: &mut O,
) -> Status
    ensures files { F.files files.new ≡ F.files files.old }
    ensures keeps { F.keeps files.old files.new }
    ensures file_faults { F.faults files.old ≤ F.faults files.new }
    ensures input_faults { (I.seen input.old).faults ≤ (I.seen input.new).faults }
    ensures checked { HasCheckedHistory plan.now
        record { source = I.seen input.old; sink = O.seen out.old; files = F.files files.old; faults = F.faults files.old }
        record { source = I.seen input.new; sink = O.seen out.new; files = F.files files.new; faults = F.faults files.new }
        result }
{
    let plan = match read(alloc, plan, files) {
        Ok(plan) => plan,
        Err(refusal) => return told_but_no_memory(refusal, out),
    };
    let found = check_input(alloc, &plan, input);
    told_found(found, out)
}
