//! The command `again`.
ghost use Rattle.std.specs.Prelude.{◌≡◌, ◌≤◌};
ghost use Rattle.file_access.specs.SinkView.{Prints};
ghost use Rattle.command_answers.specs.Again.{HasDrivenHistory, HasOnlyRead, IsAgainTold};
ghost use Rattle.command_answers.specs.Lines.{same_line};
ghost use Rattle.command_answers.specs.Told.{IsLineOf};
ghost use Rattle.command_answers.specs.declared.status.Status.TheVariants as status;

use crate::plans::read;
use crate::refusals::{told, told_but_no_memory};
use crate::status::Status;
use file_access::{Failed, Files, Page, Sink, Source};
use history_check::{Again, CheckFail, drive_input};
use item_actions::Text;
use std::alloc::Global;

// Prints that a run of so many entries would give the same. It takes no memory.
fn print_same<O: Sink>(entries: u64, out: &mut O) -> Result<(), Failed>
    ensures { Prints (O.seen out.old) (O.seen out.new) (same_line entries) result }
{
    let mut page = Page::new();
    page.text(out, b"same ");
    page.number(out, entries);
    page.text(out, b"\n");
    page.end(out)
}

// Prints that, and says how that ended.
fn told_same<O: Sink>(entries: u64, out: &mut O) -> Status
    ensures { IsLineOf status.Passed (same_line entries) (O.seen out.old) (O.seen out.new) result }
{
    match print_same(entries, out) {
        Ok(()) => Status::Passed,
        Err(Failed) => Status::SinkFault,
    }
}

// Prints what the run came to, and says how that ended.
fn told_again<O: Sink>(found: &Result<Again, CheckFail>, out: &mut O) -> Status
    ensures { IsAgainTold found.now (O.seen out.old) (O.seen out.new) result }
{
    match found {
        Ok(Again::Same(book)) => told_same(book.len(), out),
        Ok(Again::NotLawful(number)) => told(Status::NotLawful(*number), out),
        Ok(Again::Differs(number, _)) => told(Status::Differs(*number), out),
        Ok(Again::ReadFault(unit)) => told(Status::FileFault(*unit), out),
        Err(CheckFail::SourceFault) => told(Status::SourceFault, out),
        Err(CheckFail::NoMemory) => Status::NoMemory,
    }
}

/// Drives the recorded run whose history the input gives again by the plan of this name, with the files as they are
/// today, by `history_check::drive_input`, and prints what it came to.
///
/// The input is touched only where the plan was read and accepted, and files only where the history is lawful. Passed
/// comes where the run would give the same, Differs where an entry's unit gives something else, FileFault where a file
/// wasn't read, and before these the answers of `check_history`. Each has its line. At SinkFault the beginning of the
/// line was written, and at NoMemory nothing.
pub fn again_history<F: Files, I: Source, O: Sink>(
    alloc: Global,
    plan: &Text,
    files: &mut F,
    input: &mut I,
    out: &mut O,
) -> Status
    ensures files { F.files files.new ≡ F.files files.old }
    ensures reads { HasOnlyRead F.keeps files.old files.new }
    ensures file_faults { F.faults files.old ≤ F.faults files.new }
    ensures input_faults { (I.seen input.old).faults ≤ (I.seen input.new).faults }
    ensures driven { HasDrivenHistory plan.now
        record { source = I.seen input.old; sink = O.seen out.old; files = F.files files.old; faults = F.faults files.old }
        record { source = I.seen input.new; sink = O.seen out.new; files = F.files files.new; faults = F.faults files.new }
        result }
{
    let plan = match read(alloc, plan, files) {
        Ok(plan) => plan,
        Err(refusal) => return told_but_no_memory(refusal, out),
    };
    let found = drive_input(alloc, &plan, input, files);
    told_again(&found, out)
}
