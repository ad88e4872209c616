//! The lines of refusals. They take no memory.
ghost use Rattle.command_answers.specs.Lines.{bad_plan_line, differs_line, excess_label, label_of, line_of, not_lawful_line, not_read_line, part_word, place_text};
ghost use Rattle.command_answers.specs.Told.{IsToldAs};
ghost use Rattle.command_answers.specs.declared.status.Status.TheVariants as status;
ghost use Rattle.std.specs.Prelude.{◌≡◌, ◌≢◌};
ghost use Rattle.file_access.specs.PageView.{Adds};
ghost use Rattle.file_access.specs.SinkView.{Prints};

use crate::status::Status;
use file_access::{Failed, Page, Sink};
use plan_reader::{Part, Place, PlanRefusal, Which};

// The number and the name of the refusal of too many of these.
fn excess_label(which: Which) -> &'static [u8]
    ensures { result.now ≡ excess_label which }
{
    match which {
        Which::Projects => b"12 TooMany projects",
        Which::Tasks => b"12 TooMany tasks",
        Which::Units => b"12 TooMany units",
        Which::Requirements => b"12 TooMany requirements",
        Which::Actions => b"12 TooMany actions",
        Which::After => b"12 TooMany after",
        Which::Lists => b"12 TooMany lists",
    }
}

// The number and the name of a refusal.
fn label_of(refusal: PlanRefusal) -> &'static [u8]
    ensures { result.now ≡ label_of refusal }
{
    match refusal {
        PlanRefusal::TooLong => b"0 TooLong",
        PlanRefusal::NotToml => b"1 NotToml",
        PlanRefusal::UnknownKey(_) => b"2 UnknownKey",
        PlanRefusal::WrongType(_) => b"3 WrongType",
        PlanRefusal::Missing(_) => b"4 Missing",
        PlanRefusal::BadName(_) => b"5 BadName",
        PlanRefusal::Twice(_) => b"6 Twice",
        PlanRefusal::NoSuchProject(_) => b"7 NoSuchProject",
        PlanRefusal::NoSuchTask(_) => b"8 NoSuchTask",
        PlanRefusal::Cycle(_) => b"9 Cycle",
        PlanRefusal::ReleaseNotLast(_) => b"10 ReleaseNotLast",
        PlanRefusal::ClassLoader(_) => b"11 ClassLoader",
        PlanRefusal::TooMany(which, _) => excess_label(which),
        PlanRefusal::BadRequirements(_) => b"13 BadRequirements",
    }
}

// The word of a part of a plan.
fn part_word(part: Part) -> &'static [u8]
    ensures { result.now ≡ part_word part }
{
    match part {
        Part::Plan => b"plan",
        Part::Project => b"project",
        Part::Task => b"task",
        Part::Requirements => b"requirements",
    }
}

// Writes a place of a plan.
fn write_place<K: Sink>(place: Place, page: &mut Page, sink: &mut K)
    ensures { Adds (K.seen sink.old) page.old (K.seen sink.new) page.new (place_text place) }
{
    page.text(sink, part_word(place.part));
    page.text(sink, b" ");
    page.number(sink, u64::from(place.number));
}

// Writes the line of a plan that is refused.
fn write_bad_plan<K: Sink>(refusal: PlanRefusal, page: &mut Page, sink: &mut K)
    ensures { Adds (K.seen sink.old) page.old (K.seen sink.new) page.new (bad_plan_line refusal) }
{
    page.text(sink, b"bad plan ");
    page.text(sink, label_of(refusal));
    page.text(sink, b" at ");
    write_place(refusal.place(), page, sink);
    page.text(sink, b"\n");
}

// Writes the line of a history whose entry of this number isn't allowed.
fn write_not_lawful<K: Sink>(number: u64, page: &mut Page, sink: &mut K)
    ensures { Adds (K.seen sink.old) page.old (K.seen sink.new) page.new (not_lawful_line number) }
{
    page.text(sink, b"not lawful at ");
    page.number(sink, number);
    page.text(sink, b"\n");
}

// Writes the line of a recorded run whose entry of this number differs.
fn write_differs<K: Sink>(number: u64, page: &mut Page, sink: &mut K)
    ensures { Adds (K.seen sink.old) page.old (K.seen sink.new) page.new (differs_line number) }
{
    page.text(sink, b"differs at ");
    page.number(sink, number);
    page.text(sink, b"\n");
}

// Writes the line of a recorded run in which this unit's file wasn't read.
fn write_not_read<K: Sink>(unit: u32, page: &mut Page, sink: &mut K)
    ensures { Adds (K.seen sink.old) page.old (K.seen sink.new) page.new (not_read_line unit) }
{
    page.text(sink, b"file not read ");
    page.number(sink, u64::from(unit));
    page.text(sink, b"\n");
}

// Writes the line of a refusal. The other statuses have none.
fn write_refusal<K: Sink>(refusal: &Status, page: &mut Page, sink: &mut K)
    ensures { Adds (K.seen sink.old) page.old (K.seen sink.new) page.new (line_of refusal.now) }
{
    match refusal {
        Status::BadWords => page.text(sink, b"bad words\n"),
        Status::BadPlan(refusal) => write_bad_plan(*refusal, page, sink),
        Status::NoPlan => page.text(sink, b"no plan\n"),
        Status::PlanFault => page.text(sink, b"plan not read\n"),
        Status::SourceFault => page.text(sink, b"input not read\n"),
        Status::NotLawful(number) => write_not_lawful(*number, page, sink),
        Status::Differs(number) => write_differs(*number, page, sink),
        Status::FileFault(unit) => write_not_read(*unit, page, sink),
        Status::Passed
        | Status::TaskFailed
        | Status::SinkFault
        | Status::BadFrame(_)
        | Status::NoMemory => {}
    }
}

// Prints the line of a refusal.
fn print_refusal<K: Sink>(refusal: &Status, sink: &mut K) -> Result<(), Failed>
    ensures { Prints (K.seen sink.old) (K.seen sink.new) (line_of refusal.now) result }
{
    let mut page = Page::new();
    write_refusal(refusal, &mut page, sink);
    page.end(sink)
}

/// Writes the line of a refusal, and says how that ended.
pub(crate) fn told<O: Sink>(refusal: Status, out: &mut O) -> Status
    ensures { IsToldAs refusal (O.seen out.old) (O.seen out.new) result }
{
    match print_refusal(&refusal, out) {
        Ok(()) => refusal,
        Err(Failed) => Status::SinkFault,
    }
}

/// Writes the line of a refusal, but where there was no memory.
pub(crate) fn told_but_no_memory<O: Sink>(refusal: Status, out: &mut O) -> Status
    ensures no_memory { refusal ≡ status.NoMemory → (result ≡ status.NoMemory) × (O.seen out.new ≡ O.seen out.old) }
    ensures told { refusal ≢ status.NoMemory → IsToldAs refusal (O.seen out.old) (O.seen out.new) result }
{
    match refusal {
        Status::NoMemory => Status::NoMemory,
        _ => told(refusal, out),
    }
}
