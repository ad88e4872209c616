//! What a recorded run comes to when it is driven again.
ghost use Rattle.std.specs.Prelude.{◌≡◌, length};
ghost use Rattle.plan_reader.specs.Units.{plan_units};
ghost use Rattle.history_check.specs.Driving.{FitsPlan, HasDriven, HasGoneOn, IsAgainCounted, ReadsFor, again_at};
ghost use Rattle.history_check.specs.declared.admitted.Admitted.TheVariants as admissions;

use crate::driving::drive_book;
use crate::stops::Stop;
use crate::{Admitted, CheckFail, admit_input};
use file_access::{Files, Source};
use item_actions::Outcome;
use lock_journal::Book;
use plan_reader::Plan;
use std::alloc::{AllocError, Global};

/// What a recorded run comes to when it is driven again.
#[derive(Drop)]
pub enum Again {
    /// It is lawful, and each of its entries is true. This is its book, with exactly its entries.
    Same(Book),
    /// The entry of this number is the first that isn't allowed after those before it. Of a text that stops
    /// being a history it is the number at which it stops. It is 0 where the history names another number of
    /// locks than the plan's graph has. No file was read.
    NotLawful(u64),
    /// It is lawful, but the entry of this number is the first that isn't true. Its unit gives this.
    Differs(u64, Outcome),
    /// It is lawful, but the outside failed when the file of this unit was to be read. Where the files are known,
    /// every entry before that closing entry is true.
    ReadFault(u32),
}

/// Drives the run of a plan again whose history stands in an input: checks its history, and then works each recorded outcome
/// out anew from the files, entry by entry, on this thread.
///
/// An entry that closes a unit is true for the files where its outcome is what the unit gives on them, or says that
/// the outside failed or that there was no memory. Any other entry is true. The file of each closing entry is read
/// once, also where an item ran in a process, up to the first entry that isn't true or whose file isn't read. A file
/// that isn't there or that is too long is a value, and no failure.
///
/// The input is taken, and an answer given of its text, as `crate::check_input` does. Files are read only where the whole
/// history was taken and is lawful.
pub fn drive_input<F: Files, I: Source>(
    alloc: Global,
    plan: &Plan,
    input: &mut I,
    files: &mut F,
) -> Result<Again, CheckFail>
    ensures files { F.files files.new ≡ F.files files.old }
    ensures counted { IsAgainCounted (F.faults files.old) (F.faults files.new) result }
    ensures driven { HasDriven plan.now (I.seen input.old) (I.seen input.new) (F.files files.old) (ReadsFor F.keeps files.old files.new) result }
{
    let admitted = admit_input(alloc, plan, input)?;
    match drive_admitted(alloc, plan, admitted, files) {
        Ok(again) => Ok(again),
        Err(AllocError) => Err(CheckFail::NoMemory),
    }
}

/// Drives a run again whose entries were admitted, as `drive_input` does. An error is want of memory.
pub fn drive_admitted<F: Files>(
    alloc: Global,
    plan: &Plan,
    admitted: Admitted,
    files: &mut F,
) -> Result<Again, AllocError>
    requires { FitsPlan plan.now admitted }
    ensures files { F.files files.new ≡ F.files files.old }
    ensures counted { IsAgainCounted (F.faults files.old) (F.faults files.new) result }
    ensures gone_on { HasGoneOn plan.now (F.files files.old) (ReadsFor F.keeps files.old files.new) admitted result }
{
    match admitted {
        Admitted::NotLawful(number) => Ok(Again::NotLawful(number)),
        Admitted::Lawful(book) => drive_lawful(alloc, plan, book, files),
    }
}

// Drives the book of a lawful history again.
fn drive_lawful<F: Files>(
    alloc: Global,
    plan: &Plan,
    book: Book,
    files: &mut F,
) -> Result<Again, AllocError>
    requires fits { book.graph.units ≡ length (plan_units plan.now) }
    requires whole { book.given ≡ 0 }
    ensures files { F.files files.new ≡ F.files files.old }
    ensures counted { IsAgainCounted (F.faults files.old) (F.faults files.new) result }
    ensures gone_on { HasGoneOn plan.now (F.files files.old) (ReadsFor F.keeps files.old files.new) (admissions.Lawful book) result }
{
    // Of the state, that the history that leads to it is lawful.
    let _ = book.state();
    match drive_book(alloc, plan, &book, files) {
        Ok(()) => Ok(Again::Same(book)),
        Err(stop) => {
            // Let go of as a whole: to prove that it ends field by field takes a minute.
            drop(book);
            stopped(stop)
        }
    }
}

// What a lawful run comes to where driving it again stopped.
fn stopped(stop: Stop) -> Result<Again, AllocError>
    ensures { result ≡ again_at stop }
{
    match stop {
        Stop::Differs(number, value) => Ok(Again::Differs(number, value)),
        Stop::ReadFault(unit) => Ok(Again::ReadFault(unit)),
        Stop::NoMemory => Err(AllocError),
    }
}
