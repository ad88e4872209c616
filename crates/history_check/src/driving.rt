//! The entries of a book, driven again one by one.
ghost use Rattle.std.specs.Prelude.{◌≡◌, ◌∷◌, [], ◌<◌, length, map};
ghost use Rattle.lock_journal.specs.Shown.{entry_shown};
ghost use Rattle.lock_transforms.specs.declared.entries.Closed.{Closed as Closing};
ghost use Rattle.plan_reader.specs.Units.{plan_units, unit_view};
ghost use Rattle.history_check.specs.Driving.{AreDriven, IsStopCounted, ReadsFor};
ghost use Rattle.history_check.specs.Truth.{closing_at};
ghost use Rattle.history_check.specs.Steps.{HasDrivenEntry, IsDrivenAt, closed_list};

use crate::stops::Stop;
use crate::values::{is_honest, unit_value};
use file_access::{DeskFail, Files};
use lock_journal::{Book, Shown};
use lock_transforms::{Closed, Kind};
use plan_reader::{Plan, UnitWork, units_of};
use std::alloc::Global;

/// Drives the entries of a book of the plan again, in order, up to the first whose outcome isn't true or whose file
/// wasn't read. Each closing entry's file is read once.
pub(crate) fn drive_book<F: Files>(
    alloc: Global,
    plan: &Plan,
    book: &Book,
    files: &mut F,
) -> Result<(), Stop>
    requires fits { book.now.graph.units ≡ length (plan_units plan.now) }
    requires whole { book.now.given ≡ 0 }
    ensures files { F.files files.new ≡ F.files files.old }
    ensures counted { IsStopCounted (F.faults files.old) (F.faults files.new) result }
    ensures driven { AreDriven plan.now (F.files files.old) book.now.history (ReadsFor F.keeps files.old files.new) result }
{
    let units = units_of(alloc, plan)?;
    drive_entries(alloc, plan, &units, book, files)
}

// Drives them with the units of the plan.
fn drive_entries<F: Files>(
    alloc: Global,
    plan: &Plan,
    units: &[UnitWork<'_>],
    book: &Book,
    files: &mut F,
) -> Result<(), Stop>
    requires fits { book.now.graph.units ≡ length (plan_units plan.now) }
    requires whole { book.now.given ≡ 0 }
    requires units { map unit_view units.now ≡ plan_units plan.now }
    ensures files { F.files files.new ≡ F.files files.old }
    ensures counted { IsStopCounted (F.faults files.old) (F.faults files.new) result }
    ensures driven { AreDriven plan.now (F.files files.old) book.now.history (ReadsFor F.keeps files.old files.new) result }
{
    // Of the state, that the history is lawful.
    let _ = book.state();
    for place in 0..book.len() {
        let entry = book.entry(place);
        drive_entry(alloc, plan, units, place + 1, &entry, files)?;
    }
    Ok(())
}

// Drives one entry again. It changes nothing where that is no closing entry.
fn drive_entry<F: Files>(
    alloc: Global,
    plan: &Plan,
    units: &[UnitWork<'_>],
    number: u64,
    entry: &Shown<'_>,
    files: &mut F,
) -> Result<(), Stop>
    requires within { (d : Closing) → closing_at (entry_shown entry.now) ≡ d ∷ [] → d.unit < length (plan_units plan.now) }
    requires units { map unit_view units.now ≡ plan_units plan.now }
    ensures files { F.files files.new ≡ F.files files.old }
    ensures counted { IsStopCounted (F.faults files.old) (F.faults files.new) result }
    ensures driven { HasDrivenEntry F.keeps plan.now (F.files files.old) number (entry_shown entry.now) files.old files.new result }
{
    match closing_of(entry) {
        None => Ok(()),
        Some(closed) => drive_closing(alloc, plan, units, number, closed, files),
    }
}

// What an entry closes, where it is a closing entry.
fn closing_of(entry: &Shown<'_>) -> Option<Closed>
    ensures { closed_list result ≡ closing_at (entry_shown entry.now) }
{
    match entry.kind {
        Kind::Close(closed) | Kind::Unblock(Some(closed)) if !entry.failed => Some(closed),
        _ => None,
    }
}

// Works a unit out anew, and compares.
fn drive_closing<F: Files>(
    alloc: Global,
    plan: &Plan,
    units: &[UnitWork<'_>],
    number: u64,
    closed: Closed,
    files: &mut F,
) -> Result<(), Stop>
    requires within { closed.unit < length (plan_units plan.now) }
    requires units { map unit_view units.now ≡ plan_units plan.now }
    ensures files { F.files files.new ≡ F.files files.old }
    ensures keeps { F.keeps files.old files.new }
    ensures counted { IsStopCounted (F.faults files.old) (F.faults files.new) result }
    ensures driven { IsDrivenAt plan.now (F.files files.old) number closed result }
{
    match unit_value(alloc, units[closed.unit as usize], files) {
        Ok(value) if is_honest(closed.outcome, value) => Ok(()),
        Ok(value) => Err(Stop::Differs(number, value)),
        Err(DeskFail::Failed) => Err(Stop::ReadFault(closed.unit)),
        Err(DeskFail::NoMemory) => Err(Stop::NoMemory),
    }
}
