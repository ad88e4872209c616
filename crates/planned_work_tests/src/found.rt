//! What is to be found in the book of a service.
ghost use Rattle.std.specs.Prelude.{None};

use coordination::Question;
use lock_journal::Book;
use lock_transforms::Kind;
use planned_work::{Ended, Numbered, task_outcome, unit_outcome};
use resource_lock::WorkerId;
use worker_choices::Awaited;

/// What became of the unit at a place, if there is one.
#[derive(Clone, Copy)]
pub struct UnitRow {
    pub at: Numbered,
    pub ended: Option<Ended>,
}

/// What is to be found.
#[derive(Clone, Copy)]
pub enum Found<'a> {
    /// Entries of these kinds, in order, and no others. None failed.
    Kinds(&'a [Kind]),
    /// All tasks have ended, and no unit is queued.
    AllEnded,
    /// What became of all tasks.
    Tasks(&'a [Ended]),
    /// What became of units.
    Units(&'a [UnitRow]),
}

// Whether the history has an entry of this kind at this place, which isn't a failed one.
fn has_kind(book: &Book, place: u64, kind: Kind) -> bool {
    if place < book.given() || place >= book.len() {
        return false;
    }
    let shown = book.entry(place);
    !shown.failed && shown.kind == kind
}

// Whether the history is made of entries of these kinds, in order.
fn has_kinds(book: &Book, kinds: &[Kind]) -> bool {
    for (place, kind) in kinds.iter().enumerate() {
        if !has_kind(book, place as u64, *kind) {
            return false;
        }
    }
    book.len() == kinds.len() as u64
}

// Whether this became of the tasks, of which the book has so many.
fn has_tasks(book: &Book, tasks: &[Ended]) -> bool {
    if book.graph().tasks().len() != tasks.len() {
        return false;
    }
    for (task, ended) in tasks.iter().enumerate() {
        if task_outcome(book, task as u32) != *ended {
            return false;
        }
    }
    true
}

// What became of the unit at a place, if there is one. Its place is told from its number again.
fn outcome(book: &Book, at: Numbered) -> Option<Ended> {
    if book.given() != 0 {
        return None;
    }
    let unit = at.unit(book.graph())?;
    if Numbered::of_unit(book.graph(), unit) != at {
        return None;
    }
    Some(unit_outcome(book, unit))
}

// Whether this became of units.
fn has_units(book: &Book, units: &[UnitRow]) -> bool {
    for row in units {
        if outcome(book, row.at) != row.ended {
            return false;
        }
    }
    true
}

impl Question for Found<'_> {
    type Answer = bool;

    ghost answers = { λ _ _ _ _ _. Unit {0} };

    ghost waits_on = { λ _ _ _ _. ⊥ };

    ghost awaits = { λ _. None };

    fn awaited(&self) -> Option<Awaited> {
        None
    }

    fn ask(&self, _worker: WorkerId, book: &Book, _queued: bool) -> Option<bool> {
        Some(match *self {
            Found::Kinds(kinds) => has_kinds(book, kinds),
            Found::AllEnded => book.all_tasks_ended() && !book.has_queued(),
            Found::Tasks(tasks) => has_tasks(book, tasks),
            Found::Units(units) => has_units(book, units),
        })
    }
}
