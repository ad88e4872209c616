//! What became of tasks and units, which C asks of the book of an ended service.
ghost use Rattle.std.specs.Prelude.{◌≡◌, ◌≢◌, ◌≤◌, IfNone, IfSome, false, length, true};
ghost use Rattle.wakhurmi_c.specs.OutcomeCalls.{IsUntold, TellsTask, TellsUnit, item_asked};
ghost use Rattle.wakhurmi_c.specs.PlanNumbers.{plan_answer_of};
ghost use Rattle.wakhurmi_c.specs.declared.plan_answers.PlanAnswer.TheVariants as answers;

use crate::book_handles::BookHandle;
use crate::plan_answers::{PlanAnswer, PlanOutcome};
use lock_journal::Book;
use planned_work::{Numbered, task_outcome, unit_outcome};
use std::alloc::Global;

/// Tells what became of a task. `BadNumber` says that there is no such task.
#[unsafe(no_mangle)]
pub extern "C" fn wakhurmi_c_task_outcome(
    alloc: Global,
    book: &mut BookHandle,
    task: u32,
    outcome: &mut PlanOutcome,
) -> u32
    ensures book { (book.new.full ≡ book.old.full) × (book.new.held.book ≡ book.old.held.book) }
    ensures empty { book.old.full ≡ false → plan_answer_of result ≡ answers.Empty }
    ensures told { book.old.full ≡ true → TellsTask book.old.held.book task outcome.new (plan_answer_of result) }
    ensures kept { plan_answer_of result ≢ answers.Done → outcome.new ≡ outcome.old }
{
    if !book.full {
        return PlanAnswer::Empty.number();
    }
    let found = book.take(alloc);
    let told = task_told(&found, task);
    *book = BookHandle::of(found);
    answer_with(told, outcome)
}

/// Tells what became of an item, by its place in its action, or for 2^32 - 1 of the action's fetch, and with which number it has passed.
/// `BadNumber` says that there is none there, or that the book gave entries away.
#[unsafe(no_mangle)]
pub extern "C" fn wakhurmi_c_item_outcome(
    alloc: Global,
    book: &mut BookHandle,
    task: u32,
    action: u32,
    item: u32,
    outcome: &mut PlanOutcome,
) -> u32
    ensures book { (book.new.full ≡ book.old.full) × (book.new.held.book ≡ book.old.held.book) }
    ensures empty { book.old.full ≡ false → plan_answer_of result ≡ answers.Empty }
    ensures told { book.old.full ≡ true → TellsUnit book.old.held.book (record { task = task; action = action; item = item_asked item })
        outcome.new (plan_answer_of result) }
    ensures kept { plan_answer_of result ≢ answers.Done → outcome.new ≡ outcome.old }
{
    if !book.full {
        return PlanAnswer::Empty.number();
    }
    let item = item_asked(item);
    let found = book.take(alloc);
    let told = unit_told(&found, Numbered { task, action, item });
    *book = BookHandle::of(found);
    answer_with(told, outcome)
}

// What became of a task, if there is one.
fn task_told(book: &Book, task: u32) -> Option<PlanOutcome>
    ensures some { IfSome result (λ told. TellsTask book.now task told answers.Done) }
    ensures none { IfNone result (length book.now.graph.tasks ≤ task) }
{
    if task as usize >= book.graph().tasks().len() {
        return None;
    }
    Some(PlanOutcome::of(task_outcome(book, task)))
}

// What became of the unit at a place, if there is one, by a book that has its whole history.
fn unit_told(book: &Book, place: Numbered) -> Option<PlanOutcome>
    ensures some { IfSome result (λ told. TellsUnit book.now place told answers.Done) }
    ensures none { IfNone result (IsUntold book.now place) }
{
    if book.given() > 0 {
        return None;
    }
    let unit = place.unit(book.graph())?;
    Some(PlanOutcome::of(unit_outcome(book, unit)))
}

// Writes what there is.
fn answer_with(told: Option<PlanOutcome>, outcome: &mut PlanOutcome) -> u32
    ensures some { IfSome told (λ o. (outcome.new ≡ o) × (plan_answer_of result ≡ answers.Done)) }
    ensures none { IfNone told ((outcome.new ≡ outcome.old) × (plan_answer_of result ≡ answers.BadNumber)) }
{
    match told {
        Some(told) => {
            *outcome = told;
            PlanAnswer::Done.number()
        }
        None => PlanAnswer::BadNumber.number(),
    }
}

// The item of this number, or none for that of the fetch.
fn item_asked(item: u32) -> Option<u32>
    ensures { result ≡ item_asked item }
{
    (item != u32::MAX).then_some(item)
}
