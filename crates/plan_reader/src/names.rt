//! The names of a plan, and their numbers.
ghost use Rattle.std.specs.Prelude.{◌≡◌, ◌==◌, ◌<◌, ◌≤◌, ℕ, slice_index, true, map, None, Some, IfOk, IfErr, MatchResult, option_map};
ghost use Rattle.std.specs.Prelude.{length, position};
ghost use Rattle.std.specs.Str.{bytes_eq};
ghost use Rattle.plan_document.specs.View.{view};
ghost use Rattle.plan_table.specs.Document.{is_numbered};
ghost use Rattle.plan_table.specs.Keys.{name_of, tasks_of, after_of};
ghost use Rattle.plan_table.specs.Search.{places};
ghost use Rattle.plan_table.specs.Values.{text_of};
ghost use Rattle.plan_reader.specs.NameNumbers.{texts, first_repeat};
ghost use Rattle.plan_reader.specs.Names.{names_in, known_numbers, known_rows, AreMarked};
ghost use Rattle.indexmap.specs.IndexSet.{insert_key};
ghost use Rattle.plan_reader.specs.Search.{first_twice, twice_in};
ghost use Rattle.plan_reader.specs.Reading.{RefusesBy};
ghost use Rattle.ready_work.specs.Rank.{lists_of};

use crate::name_table::NameTable;
use plan_document::Value;
use plan_table::{
    Part, Place, PlanFail, PlanRefusal, after_of, name_of, places, tasks_of, text_of,
};
use std::alloc::{AllocError, Global};

/// The names of a plan's parts. Each has the number at which its part stands.
#[derive(Drop)]
pub(crate) struct Names<'n, 'a> {
    pub projects: &'n NameTable<'a>,
    pub tasks: &'n NameTable<'a>,
    pub requirements: &'n NameTable<'a>,
}

// The names of these tables, in their order.
fn names_of<'a>(alloc: Global, values: &'a [Value]) -> Result<Vec<&'a str>, AllocError>
    ensures { IfOk result (λ names. texts names.items ≡ map (λ v. name_of (view v)) values.entry.now) }
{
    let mut names = Vec::with_capacity(alloc, values.len())?;
    for value in values {
        names.push(name_of(value))?;
    }
    Ok(names)
}

// The names of the document's tables of this part, in their order.
fn names_at<'a>(alloc: Global, part: Part, document: &'a Value) -> Result<Vec<&'a str>, AllocError>
    ensures { IfOk result (λ names. texts names.items ≡ map name_of (places (view document.entry.now) part)) }
{
    names_of(alloc, places(part, document))
}

/// The names of the parts of one sort, by number. Twice comes where a name stood before, with its first place.
pub(crate) fn numbered_names<'a>(
    alloc: Global,
    part: Part,
    document: &'a Value,
) -> Result<NameTable<'a>, PlanFail>
    requires { is_numbered (view document.now) ≡ true }
    ensures once { IfOk result (λ _. first_twice part (places (view document.entry.now) part) ≡ None) }
    ensures names { IfOk result (λ table. table ≡ map name_of (places (view document.entry.now) part)) }
    ensures twice { IfErr result (RefusesBy (twice_in (view document.entry.now) part)) }
{
    let names = names_at(alloc, part, document)?;
    match NameTable::new(alloc, names)? {
        Ok(table) => Ok(table),
        Err(number) => Err(PlanFail::Refused(PlanRefusal::Twice(Place::new(part, number)))),
    }
}

// Puts a number behind the others if it isn't among them. Those that are there have the mark.
#[tactic(auto, using(crate::proofs::Marks::marked_anew, crate::proofs::Marks::added, crate::proofs::Marks::kept))]
fn add_number(
    numbers: &mut Vec<u32>,
    marks: &mut [usize],
    mark: usize,
    number: u32,
) -> Result<(), AllocError>
    requires within { number < length marks.old }
    requires marked { AreMarked marks.old mark numbers.old.items }
    ensures marked { IfOk result (λ _. AreMarked marks.new mark numbers.new.items) }
    ensures added { IfOk result (λ _. numbers.new.items ≡ insert_key (λ m n. m == n) numbers.old.items number) }
{
    if marks[number as usize] != mark {
        marks[number as usize] = mark;
        numbers.push(number)?;
    }
    Ok(())
}

/// Where the next name is looked for first: behind the one before it, where that one stood so too. Names often stand in
/// their order, and where they don't a look there is lost. No clause rests on the guess.
#[derive(Clone, Copy)]
struct LikelyNext {
    next: u32,
    is_likely: bool,
}

impl LikelyNext {
    /// Before the first name.
    const NONE: LikelyNext = LikelyNext {
        next: 0,
        is_likely: false,
    };

    // The number that is guessed. What is unlikely is the greatest `u32`, which is no name's: an `Option` would cost a test more a name.
    fn number(self) -> u32 {
        if self.is_likely { self.next } else { u32::MAX }
    }

    // Behind a name of this number.
    fn behind(self, number: u32) -> LikelyNext {
        LikelyNext {
            next: number.saturating_add(1),
            is_likely: number == self.next,
        }
    }
}

// The numbers of the tasks of these names, each once, or None where one of them is no task's.
fn numbers_of(
    alloc: Global,
    names: &NameTable,
    marks: &mut [usize],
    mark: usize,
    next: &mut LikelyNext,
    values: &[Value],
) -> Result<Option<Vec<u32>>, AllocError>
    requires len { length marks.old ≡ length names.now }
    requires fresh { (k : ℕ) → slice_index marks.old k < mark }
    ensures marks { IfOk result (λ _. (k : ℕ) → slice_index marks.new k ≤ mark) }
    ensures numbers { IfOk result (λ o. option_map (λ v. v.items) o ≡ known_numbers names.now (map (λ v. text_of (view v)) values.now)) }
{
    let mut numbers = Vec::with_capacity(alloc, values.len())?;
    for value in values {
        match names.number_near(next.number(), text_of(value))? {
            Some(number) => {
                add_number(&mut numbers, marks, mark, number)?;
                *next = next.behind(number);
            }
            None => return Ok(None),
        }
    }
    Ok(Some(numbers))
}

// The numbers of the tasks that a task comes after, each once. None where a name isn't a task's. `mark` is the task's own, and
// higher than all that stand in `marks`.
fn dependency_numbers(
    alloc: Global,
    names: &NameTable,
    marks: &mut [usize],
    mark: usize,
    next: &mut LikelyNext,
    task: &Value,
) -> Result<Option<Vec<u32>>, AllocError>
    requires len { length marks.old ≡ length names.now }
    requires fresh { (k : ℕ) → slice_index marks.old k < mark }
    ensures marks { IfOk result (λ _. (k : ℕ) → slice_index marks.new k ≤ mark) }
    ensures numbers { IfOk result (λ o. option_map (λ v. v.items) o ≡ known_numbers names.now (after_of (view task.now))) }
{
    numbers_of(alloc, names, marks, mark, next, after_of(task))
}

// For each task the numbers of those that it comes after. None where a name isn't a task's.
fn rows_of(
    alloc: Global,
    names: &NameTable,
    tasks: &[Value],
) -> Result<Option<Vec<Vec<u32>>>, AllocError>
    ensures { IfOk result (λ o. option_map (λ rows. lists_of rows.items) o ≡ known_rows names.now (map view tasks.now)) }
{
    let mut rows = Vec::with_capacity(alloc, tasks.len())?;
    let mut marks = vec![in alloc; 0; names.len()]?;
    let mut next = LikelyNext::NONE;
    for (number, task) in tasks.iter().enumerate() {
        match dependency_numbers(alloc, names, &mut marks, number + 1, &mut next, task)? {
            Some(row) => rows.push(row)?,
            None => return Ok(None),
        }
    }
    Ok(Some(rows))
}

/// For each task the numbers of the tasks that it comes after, each once, in the order in which they are first
/// written. None where one of the names is no task's. Each name is looked up once.
pub(crate) fn dependencies_of(
    alloc: Global,
    names: &NameTable,
    document: &Value,
) -> Result<Option<Vec<Vec<u32>>>, AllocError>
    requires { names.now ≡ map name_of (places (view document.now) Part.Task) }
    ensures { IfOk result (λ o. option_map (λ rows. lists_of rows.items) o ≡ known_rows (names_in (view document.now)).tasks (tasks_of (view document.now))) }
{
    rows_of(alloc, names, tasks_of(document))
}
