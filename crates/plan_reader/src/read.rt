//! Reading a plan.
ghost use Rattle.std.specs.Prelude.{◌≡◌, ◌≤◌, true, None, map, length, IfOk, IfErr};
ghost use Rattle.plan_document.specs.View.{view};
ghost use Rattle.ready_work.specs.Rank.{lists_of, InRange, IsFirstCycle};
ghost use Rattle.plan_table.specs.Document.{is_numbered};
ghost use Rattle.plan_table.specs.declared.document.TheConstants.{MAX_PARTS};
ghost use Rattle.plan_table.specs.Search.{places, table_refusal};
ghost use Rattle.plan_reader.specs.Names.{name_lists, names_in, dependencies_of};
ghost use Rattle.plan_reader.specs.Planned.{plan_of};
ghost use Rattle.plan_reader.specs.Search.{twice_in, twice_refusal, row_refusal, rows_refusal, rows_before, rows_behind, refusal_before, refusal_behind};
ghost use Rattle.plan_reader.specs.Reading.{IsAccepted, AnswersRanks, AnswersBy, Reads, Refuses, Gives, RefusesBy, RefusesCycle};

use crate::name_table::NameTable;
use crate::names::{Names, dependencies_of, numbered_names};
use crate::parts::{names_taken, tasks_of_plan};
use crate::plans::Plan;
use crate::profiles::{all_requirements, requirements_names};
use crate::rows::Row;
use crate::search::row_refusal;
use plan_document::Value;
use plan_table::{
    Part, Place, PlanFail, PlanRefusal, read_document, table_refusal, take_projects, take_tasks,
};
use ready_work::first_cycle;
use std::alloc::Global;

// Refuses a document of which the row holds somewhere, at its first place.
fn check(row: Row, names: &Names, document: &Value) -> Result<(), PlanFail>
    requires names { name_lists names.now ≡ names_in (view document.now) }
    requires numbered { is_numbered (view document.now) ≡ true }
    ensures ok { IfOk result (λ _. row_refusal (view document.now) row ≡ None) }
    ensures err { IfErr result (RefusesBy (row_refusal (view document.now) row)) }
{
    match row_refusal(row, names, document) {
        Some(refusal) => Err(PlanFail::Refused(refusal)),
        None => Ok(()),
    }
}

// The numbers of the tasks that each task comes after, where each of the names is a task's.
fn known_dependencies(
    alloc: Global,
    names: &Names,
    document: &Value,
) -> Result<Vec<Vec<u32>>, PlanFail>
    requires names { name_lists names.now ≡ names_in (view document.now) }
    requires numbered { is_numbered (view document.now) ≡ true }
    ensures dependencies { IfOk result (λ rows. lists_of rows.items ≡ dependencies_of (view document.now)) }
    ensures ok { IfOk result (λ _. row_refusal (view document.now) Row.NoSuchTask ≡ None) }
    ensures err { IfErr result (RefusesBy (row_refusal (view document.now) Row.NoSuchTask)) }
{
    match dependencies_of(alloc, names.tasks, document)? {
        Some(dependencies) => Ok(dependencies),
        None => {
            check(Row::NoSuchTask, names, document)?;
            unreachable!()
        }
    }
}

// The numbers of the tasks that each task comes after, where no row before Cycle refuses anything.
fn check_before(alloc: Global, names: &Names, document: &Value) -> Result<Vec<Vec<u32>>, PlanFail>
    requires names { name_lists names.now ≡ names_in (view document.now) }
    requires numbered { is_numbered (view document.now) ≡ true }
    ensures dependencies { IfOk result (λ rows. lists_of rows.items ≡ dependencies_of (view document.now)) }
    ensures ok { IfOk result (λ _. rows_refusal rows_before (view document.now) ≡ None) }
    ensures err { IfErr result (RefusesBy (rows_refusal rows_before (view document.now))) }
{
    check(Row::NoSuchProject, names, document)?;
    known_dependencies(alloc, names, document)
}

// Refuses by the first of the rows that does so, of those that are looked at once the names and the ranks are known.
fn check_behind(names: &Names, document: &Value) -> Result<(), PlanFail>
    requires names { name_lists names.now ≡ names_in (view document.now) }
    requires numbered { is_numbered (view document.now) ≡ true }
    ensures ok { IfOk result (λ _. refusal_behind (view document.now) ≡ None) }
    ensures err { IfErr result (RefusesBy (refusal_behind (view document.now))) }
{
    check(Row::ReleaseNotLast, names, document)?;
    check(Row::ClassLoader, names, document)?;
    check(Row::TooMany, names, document)?;
    check(Row::BadRequirements, names, document)
}

// Each task has a rank, by the numbers of the tasks that it comes after.
fn check_ranks(alloc: Global, dependencies: &[Vec<u32>]) -> Result<(), PlanFail>
    requires in_range { InRange (lists_of dependencies.now) }
    requires numbered { length dependencies.now ≤ MAX_PARTS }
    ensures ok { IfOk result (λ _. IsFirstCycle (lists_of dependencies.now) None) }
    ensures err { IfErr result (RefusesCycle (lists_of dependencies.now)) }
{
    match first_cycle(alloc, dependencies)? {
        Some(number) => {
            let place = Place::new(Part::Task, number);
            Err(PlanFail::Refused(PlanRefusal::Cycle(place)))
        }
        None => Ok(()),
    }
}

// Refuses a document of which a table is refused by itself.
fn check_table(document: &Value) -> Result<(), PlanFail>
    requires { is_numbered (view document.now) ≡ true }
    ensures ok { IfOk result (λ _. table_refusal (view document.now) ≡ None) }
    ensures err { IfErr result (RefusesBy (table_refusal (view document.now))) }
{
    match table_refusal(document) {
        Some(refusal) => Err(PlanFail::Refused(refusal)),
        None => Ok(()),
    }
}

// No task without a rank is refused, and nothing behind that.
fn check_ranked(
    alloc: Global,
    names: &Names,
    dependencies: &[Vec<u32>],
    document: &Value,
) -> Result<(), PlanFail>
    requires names { name_lists names.now ≡ names_in (view document.now) }
    requires dependencies { lists_of dependencies.now ≡ dependencies_of (view document.now) }
    requires numbered { is_numbered (view document.now) ≡ true }
    requires before { refusal_before (view document.now) ≡ None }
    ensures accepted { IfOk result (λ _. IsAccepted (view document.now)) }
    ensures err { IfErr result (Refuses (AnswersRanks (view document.now))) }
{
    check_ranks(alloc, dependencies)?;
    check_behind(names, document)
}

// The numbers of the tasks that each task comes after, in a document whose names are these, where nothing is refused.
fn check_named(alloc: Global, names: &Names, document: &Value) -> Result<Vec<Vec<u32>>, PlanFail>
    requires names { name_lists names.now ≡ names_in (view document.now) }
    requires numbered { is_numbered (view document.now) ≡ true }
    requires formed { table_refusal (view document.now) ≡ None }
    requires once { twice_refusal (view document.now) ≡ None }
    ensures dependencies { IfOk result (λ rows. lists_of rows.items ≡ dependencies_of (view document.now)) }
    ensures accepted { IfOk result (λ _. IsAccepted (view document.now)) }
    ensures err { IfErr result (Refuses (AnswersBy (refusal_before (view document.now)) (view document.now))) }
{
    let dependencies = check_before(alloc, names, document)?;
    check_ranked(alloc, names, &dependencies, document)?;
    Ok(dependencies)
}

// `check_named` behind the names of the projects and the tasks, each of which stands once: it numbers those of the requirements.
fn check_requirement_names<'a>(
    alloc: Global,
    projects: &NameTable<'a>,
    tasks: &NameTable<'a>,
    document: &'a Value,
) -> Result<Vec<Vec<u32>>, PlanFail>
    requires projects { projects.now ≡ (names_in (view document.now)).projects }
    requires tasks { tasks.now ≡ (names_in (view document.now)).tasks }
    requires numbered { is_numbered (view document.now) ≡ true }
    requires formed { table_refusal (view document.now) ≡ None }
    requires projects_once { twice_in (view document.now) Part.Project ≡ None }
    requires tasks_once { twice_in (view document.now) Part.Task ≡ None }
    ensures dependencies { IfOk result (λ rows. lists_of rows.items ≡ dependencies_of (view document.entry.now)) }
    ensures accepted { IfOk result (λ _. IsAccepted (view document.entry.now)) }
    ensures err { IfErr result (Refuses (AnswersBy (refusal_before (view document.entry.now)) (view document.entry.now))) }
{
    let requirements = numbered_names(alloc, Part::Requirements, document)?;
    let names = Names {
        projects,
        tasks,
        requirements: &requirements,
    };
    check_named(alloc, &names, document)
}

// `check_named` behind the names of the projects, each of which stands once: it numbers those of the tasks first.
fn check_task_names<'a>(
    alloc: Global,
    projects: &NameTable<'a>,
    document: &'a Value,
) -> Result<Vec<Vec<u32>>, PlanFail>
    requires projects { projects.now ≡ (names_in (view document.now)).projects }
    requires numbered { is_numbered (view document.now) ≡ true }
    requires formed { table_refusal (view document.now) ≡ None }
    requires projects_once { twice_in (view document.now) Part.Project ≡ None }
    ensures dependencies { IfOk result (λ rows. lists_of rows.items ≡ dependencies_of (view document.entry.now)) }
    ensures accepted { IfOk result (λ _. IsAccepted (view document.entry.now)) }
    ensures err { IfErr result (Refuses (AnswersBy (refusal_before (view document.entry.now)) (view document.entry.now))) }
{
    let tasks = numbered_names(alloc, Part::Task, document)?;
    check_requirement_names(alloc, projects, &tasks, document)
}

// The numbers of the tasks that each task comes after, or the first refusal behind those of the text. The names are borrowed from
// the document for as long as this takes.
fn check_tables(alloc: Global, document: &Value) -> Result<Vec<Vec<u32>>, PlanFail>
    requires { is_numbered (view document.now) ≡ true }
    ensures dependencies { IfOk result (λ rows. lists_of rows.items ≡ dependencies_of (view document.now)) }
    ensures accepted { IfOk result (λ _. IsAccepted (view document.now)) }
    ensures err { IfErr result (Refuses (AnswersBy (refusal_before (view document.now)) (view document.now))) }
{
    check_table(document)?;
    let projects = numbered_names(alloc, Part::Project, document)?;
    check_task_names(alloc, &projects, document)
}

// The plan of a document that nothing refuses. Its texts are moved out of the document.
fn plan_of(
    alloc: Global,
    dependencies: Vec<Vec<u32>>,
    document: &mut Value,
) -> Result<Plan, PlanFail>
    requires dependencies { lists_of dependencies.items ≡ dependencies_of (view document.old) }
    requires accepted { IsAccepted (view document.old) }
    ensures plan { IfOk result (λ plan. plan ≡ plan_of (view document.old)) }
    ensures memory { IfErr result (λ e. e ≡ PlanFail.NoMemory) }
{
    let names = requirements_names(alloc, document)?;
    let requirements = all_requirements(alloc, document)?;
    let projects = names_taken(alloc, take_projects(alloc, document))?;
    let tables = take_tasks(alloc, document);
    let tasks = tasks_of_plan(
        alloc,
        &projects,
        &names,
        &requirements,
        tables,
        dependencies,
    )?;
    Ok(Plan::new(projects, tasks, requirements))
}

// The plan of a document, or the first refusal behind those of its text.
fn read_tables(alloc: Global, mut document: Value) -> Result<Plan, PlanFail>
    requires { is_numbered (view document) ≡ true }
    ensures { Gives (AnswersBy (refusal_before (view document)) (view document)) result }
{
    let dependencies = check_tables(alloc, &document)?;
    plan_of(alloc, dependencies, &mut document)
}

/// Reads a plan, or answers why the text is none: with the refusal that stands first in `PlanRefusal`, at the
/// first of its places, which are the plan, then the projects, the tasks and the requirements by number. NoMemory
/// says nothing of the text.
pub fn read_plan(alloc: Global, bytes: &[u8]) -> Result<Plan, PlanFail>
    ensures { Gives (Reads bytes.now) result }
{
    let document = read_document(alloc, bytes)?;
    read_tables(alloc, document)
}
