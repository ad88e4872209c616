//! The projects and tasks of a plan, made of a document's tables. Their texts are moved out of the tables.
ghost use Rattle.std.specs.Prelude.{◌≡◌, map, None, IfOk};
ghost use Rattle.std.specs.List.{zip};
ghost use Rattle.plan_document.specs.View.{view};
ghost use Rattle.plan_table.specs.Keys.{actions_of, do_of, items_of, name_of, needle_of};
ghost use Rattle.plan_reader.specs.PlanView.{process_of as shown_process, work_view, plan_action_view, plan_task_view};
ghost use Rattle.plan_reader.specs.NameNumbers.{first_repeat};
ghost use Rattle.plan_reader.specs.Planned.{needle_action, action_of_kind, action_named, default_requirements, process_of, work_of, retention_named, action_of};
ghost use Rattle.plan_reader.specs.Taken.{known_names, named, task_after};

use crate::known::Known;
use crate::name_table::NameTable;
use crate::plans::{PlanAction, PlanTask};
use crate::profiles::default_requirements;
use daemon_requirements::{Isolation, Requirements, Work};
use item_actions::{ActionKind, ItemAction, Needle, Text};
use plan_document::Value;
use plan_table::{
    all_projects_of, do_of, isolation_of, name_of, needle_of, project_of, requirements_name_of,
    take_actions, take_fetch, take_file, take_items, take_name, wait_of,
};
use resource_lock::Retention;
use std::alloc::{AllocError, Global};

// What counts a needle. A document whose needle is out of form is refused before.
fn needle_action(needle: &str) -> ItemAction
    ensures { result ≡ needle_action needle.now }
{
    match Needle::of(needle.as_bytes()) {
        Some(needle) => ItemAction::Count(needle),
        None => ItemAction::Bytes,
    }
}

// The action of an item of this kind. Only where it counts, its needle is looked up.
fn action_of_kind(kind: ActionKind, item: &Value) -> ItemAction
    ensures { result ≡ action_of_kind kind (needle_of (view item.now)) }
{
    match kind {
        ActionKind::Lines => ItemAction::Lines,
        ActionKind::Words => ItemAction::Words,
        ActionKind::Bytes => ItemAction::Bytes,
        ActionKind::Longest => ItemAction::Longest,
        ActionKind::Count => needle_action(needle_of(item)),
        ActionKind::Sha256 => ItemAction::Sha256,
    }
}

// The action of an item. A document with a word of no action is refused before.
fn item_action(item: &Value) -> ItemAction
    ensures { result ≡ action_named (do_of (view item.now)) (needle_of (view item.now)) }
{
    match ActionKind::of_word(do_of(item)) {
        Some(kind) => action_of_kind(kind, item),
        None => ItemAction::Bytes,
    }
}

// Where an item runs: in the thread, or in a process with the requirements that it names.
fn isolation_in(alloc: Global, known: &Known, item: &Value) -> Result<Isolation, AllocError>
    requires { known.now.default.now ≡ default_requirements }
    ensures { IfOk result (λ i. shown_process i ≡ process_of (known_names known.now) known.now.profiles.now (view item.now)) }
{
    if isolation_of(item) == "process" {
        let asked = known.copy_of(alloc, requirements_name_of(item))?;
        Ok(Isolation::Process(asked))
    } else {
        Ok(Isolation::InThread)
    }
}

// An item's work. Its texts are taken out of the table.
fn work_of(alloc: Global, known: &Known, mut item: Value) -> Result<Work, AllocError>
    requires { known.now.default.now ≡ default_requirements }
    ensures { IfOk result (λ w. work_view w ≡ work_of (known_names known.now) known.now.profiles.now (view item)) }
{
    Ok(Work {
        isolation: isolation_in(alloc, known, &item)?,
        action: item_action(&item),
        file: take_file(alloc, &mut item),
    })
}

// The work of each item, in their order.
fn works_of(alloc: Global, known: &Known, items: Vec<Value>) -> Result<Vec<Work>, AllocError>
    requires { known.now.default.now ≡ default_requirements }
    ensures { IfOk result (λ works. map work_view works.items ≡ map (λ v. work_of (known_names known.now) known.now.profiles.now (view v)) items.items) }
{
    let mut works = Vec::with_capacity(alloc, items.len())?;
    for item in items {
        works.push(work_of(alloc, known, item)?)?;
    }
    Ok(works)
}

// The work of each item of an action, which are taken out of its table.
fn items_of_action(
    alloc: Global,
    known: &Known,
    action: &mut Value,
) -> Result<Vec<Work>, AllocError>
    requires { known.now.default.now ≡ default_requirements }
    ensures { IfOk result (λ items. map work_view items.items ≡ map (work_of (known_names known.now) known.now.profiles.now) (items_of (view action.old))) }
{
    works_of(alloc, known, take_items(alloc, action))
}

// The retention of a word. A document with a word of no retention is refused before.
fn retention_named(word: &str) -> Retention
    ensures { result ≡ retention_named word.now }
{
    Retention::of_word(word).unwrap_or(Retention::ReleaseAndReacquire)
}

// The action that a table says.
fn action_of(alloc: Global, known: &Known, mut action: Value) -> Result<PlanAction, AllocError>
    requires { known.now.default.now ≡ default_requirements }
    ensures { IfOk result (λ a. plan_action_view a ≡ action_of (known_names known.now) known.now.profiles.now (view action)) }
{
    Ok(PlanAction {
        retention: retention_named(wait_of(&action)),
        fetch: take_fetch(&mut action),
        items: items_of_action(alloc, known, &mut action)?,
    })
}

// The action that each table says, in their order.
fn plan_actions_of(
    alloc: Global,
    known: &Known,
    values: Vec<Value>,
) -> Result<Vec<PlanAction>, AllocError>
    requires { known.now.default.now ≡ default_requirements }
    ensures { IfOk result (λ actions. map plan_action_view actions.items ≡ map
        (λ v. action_of (known_names known.now) known.now.profiles.now (view v)) values.items) }
{
    let mut actions = Vec::with_capacity(alloc, values.len())?;
    for value in values {
        actions.push(action_of(alloc, known, value)?)?;
    }
    Ok(actions)
}

// The actions of a task, which are taken out of its table.
fn actions_of_task(
    alloc: Global,
    known: &Known,
    task: &mut Value,
) -> Result<Vec<PlanAction>, AllocError>
    requires { known.now.default.now ≡ default_requirements }
    ensures { IfOk result (λ actions. map plan_action_view actions.items ≡ map
        (action_of (known_names known.now) known.now.profiles.now) (actions_of (view task.old))) }
{
    plan_actions_of(alloc, known, take_actions(alloc, task))
}

// The task of a table, which comes after these.
fn task_of(
    alloc: Global,
    known: &Known,
    mut task: Value,
    after: Vec<u32>,
) -> Result<PlanTask, AllocError>
    requires { known.now.default.now ≡ default_requirements }
    ensures { IfOk result (λ t. plan_task_view t ≡ task_after (known_names known.now) known.now.profiles.now (view task) after.items) }
{
    Ok(PlanTask {
        project: known.projects.number_of(project_of(&task))?,
        after,
        all_projects: all_projects_of(&task),
        name: take_name(alloc, &mut task),
        actions: actions_of_task(alloc, known, &mut task)?,
    })
}

// The tasks of these tables, each after those of its row.
fn known_tasks(
    alloc: Global,
    known: &Known,
    tables: Vec<Value>,
    dependencies: Vec<Vec<u32>>,
) -> Result<Vec<PlanTask>, AllocError>
    requires { known.now.default.now ≡ default_requirements }
    ensures { IfOk result (λ tasks. map plan_task_view tasks.items ≡ map
        (λ p. task_after (known_names known.now) known.now.profiles.now (view p.0) p.1.items)
        (zip tables.items dependencies.items)) }
{
    let mut tasks = Vec::with_capacity(alloc, tables.len())?;
    for (task, after) in tables.into_iter().zip(dependencies) {
        tasks.push(task_of(alloc, known, task, after)?)?;
    }
    Ok(tasks)
}

// The tasks of these tables in a plan of these names and requirements.
fn tasks_by_names<'a>(
    alloc: Global,
    projects: &NameTable<'a>,
    requirements: &NameTable<'a>,
    profiles: &[Requirements],
    tables: Vec<Value>,
    dependencies: Vec<Vec<u32>>,
) -> Result<Vec<PlanTask>, AllocError>
    ensures { IfOk result (λ tasks. map plan_task_view tasks.items ≡ map
        (λ p. task_after (named projects.entry.now requirements.entry.now) profiles.now (view p.0) p.1.items)
        (zip tables.items dependencies.items)) }
{
    let default = default_requirements(alloc)?;
    let known = Known {
        projects,
        requirements,
        profiles,
        default: &default,
    };
    known_tasks(alloc, &known, tables, dependencies)
}

// The tasks of these tables in a plan of these projects and requirements, each of whose names stands once.
fn tasks_by_projects<'a>(
    alloc: Global,
    projects: &NameTable<'a>,
    requirements: &'a [Text],
    profiles: &[Requirements],
    tables: Vec<Value>,
    dependencies: Vec<Vec<u32>>,
) -> Result<Vec<PlanTask>, AllocError>
    requires { first_repeat requirements.now ≡ None }
    ensures { IfOk result (λ tasks. map plan_task_view tasks.items ≡ map
        (λ p. task_after (named projects.entry.now requirements.entry.now) profiles.now (view p.0) p.1.items)
        (zip tables.items dependencies.items)) }
{
    let requirements = NameTable::of_texts(alloc, requirements)?;
    tasks_by_names(
        alloc,
        projects,
        &requirements,
        profiles,
        tables,
        dependencies,
    )
}

/// The tasks of these tables, each after those of its row, in a plan of these projects and requirements.
pub(crate) fn tasks_of_plan<'a>(
    alloc: Global,
    projects: &'a [Text],
    requirements: &'a [Text],
    profiles: &[Requirements],
    tables: Vec<Value>,
    dependencies: Vec<Vec<u32>>,
) -> Result<Vec<PlanTask>, AllocError>
    requires projects { first_repeat projects.now ≡ None }
    requires requirements { first_repeat requirements.now ≡ None }
    ensures { IfOk result (λ tasks. map plan_task_view tasks.items ≡ map
        (λ p. task_after (named projects.entry.now requirements.entry.now) profiles.now (view p.0) p.1.items)
        (zip tables.items dependencies.items)) }
{
    let projects = NameTable::of_texts(alloc, projects)?;
    tasks_by_projects(
        alloc,
        &projects,
        requirements,
        profiles,
        tables,
        dependencies,
    )
}

/// Takes the names of these tables.
pub(crate) fn names_taken(alloc: Global, tables: Vec<Value>) -> Result<Vec<Text>, AllocError>
    ensures { IfOk result (λ names. names.items ≡ map (λ v. name_of (view v)) tables.items) }
{
    let mut names = Vec::with_capacity(alloc, tables.len())?;
    for mut table in tables {
        names.push(take_name(alloc, &mut table))?;
    }
    Ok(names)
}
