//! The tests of a plan that look at more than one key.
ghost use Rattle.std.specs.Prelude.{◌≡◌, not, map, false, nat_lt, is_some, length};
ghost use Rattle.std.specs.List.{list_any, sum_by};
ghost use Rattle.plan_document.specs.View.{view};
ghost use Rattle.plan_table.specs.Keys.{actions_of, items_of};
ghost use Rattle.plan_table.specs.Values.{text_of};
ghost use Rattle.plan_reader.specs.NameNumbers.{has_name};
ghost use Rattle.plan_reader.specs.Names.{name_lists};
ghost use Rattle.plan_reader.specs.Rows.{lacks_project, lacks_task, releases, releases_early, has_item, item_fails, asks_unknown, is_class_loader, is_heap};
ghost use Rattle.plan_reader.specs.Rows.{holds};

use crate::limits::excess;
use crate::name_table::NameTable;
use crate::names::Names;
use plan_document::Value;
use plan_table::{
    Part, actions_of, after_of, heap_of, isolation_of, items_of, project_of, requirements_name_of,
    text_of, wait_of,
};

/// A row of the tests, in their order. Cycle stands behind NoSuchTask.
#[derive(Clone, Copy)]
pub(crate) enum Row {
    NoSuchProject,
    NoSuchTask,
    ReleaseNotLast,
    ClassLoader,
    TooMany,
    BadRequirements,
}

// Whether a task's project isn't one of the names.
fn lacks_project(names: &NameTable, task: &Value) -> bool
    ensures { result ≡ lacks_project names.now (view task.now) }
{
    !names.has(project_of(task))
}

// Whether one of the texts isn't one of the names.
fn lacks_any(names: &NameTable, values: &[Value]) -> bool
    ensures { result ≡ list_any (λ v. not (has_name names.now (text_of (view v)))) values.now }
{
    values.iter().any(|value| !names.has(text_of(value)))
}

// Whether a task comes after what isn't one of the names.
fn lacks_task(names: &NameTable, task: &Value) -> bool
    ensures { result ≡ lacks_task names.now (view task.now) }
{
    lacks_any(names, after_of(task))
}

// Whether an action releases its lock while it waits, and doesn't take it again.
fn releases(action: &Value) -> bool
    ensures { result ≡ releases (view action.now) }
{
    wait_of(action) == "release"
}

// Whether one of the actions does.
fn any_releases(actions: &[Value]) -> bool
    ensures { result ≡ list_any (λ v. releases (view v)) actions.now }
{
    actions.iter().any(releases)
}

// Whether an action that isn't the last releases the project lock.
fn releases_early(actions: &[Value]) -> bool
    ensures { result ≡ releases_early (map view actions.now) }
{
    any_releases(&actions[..actions.len().saturating_sub(1)])
}

// Whether an action of the task does that isn't the last.
fn task_releases_early(task: &Value) -> bool
    ensures { result ≡ releases_early (actions_of (view task.now)) }
{
    releases_early(actions_of(task))
}

// Whether an item asks for requirements that aren't there.
fn asks_unknown(names: &NameTable, item: &Value) -> bool
    ensures { result ≡ asks_unknown names.now (view item.now) }
{
    match requirements_name_of(item) {
        Some(name) => !names.has(name),
        None => false,
    }
}

// Whether a row of items holds of an item. Rows of other things hold of none.
fn item_fails(row: Row, names: &NameTable, item: &Value) -> bool
    ensures { result ≡ item_fails row names.now (view item.now) }
{
    match row {
        Row::ClassLoader => isolation_of(item) == "classloader",
        Row::BadRequirements => asks_unknown(names, item),
        _ => false,
    }
}

// Whether it holds of one of the items.
fn any_item_fails(row: Row, names: &NameTable, items: &[Value]) -> bool
    ensures { result ≡ list_any (λ v. item_fails row names.now (view v)) items.now }
{
    items.iter().any(|item| item_fails(row, names, item))
}

// Whether it holds of an item of the action.
fn action_fails(row: Row, names: &NameTable, action: &Value) -> bool
    ensures { result ≡ list_any (item_fails row names.now) (items_of (view action.now)) }
{
    any_item_fails(row, names, items_of(action))
}

// Whether it holds of an item of one of the actions.
fn any_action_fails(row: Row, names: &NameTable, actions: &[Value]) -> bool
    ensures { result ≡ list_any (λ v. list_any (item_fails row names.now) (items_of (view v))) actions.now }
{
    actions
        .iter()
        .any(|action| action_fails(row, names, action))
}

// Whether it holds of an item of the task.
fn has_failing_item(row: Row, names: &NameTable, task: &Value) -> bool
    ensures { result ≡ has_item (item_fails row names.now) (view task.now) }
{
    any_action_fails(row, names, actions_of(task))
}

// Whether a heap keeps its limits, 1 to `MAX_HEAP_MB` MB.
fn is_heap(mb: i64) -> bool
    ensures { result ≡ is_heap mb }
{
    (1..=65_536).contains(&mb)
}

// Whether a row of tasks holds of a task.
fn holds_of_task(row: Row, names: &Names, task: &Value) -> bool
    ensures { result ≡ holds (name_lists names.now) row Part.Task (view task.now) }
{
    match row {
        Row::NoSuchProject => lacks_project(names.projects, task),
        Row::NoSuchTask => lacks_task(names.tasks, task),
        Row::ReleaseNotLast => task_releases_early(task),
        Row::ClassLoader | Row::BadRequirements => {
            has_failing_item(row, names.requirements, task)
        }
        Row::TooMany => excess(Part::Task, task).is_some(),
    }
}

/// Whether the test of a row holds of a table of this part.
pub(crate) fn holds(row: Row, names: &Names, part: Part, table: &Value) -> bool
    ensures { result ≡ holds (name_lists names.now) row part (view table.now) }
{
    match (row, part) {
        (_, Part::Task) => holds_of_task(row, names, table),
        (Row::TooMany, _) => excess(part, table).is_some(),
        (Row::BadRequirements, Part::Requirements) => !is_heap(heap_of(table)),
        _ => false,
    }
}
