//! The limits of a plan.
ghost use Rattle.std.specs.Prelude.{string_bytes, ◌≡◌, nat_lt, [], map, length};
ghost use Rattle.std.specs.Option.{option_map_or};
ghost use Rattle.std.specs.List.{sum_by};
ghost use Rattle.plan_document.specs.View.{view};
ghost use Rattle.plan_table.specs.Forms.{Text};
ghost use Rattle.plan_table.specs.Values.{text_of};
ghost use Rattle.plan_table.specs.Keys.{projects_of, tasks_of, requirements_of, actions_of, items_of, after_of, args_of};
ghost use Rattle.plan_reader.specs.declared.limits.TheConstants.{MAX_UNITS};
ghost use Rattle.plan_reader.specs.Rooms.{IsLeft};
ghost use Rattle.plan_reader.specs.Rows.{unit_count, task_unit_count, plan_unit_count, excess_of_plan, excess_of_task, has_few_lists, excess_of_requirements};
ghost use Rattle.plan_reader.specs.Rows.{excess};

use plan_document::{Table, Value};
use plan_table::{
    Part, Which, actions_of, after_of, args_of, fetch_of, items_of, projects_of, properties_of,
    requirements_of, tasks_of, variables_of,
};

/// The most workers that a plan's graph is made for.
pub const MAX_WORKERS: u32 = 32;

/// The most leases that may be out at once in a plan's graph.
pub const MAX_LEASES: u32 = 32;

// The most projects of a plan.
const MAX_PROJECTS: usize = 512;

// The most tasks of a plan.
const MAX_TASKS: usize = 2_048;

// The most actions of a task.
const MAX_ACTIONS_PER_TASK: usize = 8;

// The most texts in a task's `after`.
const MAX_AFTER: usize = 64;

// The most units of a plan, fetches and items together.
const MAX_UNITS: usize = 8_192;

// The most tables of requirements of a plan.
const MAX_REQUIREMENTS: usize = 256;

/// The most arguments, properties or variables of one requirements table.
const MAX_LISTED: usize = 64;

// How many tables these are.
fn table_count(tables: &[Value]) -> usize
    ensures { result ≡ length (map view tables.now) }
{
    tables.len()
}

// How many texts these are.
fn text_count(texts: &[Value]) -> usize
    ensures { result ≡ length (map (λ v. text_of (view v)) texts.now) }
{
    texts.len()
}

// How many units an action has: its items, and its fetch if it has one.
fn unit_count(action: &Value) -> usize
    ensures { result ≡ unit_count (view action.now) }
{
    items_of(action).len() + usize::from(fetch_of(action).is_some())
}

// What is left of the room after the units of the actions, if it holds them.
fn room_after_actions(mut room: usize, actions: &[Value]) -> Option<usize>
    ensures { IsLeft room (sum_by (λ v. unit_count (view v)) actions.now) result }
{
    for action in actions {
        room = room.checked_sub(unit_count(action))?;
    }
    Some(room)
}

// How much room for units is left behind a task, or none where it isn't enough.
fn room_after_task(room: usize, task: &Value) -> Option<usize>
    ensures { IsLeft room (task_unit_count (view task.now)) result }
{
    room_after_actions(room, actions_of(task))
}

// What is left of the room after the units of the tasks, if it holds them.
fn room_after_tasks(mut room: usize, tasks: &[Value]) -> Option<usize>
    ensures { IsLeft room (sum_by (λ v. task_unit_count (view v)) tasks.now) result }
{
    for task in tasks {
        room = room_after_task(room, task)?;
    }
    Some(room)
}

// Whether the plan has more than `MAX_UNITS` units.
fn has_many_units(document: &Value) -> bool
    ensures { result ≡ nat_lt MAX_UNITS (plan_unit_count (view document.now)) }
{
    room_after_tasks(MAX_UNITS, tasks_of(document)).is_none()
}

// What the plan has too many of, the first in the order of the limits.
fn excess_of_plan(document: &Value) -> Option<Which>
    ensures { result ≡ excess_of_plan (view document.now) }
{
    if table_count(projects_of(document)) > MAX_PROJECTS {
        Some(Which::Projects)
    } else if table_count(tasks_of(document)) > MAX_TASKS {
        Some(Which::Tasks)
    } else if has_many_units(document) {
        Some(Which::Units)
    } else if table_count(requirements_of(document)) > MAX_REQUIREMENTS {
        Some(Which::Requirements)
    } else {
        None
    }
}

// What a task has too many of: actions, or texts in `after`, which count as they are written. A name that repeats counts once in
// the plan.
fn excess_of_task(task: &Value) -> Option<Which>
    ensures { result ≡ excess_of_task (view task.now) }
{
    if table_count(actions_of(task)) > MAX_ACTIONS_PER_TASK {
        Some(Which::Actions)
    } else if text_count(after_of(task)) > MAX_AFTER {
        Some(Which::After)
    } else {
        None
    }
}

// How many pairs a table has, or 0 where there is none.
fn pair_count(pairs: Option<&Table>) -> usize
    ensures { result ≡ length {A = Text × Text} (option_map_or (λ m. map (λ e. (string_bytes e.0, text_of (view e.1))) m.now.items) pairs.entry []) }
{
    match pairs {
        Some(pairs) => pairs.len(),
        None => 0,
    }
}

// Whether requirements keep the limit of their arguments, properties and variables.
fn has_few_lists(requirements: &Value) -> bool
    ensures { result ≡ has_few_lists (view requirements.now) }
{
    text_count(args_of(requirements)) <= MAX_LISTED
        && pair_count(properties_of(requirements)) <= MAX_LISTED
        && pair_count(variables_of(requirements)) <= MAX_LISTED
}

// What requirements have too many of: members of one of their lists, or nothing.
fn excess_of_requirements(requirements: &Value) -> Option<Which>
    ensures { result ≡ excess_of_requirements (view requirements.now) }
{
    if has_few_lists(requirements) {
        None
    } else {
        Some(Which::Lists)
    }
}

/// What a table of this part has too much of. Of several, the one that stands first in `Which`.
pub(crate) fn excess(part: Part, table: &Value) -> Option<Which>
    ensures { result ≡ excess part (view table.now) }
{
    match part {
        Part::Plan => excess_of_plan(table),
        Part::Project => None,
        Part::Task => excess_of_task(table),
        Part::Requirements => excess_of_requirements(table),
    }
}
