//! What stands under each key of a plan's tables. Where a key isn't there, its default is read.
ghost use Rattle.std.specs.Prelude.{string_bytes, ◌≡◌, [], map, option_map};
ghost use Rattle.std.specs.Option.{option_map_or};
ghost use Rattle.plan_document.specs.View.{view};
ghost use Rattle.plan_table.specs.Values.{text_of};
ghost use Rattle.plan_table.specs.Keys.{projects_of, tasks_of, requirements_of, name_of, project_of, after_of, all_projects_of};
ghost use Rattle.plan_table.specs.Keys.{actions_of, wait_of, fetch_of, items_of, do_of};
ghost use Rattle.plan_table.specs.Keys.{needle_of, isolation_of, requirements_name_of, heap_of, args_of};
ghost use Rattle.plan_table.specs.Keys.{properties_of, variables_of, debug_of, assertions_of, keep_alive_of};

use crate::values::{
    boolean_or, integer_or, list_at, optional_text_at, table_of, text_at, text_or,
};
use item_actions::KeepAlive;
use plan_document::{Table, Value};
use resource_lock::Retention;

/// The projects of a document.
pub fn projects_of<'a>(document: &'a Value) -> &'a [Value]
    ensures { map view result.now ≡ projects_of (view document.entry.now) }
{
    list_at(document, "project")
}

/// The tasks of a document.
pub fn tasks_of<'a>(document: &'a Value) -> &'a [Value]
    ensures { map view result.now ≡ tasks_of (view document.entry.now) }
{
    list_at(document, "task")
}

/// The requirements of a document.
pub fn requirements_of<'a>(document: &'a Value) -> &'a [Value]
    ensures { map view result.now ≡ requirements_of (view document.entry.now) }
{
    list_at(document, "requirements")
}

/// The name of a project, a task or requirements.
pub fn name_of<'a>(table: &'a Value) -> &'a str
    ensures { result.now ≡ name_of (view table.entry.now) }
{
    text_at(table, "name")
}

/// The name of a task's project.
pub fn project_of<'a>(task: &'a Value) -> &'a str
    ensures { result.now ≡ project_of (view task.entry.now) }
{
    text_at(task, "project")
}

/// The names of the tasks that a task comes after, each to be read by `text_of`.
pub fn after_of<'a>(task: &'a Value) -> &'a [Value]
    ensures { map (λ v. text_of (view v)) result.now ≡ after_of (view task.entry.now) }
{
    list_at(task, "after")
}

/// Whether a task asks for all projects, which it does not by default.
pub fn all_projects_of(task: &Value) -> bool
    ensures { result ≡ all_projects_of (view task.now) }
{
    boolean_or(task.get("all_projects"), false)
}

/// The actions of a task.
pub fn actions_of<'a>(task: &'a Value) -> &'a [Value]
    ensures { map view result.now ≡ actions_of (view task.entry.now) }
{
    list_at(task, "action")
}

/// The word of an action's `wait`: `release_and_reacquire` where it has none.
pub fn wait_of<'a>(action: &'a Value) -> &'a str
    ensures { result.now ≡ wait_of (view action.entry.now) }
{
    text_or(action.get("wait"), Retention::ReleaseAndReacquire.word())
}

/// The file that an action fetches, if it fetches one.
pub fn fetch_of<'a>(action: &'a Value) -> Option<&'a str>
    ensures { option_map (λ s. s.now) result ≡ fetch_of (view action.entry.now) }
{
    optional_text_at(action, "fetch")
}

/// The items of an action.
pub fn items_of<'a>(action: &'a Value) -> &'a [Value]
    ensures { map view result.now ≡ items_of (view action.entry.now) }
{
    list_at(action, "item")
}

/// The word of what an item does.
pub fn do_of<'a>(item: &'a Value) -> &'a str
    ensures { result.now ≡ do_of (view item.entry.now) }
{
    text_at(item, "do")
}

/// The needle of an item that counts, and the empty text where it has none.
pub fn needle_of<'a>(item: &'a Value) -> &'a str
    ensures { result.now ≡ needle_of (view item.entry.now) }
{
    text_at(item, "needle")
}

/// The word of an item's isolation: `none` where it has none.
pub fn isolation_of<'a>(item: &'a Value) -> &'a str
    ensures { result.now ≡ isolation_of (view item.entry.now) }
{
    text_or(item.get("isolation"), "none")
}

/// The name of the requirements of an item, if it has any.
pub fn requirements_name_of<'a>(item: &'a Value) -> Option<&'a str>
    ensures { option_map (λ s. s.now) result ≡ requirements_name_of (view item.entry.now) }
{
    optional_text_at(item, "requirements")
}

/// The heap of requirements in MB, of any size: 512 where they have none.
pub fn heap_of(requirements: &Value) -> i64
    ensures { result ≡ heap_of (view requirements.now) }
{
    integer_or(requirements.get("heap_mb"), 512)
}

/// The arguments of requirements, each to be read by `text_of`.
pub fn args_of<'a>(requirements: &'a Value) -> &'a [Value]
    ensures { map (λ v. text_of (view v)) result.now ≡ args_of (view requirements.entry.now) }
{
    list_at(requirements, "args")
}

/// The properties of requirements, if they have any, by name. Each value is to be read by `text_of`.
pub fn properties_of<'a>(requirements: &'a Value) -> Option<&'a Table>
    ensures { option_map_or (λ m. map (λ e. (string_bytes e.0, text_of (view e.1))) m.now.items) result [] ≡ properties_of (view requirements.entry.now) }
{
    table_of(requirements.get("properties"))
}

/// The variables of requirements, if they have any, by name. Each value is to be read by `text_of`.
pub fn variables_of<'a>(requirements: &'a Value) -> Option<&'a Table>
    ensures { option_map_or (λ m. map (λ e. (string_bytes e.0, text_of (view e.1))) m.now.items) result [] ≡ variables_of (view requirements.entry.now) }
{
    table_of(requirements.get("variables"))
}

/// Whether requirements ask for debugging: they don't where they say nothing.
pub fn debug_of(requirements: &Value) -> bool
    ensures { result ≡ debug_of (view requirements.now) }
{
    boolean_or(requirements.get("debug"), false)
}

/// Whether requirements ask for assertions: they don't where they say nothing.
pub fn assertions_of(requirements: &Value) -> bool
    ensures { result ≡ assertions_of (view requirements.now) }
{
    boolean_or(requirements.get("assertions"), false)
}

/// The word of the keep-alive mode of requirements: `session` where they have none.
pub fn keep_alive_of<'a>(requirements: &'a Value) -> &'a str
    ensures { result.now ≡ keep_alive_of (view requirements.entry.now) }
{
    text_or(requirements.get("keep_alive"), KeepAlive::Session.word())
}
