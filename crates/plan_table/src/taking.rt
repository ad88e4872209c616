//! What is taken out of a plan's tables by its value. What is taken isn't copied, and what stands under the other keys
//! stays.
ghost use Rattle.std.specs.Prelude.{◌≡◌, codes, map, string_bytes, option_map, IfOk};
ghost use Rattle.toml.specs.Data.{get};
ghost use Rattle.plan_document.specs.View.{view};
ghost use Rattle.plan_table.specs.Values.{text_of, text_or, list_at, text_at, pairs_at, optional_text_at};
ghost use Rattle.plan_table.specs.Keys.{projects_of, tasks_of, requirements_of, name_of, actions_of, fetch_of, items_of, file_of, executable_of, args_of};
ghost use Rattle.plan_table.specs.Keys.{properties_of, variables_of, encoding_of};
ghost use Rattle.plan_table.specs.Taking.{KeepsOthers};

use item_actions::Text;
use plan_document::{Table, Value, place_of};
use std::alloc::{AllocError, Global};
use std::mem;

// Takes what stands under a key of a table, and leaves an empty value there: to remove a key costs more.
fn take_member(members: &mut Table, key: &str) -> Option<Value>
    ensures value { option_map view result ≡ get key.now (view (Value.Table members.old)) }
    ensures others { KeepsOthers key.now (view (Value.Table members.old)) (view (Value.Table members.new)) }
{
    match place_of(members.as_slice(), key) {
        Some(place) => {
            let entry = &mut members[place];
            Some(mem::replace(&mut entry.1, Value::Boolean(false)))
        }
        None => None,
    }
}

// Takes what stands under a key of the table. Another value has no keys.
fn take(table: &mut Value, key: &str) -> Option<Value>
    ensures value { option_map view result ≡ get key.now (view table.old) }
    ensures others { KeepsOthers key.now (view table.old) (view table.new) }
{
    match table {
        Value::Table(members) => take_member(members, key),
        _ => None,
    }
}

/// The text, and the empty text in place of another value.
pub fn into_text(alloc: Global, value: Value) -> Text
    ensures { result ≡ text_of (view value) }
{
    match value {
        Value::String(text) => Text::from(text),
        _ => Text::from(String::new(alloc)),
    }
}

// Takes the text under a key out of the table. It is empty where none stands there.
fn take_text(alloc: Global, table: &mut Value, key: &str) -> Text
    ensures text { result ≡ text_at key.now (view table.old) }
    ensures others { KeepsOthers key.now (view table.old) (view table.new) }
{
    match take(table, key) {
        Some(value) => into_text(alloc, value),
        None => Text::from(String::new(alloc)),
    }
}

// Takes the text under a key out of the table. It is a copy of the default where none stands there.
fn take_text_or(
    alloc: Global,
    table: &mut Value,
    key: &str,
    default: &'static str,
) -> Result<Text, AllocError>
    ensures text { IfOk result (λ t. t ≡ text_or default.entry.now (get key.now (view table.old))) }
    ensures others { KeepsOthers key.now (view table.old) (view table.new) }
{
    match take(table, key) {
        Some(value) => Ok(into_text(alloc, value)),
        None => Text::from_str(alloc, default),
    }
}

// Takes the members of a table, and none of another value.
#[tactic(auto, using(crate::proofs::lemmas::Lists::pairs_of_table))]
fn take_members(alloc: Global, table: &mut Value, key: &str) -> Table
    ensures members { map (λ e. (string_bytes e.0, text_of (view e.1))) result.items ≡ pairs_at key.now (view table.old) }
    ensures others { KeepsOthers key.now (view table.old) (view table.new) }
{
    match take(table, key) {
        Some(Value::Table(members)) => members,
        _ => Vec::new(alloc),
    }
}

// Takes the members of an array, and none of another value.
#[tactic(auto, using(crate::proofs::lemmas::Lists::elements_of_array))]
fn take_list(alloc: Global, table: &mut Value, key: &str) -> Vec<Value>
    ensures list { map view result.items ≡ list_at key.now (view table.old) }
    ensures others { KeepsOthers key.now (view table.old) (view table.new) }
{
    match take(table, key) {
        Some(Value::Array(items)) => items,
        _ => Vec::new(alloc),
    }
}

/// Takes the projects of a document.
pub fn take_projects(alloc: Global, document: &mut Value) -> Vec<Value>
    ensures projects { map view result.items ≡ projects_of (view document.old) }
    ensures others { KeepsOthers (codes "project") (view document.old) (view document.new) }
{
    take_list(alloc, document, "project")
}

/// Takes the tasks of a document.
pub fn take_tasks(alloc: Global, document: &mut Value) -> Vec<Value>
    ensures tasks { map view result.items ≡ tasks_of (view document.old) }
    ensures others { KeepsOthers (codes "task") (view document.old) (view document.new) }
{
    take_list(alloc, document, "task")
}

/// Takes the requirements of a document.
pub fn take_requirements(alloc: Global, document: &mut Value) -> Vec<Value>
    ensures requirements { map view result.items ≡ requirements_of (view document.old) }
    ensures others { KeepsOthers (codes "requirements") (view document.old) (view document.new) }
{
    take_list(alloc, document, "requirements")
}

/// Takes the name of a project, a task or requirements.
pub fn take_name(alloc: Global, table: &mut Value) -> Text
    ensures name { result ≡ name_of (view table.old) }
    ensures others { KeepsOthers (codes "name") (view table.old) (view table.new) }
{
    take_text(alloc, table, "name")
}

/// Takes the actions of a task.
pub fn take_actions(alloc: Global, task: &mut Value) -> Vec<Value>
    ensures actions { map view result.items ≡ actions_of (view task.old) }
    ensures others { KeepsOthers (codes "action") (view task.old) (view task.new) }
{
    take_list(alloc, task, "action")
}

/// Takes the file that an action fetches, if it fetches one.
pub fn take_fetch(action: &mut Value) -> Option<Text>
    ensures fetch { result ≡ fetch_of (view action.old) }
    ensures others { KeepsOthers (codes "fetch") (view action.old) (view action.new) }
{
    match take(action, "fetch") {
        Some(Value::String(file)) => Some(Text::from(file)),
        _ => None,
    }
}

/// Takes the items of an action.
pub fn take_items(alloc: Global, action: &mut Value) -> Vec<Value>
    ensures items { map view result.items ≡ items_of (view action.old) }
    ensures others { KeepsOthers (codes "item") (view action.old) (view action.new) }
{
    take_list(alloc, action, "item")
}

/// Takes the file of an item.
pub fn take_file(alloc: Global, item: &mut Value) -> Text
    ensures file { result ≡ file_of (view item.old) }
    ensures others { KeepsOthers (codes "file") (view item.old) (view item.new) }
{
    take_text(alloc, item, "file")
}

/// Takes the executable of requirements: `self` where they have none.
pub fn take_executable(alloc: Global, requirements: &mut Value) -> Result<Text, AllocError>
    ensures executable { IfOk result (λ t. t ≡ executable_of (view requirements.old)) }
    ensures others { KeepsOthers (codes "executable") (view requirements.old) (view requirements.new) }
{
    take_text_or(alloc, requirements, "executable", "self")
}

/// Takes the arguments of requirements, each to be read by `into_text`.
pub fn take_args(alloc: Global, requirements: &mut Value) -> Vec<Value>
    ensures args { map (λ v. text_of (view v)) result.items ≡ args_of (view requirements.old) }
    ensures others { KeepsOthers (codes "args") (view requirements.old) (view requirements.new) }
{
    take_list(alloc, requirements, "args")
}

/// Takes the properties of requirements, by name. Each value is to be read by `into_text`.
pub fn take_properties(alloc: Global, requirements: &mut Value) -> Table
    ensures properties { map (λ e. (string_bytes e.0, text_of (view e.1))) result.items ≡ properties_of (view requirements.old) }
    ensures others { KeepsOthers (codes "properties") (view requirements.old) (view requirements.new) }
{
    take_members(alloc, requirements, "properties")
}

/// Takes the variables of requirements, by name. Each value is to be read by `into_text`.
pub fn take_variables(alloc: Global, requirements: &mut Value) -> Table
    ensures variables { map (λ e. (string_bytes e.0, text_of (view e.1))) result.items ≡ variables_of (view requirements.old) }
    ensures others { KeepsOthers (codes "variables") (view requirements.old) (view requirements.new) }
{
    take_members(alloc, requirements, "variables")
}

/// Takes the encoding of requirements: `UTF-8` where they have none.
pub fn take_encoding(alloc: Global, requirements: &mut Value) -> Result<Text, AllocError>
    ensures encoding { IfOk result (λ t. t ≡ encoding_of (view requirements.old)) }
    ensures others { KeepsOthers (codes "encoding") (view requirements.old) (view requirements.new) }
{
    take_text_or(alloc, requirements, "encoding", "UTF-8")
}
