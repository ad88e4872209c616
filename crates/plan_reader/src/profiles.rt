//! The requirements of a plan.
ghost use Rattle.std.specs.Prelude.{string_bytes, codes, ◌≡◌, true, map, IfOk};
ghost use Rattle.std.specs.List.{list_all};
ghost use Rattle.plan_document.specs.View.{view};
ghost use Rattle.daemon_requirements.specs.RequirementsView.{requirements_view, HasDistinctNames};
ghost use Rattle.plan_table.specs.Keys.{requirements_of, heap_of, keep_alive_of, name_of};
ghost use Rattle.plan_table.specs.Taking.{KeepsOthers};
ghost use Rattle.plan_table.specs.Values.{text_of};
ghost use Rattle.plan_reader.specs.Names.{names_in};
ghost use Rattle.plan_reader.specs.Rows.{is_heap};
ghost use Rattle.plan_reader.specs.Planned.{pair_of, heap_number, mode_named, requirements_from, default_requirements, all_requirements, requirements_named};

use daemon_requirements::{Pair, RequirementFields, Requirements};
use item_actions::{KeepAlive, Text};
use plan_document::{Table, Value, rises};
use plan_table::{
    assertions_of, debug_of, heap_of, into_text, keep_alive_of, name_of, requirements_of,
    take_args, take_encoding, take_executable, take_properties, take_requirements, take_variables,
};
use std::alloc::{AllocError, Global};

// The text of each value, in their order.
fn texts_of(alloc: Global, values: Vec<Value>) -> Result<Vec<Text>, AllocError>
    ensures { IfOk result (λ texts. texts.items ≡ map (λ v. text_of (view v)) values.items) }
{
    let mut texts = Vec::with_capacity(alloc, values.len())?;
    for value in values {
        texts.push(into_text(alloc, value))?;
    }
    Ok(texts)
}

// The pairs of a table, in their order. No name stands twice among them, nor in any table that is read: of one in which one did,
// no pairs are made.
fn pairs_of(alloc: Global, table: Table) -> Result<Vec<Pair>, AllocError>
    ensures pairs { IfOk result (λ pairs. pairs.items ≡ map (λ e. pair_of (string_bytes e.0, text_of (view e.1))) table.items) }
    ensures distinct { IfOk result (λ pairs. HasDistinctNames pairs.items) }
{
    if !rises(&table) {
        return Err(AllocError);
    }
    let mut pairs = Vec::with_capacity(alloc, table.len())?;
    for (name, value) in table {
        let name = Text::from(name);
        let value = into_text(alloc, value);
        pairs.push(Pair { name, value })?;
    }
    Ok(pairs)
}

// The heap of requirements that keep its limits, in MB.
fn heap_mb_of(requirements: &Value) -> u32
    requires { is_heap (heap_of (view requirements.now)) ≡ true }
    ensures { result ≡ heap_number (heap_of (view requirements.now)) }
{
    heap_of(requirements) as u32
}

// The keep-alive mode of requirements. A document with a word of no mode is refused before.
fn mode_of(requirements: &Value) -> KeepAlive
    ensures { result ≡ mode_named (keep_alive_of (view requirements.now)) }
{
    KeepAlive::of_word(keep_alive_of(requirements)).unwrap_or(KeepAlive::Session)
}

// The fields that requirements say, with the defaults of those that they leave out.
fn fields_of(alloc: Global, mut requirements: Value) -> Result<RequirementFields, AllocError>
    requires { is_heap (heap_of (view requirements)) ≡ true }
    ensures fields { IfOk result (λ f. requirements_view f ≡ requirements_from (view requirements)) }
    ensures distinct { IfOk result (λ f. HasDistinctNames f.properties.items × HasDistinctNames f.variables.items) }
{
    Ok(RequirementFields {
        heap_mb: heap_mb_of(&requirements),
        debug: debug_of(&requirements),
        assertions: assertions_of(&requirements),
        keep: mode_of(&requirements),
        executable: take_executable(alloc, &mut requirements)?,
        args: texts_of(alloc, take_args(alloc, &mut requirements))?,
        properties: pairs_of(alloc, take_properties(alloc, &mut requirements))?,
        variables: pairs_of(alloc, take_variables(alloc, &mut requirements))?,
        encoding: take_encoding(alloc, &mut requirements)?,
    })
}

// The requirements that a table says, whose heap keeps its limits. All items that name them share them.
fn requirements_from(alloc: Global, requirements: Value) -> Result<Requirements, AllocError>
    requires { is_heap (heap_of (view requirements)) ≡ true }
    ensures { IfOk result (λ p. p ≡ requirements_from (view requirements)) }
{
    let fields = fields_of(alloc, requirements)?;
    match Requirements::of(fields) {
        Ok(requirements) => requirements.share(alloc),
        Err(_) => unreachable!(),
    }
}

/// What an item asks for that names no requirements.
pub(crate) fn default_requirements(alloc: Global) -> Result<Requirements, AllocError>
    ensures { IfOk result (λ p. p ≡ default_requirements) }
{
    let empty = Value::Table(Vec::new(alloc));
    requirements_from(alloc, empty)
}

// The requirements that each table says, in their order.
fn profiles_in(alloc: Global, values: Vec<Value>) -> Result<Vec<Requirements>, AllocError>
    requires { list_all (λ v. is_heap (heap_of (view v))) values.items ≡ true }
    ensures { IfOk result (λ profiles. profiles.items ≡ map (λ v. requirements_from (view v)) values.items) }
{
    let mut profiles = Vec::with_capacity(alloc, values.len())?;
    for value in values {
        profiles.push(requirements_from(alloc, value)?)?;
    }
    Ok(profiles)
}

/// Takes the requirements of a document, by number.
pub(crate) fn all_requirements(
    alloc: Global,
    document: &mut Value,
) -> Result<Vec<Requirements>, AllocError>
    requires { list_all (λ r. is_heap (heap_of r)) (requirements_of (view document.old)) ≡ true }
    ensures requirements { IfOk result (λ profiles. profiles.items ≡ all_requirements (view document.old)) }
    ensures others { KeepsOthers (codes "requirements") (view document.old) (view document.new) }
{
    profiles_in(alloc, take_requirements(alloc, document))
}

// A copy of the name of each table, in their order.
fn names_of(alloc: Global, values: &[Value]) -> Result<Vec<Text>, AllocError>
    ensures { IfOk result (λ names. names.items ≡ map (λ v. name_of (view v)) values.now) }
{
    let mut names = Vec::with_capacity(alloc, values.len())?;
    for value in values {
        names.push(Text::from_str(alloc, name_of(value))?)?;
    }
    Ok(names)
}

/// The names of the requirements of a document, by number.
pub(crate) fn requirements_names(alloc: Global, document: &Value) -> Result<Vec<Text>, AllocError>
    ensures { IfOk result (λ names. names.items ≡ (names_in (view document.now)).requirements) }
{
    names_of(alloc, requirements_of(document))
}
