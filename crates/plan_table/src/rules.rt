//! The keys that each table of a plan may have, and what may stand under them.
ghost use Rattle.std.specs.Prelude.{◌≡◌, ◌&&◌, Some, string_bytes, map};
ghost use Rattle.std.specs.List.{list_all};
ghost use Rattle.plan_document.specs.View.{view};
ghost use Rattle.plan_table.specs.Values.{is_array_of_texts, is_text, text_of, texts_of, table_pairs};
ghost use Rattle.plan_table.specs.Rules.{rule_of, rules, isolations, has_type, is_formed, is_setting, has_form, fits};

use crate::forms::{is_encoding, is_executable, is_key, is_name, is_needle, is_value};
use crate::values::{is_array_of_texts, is_table_of_texts, is_word, members, text_of};
use item_actions::{ActionKind, KeepAlive, is_file_name};
use plan_document::Value;
use resource_lock::Retention;

/// A sort of table.
#[derive(Clone, Copy)]
pub(crate) enum TableKind {
    Document,
    Project,
    Task,
    Action,
    Item,
    Requirements,
}

/// The form of a text.
#[derive(Clone, Copy)]
pub(crate) enum TextForm {
    Name,
    FileName,
    Needle,
    Executable,
    Encoding,
    Argument,
}

/// What may stand under a key: its type and, for texts, their form.
#[derive(Clone, Copy)]
pub(crate) enum ValueForm {
    /// One text.
    One(TextForm),
    /// A list of texts.
    Many(TextForm),
    /// A table of texts, for properties and variables.
    Settings,
    Wait,
    Do,
    Isolation,
    KeepAlive,
    Integer,
    Boolean,
    /// An array, each member of which stands where a table should.
    Tables,
}

/// A key that a table may have.
#[derive(Clone, Copy)]
pub(crate) struct KeyRule {
    pub key: &'static str,
    pub form: ValueForm,
    pub is_required: bool,
}

macro_rules! rule {
    (required $($row:tt)*) => { rule!(true, $($row)*) };
    (optional $($row:tt)*) => { rule!(false, $($row)*) };
    ($is_required:literal, $key:literal: $form:ident $(($text:ident))?) => {
        KeyRule {
            key: $key,
            form: ValueForm::$form $((TextForm::$text))?,
            is_required: $is_required,
        }
    };
}

// The keys of a document.
static DOCUMENT_RULES: [KeyRule; 3] = [
    rule!(optional "project": Tables),
    rule!(optional "task": Tables),
    rule!(optional "requirements": Tables),
];

// The keys of a project.
static PROJECT_RULES: [KeyRule; 1] = [rule!(required "name": One(Name))];

// The keys of a task.
static TASK_RULES: [KeyRule; 5] = [
    rule!(required "name": One(Name)),
    rule!(required "project": One(Name)),
    rule!(optional "after": Many(Name)),
    rule!(optional "all_projects": Boolean),
    rule!(optional "action": Tables),
];

// The keys of an action.
static ACTION_RULES: [KeyRule; 3] = [
    rule!(optional "wait": Wait),
    rule!(optional "fetch": One(FileName)),
    rule!(required "item": Tables),
];

// The keys of an item.
static ITEM_RULES: [KeyRule; 5] = [
    rule!(required "do": Do),
    rule!(required "file": One(FileName)),
    rule!(optional "needle": One(Needle)),
    rule!(optional "isolation": Isolation),
    rule!(optional "requirements": One(Name)),
];

// The keys of requirements.
static REQUIREMENTS_RULES: [KeyRule; 10] = [
    rule!(required "name": One(Name)),
    rule!(optional "executable": One(Executable)),
    rule!(optional "heap_mb": Integer),
    rule!(optional "args": Many(Argument)),
    rule!(optional "properties": Settings),
    rule!(optional "variables": Settings),
    rule!(optional "debug": Boolean),
    rule!(optional "assertions": Boolean),
    rule!(optional "encoding": One(Encoding)),
    rule!(optional "keep_alive": KeepAlive),
];

/// The keys that a table of this sort may have.
pub(crate) fn rules_of(kind: TableKind) -> &'static [KeyRule]
    ensures { map rule_of result.now ≡ rules kind }
{
    match kind {
        TableKind::Document => DOCUMENT_RULES.as_slice(),
        TableKind::Project => PROJECT_RULES.as_slice(),
        TableKind::Task => TASK_RULES.as_slice(),
        TableKind::Action => ACTION_RULES.as_slice(),
        TableKind::Item => ITEM_RULES.as_slice(),
        TableKind::Requirements => REQUIREMENTS_RULES.as_slice(),
    }
}

// The words that `isolation` may be.
static ISOLATIONS: [&str; 3] = ["none", "process", "classloader"];

/// Whether the value has the type that the form asks for.
pub(crate) fn has_type(form: ValueForm, value: &Value) -> bool
    ensures { result ≡ has_type form (view value.now) }
{
    match form {
        ValueForm::One(_) => value.is_str(),
        ValueForm::Many(_) => is_array_of_texts(value),
        ValueForm::Settings => is_table_of_texts(value),
        ValueForm::Wait => Retention::of_word(text_of(value)).is_some(),
        ValueForm::Do => ActionKind::of_word(text_of(value)).is_some(),
        ValueForm::Isolation => is_word(value, ISOLATIONS.as_slice()),
        ValueForm::KeepAlive => KeepAlive::of_word(text_of(value)).is_some(),
        ValueForm::Integer => value.is_integer(),
        ValueForm::Boolean => value.is_bool(),
        ValueForm::Tables => value.is_array(),
    }
}

// Whether the text has the form.
fn is_formed(form: TextForm, text: &str) -> bool
    ensures { result ≡ is_formed form text.now }
{
    match form {
        TextForm::Name => is_name(text.as_bytes()),
        TextForm::FileName => is_file_name(text.as_bytes()),
        TextForm::Needle => is_needle(text.as_bytes()),
        TextForm::Executable => is_executable(text.as_bytes()),
        TextForm::Encoding => is_encoding(text.as_bytes()),
        TextForm::Argument => is_value(text.as_bytes()),
    }
}

// Whether the text of each value has the form.
fn are_formed(form: TextForm, values: &[Value]) -> bool
    ensures { result ≡ list_all (λ v. is_formed form (text_of (view v))) values.now }
{
    values.iter().all(|value| is_formed(form, text_of(value)))
}

// Whether the text of each member of an array has the form. A value of another type has no members.
fn has_formed_texts(form: TextForm, value: &Value) -> bool
    ensures { result ≡ list_all (is_formed form) (texts_of (view value.now)) }
{
    are_formed(form, members(value))
}

// Whether each name of the table has the form of a key, and what it is set to that of a value.
fn are_settings(entries: &[(String, Value)]) -> bool
    ensures { result ≡ list_all (λ e. is_setting (string_bytes e.0, text_of (view e.1))) entries.now }
{
    entries.iter().all(|entry| is_key(entry.0.as_bytes()) && is_value(text_of(&entry.1).as_bytes()))
}

// Whether all settings of a value have their forms. One that is no table has no settings.
#[tactic(auto, using(crate::proofs::lemmas::Lists::settings_of_table))]
fn has_settings(value: &Value) -> bool
    ensures { result ≡ list_all is_setting (table_pairs (Some (view value.now))) }
{
    match value {
        Value::Table(table) => are_settings(table),
        _ => true,
    }
}

/// Whether the texts of the value are in their form. Other values have none to test.
pub(crate) fn has_form(form: ValueForm, value: &Value) -> bool
    ensures { result ≡ has_form form (view value.now) }
{
    match form {
        ValueForm::One(form) => is_formed(form, text_of(value)),
        ValueForm::Many(form) => has_formed_texts(form, value),
        ValueForm::Settings => has_settings(value),
        _ => true,
    }
}

// Whether the value is a text in the form.
fn is_text_in(form: TextForm, value: &Value) -> bool
    ensures { result ≡ (is_text (view value.now) && is_formed form (text_of (view value.now))) }
{
    match value {
        Value::String(text) => match form {
            // Nearly all texts are names, for which no call is made.
            TextForm::Name => is_name(text.as_bytes()),
            _ => is_formed(form, text.as_str()),
        },
        _ => false,
    }
}

// Whether each value is a text in the form.
fn are_texts_in(form: TextForm, values: &[Value]) -> bool
    ensures { result ≡ list_all (λ v. is_text (view v) && is_formed form (text_of (view v))) values.now }
{
    values.iter().all(|value| is_text_in(form, value))
}

// Whether the value is an array of texts, each in the form.
#[tactic(auto, using(crate::proofs::lemmas::Lists::texts_of_array))]
fn is_array_in(form: TextForm, value: &Value) -> bool
    ensures { result ≡ (is_array_of_texts (view value.now) && list_all (is_formed form) (texts_of (view value.now))) }
{
    match value {
        Value::Array(values) => are_texts_in(form, values.as_slice()),
        _ => false,
    }
}

/// Whether the value has the type that the form asks for, with its texts in their form. Nearly all values are texts and
/// lists of texts, which are looked at once for both.
pub(crate) fn fits(form: ValueForm, value: &Value) -> bool
    ensures { result ≡ fits form (view value.now) }
{
    match form {
        ValueForm::One(form) => is_text_in(form, value),
        ValueForm::Many(form) => is_array_in(form, value),
        _ => has_type(form, value) && has_form(form, value),
    }
}
