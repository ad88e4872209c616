//! What is read of a TOML value.
ghost use Rattle.std.specs.Prelude.{string_bytes, ◌≡◌, [], map, Some, option_map};
ghost use Rattle.std.specs.List.{list_all};
ghost use Rattle.std.specs.Option.{option_map_or};
ghost use Rattle.plan_document.specs.View.{view};
ghost use Rattle.plan_table.specs.Values.{elements, text_of, text_or, integer_or, boolean_or, optional_text_at, table_pairs, list_at, text_at, is_text};
ghost use Rattle.plan_table.specs.Values.{is_array_of_texts, is_table_of_texts, is_word};

use plan_document::{Table, Value};

/// The text, and the empty text in place of another value.
pub fn text_of<'a>(value: &'a Value) -> &'a str
    ensures { result.now ≡ text_of (view value.entry.now) }
{
    match value {
        Value::String(text) => text.as_str(),
        _ => "",
    }
}

// The members of an array, and none of another value.
#[tactic(auto, using(crate::proofs::lemmas::Lists::elements_of_array))]
fn elements<'a>(value: Option<&'a Value>) -> &'a [Value]
    ensures { map view result.now ≡ elements (option_map (λ v. view v.now) value.entry) }
{
    match value {
        Some(Value::Array(items)) => items.as_slice(),
        _ => &[],
    }
}

/// The elements of the array under the key, or none.
pub(crate) fn list_at<'a>(value: &'a Value, key: &str) -> &'a [Value]
    ensures { map view result.now ≡ list_at key.now (view value.entry.now) }
{
    elements(value.get(key))
}

/// The text under the key, or an empty one.
pub(crate) fn text_at<'a>(value: &'a Value, key: &str) -> &'a str
    ensures { result.now ≡ text_at key.now (view value.entry.now) }
{
    text_or(value.get(key), "")
}

/// The text that the value is. The default stands for no value, and an empty text for a value of another type.
pub(crate) fn text_or<'a>(value: Option<&'a Value>, default: &'static str) -> &'a str
    ensures { result.now ≡ text_or default.entry.now (option_map (λ v. view v.now) value.entry) }
{
    match value {
        Some(value) => text_of(value),
        None => default,
    }
}

/// The text under the key, if one stands there.
pub(crate) fn optional_text_at<'a>(value: &'a Value, key: &str) -> Option<&'a str>
    ensures { option_map (λ s. s.now) result ≡ optional_text_at key.now (view value.entry.now) }
{
    match value.get(key) {
        Some(Value::String(text)) => Some(text.as_str()),
        _ => None,
    }
}

/// The number that the value is, or the default.
pub(crate) fn integer_or(value: Option<&Value>, default: i64) -> i64
    ensures { result ≡ integer_or default (option_map (λ v. view v.now) value.entry) }
{
    match value {
        Some(Value::Integer(number)) => *number,
        _ => default,
    }
}

/// Whether the value is true, or the default where it is no boolean.
pub(crate) fn boolean_or(value: Option<&Value>, default: bool) -> bool
    ensures { result ≡ boolean_or default (option_map (λ v. view v.now) value.entry) }
{
    match value {
        Some(Value::Boolean(is_on)) => *is_on,
        _ => default,
    }
}

/// The table, and none in place of another value.
#[tactic(auto, using(crate::proofs::lemmas::Lists::pairs_of_table))]
pub(crate) fn table_of<'a>(value: Option<&'a Value>) -> Option<&'a Table>
    ensures { option_map_or (λ m. map (λ e. (string_bytes e.0, text_of (view e.1))) m.now.items) result [] ≡ table_pairs
        (option_map (λ v. view v.now) value.entry) }
{
    match value {
        Some(Value::Table(table)) => Some(table),
        _ => None,
    }
}

// Whether each of the values is a text.
fn are_texts(values: &[Value]) -> bool
    ensures { result ≡ list_all (λ v. is_text (view v)) values.now }
{
    values.iter().all(Value::is_str)
}

/// The members of an array, and none of another value.
pub(crate) fn members<'a>(value: &'a Value) -> &'a [Value]
    ensures { map view result.now ≡ elements (Some (view value.entry.now)) }
{
    elements(Some(value))
}

// Whether each member of an array is a text. A value of another type has no members.
fn has_text_members(value: &Value) -> bool
    ensures { result ≡ list_all is_text (elements (Some (view value.now))) }
{
    are_texts(members(value))
}

/// Whether the value is an array of texts.
pub(crate) fn is_array_of_texts(value: &Value) -> bool
    ensures { result ≡ is_array_of_texts (view value.now) }
{
    value.is_array() && has_text_members(value)
}

// Whether each value of the table is a text.
fn has_text_values(entries: &[(String, Value)]) -> bool
    ensures { result ≡ list_all (λ e. is_text (view e.1)) entries.now }
{
    entries.iter().all(|entry| entry.1.is_str())
}

/// Whether the value is a table of texts.
#[tactic(auto, using(crate::proofs::lemmas::Lists::texts_of_table))]
pub(crate) fn is_table_of_texts(value: &Value) -> bool
    ensures { result ≡ is_table_of_texts (view value.now) }
{
    match value {
        Value::Table(table) => has_text_values(table),
        _ => false,
    }
}

/// Whether the text is one of these words.
#[tactic(auto, using(crate::proofs::lemmas::Lists::any_of_map))]
pub(crate) fn is_word(value: &Value, words: &[&str]) -> bool
    ensures { result ≡ is_word (map (λ s. s.now) words.now) (view value.now) }
{
    words.contains(&text_of(value))
}
