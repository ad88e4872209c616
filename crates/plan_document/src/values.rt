//! TOML values.
ghost use Rattle.std.specs.Prelude.{◌≡◌, ◌<◌, IfSome, is_some, length, map, option_map, string_bytes, true};
ghost use Rattle.std.specs.List.{position};
ghost use Rattle.std.specs.List.Sorted.{IsStrictlySortedBy};
ghost use Rattle.std.specs.Str.{bytes_eq};
ghost use Rattle.std.specs.String.{string_cmp};
ghost use Rattle.toml.specs.Data.{as_array, as_bool, as_integer, as_str, as_table, get, get_member};
ghost use Rattle.plan_document.specs.View.{members_view, view};

use std::cmp::Ordering;
use toml_datetime::Datetime;

/// The entries of a table, by rising key. A row of two entries takes 112 bytes, where a map takes some 700.
pub type Table = Vec<(String, Value)>;

/// A TOML value.
#[derive(Drop)]
pub enum Value {
    /// A string.
    String(String),
    /// An integer.
    Integer(i64),
    /// A float.
    Float(f64),
    /// A boolean.
    Boolean(bool),
    /// A date-time.
    Datetime(Datetime),
    /// An array.
    Array(Vec<Value>),
    /// A table.
    Table(Table),
}

impl Value {
    /// What stands under a key. Nothing does where the value is no table.
    pub fn get(&self, key: &str) -> Option<&Value>
        ensures { option_map (λ v. view v.now) result ≡ get key.now (view self.now) }
    {
        match self {
            Value::Table(entries) => found(entries, key),
            _ => None,
        }
    }

    /// Whether it is a string.
    pub fn is_str(&self) -> bool
        ensures { result ≡ is_some (as_str (view self.now)) }
    {
        matches!(self, Value::String(_))
    }

    /// Whether it is an integer.
    pub fn is_integer(&self) -> bool
        ensures { result ≡ is_some (as_integer (view self.now)) }
    {
        matches!(self, Value::Integer(_))
    }

    /// Whether it is a boolean.
    pub fn is_bool(&self) -> bool
        ensures { result ≡ is_some (as_bool (view self.now)) }
    {
        matches!(self, Value::Boolean(_))
    }

    /// Whether it is an array.
    pub fn is_array(&self) -> bool
        ensures { result ≡ is_some (as_array (view self.now)) }
    {
        matches!(self, Value::Array(_))
    }

    /// Whether it is a table.
    pub fn is_table(&self) -> bool
        ensures { result ≡ is_some (as_table (view self.now)) }
    {
        matches!(self, Value::Table(_))
    }
}

// What stands under a key of these entries.
fn found<'a>(entries: &'a [(String, Value)], key: &str) -> Option<&'a Value>
    ensures { option_map (λ v. view v.now) result ≡ get_member key.now (members_view entries.entry.now) }
{
    match place_of(entries, key) {
        Some(place) => Some(&entries[place].1),
        None => None,
    }
}

/// The place of the first entry under a key, if there is one. A plan's tables have a few entries, so they are gone through.
pub fn place_of(entries: &[(String, Value)], key: &str) -> Option<usize>
    ensures place { result ≡ position (λ e. bytes_eq key.now (string_bytes e.0)) entries.now }
    ensures within { IfSome result (λ place. place < length entries.now) }
{
    entries.iter().position(|entry| key == entry.0.as_str())
}

/// Whether each key is below the next one, so that none stands twice. It holds of each table that is read.
pub fn rises(entries: &[(String, Value)]) -> bool
    ensures { result ≡ true → IsStrictlySortedBy string_cmp (map (λ e. e.0) entries.now) }
{
    let mut place = 1;
    while place < entries.len() {
        match entries[place - 1].0.cmp(&entries[place].0) {
            Ordering::Less => place += 1,
            _ => return false,
        }
    }
    true
}
