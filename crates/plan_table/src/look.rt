//! One look at a table, in place of a search by each of its tests.
ghost use Rattle.std.specs.Prelude.{◌≡◌, ◌||◌, count_by, map, option_copied, string_bytes};
ghost use Rattle.std.specs.List.{find};
ghost use Rattle.std.specs.Str.{bytes_eq};
ghost use Rattle.plan_document.specs.View.{view};
ghost use Rattle.plan_table.specs.Look.{any_holds, is_found, required_keys};
ghost use Rattle.plan_table.specs.Rules.{rule_of};
ghost use Rattle.plan_table.specs.Tables.{has_idle_key, lacks_more};

use crate::rules::{KeyRule, TableKind, fits, rules_of};
use crate::tables::{TableTest, has_idle_key, holds, lacks_more};
use plan_document::{Value, rises};

/// What is looked for in a table.
#[derive(Clone, Copy)]
pub(crate) enum Sought {
    /// Whether any of the tests holds.
    Anything,
    One(TableTest),
}

// The rule of the key, if there is one.
fn rule_for<'r>(rules: &'r [KeyRule], key: &str) -> Option<&'r KeyRule>
    ensures { option_copied result ≡ find (λ r. bytes_eq r.key.now key.now) rules.entry.now }
{
    rules.iter().find(|rule| rule.key == key)
}

// How many of the table's keys have to be there. None where one of them may not, or not with its value.
fn required_keys(rules: &[KeyRule], entries: &[(String, Value)]) -> Option<usize>
    ensures { result ≡ required_keys (map rule_of rules.now) (map (λ e. (string_bytes e.0, view e.1)) entries.now) }
{
    let mut required = 0;
    for entry in entries {
        let rule = rule_for(rules, entry.0.as_str())?;
        if !fits(rule.form, &entry.1) {
            return None;
        }
        required += usize::from(rule.is_required);
    }
    Some(required)
}

// How many of the rules are of keys that are required. No key stands twice in a table, so none of them lacks exactly where as many
// are there.
fn required_count(rules: &[KeyRule]) -> usize
    ensures { result ≡ count_by (λ r. r.is_required) rules.now }
{
    rules.iter().filter(|rule| rule.is_required).count()
}

// Whether a key is missing beside the others, or means nothing beside them.
fn clashes(kind: TableKind, table: &Value) -> bool
    ensures { result ≡ (lacks_more kind (view table.now) || has_idle_key kind (view table.now)) }
{
    lacks_more(kind, table) || has_idle_key(kind, table)
}

// Whether any of the tests holds, by one after the other.
fn any_by_tests(kind: TableKind, table: &Value) -> bool
    ensures { result ≡ any_holds kind (view table.now) }
{
    holds(TableTest::UnknownKey, kind, table)
        || holds(TableTest::WrongType, kind, table)
        || holds(TableTest::Missing, kind, table)
        || holds(TableTest::BadName, kind, table)
}

// Whether any of the tests holds of the table, or of another value that stands where it should. Each entry is looked
// at once: no key that has to be there lacks where as many of those that are there have to. In a table that is read, keys rise.
fn any_holds(kind: TableKind, table: &Value) -> bool
    ensures { result ≡ any_holds kind (view table.now) }
{
    let Value::Table(entries) = table else {
        return true;
    };
    let rows = entries.as_slice();
    if !rises(rows) {
        return any_by_tests(kind, table);
    }
    let rules = rules_of(kind);
    let Some(required) = required_keys(rules, rows) else {
        return true;
    };
    if required < required_count(rules) {
        return true;
    }
    if required < rows.len() {
        return clashes(kind, table);
    }
    lacks_more(kind, table)
}

/// Whether the table, or another value that stands where it should, has what is looked for.
pub(crate) fn is_found(sought: Sought, kind: TableKind, table: &Value) -> bool
    ensures { result ≡ is_found sought kind (view table.now) }
{
    match sought {
        Sought::Anything => any_holds(kind, table),
        Sought::One(test) => holds(test, kind, table),
    }
}
