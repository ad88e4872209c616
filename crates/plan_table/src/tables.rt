//! The tests of one table.
ghost use Rattle.std.specs.Prelude.{◌≡◌, ◌==◌, length, not, map, string_bytes};
ghost use Rattle.std.specs.List.{list_any};
ghost use Rattle.std.specs.Str.{bytes_eq};
ghost use Rattle.plan_document.specs.View.{view};
ghost use Rattle.plan_table.specs.Keys.{items_of};
ghost use Rattle.plan_table.specs.Rules.{rule_of, rules};
ghost use Rattle.plan_table.specs.Tables.{has_rule, has_other_key, counts, asks_for_process, has_idle_key, unknown_key, fails, wrong_type, lacks_more, missing};
ghost use Rattle.plan_table.specs.Tables.{bad_name, holds};

use crate::keys::{do_of, isolation_of, items_of};
use crate::rules::{KeyRule, TableKind, has_form, has_type, rules_of};
use plan_document::Value;

/// A test of a table.
#[derive(Clone, Copy)]
pub(crate) enum TableTest {
    UnknownKey,
    WrongType,
    Missing,
    BadName,
}

/// A test of what stands under the key of a rule.
#[derive(Clone, Copy)]
enum RuleTest {
    Mistyped,
    Lacking,
    Misformed,
}

// Whether one of the rules is of the key.
fn is_key_of_rule(rules: &[KeyRule], key: &str) -> bool
    ensures { result ≡ list_any (λ r. bytes_eq r.key.now key.now) rules.now }
{
    rules.iter().any(|rule| rule.key == key)
}

// Whether there is a rule of the key.
#[tactic(auto, using(crate::proofs::lemmas::Lists::any_of_map))]
fn has_rule(rules: &[KeyRule], key: &str) -> bool
    ensures { result ≡ has_rule (map rule_of rules.now) key.now }
{
    is_key_of_rule(rules, key)
}

// Whether the table has a key without a rule.
fn has_key_without_rule(entries: &[(String, Value)], rules: &[KeyRule]) -> bool
    ensures { result ≡ list_any (λ e. not (has_rule (map rule_of rules.now) (string_bytes e.0))) entries.now }
{
    entries
        .iter()
        .any(|entry| !has_rule(rules, entry.0.as_str()))
}

// Whether a table of this kind has a key that its kind hasn't. A value of another type has no keys.
#[tactic(auto, using(crate::proofs::lemmas::Lists::other_key_of_table))]
fn has_other_key(kind: TableKind, table: &Value) -> bool
    ensures { result ≡ has_other_key (rules kind) (view table.now) }
{
    match table {
        Value::Table(table) => has_key_without_rule(table, rules_of(kind)),
        _ => false,
    }
}

// Whether an item counts a needle.
fn counts(item: &Value) -> bool
    ensures { result ≡ counts (view item.now) }
{
    do_of(item) == "count"
}

// Whether an item asks for a process.
fn asks_for_process(item: &Value) -> bool
    ensures { result ≡ asks_for_process (view item.now) }
{
    isolation_of(item) == "process"
}

/// Whether a key stands there that means nothing beside the others.
pub(crate) fn has_idle_key(kind: TableKind, table: &Value) -> bool
    ensures { result ≡ has_idle_key kind (view table.now) }
{
    match kind {
        TableKind::Item => {
            table.get("needle").is_some() && !counts(table)
                || table.get("requirements").is_some() && !asks_for_process(table)
        }
        _ => false,
    }
}

// Whether a table of this kind has a key that means nothing there.
fn unknown_key(kind: TableKind, table: &Value) -> bool
    ensures { result ≡ unknown_key kind (view table.now) }
{
    has_other_key(kind, table) || has_idle_key(kind, table)
}

// Whether the table fails the test at the key of this rule.
fn fails(test: RuleTest, table: &Value, rule: &KeyRule) -> bool
    ensures { result ≡ fails test (view table.now) (rule_of rule.now) }
{
    match test {
        RuleTest::Mistyped => table
            .get(rule.key)
            .is_some_and(|value| !has_type(rule.form, value)),
        RuleTest::Misformed => table
            .get(rule.key)
            .is_some_and(|value| !has_form(rule.form, value)),
        RuleTest::Lacking => rule.is_required && table.get(rule.key).is_none(),
    }
}

// Whether it fails the test at the key of one of the rules.
fn any_fails(test: RuleTest, table: &Value, rules: &[KeyRule]) -> bool
    ensures { result ≡ list_any (λ r. fails test (view table.now) (rule_of r)) rules.now }
{
    rules.iter().any(|rule| fails(test, table, rule))
}

// Whether the test holds of a rule for tables of this sort.
fn any_fails_of(test: RuleTest, kind: TableKind, table: &Value) -> bool
    ensures { result ≡ list_any (fails test (view table.now)) (rules kind) }
{
    any_fails(test, table, rules_of(kind))
}

// Whether what should be a table of this kind isn't one, or a value in it has another type than its key's.
fn wrong_type(kind: TableKind, table: &Value) -> bool
    ensures { result ≡ wrong_type kind (view table.now) }
{
    !table.is_table() || any_fails_of(RuleTest::Mistyped, kind, table)
}

// Whether an action has no items.
#[tactic(auto, using(crate::proofs::lemmas::Lists::length_of_view))]
fn has_no_items(action: &Value) -> bool
    ensures { result ≡ (length (items_of (view action.now)) == 0) }
{
    items_of(action).is_empty()
}

/// Whether a key isn't there that should be beside the others.
pub(crate) fn lacks_more(kind: TableKind, table: &Value) -> bool
    ensures { result ≡ lacks_more kind (view table.now) }
{
    match kind {
        TableKind::Action => has_no_items(table),
        TableKind::Item => counts(table) && table.get("needle").is_none(),
        _ => false,
    }
}

// Whether a table of this kind lacks what it needs.
fn missing(kind: TableKind, table: &Value) -> bool
    ensures { result ≡ missing kind (view table.now) }
{
    any_fails_of(RuleTest::Lacking, kind, table) || lacks_more(kind, table)
}

// Whether a value in a table of this kind hasn't its key's form.
fn bad_name(kind: TableKind, table: &Value) -> bool
    ensures { result ≡ bad_name kind (view table.now) }
{
    any_fails_of(RuleTest::Misformed, kind, table)
}

/// Whether the test holds of the table, or of another value that stands where it should.
pub(crate) fn holds(test: TableTest, kind: TableKind, table: &Value) -> bool
    ensures { result ≡ holds test kind (view table.now) }
{
    match test {
        TableTest::UnknownKey => unknown_key(kind, table),
        TableTest::WrongType => wrong_type(kind, table),
        TableTest::Missing => missing(kind, table),
        TableTest::BadName => bad_name(kind, table),
    }
}
