//! The first refusal that the tables of a plan give by themselves.
ghost use Rattle.std.specs.Prelude.{◌≡◌, true, is_none, option_map};
ghost use Rattle.std.specs.List.{list_any};
ghost use Rattle.plan_document.specs.View.{view};
ghost use Rattle.plan_table.specs.Document.{is_numbered};
ghost use Rattle.plan_table.specs.Keys.{actions_of, items_of};
ghost use Rattle.plan_table.specs.Look.{is_found};
ghost use Rattle.plan_table.specs.Search.{in_action, in_part, holds_at, first_place, refusal_of, table_refusal};

use crate::keys::{actions_of, items_of};
use crate::look::{Sought, is_found};
use crate::refusals::{Part, Place, PlanRefusal};
use crate::rules::TableKind;
use crate::search::{PlaceTest, first_place};
use crate::tables::TableTest;
use plan_document::Value;

// Whether what is sought stands in one of the items.
fn is_in_items(sought: Sought, items: &[Value]) -> bool
    ensures { result ≡ list_any (λ v. is_found sought TableKind.Item (view v)) items.now }
{
    items
        .iter()
        .any(|item| is_found(sought, TableKind::Item, item))
}

// Whether it stands in an item of the action.
fn is_in_items_of(sought: Sought, action: &Value) -> bool
    ensures { result ≡ list_any (is_found sought TableKind.Item) (items_of (view action.now)) }
{
    is_in_items(sought, items_of(action))
}

// Whether it stands in the action or in one of its items.
fn is_in_action(sought: Sought, action: &Value) -> bool
    ensures { result ≡ in_action (is_found sought) (view action.now) }
{
    is_found(sought, TableKind::Action, action) || is_in_items_of(sought, action)
}

// Whether it stands in one of the actions or in one of their items.
fn is_in_actions(sought: Sought, actions: &[Value]) -> bool
    ensures { result ≡ list_any (λ v. in_action (is_found sought) (view v)) actions.now }
{
    actions.iter().any(|action| is_in_action(sought, action))
}

// Whether it stands in an action of the task or in one of their items.
fn is_in_actions_of(sought: Sought, task: &Value) -> bool
    ensures { result ≡ list_any (in_action (is_found sought)) (actions_of (view task.now)) }
{
    is_in_actions(sought, actions_of(task))
}

// What stands in an action or an item is found at its task.
impl PlaceTest for Sought {
    ghost test = { λ s. in_part (is_found s) };

    fn holds(&self, part: Part, table: &Value) -> bool {
        match part {
            Part::Plan => is_found(*self, TableKind::Document, table),
            Part::Project => is_found(*self, TableKind::Project, table),
            Part::Task => {
                is_found(*self, TableKind::Task, table) || is_in_actions_of(*self, table)
            }
            Part::Requirements => is_found(*self, TableKind::Requirements, table),
        }
    }
}

// The refusal by one test, at the first place at which it holds.
fn refusal_by(test: TableTest, document: &Value) -> Option<PlanRefusal>
    requires { is_numbered (view document.now) ≡ true }
    ensures { result ≡ option_map (refusal_of test) (first_place (holds_at test) (view document.now)) }
{
    match first_place(&Sought::One(test), document) {
        Some(place) => Some(refusal_of(test, place)),
        None => None,
    }
}

// The refusal that a test gives at a place.
fn refusal_of(test: TableTest, place: Place) -> PlanRefusal
    ensures { result ≡ refusal_of test place }
{
    match test {
        TableTest::UnknownKey => PlanRefusal::UnknownKey(place),
        TableTest::WrongType => PlanRefusal::WrongType(place),
        TableTest::Missing => PlanRefusal::Missing(place),
        TableTest::BadName => PlanRefusal::BadName(place),
    }
}

// Whether one look at each table finds nothing to refuse.
#[tactic(auto, using(crate::proofs::lemmas::LookLaws::nothing_refused))]
fn refuses_nothing(document: &Value) -> bool
    requires { is_numbered (view document.now) ≡ true }
    ensures { result ≡ is_none (table_refusal (view document.now)) }
{
    first_place(&Sought::Anything, document).is_none()
}

/// The first refusal among UnknownKey, WrongType, Missing and BadName that the tables of a document give, at its
/// first place. It takes no memory. `read_document` gives documents that are numbered.
///
/// Each table is looked at once. Only where that look finds something, the first refusal is searched.
pub fn table_refusal(document: &Value) -> Option<PlanRefusal>
    requires { is_numbered (view document.now) ≡ true }
    ensures { result ≡ table_refusal (view document.now) }
{
    if refuses_nothing(document) {
        return None;
    }
    if let Some(refusal) = refusal_by(TableTest::UnknownKey, document) {
        return Some(refusal);
    }
    if let Some(refusal) = refusal_by(TableTest::WrongType, document) {
        return Some(refusal);
    }
    if let Some(refusal) = refusal_by(TableTest::Missing, document) {
        return Some(refusal);
    }
    refusal_by(TableTest::BadName, document)
}
