//! The first place of a plan at which a test holds.
ghost use Rattle.std.specs.Prelude.{◌≡◌, Bool, true, map};
ghost use Rattle.std.specs.List.{position};
ghost use Rattle.toml.specs.Data.{Data};
ghost use Rattle.plan_document.specs.View.{view};
ghost use Rattle.plan_table.specs.declared.refusals.Part.{Part};
ghost use Rattle.plan_table.specs.Document.{is_numbered};
ghost use Rattle.plan_table.specs.Search.{places, first_in, first_place};

use crate::keys::{projects_of, requirements_of, tasks_of};
use crate::refusals::{Part, Place};
use plan_document::Value;
use std::slice;

/// A test of the tables of a plan.
pub trait PlaceTest {
    /// Of which table of which part it holds.
    ghost test: { Self → Part → Data → Bool };

    /// Whether it holds of a table of this part, or of another value that stands where it should.
    fn holds(&self, part: Part, table: &Value) -> bool
        ensures { result ≡ test self.now part (view table.now) };
}

/// The tables of one part, by number. That of the plan is the document itself.
pub fn places<'a>(part: Part, document: &'a Value) -> &'a [Value]
    ensures { map view result.now ≡ places (view document.entry.now) part }
{
    match part {
        Part::Plan => slice::from_ref(document),
        Part::Project => projects_of(document),
        Part::Task => tasks_of(document),
        Part::Requirements => requirements_of(document),
    }
}

// The place of the first table of which the test holds.
fn position_in<T: PlaceTest>(test: &T, part: Part, tables: &[Value]) -> Option<usize>
    ensures { result ≡ position (λ v. T.test test.now part (view v)) tables.now }
{
    tables.iter().position(|table| test.holds(part, table))
}

// The number of the first table of this part in the document of which the test holds.
fn first_number<T: PlaceTest>(test: &T, part: Part, document: &Value) -> Option<usize>
    ensures { result ≡ position (T.test test.now part) (places (view document.now) part) }
{
    position_in(test, part, places(part, document))
}

// The first place of this part at which the test holds.
fn first_in<T: PlaceTest>(test: &T, part: Part, document: &Value) -> Option<Place>
    requires { is_numbered (view document.now) ≡ true }
    ensures { result ≡ first_in (T.test test.now) (view document.now) part }
{
    match first_number(test, part, document) {
        Some(number) => Some(Place::new(part, number)),
        None => None,
    }
}

/// The first place at which the test holds, and None where it holds nowhere. The plan comes first, then the projects,
/// the tasks and the requirements, each by number. It takes no memory. `read_document` gives documents that are
/// numbered.
pub fn first_place<T: PlaceTest>(test: &T, document: &Value) -> Option<Place>
    requires { is_numbered (view document.now) ≡ true }
    ensures { result ≡ first_place (T.test test.now) (view document.now) }
{
    if let Some(place) = first_in(test, Part::Plan, document) {
        return Some(place);
    }
    if let Some(place) = first_in(test, Part::Project, document) {
        return Some(place);
    }
    if let Some(place) = first_in(test, Part::Task, document) {
        return Some(place);
    }
    first_in(test, Part::Requirements, document)
}
