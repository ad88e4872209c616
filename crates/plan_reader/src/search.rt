//! The refusal of a row at the first place at which its test holds.
ghost use Rattle.std.specs.Prelude.{◌≡◌, true};
ghost use Rattle.plan_document.specs.View.{view};
ghost use Rattle.plan_table.specs.Document.{is_numbered};
ghost use Rattle.plan_reader.specs.Names.{name_lists, names_in};
ghost use Rattle.plan_reader.specs.Rows.{holds};
ghost use Rattle.plan_reader.specs.Search.{table_at, refusal_of, row_refusal};

use crate::limits::excess;
use crate::names::Names;
use crate::rows::{Row, holds};
use plan_document::Value;
use plan_table::{Part, Place, PlaceTest, PlanRefusal, Which, first_place, places};

/// The test of a row, where these are the names.
#[derive(Clone, Copy)]
struct RowTest<'t, 'n, 'a> {
    row: Row,
    names: &'t Names<'n, 'a>,
}

impl PlaceTest for RowTest<'_, '_, '_> {
    ghost test = { λ t. holds (name_lists t.names.now) t.row };

    fn holds(&self, part: Part, table: &Value) -> bool {
        holds(self.row, self.names, part, table)
    }
}

// The table at a place, and the document where there is none.
fn table_at<'a>(document: &'a Value, place: Place) -> &'a Value
    ensures { view result.now ≡ table_at (view document.entry.now) place }
{
    places(place.part, document)
        .get(place.number as usize)
        .unwrap_or(document)
}

// The refusal of a row at a place of this table.
fn refusal_of(row: Row, table: &Value, place: Place) -> PlanRefusal
    ensures { result ≡ refusal_of row (view table.now) place }
{
    match row {
        Row::NoSuchProject => PlanRefusal::NoSuchProject(place),
        Row::NoSuchTask => PlanRefusal::NoSuchTask(place),
        Row::ReleaseNotLast => PlanRefusal::ReleaseNotLast(place),
        Row::ClassLoader => PlanRefusal::ClassLoader(place),
        Row::TooMany => {
            let which = excess(place.part, table).unwrap_or(Which::Units);
            PlanRefusal::TooMany(which, place)
        }
        Row::BadRequirements => PlanRefusal::BadRequirements(place),
    }
}

/// The refusal of a row at its first place.
pub(crate) fn row_refusal(row: Row, names: &Names, document: &Value) -> Option<PlanRefusal>
    requires names { name_lists names.now ≡ names_in (view document.now) }
    requires numbered { is_numbered (view document.now) ≡ true }
    ensures { result ≡ row_refusal (view document.now) row }
{
    match first_place(&RowTest { row, names }, document) {
        Some(place) => Some(refusal_of(row, table_at(document, place), place)),
        None => None,
    }
}
