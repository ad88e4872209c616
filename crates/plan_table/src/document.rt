//! The TOML document of a plan.
ghost use Rattle.std.specs.Prelude.{◌≡◌, true, map, Some, None, Ok, Err, IfOk, IfErr};
ghost use Rattle.plan_document.specs.View.{view};
ghost use Rattle.plan_table.specs.declared.refusals.PlanRefusal.TheVariants.{NotToml};
ghost use Rattle.plan_table.specs.Document.{document_of, document_or_not_toml, document_reading, RefusesDocument, ReadsDocument, have_numbers, is_numbered};

use crate::keys::{projects_of, requirements_of, tasks_of};
use crate::refusals::{PlanFail, PlanRefusal};
use item_actions::MAX_FILE_BYTES;
use plan_document::{DocumentFail, Value};
use std::alloc::Global;

/// The most projects, tasks or requirements of a document, so that a `u32` has the number of each.
pub const MAX_PARTS: usize = u32::MAX as usize;

// The document that `toml` reads in the bytes, or NotToml. A text of 13 KB can nest 6,400 deep by dotted keys, and reading and
// releasing it recurse: 2.25 MB of stack.
fn parse_document(alloc: Global, bytes: &[u8]) -> Result<Value, PlanFail>
    ensures { ReadsDocument result (document_or_not_toml (document_of bytes.now)) }
{
    match plan_document::read(alloc, bytes) {
        Ok(table) => Ok(Value::Table(table)),
        Err(DocumentFail::NotToml) => Err(PlanFail::Refused(PlanRefusal::NotToml)),
        Err(DocumentFail::NoMemory) => Err(PlanFail::NoMemory),
    }
}

// Whether each of the tables can have a number.
#[tactic(auto, using(crate::proofs::lemmas::Lists::length_of_view))]
fn have_numbers(values: &[Value]) -> bool
    ensures { result ≡ have_numbers (map view values.now) }
{
    values.len() <= MAX_PARTS
}

// Whether each project, task and requirements of the document can have a number.
fn is_numbered(document: &Value) -> bool
    ensures { result ≡ is_numbered (view document.now) }
{
    have_numbers(projects_of(document))
        && have_numbers(tasks_of(document))
        && have_numbers(requirements_of(document))
}

/// The document that a text is, as a table. TooLong comes exactly where the text has more than 4,194,304 bytes,
/// and NotToml exactly where it has no more and `toml` reads no document in it. NoMemory says nothing of the text.
///
/// A document that is read has at most `MAX_PARTS` projects, tasks and requirements each, so that each has a number: one
/// that had more would be answered with NoMemory.
pub fn read_document(alloc: Global, bytes: &[u8]) -> Result<Value, PlanFail>
    ensures document { ReadsDocument result (document_reading bytes.now) }
    ensures numbered { IfOk result (λ v. is_numbered (view v) ≡ true) }
{
    if bytes.len() as u64 > MAX_FILE_BYTES {
        return Err(PlanFail::Refused(PlanRefusal::TooLong));
    }
    let document = parse_document(alloc, bytes)?;
    if !is_numbered(&document) {
        return Err(PlanFail::NoMemory);
    }
    Ok(document)
}
