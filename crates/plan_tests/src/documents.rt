use crate::document_texts::{DOCUMENTS, NO_DOCUMENTS};
use plan_document::{DocumentFail, Value};
use std::alloc::{AllocError, Global};
use std::test::Fail;

/// A value that `plan_document` read, and what `toml` read in its place.
type Pair<'a> = (&'a Value, &'a toml::Value);

/// No document of these tests has more values.
const MOST_VALUES: usize = 1_000;

// Whether both are no number, or the same one: zero has two signs.
fn is_same_float(a: f64, b: f64) -> bool {
    if a.is_nan() {
        return b.is_nan();
    }
    if b.is_nan() {
        return false;
    }
    a == b && a.is_sign_negative() == b.is_sign_negative()
}

// Whether two values without others below them are the same.
fn same_plain(ours: &Value, theirs: &toml::Value) -> bool {
    match (ours, theirs) {
        (Value::String(a), toml::Value::String(b)) => a.as_str() == b.as_str(),
        (Value::Integer(a), toml::Value::Integer(b)) => *a == *b,
        (Value::Float(a), toml::Value::Float(b)) => is_same_float(*a, *b),
        (Value::Boolean(a), toml::Value::Boolean(b)) => *a == *b,
        (Value::Datetime(a), toml::Value::Datetime(b)) => *a == *b,
        _ => false,
    }
}

// Adds the pairs of two arrays, and says whether they are as long.
fn add_items<'a>(
    pairs: &mut Vec<Pair<'a>>,
    ours: &'a [Value],
    theirs: &'a [toml::Value],
) -> Result<bool, AllocError> {
    for pair in ours.iter().zip(theirs) {
        pairs.push(pair)?;
    }
    Ok(ours.len() == theirs.len())
}

// Adds the pairs of two tables, and says whether their keys are the same and stand in the same order.
fn add_entries<'a>(
    pairs: &mut Vec<Pair<'a>>,
    ours: &'a [(String, Value)],
    theirs: &'a toml::Table,
) -> Result<bool, AllocError> {
    for (entry, (key, value)) in ours.iter().zip(theirs.iter()) {
        if entry.0.as_str() != key.as_str() {
            return Ok(false);
        }
        pairs.push((&entry.1, value))?;
    }
    Ok(ours.len() == theirs.len())
}

// Whether the two values are the same, with all that stands below them.
fn are_same(alloc: Global, ours: &Value, theirs: &toml::Value) -> Result<bool, AllocError> {
    let mut pairs = Vec::new(alloc);
    pairs.push((ours, theirs))?;
    for _ in 0..MOST_VALUES {
        let Some(pair) = pairs.pop() else {
            return Ok(true);
        };
        let same = match pair {
            (Value::Array(a), toml::Value::Array(b)) => add_items(&mut pairs, a, b)?,
            (Value::Table(a), toml::Value::Table(b)) => add_entries(&mut pairs, a, b)?,
            (a, b) => same_plain(a, b),
        };
        if !same {
            return Ok(false);
        }
    }
    Ok(false)
}

// Whether both read a document in the text, and the same one.
fn is_read_alike(alloc: Global, text: &str) -> Result<bool, AllocError> {
    match (
        plan_document::read(alloc, text.as_bytes()),
        toml::table_from_slice(alloc, text.as_bytes()),
    ) {
        (Ok(ours), Ok(theirs)) => are_same(alloc, &Value::Table(ours), &toml::Value::Table(theirs)),
        _ => Ok(false),
    }
}

// Whether both read no document in the bytes.
fn is_refused_alike(alloc: Global, bytes: &[u8]) -> bool {
    matches!(
        plan_document::read(alloc, bytes),
        Err(DocumentFail::NotToml)
    ) && toml::table_from_slice(alloc, bytes).is_err()
}

#[test]
fn documents_are_those_that_toml_reads(rt: HostRuntime) -> Result<(), Fail> {
    for text in &DOCUMENTS {
        assert!(rt; is_read_alike(rt.alloc(), text)?, "{text}");
    }
    Ok(())
}

#[test]
fn no_document_is_read_where_toml_reads_none(rt: HostRuntime) -> Result<(), Fail> {
    for text in &NO_DOCUMENTS {
        assert!(rt; is_refused_alike(rt.alloc(), text.as_bytes()), "{text}");
    }
    assert!(rt; is_refused_alike(rt.alloc(), b"a = '\xff'"));
    Ok(())
}

// An array in an array, and so on, to this depth.
fn nested(alloc: Global, depth: usize) -> Result<String, AllocError> {
    let mut text = String::new(alloc);
    text.push_str("a = ")?;
    for _ in 0..depth {
        text.push_str("[")?;
    }
    for _ in 0..depth {
        text.push_str("]")?;
    }
    Ok(text)
}

#[test]
fn arrays_nest_as_deep_as_in_toml(rt: HostRuntime) -> Result<(), Fail> {
    let deepest = nested(rt.alloc(), 80)?;
    assert!(rt; is_read_alike(rt.alloc(), deepest.as_str())?);
    let too_deep = nested(rt.alloc(), 81)?;
    assert!(rt; is_refused_alike(rt.alloc(), too_deep.as_bytes()));
    Ok(())
}
