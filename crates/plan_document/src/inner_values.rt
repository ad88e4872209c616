//! The value of a pair: strings, numbers, arrays and inline tables.
ghost use Rattle.std.specs.Prelude.{◌≡◌, ℕ, ◌<◌, ◌≤◌, length, IfOk};
ghost use Rattle.toml.specs.Data.{no_items};
ghost use Rattle.toml.specs.Parse as spec;
ghost use Rattle.toml.specs.Tables.{no_nodes};
ghost use Rattle.toml_parser.specs.Reading.{Gives, Reads, Shortens, key_view};
ghost use Rattle.plan_document.specs.View.{view, array_view, table_view};

use crate::nodes::{Nodes, close, put};
use crate::values::{Table, Value};
use std::alloc::Global;
use toml_parser::text::{first, skip, skip_blank, skip_ws};
use toml_parser::{
    ErrorKind, Key, ParseError, Scalar, dotted_key, quoted, starts_string, unquoted,
};

/// The value at the front of a text, in which arrays and inline tables stand at most so many within one another.
#[cycle(value)]
pub(crate) fn value(alloc: Global, text: &str, levels: usize) -> Result<(Value, &str), ParseError>
    ensures value { Reads view result (spec.val levels text.now) }
    ensures shorter { Shortens text.now result }
{
    match first(text) {
        b'[' | b'{' if levels == 0 => Err(ParseError::at(ErrorKind::Recursion, text)),
        b'[' => {
            let (items, rest) = items(alloc, skip(text, 1), levels - 1)?;
            Ok((Value::Array(items), rest))
        }
        b'{' => {
            let (entries, rest) = entries(alloc, skip(text, 1), levels - 1)?;
            Ok((Value::Table(entries), rest))
        }
        _ => plain(alloc, text),
    }
}

// A value without brackets.
fn plain(alloc: Global, text: &str) -> Result<(Value, &str), ParseError>
    ensures value { Reads view result (spec.atom text.now) }
    ensures shorter { Shortens text.now result }
{
    if !starts_string(text) {
        let (scalar, rest) = unquoted(alloc, text)?;
        return Ok((of_scalar(scalar), rest));
    }
    let (string, rest) = quoted(alloc, text)?;
    Ok((Value::String(string), rest))
}

fn of_scalar(scalar: Scalar) -> Value
    ensures { view result ≡ spec.scalar_data scalar }
{
    match scalar {
        Scalar::Integer(number) => Value::Integer(number),
        Scalar::Float(number) => Value::Float(number),
        Scalar::Boolean(says) => Value::Boolean(says),
        Scalar::Datetime(time) => Value::Datetime(time),
    }
}

// What stands between `[` and its `]`.
#[cycle(value)]
fn items(alloc: Global, text: &str, levels: usize) -> Result<(Vec<Value>, &str), ParseError>
    ensures value { (n : ℕ) → length text.now < n → Reads array_view result (spec.items (spec.val levels) n no_items text.now) }
    ensures shorter { Shortens text.now result }
{
    let mut read = Vec::new(alloc);
    let mut unread = text;
    'each: loop {
        let here = skip_blank(unread, true);
        if first(here) == b']' {
            return Ok((read, skip(here, 1)));
        }
        let (item, behind) = value(alloc, here, levels)?;
        read.push(item)?;
        unread = past_comma(behind, b']', ErrorKind::Array)?;
    }
}

// What stands between `{` and its `}`.
#[cycle(value)]
fn entries(alloc: Global, text: &str, levels: usize) -> Result<(Table, &str), ParseError>
    ensures value { (n : ℕ) → length text.now < n → Reads table_view result (spec.members (spec.val levels) n no_nodes text.now) }
    ensures shorter { Shortens text.now result }
{
    let mut read = Nodes::new(alloc);
    let mut unread = text;
    'each: loop {
        let here = skip_blank(unread, true);
        if first(here) == b'}' {
            return Ok((close(alloc, read)?, skip(here, 1)));
        }
        let (key, at_value) = key_of_pair(alloc, here)?;
        let (value, behind) = value(alloc, at_value, levels)?;
        if let Err(kind) = put(alloc, &mut read, key, value) {
            return Err(ParseError::between(kind, here, at_value));
        }
        unread = past_comma(behind, b'}', ErrorKind::InlineTable)?;
    }
}

// The text behind a comma. The last element needs none, so the closing bracket serves as well, and stays.
fn past_comma(text: &str, closing: u8, missing: ErrorKind) -> Result<&str, ParseError>
    ensures value { Gives (λ rest. rest.now) result (spec.after_element closing text.now) }
    ensures within { IfOk result (λ rest. length rest.now ≤ length text.now) }
{
    let here = skip_blank(text, true);
    match first(here) {
        b',' => Ok(skip(here, 1)),
        byte if byte == closing => Ok(here),
        _ => Err(ParseError::at(missing, here)),
    }
}

/// The key of a pair, with the text at its value.
pub(crate) fn key_of_pair(alloc: Global, text: &str) -> Result<(Key, &str), ParseError>
    ensures value { Reads key_view result (spec.key_equals text.now) }
    ensures shorter { Shortens text.now result }
{
    let (key, behind) = dotted_key(alloc, text)?;
    if first(behind) == b'=' {
        Ok((key, skip_ws(skip(behind, 1))))
    } else {
        Err(ParseError::at(ErrorKind::MissingEquals, behind))
    }
}
