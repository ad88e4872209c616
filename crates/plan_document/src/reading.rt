//! Documents, expression by expression.
ghost use Rattle.std.specs.Prelude.{◌≡◌, ◌≤◌, [], ◌∷◌, ◌++◌, string_bytes, length, Err, IfOk, IsUtf8, None, OnOk, Some};
ghost use Rattle.toml.specs.Parse as spec;
ghost use Rattle.toml.specs.Parse.{parse_document};
ghost use Rattle.toml.specs.Tables as tables;
ghost use Rattle.toml_parser.specs.Reading.{Decodes, Gives, Reads, Shortens, key_view, path_view};
ghost use Rattle.plan_document.specs.Reading.{Edits, Defines, definition_view, nodes_view, expression_view, pair_expression};
ghost use Rattle.plan_document.specs.View.{members_view, view};

use crate::inner_values::{key_of_pair, value};
use crate::nodes::{Definition, Nodes, close, define_by_header};
use crate::values::{Table, Value};
use std::alloc::Global;
use toml_parser::text::{byte_at, first, skip, skip_blank, skip_ws};
use toml_parser::{ErrorKind, Key, ParseError, RECURSION_LIMIT, dotted_key};

/// Why a text gives no document.
#[derive(Clone, Copy, PartialEq, Eq)]
pub enum DocumentFail {
    /// It isn't UTF-8, or no document by the grammar and the rules for tables.
    NotToml,
    /// There wasn't enough memory. It says nothing of the text.
    NoMemory,
}

/// The table that a text is: exactly the one that `toml` reads in it (`parse_document`).
pub fn read(alloc: Global, bytes: &[u8]) -> Result<Table, DocumentFail>
    ensures ok { IfOk result (λ t. IsUtf8 bytes.now × (parse_document bytes.now ≡ Some (members_view t.items))) }
    ensures refused { result ≡ Err DocumentFail.NotToml → IsUtf8 bytes.now → parse_document bytes.now ≡ None }
{
    let Ok(text) = std::str::from_utf8(bytes) else {
        return Err(DocumentFail::NotToml);
    };
    match document(alloc, text) {
        Ok(table) => Ok(table),
        Err(ParseError::OutOfMemory) => Err(DocumentFail::NoMemory),
        Err(ParseError::At(_, _, _)) => Err(DocumentFail::NotToml),
    }
}

// The document of a text that is UTF-8.
fn document(alloc: Global, text: &str) -> Result<Table, ParseError>
    ensures { Gives (λ t. members_view t.items) result (spec.parse_document text.now) }
{
    let mut root = Nodes::new(alloc);
    let mut header = Vec::new(alloc);
    let mut unread = without_mark(text);
    'each: loop {
        let here = skip_blank(unread, true);
        if here.is_empty() {
            return Ok(close(alloc, root)?);
        }
        let ((key, what), behind) = whole_line(alloc, here)?;
        if let Err(kind) = define_in(alloc, &mut root, &mut header, key, what) {
            return Err(ParseError::between(kind, here, behind));
        }
        unread = behind;
    }
}

// The text without the byte order mark that it may begin with.
fn without_mark(text: &str) -> &str
    ensures rest { result.now ≡ spec.skip_bom text.now }
    ensures within { length result.now ≤ length text.now }
{
    let marked = first(text) == 0xEF && byte_at(text, 1) == 0xBB && byte_at(text, 2) == 0xBF;
    if marked { &text[3..] } else { text }
}

// Defines what a line says. `header` is the key of the last header, below which pairs stand.
fn define_in(
    alloc: Global,
    root: &mut Nodes,
    header: &mut Vec<String>,
    key: Key,
    what: Definition,
) -> Result<(), ErrorKind>
    ensures { Defines root.old header.old (key, what) root.new header.new result }
{
    match what {
        Definition::Pair(value) => define_pair(alloc, root, header, key, value),
        _ => define_table(alloc, root, header, key, what),
    }
}

fn define_pair(
    alloc: Global,
    root: &mut Nodes,
    header: &Vec<String>,
    key: Key,
    value: Value,
) -> Result<(), ErrorKind>
    ensures { Edits root.old root.new result (tables.along_header (path_view header.now.items) (tables.put (key_view key) (view value))) }
{
    let Key { path, last } = key;
    let pair = Definition::Pair(value);
    define_by_header(alloc, root, header, &path, last, pair)
}

fn define_table(
    alloc: Global,
    root: &mut Nodes,
    header: &mut Vec<String>,
    key: Key,
    what: Definition,
) -> Result<(), ErrorKind>
    ensures edit { Decodes (λ _. nodes_view root.new) result
        (tables.along_header (path_view key.path.items) (tables.at_key (string_bytes key.last) (definition_view what)) (nodes_view root.old)) }
    ensures section { OnOk result (path_view header.new.items ≡ path_view key.path.items ++ string_bytes key.last ∷ []) }
{
    let Key { path, last } = key;
    define_by_header(alloc, root, &path, &[], last.clone()?, what)?;
    *header = path;
    header.push(last)?;
    Ok(())
}

// An expression, behind which nothing stands in its line but a comment.
fn whole_line(alloc: Global, text: &str) -> Result<((Key, Definition), &str), ParseError>
    ensures value { Reads expression_view result (spec.line text.now) }
    ensures shorter { Shortens text.now result }
{
    let (said, behind) = expression(alloc, text)?;
    let end = skip_ws(behind);
    if !end.is_empty() && !matches!(first(end), b'\n' | b'\r' | b'#') {
        return Err(ParseError::at(ErrorKind::EndOfLine, end));
    }
    Ok((said, behind))
}

fn expression(alloc: Global, text: &str) -> Result<((Key, Definition), &str), ParseError>
    ensures value { Reads expression_view result (spec.expression text.now) }
    ensures shorter { Shortens text.now result }
{
    if first(text) != b'[' {
        return pair(alloc, text);
    }
    if byte_at(text, 1) != b'[' {
        let (key, behind) = header_key(alloc, skip(text, 1))?;
        return Ok(((key, Definition::Table), behind));
    }
    let (key, behind) = header_key(alloc, skip(text, 2))?;
    if first(behind) == b']' {
        Ok(((key, Definition::Element), skip(behind, 1)))
    } else {
        Err(ParseError::at(ErrorKind::UnclosedArrayTable, behind))
    }
}

fn pair(alloc: Global, text: &str) -> Result<((Key, Definition), &str), ParseError>
    ensures value { Reads expression_view result (pair_expression text.now) }
    ensures shorter { Shortens text.now result }
{
    let (key, at_value) = key_of_pair(alloc, text)?;
    let (value, behind) = value(alloc, at_value, RECURSION_LIMIT)?;
    Ok(((key, Definition::Pair(value)), behind))
}

// The key between the brackets of a header, and what is behind the first that closes it.
fn header_key(alloc: Global, text: &str) -> Result<(Key, &str), ParseError>
    ensures value { Reads key_view result (spec.header_key text.now) }
    ensures shorter { Shortens text.now result }
{
    let (key, behind) = dotted_key(alloc, skip_ws(text))?;
    if first(behind) == b']' {
        Ok((key, skip(behind, 1)))
    } else {
        Err(ParseError::at(ErrorKind::UnclosedTable, behind))
    }
}
