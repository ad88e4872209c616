//! Tables under way: what headers and keys define in them, by TOML's rules.
ghost use Rattle.std.specs.Prelude.{◌≡◌, string_bytes, IfOk};
ghost use Rattle.toml.specs.Data.{table, push_item};
ghost use Rattle.toml.specs.Tables as spec;
ghost use Rattle.toml_parser.specs.Reading.{Decodes, path_view, key_view};
ghost use Rattle.plan_document.specs.Reading.{Edits, node_view, nodes_view, definition_view};
ghost use Rattle.plan_document.specs.View.{array_view, members_view, view};

use crate::values::{Table, Value};
use std::alloc::{AllocError, Global};
use std::collections::BTreeMap;
use std::mem;
use toml_parser::{ErrorKind, Key};

/// How a table came to be there.
#[derive(Clone, Copy)]
pub(crate) enum Origin {
    /// The header of a table below it named it.
    Implicit,
    /// A dotted key named it.
    Dotted,
    /// It has a header of its own.
    Header,
}

/// What stands under a key while the text is read.
#[derive(Drop)]
pub(crate) enum Node {
    /// A value as a pair gave it.
    Value(Value),
    /// A table, which can get more entries.
    Table(Origin, Nodes),
    /// An array of tables: those that are complete, and the last, which can get more entries.
    Tables(Vec<Value>, Nodes),
}

/// A table while the text is read. At any time only those on the way to one place are many, so they can be maps.
pub(crate) type Nodes = BTreeMap<String, Node>;

/// What is said of a key.
#[derive(Drop)]
pub(crate) enum Definition {
    /// It has this value.
    Pair(Value),
    /// It is the header of a table.
    Table,
    /// It is the header of one more table of an array.
    Element,
}

/// Defines a key in the table that the parts of a header, and from there those of a dotted key, lead to.
#[cycle(define_by_header)]
pub(crate) fn define_by_header(
    alloc: Global,
    nodes: &mut Nodes,
    header: &[String],
    dots: &[String],
    key: String,
    what: Definition,
) -> Result<(), ErrorKind>
    ensures { Edits nodes.old nodes.new result
        (spec.along_header (path_view header.now) (spec.along_dots (path_view dots.now) (spec.at_key (string_bytes key) (definition_view what)))) }
{
    let [part, below @ ..] = header else {
        return define_by_dots(alloc, nodes, dots, key, what);
    };
    match nodes.get_mut(part.as_str()) {
        None => {
            let mut fresh = Nodes::new(alloc);
            define_by_header(alloc, &mut fresh, below, dots, key, what)?;
            insert(nodes, part.clone()?, Node::Table(Origin::Implicit, fresh))
        }
        Some(place) => {
            let old = take(place);
            *place = with_header(alloc, old, below, dots, key, what)?;
            Ok(())
        }
    }
}

// The node with the key defined below it. A header leads through tables, and into the last table of an array.
#[cycle(define_by_header)]
fn with_header(
    alloc: Global,
    node: Node,
    below: &[String],
    dots: &[String],
    key: String,
    what: Definition,
) -> Result<Node, ErrorKind>
    ensures { Decodes node_view result (spec.header_node
        (spec.along_header (path_view below.now) (spec.along_dots (path_view dots.now) (spec.at_key (string_bytes key) (definition_view what))))
        (node_view node)) }
{
    match node {
        Node::Value(_) => Err(ErrorKind::Extend),
        Node::Table(origin, mut entries) => {
            define_by_header(alloc, &mut entries, below, dots, key, what)?;
            Ok(Node::Table(origin, entries))
        }
        Node::Tables(complete, mut last) => {
            define_by_header(alloc, &mut last, below, dots, key, what)?;
            Ok(Node::Tables(complete, last))
        }
    }
}

/// Defines a key in the table that the parts of a dotted key lead to.
#[cycle(define_by_dots)]
pub(crate) fn define_by_dots(
    alloc: Global,
    nodes: &mut Nodes,
    dots: &[String],
    key: String,
    what: Definition,
) -> Result<(), ErrorKind>
    ensures { Edits nodes.old nodes.new result (spec.along_dots (path_view dots.now) (spec.at_key (string_bytes key) (definition_view what))) }
{
    let [part, below @ ..] = dots else {
        return define(alloc, nodes, key, what);
    };
    match nodes.get_mut(part.as_str()) {
        None => {
            let mut fresh = Nodes::new(alloc);
            define_by_dots(alloc, &mut fresh, below, key, what)?;
            insert(nodes, part.clone()?, Node::Table(Origin::Dotted, fresh))
        }
        Some(place) => {
            let old = take(place);
            *place = with_dots(alloc, old, below, key, what)?;
            Ok(())
        }
    }
}

// The node with the key defined below it. A dotted key leads through tables that have no header.
#[cycle(define_by_dots)]
fn with_dots(
    alloc: Global,
    node: Node,
    below: &[String],
    key: String,
    what: Definition,
) -> Result<Node, ErrorKind>
    ensures { Decodes node_view result (spec.dot_node
        (spec.along_dots (path_view below.now) (spec.at_key (string_bytes key) (definition_view what)))
        (node_view node)) }
{
    match node {
        Node::Value(_) => Err(ErrorKind::Extend),
        Node::Tables(_, _) => Err(ErrorKind::DuplicateKey),
        Node::Table(origin, mut entries) => {
            if let Origin::Header = origin {
                return Err(ErrorKind::DuplicateKey);
            }
            define_by_dots(alloc, &mut entries, below, key, what)?;
            Ok(Node::Table(Origin::Dotted, entries))
        }
    }
}

/// Defines the key of a pair in the table of an inline table.
pub(crate) fn put(alloc: Global, nodes: &mut Nodes, key: Key, value: Value) -> Result<(), ErrorKind>
    ensures { Edits nodes.old nodes.new result (spec.put (key_view key) (view value)) }
{
    let Key { path, last } = key;
    define_by_dots(alloc, nodes, &path, last, Definition::Pair(value))
}

// Defines a key in this very table.
fn define(alloc: Global, nodes: &mut Nodes, key: String, what: Definition) -> Result<(), ErrorKind>
    ensures { Edits nodes.old nodes.new result (spec.at_key (string_bytes key) (definition_view what)) }
{
    match nodes.get_mut(key.as_str()) {
        None => insert(nodes, key, first_node(alloc, what)),
        Some(place) => {
            let old = take(place);
            *place = next_node(alloc, what, old)?;
            Ok(())
        }
    }
}

// What a key has that had nothing.
fn first_node(alloc: Global, what: Definition) -> Node
    ensures { node_view result ≡ spec.new_node (definition_view what) }
{
    match what {
        Definition::Pair(value) => Node::Value(value),
        Definition::Table => Node::Table(Origin::Header, Nodes::new(alloc)),
        Definition::Element => Node::Tables(Vec::new(alloc), Nodes::new(alloc)),
    }
}

// What a key has that had this node: a table that only headers below it named can have its own header, and an array
// of tables can have one more. Nothing else is said twice of a key.
fn next_node(alloc: Global, what: Definition, node: Node) -> Result<Node, ErrorKind>
    ensures { Decodes node_view result (spec.redefine (definition_view what) (node_view node)) }
{
    match (what, node) {
        (Definition::Table, Node::Table(Origin::Implicit, entries)) => {
            Ok(Node::Table(Origin::Header, entries))
        }
        (Definition::Element, Node::Tables(complete, last)) => {
            let complete = with_element(alloc, complete, last)?;
            Ok(Node::Tables(complete, Nodes::new(alloc)))
        }
        _ => Err(ErrorKind::DuplicateKey),
    }
}

// The node, which is put back once it is changed.
fn take(place: &mut Node) -> Node
    ensures { result ≡ place.old }
{
    mem::replace(place, Node::Value(Value::Boolean(false)))
}

fn insert(nodes: &mut Nodes, key: String, node: Node) -> Result<(), ErrorKind>
    ensures { Edits nodes.old nodes.new result (λ ns. Some (spec.insert (string_bytes key) (node_view node) ns)) }
{
    nodes.insert(key, node)?;
    Ok(())
}

/// The table as a row of entries by rising key, with room for no more than these.
#[cycle(close)]
pub(crate) fn close(alloc: Global, nodes: Nodes) -> Result<Table, AllocError>
    ensures { IfOk result (λ t. members_view t.items ≡ spec.close (nodes_view nodes)) }
{
    let mut entries = Vec::with_capacity(alloc, nodes.len())?;
    'nodes: for (key, node) in nodes {
        let value = close_node(alloc, node)?;
        entries.push((key, value))?;
    }
    Ok(entries)
}

#[cycle(close)]
fn close_node(alloc: Global, node: Node) -> Result<Value, AllocError>
    ensures { IfOk result (λ v. view v ≡ spec.close_node (node_view node)) }
{
    match node {
        Node::Value(value) => Ok(value),
        Node::Table(_, entries) => Ok(Value::Table(close(alloc, entries)?)),
        Node::Tables(complete, last) => Ok(Value::Array(with_element(alloc, complete, last)?)),
    }
}

// The tables of an array with the last one, which is complete now.
#[cycle(close)]
fn with_element(alloc: Global, complete: Vec<Value>, last: Nodes) -> Result<Vec<Value>, AllocError>
    ensures { IfOk result (λ a. array_view a ≡ push_item (array_view complete) (table (spec.close (nodes_view last)))) }
{
    let mut tables = complete;
    let element = close(alloc, last)?;
    tables.push(Value::Table(element))?;
    Ok(tables)
}
