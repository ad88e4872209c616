//! The text of a history in parts.
use crate::history_text_tests::{PLAN, ends, fetches, open, sink, steps_aside};
use file_access::Page;
use history_parts::{write_kept, write_segment};
use history_text::{write_end, write_head, write_history};
use lock_journal::{Book, Segment};
use memory_files::MemorySink;
use plan_reader::{Plan, read_plan};
use std::alloc::{AllocError, Global};
use std::test::Fail;

// Writes the parts of a history in order, between its head and what the book keeps.
fn write_parts(book: &Book, parts: &[&Segment], sink: &mut MemorySink) -> bool {
    let mut page = Page::new();
    write_head(book, true, &mut page, sink);
    for part in parts {
        write_segment(part, &mut page, sink);
    }
    write_kept(book, &mut page, sink);
    write_end(book, &mut page, sink);
    page.end(sink).is_ok()
}

// Writes the history of a book that keeps all.
fn write_whole(book: &Book, sink: &mut MemorySink) -> bool {
    if book.given() > 0 {
        return false;
    }
    let mut page = Page::new();
    write_history(book, true, &mut page, sink);
    page.end(sink).is_ok()
}

// Has a book that gives away what it keeps, twice, come to the end of its run. False where a part would be empty.
fn runs_in_parts(book: &mut Book, first: &mut Segment, second: &mut Segment) -> bool {
    steps_aside(book)
        && book.give(first)
        && fetches(book)
        && book.give(second)
        && ends(book)
        && first.len() > 0
        && second.len() > 0
}

// Whether a book and the parts that it gave away are written as one that keeps all.
fn are_written_alike(
    alloc: Global,
    whole: &Book,
    book: &Book,
    parts: &[&Segment],
) -> Result<bool, AllocError> {
    let mut joined = sink(alloc, 10_000)?;
    let mut text = sink(alloc, 10_000)?;
    let are_written = write_parts(book, parts, &mut joined) && write_whole(whole, &mut text);
    Ok(are_written && joined.taken() == text.taken())
}

// Whether a run whose entries are given away is written as one whose book keeps all.
fn gives_the_same_text(
    alloc: Global,
    whole: &mut Book,
    book: &mut Book,
) -> Result<bool, AllocError> {
    let units = book.graph().units();
    let mut first = Segment::opening(alloc, units, 0, 0)?;
    let mut second = Segment::opening(alloc, units, 0, 0)?;
    let run = steps_aside(whole) && fetches(whole) && ends(whole);
    if !run || !runs_in_parts(book, &mut first, &mut second) {
        return Ok(false);
    }
    are_written_alike(alloc, whole, book, &[&first, &second])
}

// Whether two books of the plan, of which one gives its entries away, are written alike.
fn are_alike(alloc: Global, plan: &Plan) -> Result<bool, AllocError> {
    let mut whole = open(alloc, plan)?;
    let mut book = open(alloc, plan)?;
    gives_the_same_text(alloc, &mut whole, &mut book)
}

#[test]
fn the_texts_of_parts_are_the_text_of_the_whole(rt: HostRuntime) -> Result<(), Fail> {
    let plan = read_plan(rt.alloc(), PLAN)?;
    let are_alike = are_alike(rt.alloc(), &plan);
    drop(plan);
    assert!(rt; are_alike?);
    Ok(())
}
