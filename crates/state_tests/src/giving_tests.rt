//! Books that give their entries away while they go on.
use crate::book_tests::{are_alike, draw, opening, run, tell_the_same};
use crate::numbers::Numbers;
use lock_journal::{Book, Segment};
use std::alloc::AllocError;

// Whether a segment has the entries of its numbers, as a book has them that keeps all.
fn has_entries_of(segment: &Segment, whole: &Book) -> bool {
    if whole.given() > 0 || segment.end() > whole.len() {
        return false;
    }
    for place in segment.before()..segment.end() {
        if place - segment.before() >= segment.len() || place >= whole.len() {
            return false;
        }
        if !are_alike(
            &segment.entry(place - segment.before()),
            &whole.entry(place),
        ) {
            return false;
        }
    }
    true
}

// Whether a book gives all that it keeps to an empty segment, and keeps none.
fn gives(book: &mut Book, whole: &Book, segment: &mut Segment) -> bool {
    let (given, len) = (book.given(), book.len());
    let room = segment.spare_entries();
    book.give(segment)
        && book.given() == len
        && book.len() == len
        && book.spare_entries() == room
        && segment.before() == given
        && segment.end() == len
        && has_entries_of(segment, whole)
}

// Whether a book gives nothing to a segment with entries.
fn keeps_its_own(book: &mut Book, segment: &mut Segment) -> bool {
    let (given, end) = (book.given(), segment.end());
    segment.len() == 0 || (!book.give(segment) && book.given() == given && segment.end() == end)
}

// Whether a book that gives its entries away now and then goes the way of one that keeps all. The segment serves again and again.
fn goes_on_as_before(
    book: &mut Book,
    whole: &mut Book,
    segment: &mut Segment,
) -> Result<bool, AllocError> {
    let mut numbers = Numbers { state: 2 };
    for _ in 0..3_000 {
        let (worker, kind) = draw(&mut numbers);
        if run(book, worker, kind)? != run(whole, worker, kind)? || !tell_the_same(book, whole) {
            return Ok(false);
        }
        if numbers.below(5) == 0 {
            segment.clear();
            if !gives(book, whole, segment) || !keeps_its_own(book, segment) {
                return Ok(false);
            }
        }
    }
    Ok(true)
}

#[test]
fn a_book_that_gives_its_entries_away_goes_on_as_before(rt: HostRuntime) -> Result<(), AllocError> {
    let mut book = opening(&rt, rt.alloc())?;
    let mut whole = opening(&rt, rt.alloc())?;
    let mut segment = Segment::opening(rt.alloc(), book.graph().units(), 16, 64)?;
    assert!(rt; goes_on_as_before(&mut book, &mut whole, &mut segment)?);
    // The walk goes through the whole plan, and most of its entries were given away.
    assert!(rt; book.all_tasks_ended() && book.given() > 100);
    Ok(())
}

#[test]
fn a_segment_for_another_graph_gets_nothing(rt: HostRuntime) -> Result<(), AllocError> {
    let mut book = opening(&rt, rt.alloc())?;
    let mut segment = Segment::opening(rt.alloc(), 1, 16, 64)?;
    assert!(rt; book.graph().units() != 1);
    assert!(rt; !book.give(&mut segment) && book.given() == 0 && segment.len() == 0);
    Ok(())
}
