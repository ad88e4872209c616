//! Whether what the workers of a run saw is what its history says.
use leases_cli::Ended;
use lock_journal::Book;
use lock_transforms::Kind;
use resource_lock::Change;
use run_watch::Watch;

// How many leases are out after a change.
fn leases_after(leases: u32, change: Change) -> u32 {
    match change {
        Change::Take => leases.saturating_add(1),
        Change::Give => leases.saturating_sub(1),
        _ => leases,
    }
}

// How many leases are out after so many entries, by what they changed.
fn leases_at(book: &Book, entries: u64) -> u32 {
    let mut leases = 0;
    for place in book.given()..book.len() {
        if place < entries {
            for change in book.entry(place).changes {
                leases = leases_after(leases, change);
            }
        }
    }
    leases
}

// The item that the entry at a place closed, if it closed one.
fn closed_at(book: &Book, place: u64) -> Option<u32> {
    if place < book.given() || place >= book.len() {
        return None;
    }
    let entry = book.entry(place);
    match entry.kind {
        Kind::Close(closed) if !entry.failed => Some(closed.unit),
        _ => None,
    }
}

// The number of the entry that closed an item, counted from 1, if one did.
fn closing_of(book: &Book, unit: u32) -> Option<u64> {
    for place in book.given()..book.len() {
        if closed_at(book, place) == Some(unit) {
            return Some(place.saturating_add(1));
        }
    }
    None
}

// Whether so many entries have the one that closed the item, and lead to so many leases.
fn holds(book: &Book, watch: &Watch) -> bool {
    matches!(closing_of(book, watch.unit), Some(closing) if closing <= watch.entries)
        && watch.entries <= book.len()
        && watch.leases == leases_at(book, watch.entries)
}

// How many items the book closed.
fn closed_items(book: &Book) -> u64 {
    let mut count = 0u64;
    for place in book.given()..book.len() {
        if closed_at(book, place).is_some() {
            count = count.saturating_add(1);
        }
    }
    count
}

/// How many items the run closed, where what was seen is one line for each, by rising unit, and each is as the history says.
pub(crate) fn watches_held(ended: &Ended) -> Option<u64> {
    let book = match &ended.book {
        Some(book) => book,
        None => return None,
    };
    let mut next = 0u64;
    for watch in &ended.watch {
        if u64::from(watch.unit) < next || !holds(book, watch) {
            return None;
        }
        next = u64::from(watch.unit) + 1;
    }
    let count = closed_items(book);
    (count == ended.watch.len() as u64).then_some(count)
}
