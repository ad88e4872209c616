//! Whether entries are lawful.
ghost use Rattle.std.specs.Prelude.{◌≡◌, [], IfOk, OnOk, false, true};
ghost use Rattle.lock_journal.specs.Admitting.{HasAdmitted, IsRefused};
ghost use Rattle.lock_journal.specs.Changes.{changes_left};
ghost use Rattle.lock_journal.specs.Shown.{entry_shown};
ghost use Rattle.task_ordering.specs.Entries.{IsUnlawfulAt};

use crate::given_entries::Entries;
use lock_journal::{Book, Changes, Shown};
use resource_lock::{Change, Graph};
use std::alloc::{AllocError, Global};

/// The number of the first of these entries, counted from 1, that isn't allowed after those before it in a history of the graph. None
/// comes where all are lawful.
pub fn first_unlawful<H: Entries>(
    alloc: Global,
    graph: Graph,
    history: &H,
) -> Result<Option<u64>, AllocError>
    requires { H.whole history.now }
    ensures { IfOk result (IsUnlawfulAt graph (H.entries history.now)) }
{
    let mut book = Book::opening(alloc, graph, history.count(), 0)?;
    let first = admit_all(alloc, &mut book, history);
    drop(book);
    first
}

// Admits the entries in a book without entries, up to the first that isn't allowed.
fn admit_all<H: Entries>(
    alloc: Global,
    book: &mut Book,
    history: &H,
) -> Result<Option<u64>, AllocError>
    requires none { book.old.history ≡ [] }
    requires whole { H.whole history.now }
    ensures { IfOk result (IsUnlawfulAt book.old.graph (H.entries history.now)) }
{
    let mut changes = Vec::new(alloc);
    for place in 0..history.count() {
        // Of the book, that its entries are lawful and lead to its state.
        let _ = book.state();
        if !admit(book, history.at(place), &mut changes)? {
            return Ok(Some(place + 1));
        }
    }
    let _ = book.state();
    Ok(None)
}

// Adds an entry to the history where it is allowed, and answers whether it is. Its changes are put into the list on the way.
fn admit(book: &mut Book, entry: Shown<'_>, changes: &mut Vec<Change>) -> Result<bool, AllocError>
    ensures admitted { result ≡ Ok true → HasAdmitted book.old book.new (entry_shown entry.entry) }
    ensures refused { result ≡ Ok false → IsRefused book.old book.new (entry_shown entry.entry) }
{
    if entry.failed {
        return book.admit(entry.worker, &entry.kind, None);
    }
    list_changes(entry.changes, changes)?;
    book.admit(entry.worker, &entry.kind, Some(changes.as_slice()))
}

// Puts changes into a list, in place of those that it has.
fn list_changes(changes: Changes<'_>, list: &mut Vec<Change>) -> Result<(), AllocError>
    ensures { OnOk result (list.new.items ≡ changes_left changes.entry) }
{
    list.clear();
    list.extend(changes)
}
