ghost use Rattle.std.specs.Prelude.{◌≤◌, Bool, Some};
ghost use Rattle.plan_reader.specs.declared.limits.TheConstants.{MAX_LEASES, MAX_WORKERS};
ghost use Rattle.history_text.specs.Fitting.{EntriesFit};
ghost use Rattle.history_text.specs.Text.{history_text};
ghost use Rattle.history_text.specs.HistoryView.{book_history};
ghost use Rattle.history_text.specs.Grammar.{IsHistoryText};

use lock_journal::Book;

/// Each entry of a book has a line. The whole history has a text of version 2, that of its graph and its entries, where the graph has no more
/// workers and leases than the head of a history says.
pub fn every_book_has_a_text(book: &Book)
    ensures entries { EntriesFit book.now.history }
    ensures text { (parallel : Bool) → book.now.graph.workers ≤ MAX_WORKERS → book.now.graph.max_leases ≤ MAX_LEASES → IsHistoryText
        (history_text book.now.graph.workers book.now.graph.max_leases parallel (Some book.now.graph.locks) book.now.history)
        (book_history book.now parallel) }
{
    // Of the graph, that it fits; of the state, that the history that leads to it is lawful.
    let _ = book.graph();
    let _ = book.state();
}
