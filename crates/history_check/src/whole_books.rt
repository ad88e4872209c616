//! The book of a history, with all its entries.
ghost use Rattle.std.specs.Prelude.{◌≡◌};

use crate::admitters::Admitter;
use lock_journal::Book;
use lock_transforms::Kind;
use resource_lock::{Change, Graph, WorkerId};
use std::alloc::{AllocError, Global};
use std::marker::Model;

/// A book that keeps all its entries: none was given away.
#[derive(Drop)]
pub struct WholeBook {
    book: Book,
}

impl Model for WholeBook {
    ghost use Rattle.std.specs.Prelude.{◌≡◌};
    ghost use Rattle.lock_journal.specs.BookView.{BookView};

    ghost Value = { BookView };

    ghost view = { λ w. w.book };

    ghost invariant = { λ w. w.book.given ≡ 0 };
}

impl WholeBook {
    /// The book itself.
    pub fn into_book(self) -> Book
        ensures value { result ≡ self }
        ensures whole { result.given ≡ 0 }
    {
        self.book
    }
}

impl Admitter for WholeBook {
    ghost use Rattle.history_check.specs.AdmitterView.{book_admits};

    ghost seen = { book_admits };

    fn open(alloc: Global, graph: Graph) -> Result<WholeBook, AllocError> {
        Ok(WholeBook {
            book: Book::opening(alloc, graph, 0, 0)?,
        })
    }

    fn admitted(&self) -> u64 {
        self.book.len()
    }

    fn admit_next(
        &mut self,
        worker: WorkerId,
        kind: &Kind,
        changes: Option<&[Change]>,
    ) -> Result<bool, AllocError> {
        self.book.admit(worker, kind, changes)
    }
}
