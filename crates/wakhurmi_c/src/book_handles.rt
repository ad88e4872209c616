//! What C holds of the book of an ended service.
ghost use Rattle.std.specs.Prelude.{◌≡◌, true, false};

use crate::held_books::HeldBook;
use crate::loose::Loose;
use core::mem::replace_with;
use lock_journal::Book;
use std::alloc::Global;

/// A handle of a book, which C holds. All bytes of an empty one are zero, or it was emptied by a call.
#[repr(C)]
#[derive(Drop)]
pub struct BookHandle {
    /// The book, where it is full.
    pub held: HeldBook,
    /// Whether it is full.
    pub full: bool,
    ghost tied: { full ≡ held.full },
}

impl BookHandle {
    /// Of a book.
    pub(crate) fn of(book: Box<Book, Global>) -> BookHandle
        ensures full { result.full ≡ true }
        ensures book { result.held.book ≡ book.value }
    {
        BookHandle {
            held: HeldBook::from_loose(Loose::of(book)),
            full: true,
        }
    }

    /// Takes the book out of a full handle.
    pub(crate) fn take(&mut self, alloc: Global) -> Box<Book, Global>
        requires { self.old.full ≡ true }
        ensures book { result.value ≡ self.old.held.book }
        ensures empty { self.new.full ≡ false }
    {
        replace_with(self, alloc, BookHandle::part).into_box()
    }

    /// An empty handle, and what was in this one.
    fn part(self, alloc: Global) -> (BookHandle, Loose<Book, Global>)
        requires { self.full ≡ true }
        ensures empty { result.0.full ≡ false }
        ensures book { result.1.value ≡ self.held.book }
    {
        let BookHandle { held, full: _ } = self;
        let (held, loose) = held.part(alloc);
        (BookHandle { held, full: false }, loose)
    }
}
