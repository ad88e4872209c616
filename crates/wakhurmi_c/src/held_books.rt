//! A boxed book as a pointer.
ghost use Rattle.std.specs.Prelude.{◌≡◌, Bool, true, false};
ghost use Rattle.lock_journal.specs.BookView.{BookView};

use crate::held::Opaque;
use crate::loose::Loose;
use lock_journal::Book;
use std::alloc::Global;
use std::marker::Model;

/// The pointer of a handle, with the book in its box or with nothing.
#[repr(C)]
#[derive(Drop)]
pub struct HeldBook {
    at: *mut Opaque,
    pub ghost full: { Bool },
    pub ghost book: { BookView },
}

impl Model for HeldBook {
    ghost use Rattle.std.specs.Prelude.{Bool};
    ghost use Rattle.libc.specs.Heap.{chunk};
    ghost use Rattle.std.specs.Box.Ownership.{box_owns};
    ghost use Rattle.lock_journal.specs.BookView.{BookView};
    ghost use Rattle.lock_journal.specs.contracts.books.Book.{the_row};
    ghost use Rattle.wakhurmi_c.specs.Owned.{owned_if};

    ghost also_owns = { λ h. owned_if h.full (box_owns chunk the_row h.at h.book) };
}

impl HeldBook {
    /// A full handle of the parts of a box.
    pub(crate) fn from_loose(loose: Loose<Book, Global>) -> HeldBook
        ensures full { result.full ≡ true }
        ensures book { result.book ≡ loose.value }
    {
        let Loose { at, alloc: _ } = loose;
        HeldBook {
            at: at as *mut Opaque,
        }
    }

    /// Parts the pointer from the book that it has: the pointer is empty then.
    pub(crate) fn part(self, alloc: Global) -> (HeldBook, Loose<Book, Global>)
        requires { self.full ≡ true }
        ensures empty { result.0.full ≡ false }
        ensures book { result.1.value ≡ self.book }
    {
        let HeldBook { at } = self;
        (
            HeldBook { at },
            Loose {
                at: at as *mut Book,
                alloc,
            },
        )
    }
}
