//! What files are opened by.
ghost use Rattle.std.specs.Prelude.{Option, IfSome};
ghost use Rattle.item_actions.specs.Files.{Folder, file_of};
ghost use Rattle.file_access.specs.Opening.{Opens};

use std::fs::{File, OpenFile};
use std::{io, rt};

/// Opens files by their names.
pub trait FileOpener {
    /// A file that was opened.
    type File: io::Read + OpenFile + Drop;

    /// The files by name, where known.
    ghost known: { Self → Option Folder };

    /// Opens the file of this name, to be read from its start.
    fn open_to_read(&self, name: &str) -> io::Result<Self::File>
        ensures { IfSome (known self.now) (λ files. Opens Self.File.remaining (file_of files name.now) result) };
}

/// The files of the current folder, of which nothing is known.
impl<R: rt::Files> FileOpener for R {
    ghost use Rattle.std.specs.Prelude.{None};

    type File = R::File;

    ghost known = { λ _. None };

    fn open_to_read(&self, name: &str) -> io::Result<R::File> {
        File::open(self, name)
    }
}
