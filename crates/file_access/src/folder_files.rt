//! The files of a real folder.
ghost use Rattle.std.specs.Prelude.{◌≡◌, Some, IfOk, IfSome};
ghost use Rattle.item_actions.specs.Files.{file_of};
ghost use Rattle.file_access.specs.Opening.{Opens};
ghost use Rattle.file_access.specs.ReadView.{IsWithin, ReadsFrom, reading, read_view};

use crate::file_actions::act_on_file;
use crate::file_bytes::FileBytes;
use crate::files::{DeskFail, Files, Read};
use crate::openers::FileOpener;
use crate::retries::Retries;
use item_actions::{ItemAction, Outcome, Text};
use std::alloc::Global;
use std::fs::OpenFile;
use std::io::ErrorKind;
use std::marker::Model;
use std::{io, mem};

/// The files that an opener opens, as the runtime those of the current folder. It doesn't tell how many reads it made.
#[derive(Drop)]
pub struct FolderFiles<R: Drop> {
    opener: R,
    // What the next file is read into. It holds the last one's memory, where that was given back.
    spare: FileBytes,
    faults: u64,
}

impl<R: Drop> Model for FolderFiles<R> {
    ghost use Rattle.file_access.specs.FolderFilesView.{FolderFilesView};

    ghost Value = { FolderFilesView R };

    ghost view = { λ d. record { opener = d.opener; faults = d.faults } };
}

impl<R: Drop> FolderFiles<R> {
    /// A reader by this opener, as by a runtime.
    pub fn new(opener: R, alloc: Global) -> FolderFiles<R>
        ensures { result ≡ record { opener = opener; faults = 0 } }
    {
        FolderFiles {
            opener,
            spare: FileBytes::new(alloc),
            faults: 0,
        }
    }

    /// How many reads failed.
    pub fn count(&self) -> u64
        ensures { result ≡ self.now.faults }
    {
        self.faults
    }
}

impl<R: FileOpener + Drop> Files for FolderFiles<R> {
    ghost use Rattle.std.specs.Prelude.{None};

    ghost files = { λ d. R.known d.opener };

    ghost faults = { λ d. d.faults };

    ghost reads = { λ _. None };

    ghost keeps = { λ _ _. Unit };

    fn read(&mut self, alloc: Global, name: &Text, limit: u64) -> Result<Read, DeskFail> {
        let read = read_file(&self.opener, alloc, name, limit, &mut self.spare);
        if matches!(read, Err(DeskFail::Failed)) {
            self.faults = self.faults.saturating_add(1);
        }
        read
    }

    fn act_on(
        &mut self,
        _alloc: Global,
        action: &ItemAction,
        name: &Text,
    ) -> Result<Outcome, DeskFail> {
        let outcome = act_on_file(&self.opener, action, name, &mut self.spare);
        if matches!(outcome, Err(DeskFail::Failed)) {
            self.faults = self.faults.saturating_add(1);
        }
        outcome
    }

    fn give_back(&mut self, bytes: FileBytes) {
        self.spare = bytes;
    }
}

/// Reads the file of this name, as the opener finds it, if it has at most `limit` bytes. The bytes handed out take the memory
/// of the spare ones with them, which are forgotten. Nothing is counted here: the caller counts the fault where it answers
/// Failed.
pub fn read_file<O: FileOpener>(
    opener: &O,
    alloc: Global,
    name: &Text,
    limit: u64,
    spare: &mut FileBytes,
) -> Result<Read, DeskFail>
    ensures within { IfOk result (λ read. IsWithin limit (read_view read)) }
    ensures known { ReadsFrom (O.known opener.now) name.now limit result }
{
    let mut retries = Retries::new();
    match open(opener, name.as_str(), &mut retries) {
        Ok(mut file) => read_open(&mut file, alloc, limit, spare, &mut retries),
        Err(error) if error.kind() == ErrorKind::NotFound => Ok(Read::NotThere),
        Err(error) => Err(error.into()),
    }
}

/// Opens a file, again where the call was interrupted.
pub(crate) fn open<O: FileOpener>(
    opener: &O,
    name: &str,
    retries: &mut Retries,
) -> io::Result<O::File>
    ensures { IfSome (O.known opener.now) (λ files. Opens O.File.remaining (file_of files name.now) result) }
{
    loop {
        match opener.open_to_read(name) {
            Err(error) if retries.allow(&error) => {}
            opened => return opened,
        }
    }
}

// Reads an open file to its end, if it has at most `limit` bytes. The buffer's memory goes with the bytes.
//
// The size is asked for only where the first room is full. So a small file costs four system calls. Room that grows eightfold with
// no question saves no call for a file of some kilobytes, and clears up to eight times its bytes.
fn read_open<F: io::Read + OpenFile>(
    file: &mut F,
    alloc: Global,
    limit: u64,
    buffer: &mut FileBytes,
    retries: &mut Retries,
) -> Result<Read, DeskFail>
    ensures within { IfOk result (λ read. IsWithin limit (read_view read)) }
    ensures known { IfSome (F.remaining file.old) (λ bytes.
        IfOk result (λ read. read_view read ≡ reading (Some bytes) limit)) }
{
    buffer.clear();
    while buffer.as_bytes().len() as u64 <= limit {
        match buffer.read_more(file, limit) {
            Ok(0) => return Ok(Read::Bytes(mem::replace(buffer, FileBytes::new(alloc)))),
            Ok(_) => {}
            Err(error) if retries.allow(&error) => {}
            Err(error) => return Err(error.into()),
        }
    }
    Ok(Read::TooLong)
}
