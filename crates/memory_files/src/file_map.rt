//! Files by their names.
ghost use Rattle.std.specs.Prelude.{◌≡◌, Some, IfOk, option_map};
ghost use Rattle.item_actions.specs.Files.{file_of};
ghost use Rattle.memory_files.specs.Folders.{folder_of};
ghost use Rattle.file_access.specs.ReadView.{reading, read_view};

use file_access::{DeskFail, FileBytes, Files, Read};
use item_actions::Text;
use std::alloc::{AllocError, Global};
use std::marker::Model;

/// A file: its name and its bytes.
#[derive(Drop)]
pub struct FileEntry {
    pub name: Text,
    pub bytes: Vec<u8>,
}

/// Files by name. Of two entries of one name the first counts.
#[derive(Drop)]
pub struct FileMap {
    entries: Vec<FileEntry>,
}

impl Model for FileMap {
    ghost use Rattle.item_actions.specs.Files.{Folder};
    ghost use Rattle.memory_files.specs.Folders.{folder_of};

    ghost Value = { Folder };

    ghost view = { λ m. folder_of m.entries.items };
}

impl FileMap {
    /// The files of these entries.
    pub fn new(entries: Vec<FileEntry>) -> FileMap
        ensures { result ≡ folder_of entries.items }
    {
        FileMap { entries }
    }

    /// Reads the file of this name, if it has at most `limit` bytes. The error is want of memory alone.
    pub fn reading(&self, alloc: Global, name: &Text, limit: u64) -> Result<Read, AllocError>
        ensures { IfOk result (λ read. read_view read ≡ reading (file_of self.now name.now) limit) }
    {
        match self.find(name) {
            None => Ok(Read::NotThere),
            Some(bytes) if bytes.len() as u64 > limit => Ok(Read::TooLong),
            Some(bytes) => Ok(Read::Bytes(FileBytes::of(Vec::from_slice(alloc, bytes)?))),
        }
    }

    // The bytes of the file of this name, if there is one.
    fn find(&self, name: &Text) -> Option<&[u8]>
        ensures { option_map (λ bytes. bytes.now) result ≡ file_of self.now name.now }
    {
        for entry in &self.entries {
            if entry.name.bytes() == name.bytes() {
                return Some(entry.bytes.as_slice());
            }
        }
        None
    }
}

/// Its reads never fail for another cause than want of memory. They aren't counted.
impl Files for FileMap {
    ghost use Rattle.std.specs.Prelude.{◌≡◌, None, Some};

    ghost files = { λ m. Some m };

    ghost faults = { λ _. 0 };

    ghost reads = { λ _. None };

    ghost keeps = { λ old new. new ≡ old };

    fn read(&mut self, alloc: Global, name: &Text, limit: u64) -> Result<Read, DeskFail> {
        Ok(self.reading(alloc, name, limit)?)
    }
}
