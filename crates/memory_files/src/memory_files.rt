//! Files in memory.
ghost use Rattle.std.specs.Prelude.{◌≡◌, ◌↔◌, Some, IfOk, IsTrue};
ghost use Rattle.std.specs.Result.{IsErrOf};
ghost use Rattle.file_access.specs.ReadView.{ReadsFrom};
ghost use Rattle.memory_files.specs.Calls.{no_calls, next_fails};
ghost use Rattle.memory_files.specs.Memory.{after_read};

use crate::calls::Calls;
use crate::file_map::FileMap;
use file_access::{DeskFail, Files, Read};
use item_actions::Text;
use std::alloc::{AllocError, Global};
use std::marker::Model;

/// Files in memory, known to contracts, whose reads can be made to fail.
#[derive(Drop)]
pub struct MemoryFiles {
    files: FileMap,
    calls: Calls,
}

impl Model for MemoryFiles {
    ghost use Rattle.memory_files.specs.Memory.{MemoryFilesView};

    ghost Value = { MemoryFilesView };

    ghost view = { λ d. record { files = d.files; log = d.calls } };
}

impl MemoryFiles {
    /// A reader of these files. Its reads are numbered from 0, and those of the numbers in
    /// `failing` fail.
    pub fn new(_alloc: Global, files: FileMap, failing: Vec<u64>) -> Result<MemoryFiles, AllocError>
        ensures { IfOk result (λ desk.
            desk ≡ record { files = files; log = no_calls failing.items }) }
    {
        let calls = Calls::new(failing);
        Ok(MemoryFiles { files, calls })
    }

    /// How many reads failed.
    pub fn count(&self) -> u64
        ensures { result ≡ self.now.log.faults }
    {
        self.calls.faults()
    }
}

impl Files for MemoryFiles {
    ghost use Rattle.std.specs.Prelude.{◌≡◌, Some};
    ghost use Rattle.memory_files.specs.Memory.{after_read};

    ghost files = { λ d. Some d.files };

    ghost faults = { λ d. d.log.faults };

    ghost reads = { λ d. Some d.log.made };

    ghost keeps = { λ old new. new ≡ after_read old };

    fn read(&mut self, alloc: Global, name: &Text, limit: u64) -> Result<Read, DeskFail>
        ensures failed { IsErrOf result DeskFail.Failed ↔ IsTrue (next_fails self.old.log) }
        ensures after { self.new ≡ after_read self.old }
        ensures known { ReadsFrom (Some self.old.files) name.now limit result }
    {
        let fails = self.calls.next_fails();
        self.calls.add(fails);
        if fails {
            return Err(DeskFail::Failed);
        }
        Ok(self.files.reading(alloc, name, limit)?)
    }
}
