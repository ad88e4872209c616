//! Files by their names: read whole, or worked on.
ghost use Rattle.std.specs.Prelude.{◌≡◌, ℕ, ◌≤◌, Option, IfOk, IfSome};
ghost use Rattle.std.specs.Result.{IsErrOf};
ghost use Rattle.item_actions.specs.Files.{Folder};
ghost use Rattle.item_actions.specs.Value.{act_on, value_on};
ghost use Rattle.file_access.specs.SinkView.{Rises};
ghost use Rattle.file_access.specs.ReadView.{IsAnswer, IsFaultCounted, IsWithin, ReadsFrom, and_read, read_view};

use crate::file_bytes::FileBytes;
use item_actions::{ItemAction, MAX_FILE_BYTES, Outcome, Text, act};
use std::alloc::{AllocError, Global};
use std::io;
use std::io::ErrorKind;
use thiserror::Error;

/// What there is under a file's name.
#[derive(Drop)]
pub enum Read {
    /// The file's bytes.
    Bytes(FileBytes),
    /// There is no file of that name.
    NotThere,
    /// The file has more bytes than the limit.
    TooLong,
}

/// Why a call on the outside gave no answer.
#[derive(Clone, Copy, Debug, PartialEq, Eq, Error)]
pub enum DeskFail {
    /// The outside failed, and the count of its faults rose.
    #[error("the outside failed")]
    Failed,
    /// There was no memory.
    #[error("there is no memory")]
    NoMemory,
}

impl From<AllocError> for DeskFail {
    ghost use Rattle.file_access.specs.declared.files.DeskFail.TheVariants.{NoMemory};

    ghost from_gives = { λ _ fail. fail ≡ NoMemory };

    fn from(_error: AllocError) -> DeskFail {
        DeskFail::NoMemory
    }
}

/// Nothing is counted here.
impl From<io::Error> for DeskFail {
    ghost use Rattle.std.specs.IoError.{error_kind};
    ghost use Rattle.file_access.specs.Opening.{fail_of};

    ghost from_gives = { λ error fail. fail ≡ fail_of (error_kind error) };

    fn from(error: io::Error) -> DeskFail {
        match error.kind() {
            ErrorKind::OutOfMemory => DeskFail::NoMemory,
            _ => DeskFail::Failed,
        }
    }
}

/// Files by their names. They are read whole, or worked on by an action.
pub trait Files {
    /// The files by name, where known. No call changes them.
    ghost files: { Self → Option Folder };

    /// How often the outside failed; it stands still at 2^64 - 1.
    ghost faults: { Self → ℕ };

    /// How many reads were made, where it is known; it stands still at 2^64 - 1.
    ghost reads: { Self → Option ℕ };

    /// What a read leaves as it is, besides the files.
    ghost keeps: { Self → Self → Type 0 };

    /// Reads the file of this name, if it has at most `limit` bytes.
    fn read(&mut self, alloc: Global, name: &Text, limit: u64) -> Result<Read, DeskFail>
        ensures files { files self.new ≡ files self.old }
        ensures keeps { keeps self.old self.new }
        ensures read { reads self.new ≡ and_read (reads self.old) }
        ensures counted { IsFaultCounted (faults self.old) (faults self.new) result }
        ensures kept { faults self.old ≤ faults self.new }
        ensures failed { IsErrOf result DeskFail.Failed → Rises (faults self.old) (faults self.new) }
        ensures within { IfOk result (λ read. IsWithin limit (read_view read)) }
        ensures known { ReadsFrom (files self.old) name.now limit result };

    /// What the action gives on the file of this name: its value, NotThere or TooLong. It counts as one read of the file.
    // Who can look at a file as it is read need not hold all of its bytes. The body here reads the file whole: files in memory use it, whose
    // bytes are there anyway.
    fn act_on(
        &mut self,
        alloc: Global,
        action: &ItemAction,
        name: &Text,
    ) -> Result<Outcome, DeskFail>
        ensures files { files self.new ≡ files self.old }
        ensures keeps { keeps self.old self.new }
        ensures read { reads self.new ≡ and_read (reads self.old) }
        ensures counted { IsFaultCounted (faults self.old) (faults self.new) result }
        ensures kept { faults self.old ≤ faults self.new }
        ensures failed { IsErrOf result DeskFail.Failed → Rises (faults self.old) (faults self.new) }
        ensures answer { IfOk result IsAnswer }
        ensures known { IfSome (files self.old) (λ known. IfOk result (λ outcome. outcome ≡ value_on known action.now name.now)) }
    {
        match self.read(alloc, name, MAX_FILE_BYTES) {
            Ok(Read::Bytes(bytes)) => {
                let outcome = give(action, bytes.as_bytes());
                self.give_back(bytes);
                Ok(outcome)
            }
            Ok(Read::NotThere) => Ok(Outcome::NotThere),
            Ok(Read::TooLong) => Ok(Outcome::TooLong),
            Err(fail) => Err(fail),
        }
    }

    /// Gives the bytes of a file back that are done with. A later read may use their memory.
    fn give_back(&mut self, bytes: FileBytes)
        ensures { self.new ≡ self.old }
    {
        drop(bytes);
    }
}

// What the action gives on the bytes of a file.
fn give(action: &ItemAction, bytes: &[u8]) -> Outcome
    ensures value { result ≡ act_on action.now bytes.now }
    ensures answer { IsAnswer result }
{
    act(action, bytes)
}
