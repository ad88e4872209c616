//! What gives bytes.
ghost use Rattle.std.specs.Prelude.{◌≡◌, ◌≤◌, OnErr};
ghost use Rattle.std.specs.Io.{ReadsAtMost};
ghost use Rattle.std.specs.Io.KnownBytes.{ReadConsumes};
ghost use Rattle.file_access.specs.Ahead.{GivesAhead};
ghost use Rattle.file_access.specs.Calls.{IsCounted};
ghost use Rattle.file_access.specs.SinkView.{Rises};
ghost use Rattle.file_access.specs.SourceView.{SourceView};

use crate::sinks::Failed;
use std::alloc::AllocError;

/// Something of the outside that gives bytes.
pub trait Source {
    /// The bytes left, where they are known, and how often the outside failed. That count stands
    /// still at 2^64 - 1.
    ghost seen: { Self → SourceView };

    /// Takes bytes from the front of what is left into the front of the buffer, and answers how many.
    /// None come only at the end, or into an empty buffer. Failed takes none.
    fn take(&mut self, buffer: &mut [u8]) -> Result<usize, Failed>
        ensures within { ReadsAtMost result buffer.new }
        ensures taken { ReadConsumes (seen self.old).left (seen self.new).left result buffer.new }
        ensures counted { IsCounted (seen self.old).faults (seen self.new).faults result }
        ensures kept { (seen self.old).faults ≤ (seen self.new).faults }
        ensures failed { OnErr result (Rises (seen self.old).faults (seen self.new).faults) };

    /// Takes at most `most` bytes that it has read ahead, none behind a line end, puts them behind the line, and answers
    /// how many. Where it has none, that says nothing of what is left. The error is want of memory, and takes none.
    fn take_ahead(&mut self, line: &mut Vec<u8>, most: usize) -> Result<usize, AllocError>
        ensures taken { GivesAhead (seen self.old).left (seen self.new).left line.old.items line.new.items most result }
        ensures counted { (seen self.new).faults ≡ (seen self.old).faults }
    {
        Ok(0)
    }
}
