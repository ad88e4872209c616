//! A source over a reader.
ghost use Rattle.std.specs.Prelude.{◌≡◌};
ghost use Rattle.std.specs.Io.{ReadsAtMost};
ghost use Rattle.std.specs.Io.KnownBytes.{ReadConsumes};

use crate::retries::Retries;
use crate::sinks::Failed;
use crate::sources::Source;
use std::io::Read;
use std::marker::Model;

/// A source over a reader of std.
#[derive(Drop)]
pub struct StdSource<R: Read> {
    reader: R,
    faults: u64,
}

impl<R: Read> Model for StdSource<R> {
    ghost use Rattle.file_access.specs.SourceView.{SourceView};

    ghost Value = { SourceView };

    ghost view = { λ s. record { left = R.remaining s.reader; faults = s.faults } };
}

impl<R: Read> StdSource<R> {
    /// A source that reads from `reader`. What is left is known where the contents of the reader are.
    pub fn new(reader: R) -> StdSource<R>
        ensures { result ≡ record { left = R.remaining reader; faults = 0 } }
    {
        StdSource { reader, faults: 0 }
    }

    /// How many calls failed.
    pub fn count(&self) -> u64
        ensures { result ≡ self.now.faults }
    {
        self.faults
    }
}

impl<R: Read> Source for StdSource<R> {
    ghost seen = { λ s. s };

    fn take(&mut self, buffer: &mut [u8]) -> Result<usize, Failed> {
        let taken = take_from(&mut self.reader, buffer);
        if taken.is_err() {
            self.faults = self.faults.saturating_add(1);
        }
        taken
    }
}

/// Reads once, and again where the call is interrupted. Nothing is counted here.
pub(crate) fn take_from<R: Read>(reader: &mut R, buffer: &mut [u8]) -> Result<usize, Failed>
    ensures within { ReadsAtMost result buffer.new }
    ensures taken { ReadConsumes (R.remaining reader.old) (R.remaining reader.new) result buffer.new }
{
    let mut retries = Retries::new();
    loop {
        match reader.read(buffer) {
            Ok(taken) => return Ok(taken),
            Err(error) if retries.allow(&error) => {}
            Err(_) => return Err(Failed),
        }
    }
}
