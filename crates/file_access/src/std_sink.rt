//! A sink over a writer.
ghost use Rattle.std.specs.Prelude.{◌≡◌};

use crate::retries::Retries;
use crate::sinks::{Failed, Sink};
use std::io::Write;
use std::marker::Model;

/// A sink over a writer of std.
#[derive(Drop)]
pub struct StdSink<W: Write> {
    writer: W,
    faults: u64,
}

impl<W: Write> Model for StdSink<W> {
    ghost use Rattle.file_access.specs.SinkView.{SinkView};

    ghost Value = { SinkView };

    ghost view = { λ s. record { taken = W.contents s.writer; faults = s.faults } };
}

impl<W: Write> StdSink<W> {
    /// A sink that writes to `writer`. What it took is known where the contents of the writer are.
    pub fn new(writer: W) -> StdSink<W>
        ensures { result ≡ record { taken = W.contents writer; faults = 0 } }
    {
        StdSink { writer, faults: 0 }
    }

    /// How many calls failed.
    pub fn count(&self) -> u64
        ensures { result ≡ self.now.faults }
    {
        self.faults
    }
}

impl<W: Write> Sink for StdSink<W> {
    ghost seen = { λ s. s };

    fn put(&mut self, piece: &[u8]) -> Result<usize, Failed> {
        let mut retries = Retries::new();
        loop {
            match self.writer.write(piece) {
                Ok(taken) if taken > 0 || piece.is_empty() => return Ok(taken),
                Err(error) if retries.allow(&error) => {}
                _ => break,
            }
        }
        self.faults = self.faults.saturating_add(1);
        Err(Failed)
    }
}
