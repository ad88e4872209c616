//! What takes bytes.
ghost use Rattle.std.specs.Prelude.{◌≤◌, ◌<◌, length, IfOk, OnErr};
ghost use Rattle.std.specs.Io.KnownBytes.{WriteAppends};
ghost use Rattle.file_access.specs.Calls.{IsCounted};
ghost use Rattle.file_access.specs.SinkView.{SinkView, Rises, Prints};

use thiserror::Error;

/// The outside failed, and the count of its faults rose.
#[derive(Clone, Copy, Debug, Error)]
#[error("the outside failed")]
pub struct Failed;

/// Something of the outside that takes bytes.
pub trait Sink {
    /// The bytes taken, where they are known, and how often the outside failed. That count stands
    /// still at 2^64 - 1.
    ghost seen: { Self → SinkView };

    /// Takes bytes from the front of a piece, at least one unless the piece is empty, and answers
    /// how many. Failed takes none.
    fn put(&mut self, piece: &[u8]) -> Result<usize, Failed>
        ensures within { IfOk result (λ k. k ≤ length piece.now) }
        ensures some { IfOk result (λ k. 0 < length piece.now → 0 < k) }
        ensures taken { WriteAppends (seen self.old).taken (seen self.new).taken result piece.now }
        ensures counted { IsCounted (seen self.old).faults (seen self.new).faults result }
        ensures kept { (seen self.old).faults ≤ (seen self.new).faults }
        ensures failed { OnErr result (Rises (seen self.old).faults (seen self.new).faults) };
}

/// Puts the whole piece. Where the sink fails, a front of the piece was taken.
pub fn put_all<K: Sink>(sink: &mut K, piece: &[u8]) -> Result<(), Failed>
    ensures { Prints (K.seen sink.old) (K.seen sink.new) piece.now result }
{
    let mut rest = piece;
    while !rest.is_empty() {
        let taken = sink.put(rest)?;
        rest = &rest[taken..];
    }
    Ok(())
}
