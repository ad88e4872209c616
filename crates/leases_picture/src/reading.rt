//! Reads an input whole.
ghost use Rattle.std.specs.Prelude.{◌≤◌, ◌<◌, IfOk, IfErr};
ghost use Rattle.leases_picture.specs.Taking.{TakesPiece, TakesAll, HasFailed};

use file_access::{Failed, Source};
use std::alloc::{AllocError, AllocFailed, Global};
use std::cmp::min;

/// The most bytes that are taken of an input.
pub(crate) const MAX_INPUT_BYTES: usize = 67_108_864;

// The most bytes that are taken by one call.
const MAX_PIECE: usize = 4096;

/// Why an input was not read.
#[derive(Clone, Copy)]
pub(crate) enum ReadFail {
    /// The source failed.
    SourceFault,
    /// There was no memory for the bytes.
    NoMemory,
}

impl From<Failed> for ReadFail {
    ghost use Rattle.std.specs.Prelude.{◌≡◌};
    ghost use Rattle.leases_picture.specs.declared.reading.ReadFail.TheVariants.{SourceFault};

    ghost from_gives = { λ _ fail. fail ≡ SourceFault };

    fn from(_error: Failed) -> ReadFail {
        ReadFail::SourceFault
    }
}

impl From<AllocError> for ReadFail {
    ghost use Rattle.std.specs.Prelude.{◌≡◌};
    ghost use Rattle.leases_picture.specs.declared.reading.ReadFail.TheVariants.{NoMemory};

    ghost from_gives = { λ _ fail. fail ≡ NoMemory };

    fn from(_error: AllocError) -> ReadFail {
        ReadFail::NoMemory
    }
}

// Takes a piece of the input behind the text, and answers whether any bytes came.
fn take_piece<I: Source>(input: &mut I, text: &mut Vec<u8>, most: usize) -> Result<bool, ReadFail>
    requires some { 0 < most }
    requires few { most ≤ MAX_PIECE }
    ensures { TakesPiece most (I.seen input.old) (I.seen input.new) text.old.items text.new.items result }
{
    let mut buffer = [0u8; MAX_PIECE];
    let count = input.take(&mut buffer[..most])?;
    text.extend_from_slice(&buffer[..count])?;
    Ok(count > 0)
}

/// Reads an input to its end, or up to `MAX_INPUT_BYTES`. SourceFault comes where the source failed, and NoMemory
/// where there was no memory for the bytes: what was taken by then is lost.
pub(crate) fn read_all<I: Source>(alloc: Global, input: &mut I) -> Result<Vec<u8>, ReadFail>
    ensures ok { IfOk result (λ text. TakesAll (I.seen input.old) (I.seen input.new) text.items) }
    ensures failed { IfErr result (λ fail. HasFailed (I.seen input.old) (I.seen input.new) fail) }
{
    let mut text = Vec::new(alloc);
    while text.len() < MAX_INPUT_BYTES {
        let most = min(MAX_PIECE, MAX_INPUT_BYTES - text.len());
        if !take_piece(input, &mut text, most)? {
            return Ok(text);
        }
    }
    Ok(text)
}
