//! Why a text was not read as a history.
use std::alloc::{AllocError, AllocFailed};
use thiserror::Error;

/// Why a part of a line was not read.
#[derive(Clone, Copy, Debug, PartialEq, Eq)]
pub(crate) enum ReadFail {
    /// The text is another.
    Wrong,
    /// There was no memory for the changes.
    Memory,
}

impl From<AllocError> for ReadFail {
    ghost use Rattle.std.specs.Prelude.{◌≡◌};
    ghost use Rattle.history_text.specs.declared.fails.ReadFail.TheVariants.{Memory};

    ghost from_gives = { λ _ fail. fail ≡ Memory };

    fn from(_error: AllocError) -> ReadFail {
        ReadFail::Memory
    }
}

impl<T: Drop> From<AllocFailed<T>> for ReadFail {
    ghost use Rattle.std.specs.Prelude.{◌≡◌};
    ghost use Rattle.history_text.specs.declared.fails.ReadFail.TheVariants.{Memory};

    ghost from_gives = { λ _ fail. fail ≡ Memory };

    fn from(_error: AllocFailed<T>) -> ReadFail {
        ReadFail::Memory
    }
}

/// Why a text was not read as a history.
#[derive(Clone, Copy, Debug, PartialEq, Eq, Error)]
pub enum TextFail {
    /// The text stops being a history: in its head at 0, and else at the number that its first wrong or
    /// lacking line would have had as an entry. Bytes behind a right `end` line are such a line.
    #[error("the text stops being a history at {0}")]
    Stops(u64),
    /// There was no memory for the entries.
    #[error("there is no memory for the entries")]
    NoMemory,
}

impl From<AllocError> for TextFail {
    ghost use Rattle.std.specs.Prelude.{◌≡◌};
    ghost use Rattle.history_text.specs.declared.fails.TextFail.TheVariants.{NoMemory};

    ghost from_gives = { λ _ fail. fail ≡ NoMemory };

    fn from(_error: AllocError) -> TextFail {
        TextFail::NoMemory
    }
}

impl<T: Drop> From<AllocFailed<T>> for TextFail {
    ghost use Rattle.std.specs.Prelude.{◌≡◌};
    ghost use Rattle.history_text.specs.declared.fails.TextFail.TheVariants.{NoMemory};

    ghost from_gives = { λ _ fail. fail ≡ NoMemory };

    fn from(_error: AllocFailed<T>) -> TextFail {
        TextFail::NoMemory
    }
}
