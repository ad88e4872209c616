//! Why an input was not checked.
use file_access::Failed;
use std::alloc::{AllocError, AllocFailed};
use thiserror::Error;

/// Why an input was not checked.
#[derive(Clone, Copy, Debug, PartialEq, Eq, Error)]
pub enum CheckFail {
    /// The source failed.
    #[error("the input was not read")]
    SourceFault,
    /// There was no memory.
    #[error("there is no memory for the check")]
    NoMemory,
}

impl From<Failed> for CheckFail {
    ghost use Rattle.std.specs.Prelude.{◌≡◌};
    ghost use Rattle.history_check.specs.declared.fails.CheckFail.TheVariants.{SourceFault};

    ghost from_gives = { λ _ fail. fail ≡ SourceFault };

    fn from(_error: Failed) -> CheckFail {
        CheckFail::SourceFault
    }
}

impl From<AllocError> for CheckFail {
    ghost use Rattle.std.specs.Prelude.{◌≡◌};
    ghost use Rattle.history_check.specs.declared.fails.CheckFail.TheVariants.{NoMemory};

    ghost from_gives = { λ _ fail. fail ≡ NoMemory };

    fn from(_error: AllocError) -> CheckFail {
        CheckFail::NoMemory
    }
}

impl<T: Drop> From<AllocFailed<T>> for CheckFail {
    ghost use Rattle.std.specs.Prelude.{◌≡◌};
    ghost use Rattle.history_check.specs.declared.fails.CheckFail.TheVariants.{NoMemory};

    ghost from_gives = { λ _ fail. fail ≡ NoMemory };

    fn from(_error: AllocFailed<T>) -> CheckFail {
        CheckFail::NoMemory
    }
}
