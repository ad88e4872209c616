//! What is wrong with a case file.
use hex::FromHexError;
use std::alloc::{AllocError, AllocFailed};
use thiserror::Error;

/// Why a case file has no case, or a case no call.
#[derive(Clone, Copy, Debug, Error)]
pub enum CaseFail {
    /// There is no such section.
    #[error("there is no such section")]
    Section,
    /// Digits write no number, or no bytes.
    #[error("digits write no number, or no bytes")]
    Digits,
    /// A section `each` names no change.
    #[error("there is no such change")]
    Change,
    /// There is no file for further bytes.
    #[error("there is no file for further bytes")]
    NoFile,
    /// There was no memory.
    #[error("there is no memory")]
    NoMemory,
}

impl From<AllocError> for CaseFail {
    fn from(_error: AllocError) -> CaseFail {
        CaseFail::NoMemory
    }
}

impl<T: Drop> From<AllocFailed<T>> for CaseFail {
    fn from(_failed: AllocFailed<T>) -> CaseFail {
        CaseFail::NoMemory
    }
}

impl From<FromHexError> for CaseFail {
    fn from(_error: FromHexError) -> CaseFail {
        CaseFail::Digits
    }
}
