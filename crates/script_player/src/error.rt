//! Why a script is not played to its end.
use rayon_core::ThreadPoolBuildError;
use std::alloc::{AllocError, AllocFailed};
use thiserror::Error;

/// Why a script is not played to its end.
#[derive(Clone, Copy, Debug, PartialEq, Eq, Error)]
pub enum PlayError {
    /// Memory was refused.
    #[error("no memory")]
    NoMemory,
    /// A thread was refused.
    #[error("no thread")]
    NoThread,
    /// A token found its FIFO list empty.
    #[error("a token found no job")]
    Stray,
}

impl From<AllocError> for PlayError {
    fn from(_error: AllocError) -> PlayError {
        PlayError::NoMemory
    }
}

impl<T: Drop> From<AllocFailed<T>> for PlayError {
    fn from(_error: AllocFailed<T>) -> PlayError {
        PlayError::NoMemory
    }
}

impl From<ThreadPoolBuildError> for PlayError {
    fn from(error: ThreadPoolBuildError) -> PlayError {
        match error {
            ThreadPoolBuildError::NoRoom | ThreadPoolBuildError::NoIds => PlayError::NoMemory,
            _ => PlayError::NoThread,
        }
    }
}
