//! Why a pool is not made.
ghost use Rattle.rayon_core.specs.Texts.{fixed_text};
ghost use Rattle.std.specs.Prelude.{◌≡◌, option_map};

use std::io;
use thiserror::Error;

/// Why a pool was not made. What was started for it has been ended again. In rayon-core the type is opaque, and the
/// text of an `IOError` is the system's alone.
#[derive(Debug, Drop, Error)]
pub enum ThreadPoolBuildError {
    /// There is a global pool already. Only the call that makes the global pool answers this.
    #[error("The global thread pool has already been initialized.")]
    GlobalPoolAlreadyInitialized,
    /// The thread that was to be a worker is one of another pool. No call answers this today, since each worker has a
    /// thread that its pool starts.
    #[error("The current thread is already part of another thread pool.")]
    CurrentThreadAlreadyInPool,
    /// A worker's thread could not be started.
    #[error("IOError: {0}")]
    IOError(io::Error),
    /// Memory was refused.
    #[error("NoRoom")]
    NoRoom,
    /// The last pool number was drawn.
    #[error("NoIds")]
    NoIds,
}

impl ThreadPoolBuildError {
    /// The text that this is shown by where that is one of two fixed ones, which are rayon-core's: of
    /// `GlobalPoolAlreadyInitialized` and of `CurrentThreadAlreadyInPool`. None for the others.
    pub fn text(&self) -> Option<&'static str>
        ensures { option_map (λ s. s.now) result ≡ fixed_text self.now }
    {
        match self {
            ThreadPoolBuildError::GlobalPoolAlreadyInitialized => Some(
                "The global thread pool has already been initialized.",
            ),
            ThreadPoolBuildError::CurrentThreadAlreadyInPool => Some(
                "The current thread is already part of another thread pool.",
            ),
            _ => None,
        }
    }
}
