//! Why a text is no script.
use std::alloc::{AllocError, AllocFailed};
use thiserror::Error;

/// What is wrong with a line.
#[derive(Clone, Copy, Debug, PartialEq, Eq, Error)]
pub enum Bad {
    /// It is no text: its bytes are none in UTF-8.
    #[error("no text")]
    NoText,
    /// It begins with no blank, and is no heading.
    #[error("no such heading")]
    NoSuchHeading,
    /// It stands below a job, and is none of a job's lines.
    #[error("no such deed")]
    NoSuchDeed,
    /// It stands below a thread or main, and is none of their lines.
    #[error("no such step")]
    NoSuchStep,
    /// It stands below no job, thread or main.
    #[error("below no heading")]
    BelowNothing,
    /// A pool's heading has other words than its options.
    #[error("no such option")]
    NoSuchOption,
    /// A pool has no worker.
    #[error("no workers")]
    NoWorkers,
    /// A heading names nothing, or more than it may.
    #[error("no name, or too many")]
    NoName,
    /// A name has a bracket or a colon, or is a word of the language.
    #[error("no such name is allowed")]
    BadName,
    /// A heading declares a name again, or main comes again.
    #[error("declared twice")]
    Twice,
    /// A pool is named that no heading declares.
    #[error("no such pool")]
    NoSuchPool,
    /// A gate is named that no heading declares.
    #[error("no such gate")]
    NoSuchGate,
    /// A job is named that no heading declares.
    #[error("no such job")]
    NoSuchJob,
    /// A thread is named that no heading declares.
    #[error("no such thread")]
    NoSuchThread,
    /// A job's number has one bracket alone.
    #[error("one bracket alone")]
    OneBracket,
    /// A word that should be a number is none.
    #[error("no number")]
    NoNumber,
    /// A number is above 2^64 - 1.
    #[error("number too large")]
    TooLarge,
    /// The prefixes of a line stand in another order, or one comes twice.
    #[error("prefixes out of order")]
    OutOfOrder,
    /// A job names one above it, or itself with a number that may not be less.
    #[error("a job names jobs below, or itself with n less something")]
    NamesAbove,
    /// A thread does what main alone does.
    #[error("only main does this")]
    MainAlone,
    /// A thread or main names what a run of a job alone has: its number, its worker or whether it migrated.
    #[error("only a job has this")]
    JobAlone,
}

/// Why a text is not read.
#[derive(Clone, Copy, Debug, PartialEq, Eq, Error)]
pub enum ReadError {
    /// It is no script.
    #[error("bad line {line}: {bad}")]
    BadLine {
        /// The number of the first bad line, from 1.
        line: usize,
        /// What is wrong with it.
        bad: Bad,
    },
    /// Memory was refused.
    #[error("no memory")]
    NoMemory,
}

// Why a line is not taken up.
#[derive(Clone, Copy)]
pub(crate) enum Stop {
    /// This is wrong with it.
    Bad(Bad),
    /// Memory was refused.
    NoMemory,
}

impl Stop {
    // Why the text is not read, whose line with this number is the one.
    pub(crate) fn at(self, line: usize) -> ReadError {
        match self {
            Stop::Bad(bad) => ReadError::BadLine { line, bad },
            Stop::NoMemory => ReadError::NoMemory,
        }
    }
}

impl From<Bad> for Stop {
    fn from(bad: Bad) -> Stop {
        Stop::Bad(bad)
    }
}

impl From<AllocError> for Stop {
    fn from(_error: AllocError) -> Stop {
        Stop::NoMemory
    }
}

impl<T: Drop> From<AllocFailed<T>> for Stop {
    fn from(_error: AllocFailed<T>) -> Stop {
        Stop::NoMemory
    }
}
