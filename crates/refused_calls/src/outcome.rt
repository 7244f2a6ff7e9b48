//! What calls give, and how it is printed.
use rayon_core::{Refusal, ThreadPoolBuildError};
use std::fmt;

/// Why no pool was made.
#[derive(Clone, Copy, Debug)]
pub enum NoPool {
    /// Memory was refused.
    NoRoom,
    /// The worker's thread was refused.
    IOError,
    /// The last pool number was drawn.
    NoIds,
    /// Another cause, which no call of these meets.
    Other,
}

impl NoPool {
    /// Why no pool was made, without the system's error.
    pub fn of(error: ThreadPoolBuildError) -> NoPool {
        match error {
            ThreadPoolBuildError::IOError(_) => NoPool::IOError,
            ThreadPoolBuildError::NoRoom => NoPool::NoRoom,
            ThreadPoolBuildError::NoIds => NoPool::NoIds,
            _ => NoPool::Other,
        }
    }
}

/// What a call gave.
#[derive(Clone, Copy)]
pub enum Outcome {
    /// A pool was made.
    Made,
    /// This number was answered.
    Answered(u64),
    /// No pool was made.
    NotMade(NoPool),
    /// The call was refused: whether the very jobs came back, and how many jobs had run by then.
    Refused {
        refusal: Refusal,
        same_jobs: bool,
        runs: u64,
    },
    /// Anything else.
    Unlike,
}

impl Outcome {
    // The same, with this more where a number was answered.
    fn and(self, more: u64) -> Outcome {
        match self {
            Outcome::Answered(number) => Outcome::Answered(number.saturating_add(more)),
            other => other,
        }
    }
}

impl fmt::Display for Outcome {
    fn fmt<W: fmt::Write>(&self, f: &mut fmt::Formatter<W>) -> fmt::Result {
        match *self {
            Outcome::Made => write!(f, "Ok"),
            Outcome::Answered(number) => write!(f, "Ok {number}"),
            Outcome::NotMade(why) => write!(f, "{why:?}"),
            Outcome::Refused {
                refusal,
                same_jobs,
                runs,
            } => {
                let jobs = if same_jobs { "the same" } else { "other" };
                write!(f, "{refusal}, {jobs} jobs back, {runs} run")
            }
            Outcome::Unlike => write!(f, "something else"),
        }
    }
}

/// What a call gave and, where it was refused, what the same call gave then.
#[derive(Clone, Copy)]
pub struct Report {
    pub first: Outcome,
    pub again: Option<Outcome>,
}

impl Report {
    /// Of a call that was made once.
    pub fn of(first: Outcome) -> Report {
        Report { first, again: None }
    }

    /// The same, with this more where a number was answered.
    pub fn and(self, more: u64) -> Report {
        Report {
            first: self.first.and(more),
            again: self.again.map(|again| again.and(more)),
        }
    }
}
