//! Why there is no list of jobs.
ghost use Rattle.std.specs.Prelude.{◌≡◌};

use rayon_core::{CallError, Refusal};
use thiserror::Error;

/// Why there is no list of the jobs that ran.
#[derive(Debug, Drop, Error)]
pub enum OrderFault {
    /// A call was refused, or memory was.
    #[error("{0}")]
    Refused(Refusal),
    /// A call found the result of another job.
    #[error("Foreign")]
    Foreign,
    /// A call found no result, or the list does not have each number once.
    #[error("Missing")]
    Missing,
}

impl From<CallError<OrderFault, ()>> for OrderFault {
    ghost use Rattle.spawn_orders.specs.Faults.{fault_of};

    ghost from_gives = { λ error fault. fault ≡ fault_of error };

    fn from(error: CallError<OrderFault, ()>) -> OrderFault {
        match error {
            CallError::Fault(fault) => fault,
            CallError::Refused(refusal, ()) => OrderFault::Refused(refusal),
            CallError::Foreign => OrderFault::Foreign,
            CallError::Missing => OrderFault::Missing,
        }
    }
}
