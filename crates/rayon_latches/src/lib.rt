//! Latches that are set once something has ended: a count that is 0, as of a scope's jobs, or a worker's loop. Who sets
//! one wakes the worker that sleeps on it.
#![tactic(auto)]

mod count_latch;
mod once_latch;

pub use count_latch::{CountLatch, CountLatchKind, Settled, Stealing};
pub use once_latch::OnceLatch;
