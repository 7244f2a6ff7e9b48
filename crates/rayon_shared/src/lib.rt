//! What the threads of a running pool share, workers and outside callers alike, and what each worker begins with.
#![tactic(auto)]

mod kit;
mod latches;
mod pieces;
mod registry;
mod terminate;

pub use kit::{WorkerKit, WorkerSeats};
pub use latches::set_latch;
pub use pieces::numbered_pieces;
pub use registry::Registry;
pub use terminate::PoolHold;
