//! The worker of a running pool, who performs the machine's acts there.
#![tactic(auto)]

mod acts;
mod bench;
mod broadcast;
mod cast;
mod counting;
mod detached;
mod fifo;
mod latches;
mod looks;
mod reclaimed;
mod scope;
mod scope_cast;
mod scope_fifo;
mod stretch;

pub use bench::{Aside, Bench};
pub use reclaimed::Reclaimed;
