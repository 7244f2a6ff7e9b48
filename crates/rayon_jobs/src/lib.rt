//! What jobs are called, and what a run of one gives.
#![tactic(auto)]

mod cell;
mod done;
mod faults;
mod handler;
mod kind;
mod lost;

pub use cell::Cell;
pub use done::Done;
pub use faults::Faults;
pub use handler::{NoHandler, PoolHandler};
pub use kind::JobKind;
pub use lost::{Lost, claimed};
