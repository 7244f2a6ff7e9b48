//! In which order the one worker of a pool runs the jobs that are spawned on it: what the command `rcore order` shows.
#![tactic(auto)]

mod fault;
mod ledger;
mod order;
mod ran;
mod run;
mod spawned;

pub use fault::OrderFault;
pub use order::Order;
pub use run::run_order;
pub use spawned::{SpawnCall, Spawned, Work};
