//! The commands of the program `rcore`: what a pool does, and what the pure core does with a replay.
#![tactic(auto)]

mod broadcast_command;
pub mod command;
mod order_command;
mod replay;
mod replay_command;
mod replay_print;
mod replay_text;
pub mod run;
mod spaced;
pub mod squares;

pub use run::run_args;
