//! The commands of the program `join_bench`: calls of pools, timed for `bench/run`.
#![tactic(auto)]

mod casts;
pub mod command;
mod leaves;
pub mod measure;
mod scopes;
mod spawns;
