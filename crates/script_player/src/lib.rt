//! Plays scripts of calls of a pool.
#![tactic(auto)]

mod actor;
mod error;
mod house;
mod outside;
mod play;
mod run;
mod scopes;
mod stage;

pub use run::play_script;
