//! The running world: it starts, makes steps, replays events, and shows its pools, workers and jobs.
//!
//! Each step of `World::step` is a step of the relation `step`, and is refused as not enabled exactly where the
//! relation has none. What `World::replay` makes is a run of that relation, so each law of the machine holds in it.
#![tactic(auto)]

mod calls;
mod casts;
pub mod readers;
mod replays;
mod scopes;
mod start;
mod step;
pub mod world;
