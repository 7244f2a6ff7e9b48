//! The pure machine of the pool: parties that stand at places, each place naming one atomic act.
//!
//! A world holds any number of pools, workers and outside callers. An event lets one party make one
//! step: it performs the act that its place names, sees something, and goes where the table of
//! places sends it. Nothing here starts a thread: the threads of the running pool go by the same
//! tables.
//!
//! This crate only gives the names of the crates below it: `rayon_machine_places` has the places and their acts,
//! `rayon_machine_runs` the events and what a world keeps, and `rayon_machine_world` the world that makes the steps.
//! What holds in every run is said and proved by `rayon_machine_laws`, `rayon_machine_sleep_laws`,
//! `rayon_machine_orders` and `rayon_machine_step_laws`, of the same tables; nothing that runs stands on these four.
#![tactic(auto)]

pub use rayon_machine_places::{act, moves, place, shape, table};
pub use rayon_machine_runs::{error, event, state};
pub use rayon_machine_world::{readers, world};
