//! The global pool, as a value of the program's, and the calls that are written alike inside a run and outside of it.
#![tactic(auto)]

mod broadcasts;
mod calls;
mod current;
mod global_pool;
mod outside;
mod scope_broadcasts;
mod scopes;
mod surroundings;

pub use broadcasts::{Broadcasts, Gathers, broadcast, spawn_broadcast};
pub use calls::{
    current_num_threads, current_thread_index, install, join, join as join_context, spawn,
    spawn_fifo,
};
pub use current::{Current, Stands};
pub use global_pool::{GlobalPool, initialize};
pub use outside::Outside;
pub use rayon_core::max_num_threads;
pub use scope_broadcasts::{BroadcastsInto, spawn_broadcast_into};
pub use scopes::{
    Scopes, SpawnsInto, in_place_scope, in_place_scope as in_place_scope_fifo, scope,
    scope as scope_fifo, spawn_fifo_into, spawn_into,
};
pub use surroundings::builder_of_environment;
