//! Uses of `rayon_core` and `rayon_global`, as a caller writes them: one file for each feature, and one for the pools.
#![tactic(auto)]

pub mod closure;
pub mod global;
pub mod in_place;
pub mod migrated;
pub mod pools;
pub mod scopes;
pub mod server;
pub mod sort;
pub mod sum;
pub mod threads;
pub mod tree;
