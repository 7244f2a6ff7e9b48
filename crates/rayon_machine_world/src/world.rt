//! The running world: what the specification's world holds, where a step has touched it.

use rayon_machine_parts::parties::Parties;
use rayon_machine_parts::parts::Parts;
use rayon_machine_parts::shapes::Shapes;
use rayon_machine_runs::state::Scope;
use std::alloc::Global;

/// A world of pools, workers and 16 outside callers.
#[derive(Drop)]
pub struct World {
    pub(crate) alloc: Global,
    pub(crate) shapes: Shapes,
    pub(crate) parties: Parties,
    pub(crate) parts: Parts,
    pub(crate) calls: u64,
    pub(crate) jobs: u64,
    pub(crate) scopes: Vec<Scope>,
}
