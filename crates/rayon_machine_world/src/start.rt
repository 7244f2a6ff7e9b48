//! Start worlds.
ghost use Rattle.std.specs.Prelude.{◌≡◌, OnOk, true, false, IfErr, IfOk, All};
ghost use Rattle.rayon_machine_runs.specs.Runs.{start as start_of};
ghost use Rattle.rayon_machine_places.specs.Shapes.{IsPoolShape};
ghost use Rattle.rayon_machine_runs.specs.Starts.{IsShape};
ghost use Rattle.rayon_machine_parts.specs.State.{listed};
ghost use Rattle.rayon_machine_world.specs.Running.{world_of};

use crate::world::World;
use rayon_machine_parts::parties::Parties;
use rayon_machine_parts::parts::Parts;
use rayon_machine_parts::shapes::Shapes;
use rayon_machine_places::shape::PoolShape;
use rayon_machine_runs::error::StartError;
use std::alloc::Global;

/// The most pools of a world.
const MAX_POOLS: usize = 8;

/// The most bits of an event counter.
const MAX_BITS: u32 = 32;

impl World {
    /// The start world of these pools, with 16 outside callers: all lists and sets are empty, all latches unset and all
    /// locks free. BadStart exactly where a world cannot have these pools or so many bits; NoRoom where memory was
    /// refused. The event counter of a pool is its turn modulo 2 to the power of `jec_bits`.
    pub fn start(alloc: Global, pools: &[PoolShape], jec_bits: u32) -> Result<World, StartError>
        ensures start { IfOk result (λ w. world_of w ≡ start_of (listed pools.now jec_bits)) }
        ensures shape { OnOk result (IsShape pools.now jec_bits) }
        ensures bad_start { IfErr result (λ e. e ≡ StartError.BadStart → ¬ (IsShape pools.now jec_bits)) }
        ensures no_room { IfErr result (λ e. e ≡ StartError.NoRoom → IsShape pools.now jec_bits) }
    {
        if !is_shape(pools, jec_bits) {
            return Err(StartError::BadStart);
        }
        let pools = pools.to_vec(alloc)?;
        Ok(World {
            alloc,
            shapes: Shapes { pools, jec_bits },
            parties: Parties {
                crews: Vec::new(alloc),
                callers: Vec::new(alloc),
            },
            parts: Parts {
                pools: Vec::new(alloc),
                benches: Vec::new(alloc),
                calls: Vec::new(alloc),
                jobs: Vec::new(alloc),
            },
            calls: 0,
            jobs: 0,
            scopes: Vec::new(alloc),
        })
    }
}

/// Whether a world can start with these pools and so many bits.
fn is_shape(pools: &[PoolShape], jec_bits: u32) -> bool
    ensures yes { result ≡ true → IsShape pools.now jec_bits }
    ensures no { result ≡ false → ¬ (IsShape pools.now jec_bits) }
{
    if pools.is_empty() || pools.len() > MAX_POOLS {
        return false;
    }
    if jec_bits < 1 || jec_bits > MAX_BITS {
        return false;
    }
    all_fit(pools)
}

/// Whether each pool has a shape that a pool of a world can have.
fn all_fit(pools: &[PoolShape]) -> bool
    ensures yes { result ≡ true → All IsPoolShape pools.now }
    ensures no { result ≡ false → ¬ (All IsPoolShape pools.now) }
{
    pools.iter().all(|pool| pool.fits())
}
