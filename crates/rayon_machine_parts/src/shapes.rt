//! The shapes of the pools of a running world, and where each party stands at the start.
ghost use Rattle.std.specs.Prelude.{◌≡◌};
ghost use Rattle.rayon_machine_parts.specs.State.{shape_of};
ghost use Rattle.rayon_machine_runs.specs.Steps.{is_pool};
ghost use Rattle.rayon_machine_runs.specs.Runs.{first_place as first_of};

use rayon_machine_places::place::{Party, Place, Target};
use rayon_machine_places::shape::{Order, PoolShape};

/// The shapes of the pools, and the bits of the event counter: the same in every world of a run.
/// It is the running world's own part, and not for users.
#[derive(Drop)]
pub struct Shapes {
    /// The shape of each pool, by number.
    pub pools: Vec<PoolShape>,
    /// The bits of the event counter.
    pub jec_bits: u32,
}

/// How many outside callers a world has.
pub const CALLERS: usize = 16;

impl Shapes {
    /// The shape of a pool; without workers where there is none of this number.
    pub fn pool(&self, pool: usize) -> PoolShape
        ensures { result ≡ (shape_of self.now).pool pool }
    {
        match self.pools.get(pool) {
            Some(shape) => *shape,
            None => PoolShape {
                workers: 0,
                limit: 0,
                order: Order::NewestFirst,
                callers_own: false,
            },
        }
    }

    /// Whether there is a pool of this number.
    pub fn has_pool(&self, pool: usize) -> bool
        ensures { result ≡ is_pool (shape_of self.now) pool }
    {
        self.pool(pool).workers > 0
    }

    /// Where a party stands at the start.
    pub(crate) fn first_place(&self, party: Party) -> Place
        ensures { result ≡ first_of (shape_of self.now) party }
    {
        match party {
            Party::Worker { pool, index } => {
                let shape = self.pool(pool);
                if index >= shape.workers {
                    Place::Stopped
                } else if shape.callers_own && index == 0 {
                    Place::Free
                } else {
                    Place::ProbeWorking(Target::Termination.wait())
                }
            }
            Party::Caller(number) => if number < CALLERS {
                Place::Free
            } else {
                Place::Stopped
            },
        }
    }
}
