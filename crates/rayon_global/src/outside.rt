//! Where a caller stands that is no worker.
ghost use Rattle.std.specs.Prelude.{◌≡◌};

use rayon_core::{JobKind, PoolRef};
use std::marker::Model;
use std::ops::Deref;

/// Outside of all runs, with the pool on which calls are made there: the global pool (`GlobalPool::filled`), or any
/// other. Contracts see what they see of that pool's `PoolRef`, which this lends: so it has all calls that this one
/// has.
#[derive(Drop)]
pub struct Outside<'p, J: JobKind> {
    pool: &'p PoolRef<J>,
}

impl<'p, J: JobKind> Model for Outside<'p, J> {
    ghost use Rattle.rayon_core.specs.Worker.{Pool};

    ghost Value = { Pool };

    ghost view = { λ o. o.pool.now };
}

impl<'p, J: JobKind> Deref for Outside<'p, J> {
    type Target = PoolRef<J>;

    ghost deref_gives = { λ o r. r ≡ o };

    fn deref(&self) -> &PoolRef<J> {
        self.pool
    }
}

impl<'p, J: JobKind> Outside<'p, J> {
    /// Outside, with this pool.
    pub fn of(pool: &'p PoolRef<J>) -> Outside<'p, J>
        ensures { result ≡ pool.entry.now }
    {
        Outside { pool }
    }
}
