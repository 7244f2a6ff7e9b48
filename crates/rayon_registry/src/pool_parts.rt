//! What the library makes a pool of, and ends it by. Users have `ThreadPoolBuilder` and `ThreadPool` for this.
ghost use Rattle.std.specs.Arc.{arc_value};
ghost use Rattle.std.specs.Prelude.{◌≡◌, ◌<◌, map, max, length, IfOk, IfErr};

use crate::faults::{Handlers, SharedFaults};
use crate::ids::PoolId;
use crate::pool_ref::PoolRef;
use rayon_guests::Guest;
use rayon_jobs::JobKind;
use rayon_shared::{PoolHold, Registry, WorkerKit};
use rayon_tasks::Task;
use rayon_words::Refusal;
use std::alloc::{AllocFailed, Global};
use std::sync::{Arc, Wait};

/// A pool of so many workers, none of which runs yet; what each worker begins with by index; and the unit of the
/// terminate count that the pool's value holds. A `depth_limit` of 0 counts as 1; `steal_seed` is added to each
/// worker's index for the seed of its choice of victims; `breadth_first` has each worker take the oldest task of its
/// own deque first; `handlers` are told what is theirs, and the faults of detached jobs are kept where `panic` of them
/// is None. Refused `NoRoom`.
pub fn new_pool<J: JobKind, R: Wait>(
    rt: &R,
    alloc: Global,
    id: PoolId,
    num_threads: usize,
    depth_limit: usize,
    steal_seed: u64,
    breadth_first: bool,
    handlers: Handlers<J::Handler>,
) -> Result<(PoolRef<J>, Vec<WorkerKit<Task<J>>>, PoolHold), Refusal>
    requires { (0 < num_threads) × (num_threads < 65536) }
    ensures made { IfOk result (λ r. r.0 ≡ record { id = id; workers = num_threads; depth_limit = max 1 depth_limit; breadth_first = breadth_first; deques = r.0.deques; count = r.2 }) }
    ensures length { IfOk result (λ r. length r.1.items ≡ num_threads) }
    ensures deques { IfOk result (λ r. map (λ d. d.id) r.1.items ≡ r.0.deques) }
    ensures refused { IfErr result (λ r. r ≡ Refusal.NoRoom) }
{
    let faults = SharedFaults::new(alloc, handlers)?;
    let (shared, deques, hold) = Registry::new(
        alloc,
        num_threads,
        depth_limit,
        steal_seed,
        breadth_first,
    )?;
    match Arc::new(alloc, shared) {
        Ok(shared) => Ok((PoolRef::of(id, shared, faults), deques, hold)),
        Err(AllocFailed { value: shared }) => {
            Guest::new(&shared).end(rt, hold);
            Err(Refusal::NoRoom)
        }
    }
}

/// What the pool's threads share, for one thread more. Refused `NoRoom`.
pub fn shared_of<J: JobKind>(pool: &PoolRef<J>) -> Result<Arc<Registry<Task<J>>, Global>, Refusal>
    ensures workers { IfOk result (λ s. (arc_value s).workers ≡ pool.now.workers) }
    ensures depth { IfOk result (λ s. (arc_value s).depth_limit ≡ pool.now.depth_limit) }
    ensures order { IfOk result (λ s. (arc_value s).breadth_first ≡ pool.now.breadth_first) }
    ensures deques { IfOk result (λ s. (arc_value s).deques ≡ pool.now.deques) }
    ensures count { IfOk result (λ s. (arc_value s).count ≡ pool.now.count) }
    ensures refused { IfErr result (λ r. r ≡ Refusal.NoRoom) }
{
    Arc::try_clone(&pool.pool.shared).map_err(|_| Refusal::NoRoom)
}

/// The faults of the pool's detached jobs and its handlers, for one thread more. Refused `NoRoom`.
pub fn faults_of<J: JobKind>(
    pool: &PoolRef<J>,
) -> Result<SharedFaults<J::Fault, J::Handler>, Refusal>
    ensures refused { IfErr result (λ r. r ≡ Refusal.NoRoom) }
{
    pool.faults.share()
}

/// Gives back the unit of the terminate count that this pool's value holds. Where it was the last one, the workers
/// leave their loops.
pub fn end_pool<J: JobKind, R: Wait>(rt: &R, pool: &PoolRef<J>, hold: PoolHold)
    requires { hold ≡ pool.now.count }
{
    let mut guest = Guest::new(&*pool.pool.shared);
    guest.end(rt, hold);
}
