//! How jobs are spawned.
ghost use Rattle.spawn_orders.specs.Orders.{numbers_of, takes_oldest, leaves_of};
ghost use Rattle.std.specs.Prelude.{◌≡◌, length};

use crate::spawned::{SpawnCall, Spawned, Work};
use rayon_core::ThreadPoolBuilder;

/// How jobs are spawned on the one worker of a pool, and which of its jobs this takes first.
#[derive(Clone, Copy, Debug, PartialEq, Eq)]
pub enum Order {
    /// A job spawns ten that spawn ten each, and the worker takes its newest first.
    Lifo,
    /// The same, each spawned in order.
    Fifo,
    /// The same, the ten by `spawn` and those of each in order.
    LifoFifo,
    /// The same, the ten in order and those of each by `spawn`.
    FifoLifo,
    /// As `Lifo`, but the worker takes its oldest first.
    Breadth,
    /// As `Lifo`, but all are spawned into one scope.
    ScopeLifo,
    /// The same, each spawned in order.
    ScopeFifo,
    /// A job spawns 0, -1, 1, -2, 2, -3 and 3, those below 0 in order.
    MixedLifoFifo,
    /// The same numbers, those that are not below 0 in order.
    MixedFifoLifo,
}

// 0 to 99.
const TO_NINETY_NINE: [i8; 100] = [
    0, 1, 2, 3, 4, 5, 6, 7, 8, 9, 10, 11, 12, 13, 14, 15, 16, 17, 18, 19, 20, 21, 22, 23, 24, 25,
    26, 27, 28, 29, 30, 31, 32, 33, 34, 35, 36, 37, 38, 39, 40, 41, 42, 43, 44, 45, 46, 47, 48, 49,
    50, 51, 52, 53, 54, 55, 56, 57, 58, 59, 60, 61, 62, 63, 64, 65, 66, 67, 68, 69, 70, 71, 72, 73,
    74, 75, 76, 77, 78, 79, 80, 81, 82, 83, 84, 85, 86, 87, 88, 89, 90, 91, 92, 93, 94, 95, 96, 97,
    98, 99,
];

// -3 to 3.
const AROUND_ZERO: [i8; 7] = [-3, -2, -1, 0, 1, 2, 3];

impl Order {
    /// What the order's pool is to be like: it has one worker, which takes its oldest job first, or its newest.
    pub fn pool(self) -> ThreadPoolBuilder<Spawned>
        ensures workers { result.num_threads ≡ 1 }
        ensures order { result.breadth_first ≡ takes_oldest self }
    {
        let builder = ThreadPoolBuilder::new().num_threads(1);
        match self {
            Order::Breadth => builder.breadth_first(),
            Order::Lifo
            | Order::Fifo
            | Order::LifoFifo
            | Order::FifoLifo
            | Order::ScopeLifo
            | Order::ScopeFifo
            | Order::MixedLifoFifo
            | Order::MixedFifoLifo => builder,
        }
    }

    /// What the job does that is installed. With those below it, it puts as many numbers into the list as the order
    /// has.
    pub(crate) fn work(self) -> Work
        ensures { leaves_of result ≡ length (numbers_of self) }
    {
        match self {
            Order::Lifo | Order::Breadth => Work::tens(SpawnCall::Spawn, SpawnCall::Spawn),
            Order::Fifo => Work::tens(SpawnCall::SpawnFifo, SpawnCall::SpawnFifo),
            Order::LifoFifo => Work::tens(SpawnCall::Spawn, SpawnCall::SpawnFifo),
            Order::FifoLifo => Work::tens(SpawnCall::SpawnFifo, SpawnCall::Spawn),
            Order::ScopeLifo => Work::Scope {
                call: SpawnCall::Spawn,
            },
            Order::ScopeFifo => Work::Scope {
                call: SpawnCall::SpawnFifo,
            },
            Order::MixedLifoFifo => Work::Mixed {
                below: SpawnCall::SpawnFifo,
                others: SpawnCall::Spawn,
            },
            Order::MixedFifoLifo => Work::Mixed {
                below: SpawnCall::Spawn,
                others: SpawnCall::SpawnFifo,
            },
        }
    }

    /// The numbers that the jobs put into the list, ascending.
    pub(crate) fn numbers(self) -> &'static [i8]
        ensures { result.now ≡ numbers_of self }
    {
        match self {
            Order::Lifo
            | Order::Fifo
            | Order::LifoFifo
            | Order::FifoLifo
            | Order::Breadth
            | Order::ScopeLifo
            | Order::ScopeFifo => &TO_NINETY_NINE,
            Order::MixedLifoFifo | Order::MixedFifoLifo => &AROUND_ZERO,
        }
    }
}
