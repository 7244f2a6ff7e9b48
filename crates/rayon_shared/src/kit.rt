//! What a worker of a pool begins with.
ghost use Rattle.std.specs.Prelude.{◌≡◌};
ghost use Rattle.rayon_sleep.specs.Berths.{Rests};

use rayon_atomics::own_latch::OwnLatch;
use rayon_queues::WorkerDeque;
use rayon_sleep::counters::Chair;
use std::marker::Model;

/// A worker's own seats: of the pool's counters, which holds no unit, and of its terminate latch. Contracts see the
/// first.
#[derive(Drop)]
pub struct WorkerSeats {
    chair: Chair,
    terminate: OwnLatch,
}

impl Model for WorkerSeats {
    ghost use Rattle.rayon_atomics.specs.declared.views.Watch.{Watch};
    ghost use Rattle.rayon_sleep.specs.Berths.{Rests};

    ghost Value = { Watch };

    ghost view = { λ s. s.chair };

    ghost invariant = { λ s. Rests s.chair };
}

impl WorkerSeats {
    // This seat, and this latch.
    pub(crate) fn new(chair: Chair, terminate: OwnLatch) -> WorkerSeats
        requires { Rests chair }
        ensures { result ≡ chair }
    {
        WorkerSeats { chair, terminate }
    }

    /// The seat and the latch.
    pub fn into_parts(self) -> (Chair, OwnLatch)
        ensures { Rests result.0 }
    {
        let WorkerSeats { chair, terminate } = self;
        (chair, terminate)
    }
}

/// What a worker begins with: its own deque and its seats. Contracts see the deque.
#[derive(Drop)]
pub struct WorkerKit<T> {
    deque: WorkerDeque<T>,
    seats: WorkerSeats,
}

impl<T> Model for WorkerKit<T> {
    ghost use Rattle.rayon_queues.specs.Deques.{Deque};

    ghost Value = { Deque T };

    ghost view = { λ k. k.deque };
}

impl<T: Drop> WorkerKit<T> {
    /// This deque, and these seats.
    pub fn new(deque: WorkerDeque<T>, seats: WorkerSeats) -> WorkerKit<T>
        ensures { result ≡ deque }
    {
        WorkerKit { deque, seats }
    }

    /// The deque and the seats. Who starts a thread sends each by itself: the checker finds of each that it may be
    /// sent, and not of both together.
    pub fn into_parts(self) -> (WorkerDeque<T>, WorkerSeats)
        ensures { result.0 ≡ self }
    {
        let WorkerKit { deque, seats } = self;
        (deque, seats)
    }
}
