//! Who is told of the faults of jobs for which no call waits, and of the beginning and the end of a pool's threads.

use std::sync::Wait;

/// What a pool's builder may be given: as a panic handler, which is told the faults of detached jobs, as a start
/// handler and as an exit handler. The three are values of one type, and each is told by the method of its own alone.
/// No lock of the pool is held while one is told, and several workers may tell one at a time.
pub trait PoolHandler<F>: Drop {
    /// A detached job, or a start or exit handler, has ended with this fault. The worker's thread that met it calls
    /// this, for a job before the job's unit of the terminate count is given back.
    fn panicked<R: Wait>(&self, rt: &R, fault: F);

    /// The thread of the worker with this index has begun, and runs its first job after this. A fault goes where that
    /// of a detached job goes, and the worker goes on. Where an implementation says nothing else this does nothing, and
    /// answers Ok.
    fn started<R: Wait>(&self, _rt: &R, _index: usize) -> Result<(), F> {
        Ok(())
    }

    /// The thread of the worker with this index has run its last job, and ends after this. A fault goes where that of a
    /// detached job goes. Where an implementation says nothing else this does nothing, and answers Ok.
    fn exited<R: Wait>(&self, _rt: &R, _index: usize) -> Result<(), F> {
        Ok(())
    }
}

/// The handler of jobs whose pools have none: nobody makes one. It is no empty enum, since a function that nobody can
/// call counts as a mistake.
#[derive(Drop)]
pub struct NoHandler {
    // private, so that none is made elsewhere
    nothing: (),
}

impl<F: Drop> PoolHandler<F> for NoHandler {
    fn panicked<R: Wait>(&self, _rt: &R, _fault: F) {}
}
