//! Latches: what is set once, and what a thread waits for until it is.
pub use rayon_atomics::latch::{CoreLatch, LatchSeat};
pub use rayon_sleep::latch::OwnLatch;
pub use rayon_words::latch::{LatchRef, LockLatch, LockLatchState};
