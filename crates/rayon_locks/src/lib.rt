//! Locks that one party holds over several steps of its own.
#![tactic(auto)]

mod held_lock;

pub use held_lock::{HeldLock, HeldLockState};
