//! Tests of the atomic words, of the sleep, of the latches and of the lock that is held from act to act. They have a
//! crate of their own, since a crate with tests is proved twice.
#![tactic(auto)]

#[cfg(test)]
mod held_locks;
#[cfg(test)]
mod latches;
#[cfg(test)]
mod sleepers;
#[cfg(test)]
mod words;
