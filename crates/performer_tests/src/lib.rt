//! Tests of the performers that no script of calls can say: benches that no thread moves, a pool that has ended under
//! them, and from whom a thief steals first. They have a crate of their own, since a crate with tests is proved twice.
#![tactic(auto)]

#[cfg(test)]
mod errand;
#[cfg(test)]
mod tests;
