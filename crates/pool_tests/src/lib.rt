//! Tests of a running pool that no script of calls can say: tasks that a job takes and pushes by hand, a pool's number,
//! a pool that is lent, a pool that ends under calls at any moment, a pool that tells handlers the faults of detached
//! jobs and of its threads, names of threads, scopes with jobs from any worker, and a latch between two threads.
#![tactic(auto)]

#[cfg(test)]
mod ending;
#[cfg(test)]
mod errand;
#[cfg(test)]
mod handlers;
#[cfg(test)]
mod hands;
#[cfg(test)]
mod names;
#[cfg(test)]
mod scope_parts;
#[cfg(test)]
mod scope_rows;
#[cfg(test)]
mod scopes;
#[cfg(test)]
mod tests;
