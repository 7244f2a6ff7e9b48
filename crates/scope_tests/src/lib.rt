//! Tests of scopes that a caller outside the pool opens, and of spawns into a scope by threads that are no workers.
#![tactic(auto)]

#[cfg(test)]
mod casts;
#[cfg(test)]
mod errand;
#[cfg(test)]
mod tests;
