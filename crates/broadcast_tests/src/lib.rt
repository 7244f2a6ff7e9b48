//! Tests of broadcasts: that each worker runs its own piece of each of them once, whoever broadcasts, and that who
//! waits for one is answered what its pieces answered, once all have ended.
#![tactic(auto)]

#[cfg(test)]
mod errand;
#[cfg(test)]
mod pools;
#[cfg(test)]
mod tally;
#[cfg(test)]
mod tests;
#[cfg(test)]
mod waiting;
