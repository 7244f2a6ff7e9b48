//! Tests of pools whose threads a spawn handler starts, and of a builder's older name.
#![tactic(auto)]

#[cfg(test)]
mod errand;
#[cfg(test)]
mod tests;
