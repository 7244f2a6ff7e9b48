//! Tests of the global pool, and of the calls that are written alike inside a run and outside of it.
#![tactic(auto)]

#[cfg(test)]
mod broadcasts;
#[cfg(test)]
mod deed;
#[cfg(test)]
mod scopes;
#[cfg(test)]
mod tests;
