//! Tests of the commands of `rcore`: what each command line answers, what replays print, and the names of refusals.
//! They have a crate of their own, since a crate with tests is proved twice.
#![tactic(auto)]

#[cfg(test)]
mod command_lines;
#[cfg(test)]
mod refusals;
#[cfg(test)]
mod replays;
