//! The laws of steps, proved over every run of any number of pools, workers, callers and nested calls: which events
//! each world of a run allows, and that a yield is one search. They stand on what `rayon_machine_laws` shows of every
//! world.
//!
//! Each is the contract of a call without arguments, of the module `step_laws`. The proofs stand in `proofs`, and with
//! them machines with a known mistake, in which a clause is broken.
#![tactic(auto)]

pub mod step_laws;
