//! The laws of the machine, proved over every run of any number of pools, workers, callers and nested calls.
//!
//! Each is the contract of a call without arguments, of the module `laws`; those of sleep and waking stand in
//! `rayon_machine_sleep_laws`, those of the terminate count, of calls and of the order in `rayon_machine_orders`. The
//! proofs stand in `proofs`, and with them runs that the proof checker computes from the specification alone.
#![tactic(auto)]

pub mod laws;
