//! The laws of the terminate count, of calls and of the order of jobs, proved over every run of any number of pools,
//! workers, callers and nested calls. They stand on what `rayon_machine_laws` shows of every world.
//!
//! Each is the contract of a call without arguments, of the modules `call_laws` and `order_laws`. The proofs stand in
//! `proofs`, and with them runs that the proof checker computes of machines with a known mistake.
#![tactic(auto)]

pub mod call_laws;
pub mod order_laws;
