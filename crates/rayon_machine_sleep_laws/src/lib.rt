//! The laws of sleep and waking, and the law of completions, proved over every run of any number of pools, workers,
//! callers and nested calls. They stand on what `rayon_machine_laws` shows of every world.
//!
//! Each is the contract of a call without arguments, of the modules `sleep_laws` and `completion_laws`; `law_sleep`, of
//! who is counted as sleeping, is among those of `rayon_machine_laws`. The proofs stand in `proofs`, and with them runs
//! of machines with a known mistake, in which a clause is broken; more of these stand in `rayon_machine_orders`.
#![tactic(auto)]

pub mod completion_laws;
pub mod sleep_laws;
