//! The parts that a running world is made of, and the one act that a step performs on them.
//!
//! A world's pools, workers, calls and jobs stand in tables that grow as steps touch them; what is not in a table is as
//! at the start. `Parts::deed` says what a party's act sees and leaves, as `effect` of the machine's specification
//! does, before anything is changed, and `Parts::commit` writes it. All of this is the running world's own: it is
//! public for the crate `rayon_machine_world` alone.
#![tactic(auto)]

pub mod commit;
pub mod deed;
pub mod growth;
pub mod parties;
pub mod parts;
pub mod shapes;
pub mod spot;
pub mod writes;
