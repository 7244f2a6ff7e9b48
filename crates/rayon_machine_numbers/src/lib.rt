//! The numbers of a running world that an act touches: those of one pool, one worker, one call and one job.
//!
//! `Touched::outcome` says what an act sees and how it leaves these numbers, as `effect` of the machine's specification
//! does. It is given the task at the end of the queue that the act looks at, and the counts of the workers that sleep
//! and that are inactive, where the act looks at them. All of this is the running world's own: it is public for the
//! crate `rayon_machine_parts` alone.
#![tactic(auto)]

mod books;
mod kind;
pub mod numbers;
pub mod outcome;
pub mod queues;
