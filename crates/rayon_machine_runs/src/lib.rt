//! The worlds that the machine steps through: what a world keeps of each latch, call and job, the events that let a
//! party make a step, and why a world was not made or did not step.
//!
//! `specs/World` says what an act does to the world, `specs/Steps` what a step is, `specs/Runs` where runs start and
//! which worlds they reach. The laws and the running world both speak of these; the threads of a pool do not.
#![tactic(auto)]

pub mod error;
pub mod event;
pub mod state;
