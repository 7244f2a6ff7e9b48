//! Calls of a pool of which an allocation may be refused, and what they give then.
#![tactic(auto)]

mod call;
mod in_place;
mod in_scope;
mod input;
mod on_worker;
mod outcome;
mod work;

pub use input::answer_input;
