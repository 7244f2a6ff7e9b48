//! The callers outside a pool, who perform the machine's acts of their calls.
#![tactic(auto)]

mod cast;
mod gather;
mod guest;
mod load;
mod paused;
mod scope;
mod scope_cast;

pub use guest::Guest;
pub use load::Load;
pub use paused::Paused;
