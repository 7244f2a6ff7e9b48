//! What broadcasts are made of: the lists of their pieces, one for each worker; the job that the pieces of one
//! broadcast share; and of one that waits what its pieces' runs give.
#![tactic(auto)]

mod broadcast_lists;
mod broadcast_queue;
mod piece_outputs;
mod shared_job;

pub use broadcast_lists::{BroadcastLists, Unpushed};
pub use broadcast_queue::BroadcastQueue;
pub use piece_outputs::{NoAnswers, outputs_of};
pub use shared_job::SharedJob;
