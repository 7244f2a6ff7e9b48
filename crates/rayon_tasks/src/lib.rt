//! What lies in the queues of a pool of many workers, and what a waiting call of it is known by: the names of jobs,
//! tickets that only a call makes, and tasks that are opaque to who has no more than one.
#![tactic(auto)]

mod call;
mod call_core;
mod call_latch;
mod names;
mod task;
mod ticket;
mod work;

pub use call::Call;
pub use call_core::CallCore;
pub use names::{Names, law_names, law_rows, row_of_names};
pub use task::{
    Task, pieces_of, single_parts, task_of_job, task_of_pair, task_of_piece, task_parts, token_of,
};
pub use ticket::Ticket;
pub use work::{Pair, Work};
