//! A pool's shared part, its worker values, the jobs that they run, and the calls on a worker value.
#![tactic(auto)]

mod answers;
mod broadcast;
mod context;
mod faults;
mod ids;
mod in_place;
mod job;
mod join;
mod level;
mod parts;
mod pool_parts;
mod pool_ref;
mod scope;
mod scope_broadcast;
mod thread_builder;
mod worker_thread;

pub use answers::scope_answer;
pub use context::{BroadcastContext, Context, FnContext, PieceContext};
pub use faults::{Handlers, SharedFaults};
pub use ids::{IdSource, Ids, PoolId, WorkerId};
pub use in_place::{InPlace, InPlaceCalls, OpensInPlace};
pub use job::{Job, Waits};
pub use join::{ForkJoin, PairRun};
pub use parts::Parts;
pub use pool_parts::{end_pool, faults_of, new_pool, shared_of};
pub use pool_ref::PoolRef;
pub use scope::{Opened, Opens, Scope, ScopeCalls, ScopeFifo};
pub use thread_builder::ThreadBuilder;
pub use worker_thread::WorkerThread;
