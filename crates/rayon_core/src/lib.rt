//! A thread pool whose jobs fork and join, and whose answers are proved: each output stands beside the tag of the job
//! that was handed in, and is one that the job's relation allows.
#![tactic(auto)]

mod build_error;
mod builder;
mod configuration;
mod end_after;
mod environment;
pub mod latch;
mod thread_builder;
mod thread_names;
mod thread_pool;
mod thread_spawn;
mod thread_start;

// What jobs and calls are written with.
pub use build_error::ThreadPoolBuildError;
pub use builder::ThreadPoolBuilder;
pub use configuration::Configuration;
pub use end_after::EndAfter;
pub use environment::max_num_threads;
pub use rayon_books::{Ended, Receipt};
pub use rayon_jobs::{Done, JobKind, NoHandler, PoolHandler};
pub use rayon_registry::{
    BroadcastContext, FnContext, ForkJoin, Ids, InPlaceCalls, Job, PoolId, PoolRef, Scope,
    ScopeCalls, ScopeFifo, Waits, WorkerId, WorkerThread,
};
pub use rayon_sleep::latch::{Owner, SpinLatch};
pub use rayon_words::{CallError, Refusal};
pub use thread_builder::ThreadBuilder;
pub use thread_names::{NamesBy, NoNames, ThreadNames};
pub use thread_pool::{DetachedPool, ThreadPool};
pub use thread_spawn::{CustomSpawn, DefaultSpawn, ThreadSpawn};

// What is pushed and taken by hand. To users it is opaque: none answers for a call but the one that the call queued.
pub use rayon_tasks::Task;

// What the library is made of: contracts name it, and calls do not need it.
pub use rayon_jobs::Cell;
pub use rayon_registry::{Context, IdSource, PieceContext};
