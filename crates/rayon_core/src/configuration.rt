//! The older names under which rayon-core makes a pool.
ghost use Rattle.rayon_core.specs.Environment.{workers_of};
ghost use Rattle.rayon_core.specs.Texts.{fixed_text};
ghost use Rattle.std.specs.Prelude.{◌≡◌, ◌^◌, ◌-◌, max, IfOk, IfErr, None, Some, true, false};

use crate::build_error::ThreadPoolBuildError;
use crate::builder::ThreadPoolBuilder;
use crate::thread_names::{NamesBy, NoNames, ThreadNames};
use crate::thread_pool::ThreadPool;
use rayon_jobs::JobKind;
use rayon_registry::{Ids, Job};
use std::alloc::{AllocError, Global};
use std::marker::Model;
use std::sync::Wait;
use std::thread::Threads;

/// What a pool is to be like, as a `ThreadPoolBuilder`, whose older name this is: each call is the one of that name
/// there. As in rayon-core it is out of use: write `ThreadPoolBuilder`. Contracts see what was set.
#[derive(Drop)]
pub struct Configuration<J: JobKind, N = NoNames> {
    builder: ThreadPoolBuilder<J, N>,
}

impl<J: JobKind, N> Model for Configuration<J, N> {
    ghost use Rattle.rayon_core.specs.Settings.{Settings};
    ghost use Rattle.rayon_core.specs.declared.thread_spawn.DefaultSpawn.{DefaultSpawn};

    ghost Value = { Settings J.Handler N DefaultSpawn };

    ghost view = { λ c. c.builder };
}

impl<J: JobKind> Configuration<J> {
    /// Settings of which none was made, as `ThreadPoolBuilder::new`.
    pub fn new() -> Configuration<J>
        ensures { result ≡ record { num_threads = 0; first = None; second = None; processors = 0; stack_size = None; depth_limit = 2 ^ 64 - 1; steal_seed = 0; breadth_first = false; panic_handler = None; start_handler = None; exit_handler = None; names = result.names; spawn = result.spawn } }
    {
        Configuration {
            builder: ThreadPoolBuilder::new(),
        }
    }
}

impl<J: JobKind, N> Configuration<J, N> {
    /// As `ThreadPoolBuilder::num_threads`.
    pub fn num_threads(self, num_threads: usize) -> Configuration<J, N>
        ensures { result ≡ record self { num_threads = num_threads } }
    {
        Configuration {
            builder: self.builder.num_threads(num_threads),
        }
    }

    /// As `ThreadPoolBuilder::stack_size`.
    pub fn stack_size(self, stack_size: usize) -> Configuration<J, N>
        ensures { result ≡ record self { stack_size = Some stack_size } }
    {
        Configuration {
            builder: self.builder.stack_size(stack_size),
        }
    }

    /// As `ThreadPoolBuilder::breadth_first`.
    pub fn breadth_first(self) -> Configuration<J, N>
        ensures { result ≡ record self { breadth_first = true } }
    {
        Configuration {
            builder: self.builder.breadth_first(),
        }
    }

    /// As `ThreadPoolBuilder::panic_handler`.
    pub fn panic_handler(self, handler: J::Handler) -> Configuration<J, N>
        ensures { result ≡ record self { panic_handler = Some handler } }
    {
        Configuration {
            builder: self.builder.panic_handler(handler),
        }
    }

    /// As `ThreadPoolBuilder::start_handler`.
    pub fn start_handler(self, handler: J::Handler) -> Configuration<J, N>
        ensures { result ≡ record self { start_handler = Some handler } }
    {
        Configuration {
            builder: self.builder.start_handler(handler),
        }
    }

    /// As `ThreadPoolBuilder::exit_handler`.
    pub fn exit_handler(self, handler: J::Handler) -> Configuration<J, N>
        ensures { result ≡ record self { exit_handler = Some handler } }
    {
        Configuration {
            builder: self.builder.exit_handler(handler),
        }
    }

    /// As `ThreadPoolBuilder::thread_name`.
    pub fn thread_name<F: FnMut(usize) -> Result<String, AllocError>>(
        self,
        name: F,
    ) -> Configuration<J, NamesBy<F>>
    where
        N: Drop,
        ensures { result ≡ record {
          num_threads = self.num_threads;
          first = self.first;
          second = self.second;
          processors = self.processors;
          stack_size = self.stack_size;
          depth_limit = self.depth_limit;
          steal_seed = self.steal_seed;
          breadth_first = self.breadth_first;
          panic_handler = self.panic_handler;
          start_handler = self.start_handler;
          exit_handler = self.exit_handler;
          names = name;
          spawn = self.spawn;
        } }
    {
        Configuration {
            builder: self.builder.thread_name(name),
        }
    }

    /// The builder with the same settings. rayon-core keeps it to itself.
    pub fn into_builder(self) -> ThreadPoolBuilder<J, N>
        ensures { result ≡ self }
    {
        self.builder
    }

    /// Makes the pool, and is refused, as `ThreadPoolBuilder::build`.
    pub fn build<R: Threads + Wait + Copy + Send + 'static>(
        self,
        rt: &R,
        alloc: Global,
        ids: &Ids,
    ) -> Result<ThreadPool<J>, ThreadPoolBuildError>
    where
        N: ThreadNames,
        J: Job + Send + Sync + 'static,
        J::Tag: Send + Sync + 'static,
        J::Output: Send + Sync + 'static,
        J::Fault: Send + Sync + 'static,
        J::Handler: Send + Sync + 'static,
        requires names { N.can_name self.names }
        ensures workers { IfOk result (λ p. p.workers ≡ workers_of self) }
        ensures depth { IfOk result (λ p. p.depth_limit ≡ max 1 self.depth_limit) }
        ensures order { IfOk result (λ p. p.breadth_first ≡ self.breadth_first) }
        ensures cause { IfErr result (λ e. fixed_text e ≡ None) }
    {
        self.builder.build(rt, alloc, ids)
    }
}

impl<J: JobKind> ThreadPool<J> {
    /// The pool of this configuration, as `ThreadPoolBuilder::build` makes one, and refused as there. As in rayon-core
    /// it is out of use: write `ThreadPoolBuilder`.
    pub fn new<N: ThreadNames, R: Threads + Wait + Copy + Send + 'static>(
        rt: &R,
        alloc: Global,
        configuration: Configuration<J, N>,
        ids: &Ids,
    ) -> Result<ThreadPool<J>, ThreadPoolBuildError>
    where
        J: Job + Send + Sync + 'static,
        J::Tag: Send + Sync + 'static,
        J::Output: Send + Sync + 'static,
        J::Fault: Send + Sync + 'static,
        J::Handler: Send + Sync + 'static,
        requires names { N.can_name configuration.names }
        ensures workers { IfOk result (λ p. p.workers ≡ workers_of configuration) }
        ensures depth { IfOk result (λ p. p.depth_limit ≡ max 1 configuration.depth_limit) }
        ensures order { IfOk result (λ p. p.breadth_first ≡ configuration.breadth_first) }
        ensures cause { IfErr result (λ e. fixed_text e ≡ None) }
    {
        configuration.build(rt, alloc, ids)
    }
}
