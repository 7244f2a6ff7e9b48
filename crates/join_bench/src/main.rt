//! Times the calls of pools, for `bench/run`. With no arguments it prints values alone.
#![tactic(auto)]

use anyhow::{Result, bail};
use bench_commands::command::Command;
use bench_commands::measure::run;
use std::env;

fn main(rt: HostRuntime) -> Result<()> {
    let alloc = rt.alloc();
    let mut words = env::args(&rt)?;
    let _ = words.next();
    let Some(command) = Command::parse(words) else {
        bail!(
            "join|leaves|sequential|install|pool_join|spawn[_fifo|_broadcast]|[worker_]broadcast|\
            scope[_fifo|_outputs]|in_place_scope|wake|idle WORKERS N, or nothing"
        );
    };
    run(&rt, alloc, command)
}
