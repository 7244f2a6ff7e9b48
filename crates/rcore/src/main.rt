//! The program `rcore`: what a pool does, from the command line.
#![tactic(auto)]

use rcore_commands::run_args;
use std::env;
use std::process::ExitCode;

fn main(rt: HostRuntime) -> ExitCode {
    let alloc = rt.alloc();
    let args = env::args(&rt);
    let mut out = rt.stdout();
    let mut err = rt.stderr();
    let status = run_args(&rt, alloc, args, &mut rt.reader(), &mut out, &mut err);
    ExitCode::from(status)
}
