//! The program `pool_player`: plays the script of pool calls that standard input has.
#![tactic(auto)]

use script_player::play_script;
use std::process::ExitCode;

fn main(rt: HostRuntime) -> ExitCode {
    let alloc = rt.alloc();
    let mut out = rt.stdout();
    let mut err = rt.stderr();
    let status = play_script(&rt, alloc, &mut rt.reader(), &mut out, &mut err);
    ExitCode::from(status)
}
