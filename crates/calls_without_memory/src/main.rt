//! Makes the call of a pool that standard input names, of which an allocation may be refused, and prints what it gave.
#![tactic(auto)]

use std::io;

fn main(rt: HostRuntime) -> io::Result<()> {
    refused_calls::answer_input(&rt, rt.alloc())
}
