//! Makes the list of steps that standard input names, of which an allocation may be refused, and prints how they went.
#![tactic(auto)]

use std::io;

fn main(rt: HostRuntime) -> io::Result<()> {
    refused_steps::answer_input(&rt, rt.alloc())
}
