//! Runs the uses of `rayon_core`, and prints what they answer.
#![tactic(auto)]

fn main(rt: HostRuntime) -> anyhow::Result<()> {
    uses::pools::print_all(&rt, rt.alloc())
}
