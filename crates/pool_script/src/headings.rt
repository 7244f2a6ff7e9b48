//! The headings of a script: what they declare.
ghost use Rattle.pool_script.specs.Ends.{Ends};

use crate::bad::{Bad, Stop};
use crate::names::Directory;
use crate::script::{JobPlan, PoolPlan, Script, ThreadPlan};
use crate::words::size;
use std::alloc::Global;

// Takes up what a heading declares.
pub(crate) fn declare(
    alloc: Global,
    names: &mut Directory,
    script: &mut Script,
    words: &[&str],
) -> Result<(), Stop>
    requires { Ends script.old }
    ensures { Ends script.new }
{
    match words {
        ["pool", words @ ..] => pool(alloc, names, script, words),
        ["gates"] => Err(Stop::Bad(Bad::NoName)),
        ["gates", words @ ..] => gates(alloc, names, script, words),
        ["job", name] => job(alloc, names, script, name),
        ["thread", name] => thread(alloc, names, script, name),
        ["job" | "thread", ..] => Err(Stop::Bad(Bad::NoName)),
        ["main"] if names.has_main => Err(Stop::Bad(Bad::Twice)),
        ["main"] => {
            names.has_main = true;
            Ok(())
        }
        ["own:", ..] => Ok(()),
        _ => Err(Stop::Bad(Bad::NoSuchHeading)),
    }
}

// A pool: its name, its number of workers, and its options.
fn pool(
    alloc: Global,
    names: &mut Directory,
    script: &mut Script,
    words: &[&str],
) -> Result<(), Stop>
    requires { Ends script.old }
    ensures { Ends script.new }
{
    let (name, workers, depth, breadth_first) = match words {
        [name, workers] => (name, workers, None, false),
        [name, workers, "breadth_first"] => (name, workers, None, true),
        [name, workers, "depth", depth] => (name, workers, Some(size(depth)?), false),
        [name, workers, "depth", depth, "breadth_first"] => {
            (name, workers, Some(size(depth)?), true)
        }
        [] => return Err(Stop::Bad(Bad::NoName)),
        _ => return Err(Stop::Bad(Bad::NoSuchOption)),
    };
    let workers = size(workers)?;
    if workers == 0 {
        return Err(Stop::Bad(Bad::NoWorkers));
    }
    names.pools.declare(alloc, name)?;
    script.pools.push(PoolPlan {
        workers,
        depth,
        breadth_first,
    })?;
    Ok(())
}

// Gates. What `print` names otherwise is no gate's name.
fn gates(
    alloc: Global,
    names: &mut Directory,
    script: &mut Script,
    words: &[&str],
) -> Result<(), Stop>
    requires { Ends script.old }
    ensures { Ends script.new }
{
    for name in words {
        if let "ledger" | "sorted" = *name {
            return Err(Stop::Bad(Bad::BadName));
        }
        names.gates.declare(alloc, name)?;
        script.gates = script.gates.saturating_add(1);
    }
    Ok(())
}

// A job.
fn job(alloc: Global, names: &mut Directory, script: &mut Script, name: &str) -> Result<(), Stop>
    requires { Ends script.old }
    ensures { Ends script.new }
{
    names.jobs.declare(alloc, name)?;
    let name = String::from_str(alloc, name)?;
    let deeds = Vec::new(alloc);
    script.jobs.push(JobPlan { name, deeds })?;
    Ok(())
}

// A thread.
fn thread(alloc: Global, names: &mut Directory, script: &mut Script, name: &str) -> Result<(), Stop>
    requires { Ends script.old }
    ensures { Ends script.new }
{
    names.threads.declare(alloc, name)?;
    let lines = Vec::new(alloc);
    script.threads.push(ThreadPlan { lines })?;
    Ok(())
}
