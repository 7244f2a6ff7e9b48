//! Replays over memory: the text, what is printed for it, and the status.

use rcore_commands::run::run;
use std::alloc::{AllocError, Global};
use std::env::{Args, Env};
use std::io::{BufRead, Error, ErrorKind, Read, Result as IoResult};
use std::process::Abort;
use std::sync::Wait;
use std::test::Fail;
use std::thread::Threads;

/// Replays, and what they print. One that is refused has status 1, the others 0.
const REPLAYS: [(&str, &str); 20] = [
    // one worker falls asleep
    (
        "start 32 1/0/l\n0.0 go 21\n",
        "pool 0 sleeping 1 inactive 1 turn 0 injected 0 count 1\n0.0 deque 0 cast 0 blocked 1 place Lock\njobs 0 queued 0 running 0 done\n",
    ),
    // blocked worker cannot go
    ("start 32 1/0/l\n0.0 go 21\n0.0 go\n", "refused at line 3\n"),
    // spawn wakes the sleeper
    (
        "start 32 1/0/l\n0.0 go 21\nc0 spawn 0\nc0 go 7\n",
        "pool 0 sleeping 0 inactive 1 turn 1 injected 1 count 2\n0.0 deque 0 cast 0 blocked 0 place Lock\njobs 1 queued 0 running 0 done\n",
    ),
    // end after the last job
    (
        "start 32 1/0/l\n0.0 go 21\nc0 spawn 0\nc0 go 7\n0.0 go 9\n0.0 ok\n0.0 go\nc0 end 0\nc0 go 2\n0.0 go\n",
        "pool 0 sleeping 0 inactive 0 turn 1 injected 0 count 0\n0.0 deque 0 cast 0 blocked 0 place Stopped\njobs 0 queued 0 running 1 done\n",
    ),
    // counter makes a whole turn
    (
        "start 1 2/0/l\n0.0 go 20\n0.1 go 10\nc0 spawn 0\nc0 go 4\n0.1 go\n0.0 go 5\n",
        "pool 0 sleeping 0 inactive 2 turn 2 injected 1 count 2\n0.0 deque 0 cast 0 blocked 0 place Wakeup\n0.1 deque 0 cast 0 blocked 0 place Probe\njobs 1 queued 0 running 0 done\n",
    ),
    // counter of many bits
    (
        "start 32 2/0/l\n0.0 go 20\n0.1 go 10\nc0 spawn 0\nc0 go 4\n0.1 go\n0.0 go 5\n",
        "pool 0 sleeping 0 inactive 2 turn 2 injected 1 count 2\n0.0 deque 0 cast 0 blocked 0 place TakeCast\n0.1 deque 0 cast 0 blocked 0 place Probe\njobs 1 queued 0 running 0 done\n",
    ),
    // no line
    ("", "refused at line 1\n"),
    // join by an installed job
    (
        "start 32 1/0/l\nc0 install 0\nc0 go 5\n0.0 go 10\n0.0 join\n0.0 go 5\n0.0 ok\n0.0 go 3\n0.0 ok\n0.0 go\n0.0 ok\n0.0 go 2\nc0 go 3\n",
        "pool 0 sleeping 0 inactive 0 turn 1 injected 0 count 1\n0.0 deque 0 cast 0 blocked 0 place Probe\njobs 0 queued 0 running 3 done\n",
    ),
    // faulted join waits for its second side
    (
        "start 32 1/0/l\nc0 install 0\nc0 go 5\n0.0 go 10\n0.0 join\n0.0 go 5\n0.0 fault\n0.0 go 3\n0.0 ok\n0.0 go\n0.0 ok\n0.0 go 2\nc0 go 3\n",
        "refused at line 11\n",
    ),
    // refused join
    (
        "start 32 1/0/l\nc0 install 0\nc0 go 5\n0.0 go 10\n0.0 join\n0.0 go 3\n0.0 refuse\n0.0 go\n",
        "pool 0 sleeping 0 inactive 0 turn 1 injected 0 count 2\n0.0 deque 0 cast 0 blocked 0 place Free\njobs 0 queued 1 running 0 done\n",
    ),
    // installs across two pools
    (
        "start 32 1/0/l 1/0/l\nc0 spawn 0\nc0 go 4\n0.0 go 10\n0.0 install 1\n0.0 go 5\n1.0 go 10\n1.0 install 0\n1.0 go 5\n0.0 go 10\n0.0 ok\n0.0 go 2\n1.0 go 3\n1.0 ok\n1.0 go 2\n0.0 go 3\n",
        "pool 0 sleeping 0 inactive 0 turn 1 injected 0 count 2\n0.0 deque 0 cast 0 blocked 0 place Free\npool 1 sleeping 0 inactive 0 turn 1 injected 0 count 1\n1.0 deque 0 cast 0 blocked 0 place Probe\njobs 0 queued 1 running 2 done\n",
    ),
    // missed steal
    (
        "start 32 2/0/l\nc0 spawn 0\nc0 go 4\n0.0 go 12\n0.0 spawn 0\n0.0 go 4\n0.1 go 8\n0.1 miss\n",
        "pool 0 sleeping 0 inactive 1 turn 1 injected 0 count 3\n0.0 deque 1 cast 0 blocked 0 place Free\n0.1 deque 0 cast 0 blocked 0 place PopInj\njobs 1 queued 1 running 0 done\n",
    ),
    // no miss in an oldest first pool
    (
        "start 32 2/0/b\nc0 spawn 0\nc0 go 4\n0.0 go 12\n0.0 spawn 0\n0.0 go 4\n0.1 go 8\n0.1 miss\n",
        "refused at line 8\n",
    ),
    // own worker starts free
    (
        "start 32 1/0/lc\n",
        "pool 0 sleeping 0 inactive 0 turn 0 injected 0 count 1\n0.0 deque 0 cast 0 blocked 0 place Free\njobs 0 queued 0 running 0 done\n",
    ),
    // leaving searcher wakes another
    (
        "start 32 2/0/l\n0.0 go 25\n0.1 go 4\nc0 spawn 0\nc1 spawn 0\nc0 go 2\nc1 go 2\nc0 go 2\nc1 go 2\n0.1 go 10\n",
        "pool 0 sleeping 0 inactive 1 turn 1 injected 1 count 3\n0.0 deque 0 cast 0 blocked 0 place Lock\n0.1 deque 0 cast 0 blocked 0 place Begin\njobs 1 queued 1 running 0 done\n",
    ),
    // scope of an outside caller
    (
        "start 32 1/0/l\nc0 scope 0\nc0 go 2\nc0 into 0 spawn\nc0 go 5\nc0 ok\nc0 go 2\n0.0 go 10\n0.0 fault\n0.0 go 3\nc0 go 3\n",
        "pool 0 sleeping 0 inactive 0 turn 1 injected 0 count 1\n0.0 deque 0 cast 0 blocked 0 place Probe\njobs 0 queued 0 running 2 done\n",
    ),
    // scope of an outside caller goes too early
    (
        "start 32 1/0/l\nc0 scope 0\nc0 go 2\nc0 into 0 spawn\nc0 go 5\nc0 ok\nc0 go 3\n0.0 go 10\n0.0 fault\n0.0 go 3\nc0 go 3\n",
        "refused at line 7\n",
    ),
    // job in order after a refused one
    (
        "start 32 1/0/l\nc0 spawn 0\nc0 go 4\n0.0 go 10\n0.0 fifo 0\n0.0 go 3\n0.0 refuse\n0.0 go 2\n0.0 fifo 0\n0.0 go 5\n0.0 ok\n0.0 go 4\n",
        "pool 0 sleeping 0 inactive 0 turn 1 injected 0 count 2\n0.0 deque 0 cast 0 blocked 0 place Free\njobs 0 queued 1 running 1 done\n",
    ),
    // broadcast that waits
    (
        "start 32 2/0/l\nc0 broadcast 0\nc0 go 9\n0.1 go 4\n0.1 ok\n0.1 go 2\n0.0 go 4\n0.0 fault\n0.0 go 3\nc0 go 3\n",
        "pool 0 sleeping 0 inactive 0 turn 0 injected 0 count 1\n0.0 deque 0 cast 0 blocked 0 place Probe\n0.1 deque 0 cast 0 blocked 0 place Probe\njobs 0 queued 0 running 2 done\n",
    ),
    // last line without its end
    (
        "start 32 1/0/l\n0.0 go",
        "pool 0 sleeping 0 inactive 0 turn 0 injected 0 count 1\n0.0 deque 0 cast 0 blocked 0 place PopOwn\njobs 0 queued 0 running 0 done\n",
    ),
];

/// Texts whose first line is refused.
const REFUSED_STARTS: [&str; 11] = [
    "start 0 1/0/l",
    "start 33 1/0/l",
    "start 32",
    "start 32 1/0/l 1/0/l 1/0/l 1/0/l 1/0/l 1/0/l 1/0/l 1/0/l 1/0/l",
    "start 32 0/0/l",
    "start 32 65/0/l",
    "start 32 1/33/l",
    "start 32 1/0/x",
    "start  32 1/0/l",
    "start 32 1/0/l ",
    "start 32 1/0/l\r\n",
];

/// Lines that are refused after `start 32 1/0/l`.
const REFUSED_LINES: [&str; 12] = [
    "",
    "0.0 go 0",
    "0.0 go 1001",
    "0.0 go 01",
    "0.1 go",
    "c16 spawn 0",
    "c0 spawn 1",
    "c0 join",
    "0.0 ok",
    "0.0 miss",
    "0.0 refuse",
    "0.0 spawn 0",
];

// The words that ask for a replay.
fn replay_words(alloc: Global) -> Result<Args, AllocError> {
    let mut words = Vec::new(alloc);
    words.push(String::from_str(alloc, "replay")?)?;
    Ok(words.into_iter())
}

/// A reader that fails.
#[derive(Drop)]
struct Broken;

impl Read for Broken {
    fn read(&mut self, _buf: &mut [u8]) -> IoResult<usize> {
        Err(Error::from(ErrorKind::BrokenPipe))
    }
}

impl BufRead for Broken {
    fn fill_buf(&mut self) -> IoResult<&[u8]> {
        Err(Error::from(ErrorKind::BrokenPipe))
    }

    fn consume(&mut self, _amount: usize) {}
}

// Asserts what a text prints.
fn prints<R: Threads + Wait + Env + Abort + Copy + Send + 'static>(
    rt: &R,
    alloc: Global,
    text: &[u8],
    wanted: &str,
) -> Result<(), Fail> {
    let words = replay_words(alloc)?;
    let mut reader = text;
    let mut out: Vec<u8> = Vec::new(alloc);
    let mut err: Vec<u8> = Vec::new(alloc);
    let status = run(rt, alloc, words, &mut reader, &mut out, &mut err);
    let refused = wanted.starts_with("refused");
    assert!(rt; out.as_slice() == wanted.as_bytes(), "{wanted}");
    assert_eq!(rt; status, u8::from(refused), "{wanted}");
    assert!(rt; err.is_empty(), "{wanted}");
    Ok(())
}

#[test]
fn replays(rt: HostRuntime) -> Result<(), Fail> {
    let alloc = rt.alloc();
    for (text, wanted) in REPLAYS {
        prints(&rt, alloc, text.as_bytes(), wanted)?;
    }
    Ok(())
}

#[test]
fn refused_lines(rt: HostRuntime) -> Result<(), Fail> {
    let alloc = rt.alloc();
    for start in REFUSED_STARTS {
        prints(&rt, alloc, start.as_bytes(), "refused at line 1\n")?;
    }
    for line in REFUSED_LINES {
        let text = format!(in alloc; "start 32 1/0/l\n{line}\n")?;
        prints(&rt, alloc, text.as_bytes(), "refused at line 2\n")?;
    }
    prints(&rt, alloc, b"start 32 1/0/l\xff\n", "refused at line 1\n")?;
    prints(
        &rt,
        alloc,
        b"start 32 1/0/l\n0.0 go\n\xff\n",
        "refused at line 3\n",
    )
}

#[test]
fn failed_reads_and_writes(rt: HostRuntime) -> Result<(), Fail> {
    let alloc = rt.alloc();
    let words = replay_words(alloc)?;
    // The text breaks off after a line that would be refused.
    let mut reader = "start 0 1/0/l\n".as_bytes().chain(Broken);
    let mut out: Vec<u8> = Vec::new(alloc);
    let mut err: Vec<u8> = Vec::new(alloc);
    let status = run(&rt, alloc, words, &mut reader, &mut out, &mut err);
    assert_eq!(rt; status, 1);
    assert!(rt; out.is_empty());
    assert!(rt; err.as_slice() == "rcore: Read\n".as_bytes());
    // A slice without room takes no byte, and one with room for two takes two.
    for text in ["start 32 1/0/l\n", "", "start 32 1/0/l\n0.0 walk\n"] {
        for room in [0, 2] {
            let mut bytes = [0u8; 2];
            let mut out = &mut bytes[..room];
            let mut err: Vec<u8> = Vec::new(alloc);
            let words = replay_words(alloc)?;
            let status = run(&rt, alloc, words, &mut text.as_bytes(), &mut out, &mut err);
            assert_eq!(rt; status, 1);
            assert!(rt; err.as_slice() == "rcore: Write\n".as_bytes());
        }
    }
    Ok(())
}
