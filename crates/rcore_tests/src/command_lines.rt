//! What each command line answers: status and bytes on both streams, over memory.

use rcore_commands::run::run;
use std::alloc::{AllocError, Global};
use std::env::Args;
use std::test::Fail;

const BAD_WORDS: &str = "rcore: bad words\n";

/// What `order lifo` prints.
const DOWN_FROM_99: &str =
    "99 98 97 96 95 94 93 92 91 90 89 88 87 86 85 84 83 82 81 80 79 78 77 76 75 74 73 72 71 \
    70 69 68 67 66 65 64 63 62 61 60 59 58 57 56 55 54 53 52 51 50 49 48 47 46 45 44 43 42 \
    41 40 39 38 37 36 35 34 33 32 31 30 29 28 27 26 25 24 23 22 21 20 19 18 17 16 15 14 13 \
    12 11 10 9 8 7 6 5 4 3 2 1 0\n";

/// What `order breadth` prints.
const UP_TO_99: &str =
    "0 1 2 3 4 5 6 7 8 9 10 11 12 13 14 15 16 17 18 19 20 21 22 23 24 25 26 27 28 29 30 31 \
    32 33 34 35 36 37 38 39 40 41 42 43 44 45 46 47 48 49 50 51 52 53 54 55 56 57 58 59 60 \
    61 62 63 64 65 66 67 68 69 70 71 72 73 74 75 76 77 78 79 80 81 82 83 84 85 86 87 88 89 \
    90 91 92 93 94 95 96 97 98 99\n";

/// What `order lifo-fifo` prints.
const TENS_DOWN: &str =
    "90 91 92 93 94 95 96 97 98 99 80 81 82 83 84 85 86 87 88 89 70 71 72 73 74 75 76 77 \
    78 79 60 61 62 63 64 65 66 67 68 69 50 51 52 53 54 55 56 57 58 59 40 41 42 43 44 45 \
    46 47 48 49 30 31 32 33 34 35 36 37 38 39 20 21 22 23 24 25 26 27 28 29 10 11 12 13 \
    14 15 16 17 18 19 0 1 2 3 4 5 6 7 8 9\n";

/// What `order fifo-lifo` prints.
const TENS_UP: &str =
    "9 8 7 6 5 4 3 2 1 0 19 18 17 16 15 14 13 12 11 10 29 28 27 26 25 24 23 22 21 20 39 \
    38 37 36 35 34 33 32 31 30 49 48 47 46 45 44 43 42 41 40 59 58 57 56 55 54 53 52 51 \
    50 69 68 67 66 65 64 63 62 61 60 79 78 77 76 75 74 73 72 71 70 89 88 87 86 85 84 83 \
    82 81 80 99 98 97 96 95 94 93 92 91 90\n";

/// What `broadcast 64` prints.
const SQUARES_TO_63: &str =
    "0 1 4 9 16 25 36 49 64 81 100 121 144 169 196 225 256 289 324 361 400 441 484 529 576 \
    625 676 729 784 841 900 961 1024 1089 1156 1225 1296 1369 1444 1521 1600 1681 1764 1849 \
    1936 2025 2116 2209 2304 2401 2500 2601 2704 2809 2916 3025 3136 3249 3364 3481 3600 \
    3721 3844 3969\n";

/// Command lines that are done, and what they print.
const GOOD_LINES: [(&str, &str); 43] = [
    ("fib 1 20", "6765\n"),
    ("fib 1 0", "0\n"),
    ("fib 1 1", "1\n"),
    ("fib 1 2", "1\n"),
    ("fib 1 30", "832040\n"),
    ("fib 1 +7", "13\n"),
    ("fib +1 007", "13\n"),
    ("fib 4 0", "0\n"),
    ("fib 2 20", "6765\n"),
    ("fib 04 21", "10946\n"),
    ("fib 16 22", "17711\n"),
    ("fib 20", "6765\n"),
    ("fib 0", "0\n"),
    ("fib +007", "13\n"),
    ("fib 13", "233\n"),
    ("fib 64 25", "75025\n"),
    ("order lifo", DOWN_FROM_99),
    ("order breadth", UP_TO_99),
    ("order fifo", UP_TO_99),
    ("order lifo-fifo", TENS_DOWN),
    ("order fifo-lifo", TENS_UP),
    ("order scope-lifo", DOWN_FROM_99),
    ("order scope-fifo", UP_TO_99),
    ("order mixed-lifo-fifo", "3 -1 2 -2 1 -3 0\n"),
    ("order mixed-fifo-lifo", "0 -3 1 -2 2 -1 3\n"),
    ("broadcast 5", "0 1 4 9 16\n"),
    ("broadcast 1", "0\n"),
    ("broadcast +007", "0 1 4 9 16 25 36\n"),
    ("broadcast 64", SQUARES_TO_63),
    ("threads 0 0 8 4", "4\n"),
    ("threads 0 x 8 4", "8\n"),
    ("threads 0 - 0 4", "4\n"),
    ("threads 0 +3 - 4", "3\n"),
    ("threads 0 18446744073709551616 5 4", "5\n"),
    ("threads 70000 - - 4", "65535\n"),
    ("threads 0 - - 0", "1\n"),
    ("threads 0 + 2 8", "2\n"),
    ("threads 0 00 5 3", "3\n"),
    ("threads 0 007 - 4", "7\n"),
    ("threads 0 -1 6 2", "6\n"),
    ("threads +0 -1 6 2", "6\n"),
    ("threads 65536 - - 4", "65535\n"),
    ("threads 3 9 9 9", "3\n"),
];

/// Command lines that are bad words.
const BAD_LINES: [&str; 48] = [
    "",
    "fib",
    "fib x",
    "fib 31",
    "fib 256",
    "fib -1",
    "fib 18446744073709551616",
    "fib 1 x",
    "fib x 1",
    "fib 0 5",
    "fib 65 1",
    "fib 18446744073709551617 1",
    "fib -1 1",
    "fib 64 31",
    "fib 1 31",
    "fib 1 256",
    "fib 1 -1",
    "fib 1 +",
    "fib 1 18446744073709551616",
    "fib 1 2 3",
    "Fib 1 2",
    "fibonacci 1 2",
    "order",
    "order x",
    "order Lifo",
    "order lifo 1",
    "order breadth breadth",
    "order mixed",
    "order fifo lifo",
    "order scope",
    "order scope-breadth",
    "Order lifo",
    "broadcast",
    "broadcast 0",
    "broadcast 65",
    "broadcast 18446744073709551617",
    "broadcast 5 5",
    "broadcast x",
    "Broadcast 5",
    "threads",
    "threads 0 0 8",
    "threads 0 0 8 4 2",
    "threads x - - 1",
    "threads -1 - - 1",
    "threads 0 - - x",
    "threads 18446744073709551616 - - 1",
    "replay 1",
    "Replay",
];

// The words of a line.
fn words_of(alloc: Global, line: &str) -> Result<Args, AllocError> {
    let mut words = Vec::new(alloc);
    for word in line.split_whitespace() {
        words.push(String::from_str(alloc, word)?)?;
    }
    Ok(words.into_iter())
}

#[test]
fn good_lines(rt: HostRuntime) -> Result<(), Fail> {
    let alloc = rt.alloc();
    for (line, text) in GOOD_LINES {
        let words = words_of(alloc, line)?;
        let mut out: Vec<u8> = Vec::new(alloc);
        let mut err: Vec<u8> = Vec::new(alloc);
        let status = run(&rt, alloc, words, &mut rt.reader(), &mut out, &mut err);
        assert_eq!(rt; status, 0, "{line}");
        assert!(rt; out.as_slice() == text.as_bytes(), "{line}");
        assert!(rt; err.is_empty(), "{line}");
    }
    Ok(())
}

#[test]
fn bad_lines(rt: HostRuntime) -> Result<(), Fail> {
    let alloc = rt.alloc();
    for line in BAD_LINES {
        let words = words_of(alloc, line)?;
        let mut out: Vec<u8> = Vec::new(alloc);
        let mut err: Vec<u8> = Vec::new(alloc);
        let status = run(&rt, alloc, words, &mut rt.reader(), &mut out, &mut err);
        assert_eq!(rt; status, 2, "{line}");
        assert!(rt; out.is_empty(), "{line}");
        assert!(rt; err.as_slice() == BAD_WORDS.as_bytes(), "{line}");
    }
    Ok(())
}

#[test]
fn failed_writes(rt: HostRuntime) -> Result<(), Fail> {
    let alloc = rt.alloc();
    // A slice without room takes no byte, and one with room for two takes two of them.
    for (line, room) in [
        ("fib 1 20", 0),
        ("fib 1 20", 2),
        ("order lifo", 0),
        ("order lifo", 2),
        ("broadcast 5", 0),
        ("broadcast 5", 2),
    ] {
        let mut bytes = [0u8; 2];
        let mut out = &mut bytes[..room];
        let mut err: Vec<u8> = Vec::new(alloc);
        let words = words_of(alloc, line)?;
        let status = run(&rt, alloc, words, &mut rt.reader(), &mut out, &mut err);
        assert_eq!(rt; status, 1);
        assert!(rt; err.as_slice() == "rcore: Write\n".as_bytes());
    }
    let mut out: Vec<u8> = Vec::new(alloc);
    let mut nothing = [0u8; 0];
    let mut err = &mut nothing[..];
    let status = run(
        &rt,
        alloc,
        words_of(alloc, "")?,
        &mut rt.reader(),
        &mut out,
        &mut err,
    );
    assert_eq!(rt; status, 2);
    assert!(rt; out.is_empty());
    Ok(())
}
