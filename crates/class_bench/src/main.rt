//! Reads all class files in a directory, for measuring.
//!
//! `class_bench DIR` prints how many files were read as classes, their bytes, the indices of their pools, and, for
//! each refusal by its number, how many files were refused so. `class_bench DIR ROUNDS` reads them so many times
//! and prints the nanoseconds for the pools alone and for the classes, too.
#![tactic(auto)]

mod tally;

use ja_base::{Name, Names};
use std::io;
use std::time::Instant;
use tally::{NUMBERS, pool_indices, tally_of};
use tool_parts::{files_in, words_of};

/// The directory and the number of rounds, 0 where none is given.
fn directory_and_rounds(words: &Names) -> io::Result<(&Name, u64)> {
    match words.as_slice() {
        [dir] => Ok((dir, 0)),
        [dir, rounds, ..] => Ok((dir, number_of(rounds))),
        [] => Err(io::Error::from(io::ErrorKind::InvalidInput)),
    }
}

/// The number that a word is, 0 where it is none.
fn number_of(word: &Name) -> u64 {
    match str::from_utf8(word.bytes()) {
        Ok(text) => text.parse::<u64>().unwrap_or(0),
        Err(_) => 0,
    }
}

fn main(rt: HostRuntime) -> io::Result<()> {
    let alloc = rt.alloc();
    let words = words_of(&rt)?;
    let (dir, rounds) = directory_and_rounds(&words)?;
    let files = files_in(&rt, dir, b".class")?;
    let start = Instant::now(&rt)?;
    let mut indices = pool_indices(alloc, files.as_slice());
    for _ in 1..rounds {
        indices = pool_indices(alloc, files.as_slice());
    }
    let pools = start.elapsed(&rt)?.as_nanos();
    let start = Instant::now(&rt)?;
    let mut tally = tally_of(alloc, files.as_slice());
    for _ in 1..rounds {
        tally = tally_of(alloc, files.as_slice());
    }
    let classes = start.elapsed(&rt)?.as_nanos();
    println!(rt;
        "read {} bytes {} indices {}",
        tally.read, tally.bytes, indices
    )?;
    for number in 0..NUMBERS {
        let count = tally.refused[number];
        if count > 0 {
            println!(rt; "refused {number} files {count}")?;
        }
    }
    if rounds > 0 {
        println!(rt; "nanoseconds pools {pools} classes {classes}")?;
    }
    Ok(())
}
