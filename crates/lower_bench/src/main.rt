//! Lowers the class files in a directory, for measuring and comparing.
//!
//! `lower_bench DIR` takes each file as a folder of its own, and prints how many were not read as classes, how many
//! were lowered and, for each refusal by its number, how many were refused so. Then it takes all that were lowered
//! as one folder, without those on whose account it is refused, and prints how many were left out, and the
//! folder's classes, methods and instructions. `lower_bench DIR ROUNDS` lowers that folder so many times more and
//! prints the nanoseconds. `lower_bench --print DIR` prints for each file its name and what comes of it, the text
//! of the program or the line of the refusal, and `lower_bench --folders DIR` does so for each folder in DIR.
#![tactic(auto)]

mod count;
mod outcome;
mod task;
mod together;

use count::{NUMBERS, Tally, tally_of};
use ja_base::{File, Files, Memory, Name};
use ja_lib::{Table, default_table};
use outcome::outcome_text;
use std::alloc::Global;
use std::io::{self, ErrorKind};
use std::process::ExitCode;
use std::rt::Runtime;
use std::slice;
use std::thread::Threads;
use std::time::Instant;
use task::{Task, task_of};
use together::{Whole, instructions, lower_together};
use tool_parts::{files_in, folders_in, words_of};

/// The error for want of memory.
fn out_of_memory(_memory: Memory) -> io::Error {
    io::Error::from(ErrorKind::OutOfMemory)
}

/// Prints what came of each file alone.
fn print_tally<R: Runtime>(rt: &R, tally: &Tally) -> io::Result<()> {
    println!(rt; "unread {}", tally.unread)?;
    println!(rt; "lowered {}", tally.lowered.len())?;
    for number in 0..NUMBERS {
        let count = tally.refused[number];
        if count > 0 {
            println!(rt; "refused {number} classes {count}")?;
        }
    }
    Ok(())
}

/// Lowers a folder so many times and prints the nanoseconds.
fn print_rounds<R: Runtime + AllocGlobal + Threads + Sync>(
    rt: &R,
    whole: &Whole,
    table: &Table,
    rounds: u64,
) -> io::Result<()> {
    let start = Instant::now(rt)?;
    let mut refused = 0u64;
    for _ in 0..rounds {
        if whole.folder.lower(rt, rt.alloc(), table).is_err() {
            refused = refused.saturating_add(1);
        }
    }
    let spent = start.elapsed(rt)?.as_nanos();
    println!(rt; "rounds {rounds} refused {refused} nanoseconds {spent}")
}

/// Counts outcomes, and measures how long all classes that are lowered take together.
fn measure<R: Runtime + AllocGlobal + Threads + Sync>(
    rt: &R,
    files: &[File],
    table: &Table,
    rounds: u64,
) -> io::Result<()> {
    let tally = tally_of(rt, rt.alloc(), files, table).map_err(out_of_memory)?;
    print_tally(rt, &tally)?;
    let Some(whole) = lower_together(rt, rt.alloc(), tally.lowered, table).map_err(out_of_memory)?
    else {
        return Ok(());
    };
    println!(rt;
        "left out {} classes {} methods {} instructions {}",
        whole.left_out,
        whole.program.classes().len(),
        whole.program.methods().len(),
        instructions(&whole.program)
    )?;
    if rounds > 0 {
        print_rounds(rt, &whole, table, rounds)?;
    }
    Ok(())
}

/// Prints a name and what comes of these files as one folder.
fn print_outcome<R: Runtime + AllocGlobal + Threads + Sync>(
    rt: &R,
    name: &Name,
    files: &[File],
    table: &Table,
) -> io::Result<()> {
    let text = outcome_text(rt, rt.alloc(), files, table).map_err(out_of_memory)?;
    print!(rt;
        "== {}\n{text}",
        str::from_utf8(name.bytes()).unwrap_or("?")
    )
}

/// Prints what comes of each file as a folder of its own.
fn print_each<R: Runtime + AllocGlobal + Threads + Sync>(
    rt: &R,
    files: &[File],
    table: &Table,
) -> io::Result<()> {
    for file in files {
        print_outcome(rt, &file.name, slice::from_ref(file), table)?;
    }
    Ok(())
}

/// Prints what comes of each folder that lies in a directory.
fn print_folders<R: Runtime + AllocGlobal + Threads + Sync>(
    rt: &R,
    dir: &Name,
    table: &Table,
) -> io::Result<()> {
    let folders = folders_in(rt.clone()?, dir)?;
    for folder in folders.as_slice() {
        let path = below(rt.alloc(), dir, folder).map_err(out_of_memory)?;
        let files = class_files(rt, &path)?;
        print_outcome(rt, folder, files.as_slice(), table)?;
    }
    Ok(())
}

/// The path of what lies in a directory under a name.
fn below(alloc: Global, dir: &Name, name: &Name) -> Result<Name, Memory> {
    let mut path = Vec::from_slice(alloc, dir.bytes())?;
    path.push(b'/')?;
    path.extend_from_slice(name.bytes())?;
    Ok(Name::from_vec(path))
}

/// The class files below a directory.
fn class_files<R: Runtime + AllocGlobal>(rt: &R, dir: &Name) -> io::Result<Files> {
    files_in(rt.clone()?, dir, b".class")
}

/// Does what the words say, and answers the status.
fn run<R: Runtime + AllocGlobal + Threads + Sync>(rt: &R) -> io::Result<u8> {
    let words = words_of(rt)?;
    let Some((task, dir)) = task_of(words.as_slice()) else {
        println!(rt; "usage: lower_bench [--print | --folders] DIR [ROUNDS]")?;
        return Ok(2);
    };
    let table = default_table(rt.alloc()).map_err(out_of_memory)?;
    match task {
        Task::Measure { rounds } => measure(rt, class_files(rt, dir)?.as_slice(), &table, rounds)?,
        Task::PrintEach => print_each(rt, class_files(rt, dir)?.as_slice(), &table)?,
        Task::PrintFolders => print_folders(rt, dir, &table)?,
    }
    Ok(0)
}

fn main(rt: HostRuntime) -> io::Result<ExitCode> {
    Ok(ExitCode::from(run(&rt)?))
}
