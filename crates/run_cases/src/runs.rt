//! Runs of the analyser.
use crate::bytes::{Spelled, name_of};
use crate::folder::folder_of;
use crate::sink::sink_of;
use ja_base::{Memory, Name, Names};
use ja_io::{MemFolder, NoGate};
use ja_run::run;
use std::alloc::Global;
use std::thread::Threads;

/// Adds the status of a run over the folder `d`, and what it wrote.
pub fn add_run<R: Threads + Sync>(
    out: &mut String,
    rt: &R,
    alloc: Global,
    spelled: &[Spelled],
    lines: &[&str],
) -> Result<(), Memory> {
    match folder_of(alloc, spelled, lines)? {
        Some(mut folder) => add_run_over(out, rt, alloc, &mut folder, lines),
        None => Ok(writeln!(out, "two files of one name")?),
    }
}

/// Adds the status of a run over a folder, and what it wrote.
fn add_run_over<R: Threads + Sync>(
    out: &mut String,
    rt: &R,
    alloc: Global,
    folder: &mut MemFolder,
    lines: &[&str],
) -> Result<(), Memory> {
    let words = words_given(alloc, lines)?;
    add_run_of(out, rt, alloc, words.as_slice(), folder, lines)
}

/// Adds the status of a run of these words over a folder, and what it wrote.
fn add_run_of<R: Threads + Sync>(
    out: &mut String,
    rt: &R,
    alloc: Global,
    words: &[Name],
    folder: &mut MemFolder,
    lines: &[&str],
) -> Result<(), Memory> {
    let mut sink = sink_of(alloc, lines)?;
    let status = run(rt, alloc, words, folder, &mut sink, &NoGate).number();
    add_told(out, status, sink.written())
}

/// Adds a status and what was written.
fn add_told(out: &mut String, status: u8, written: &[u8]) -> Result<(), Memory> {
    writeln!(out, "status {status}")?;
    Ok(out.push_str(str::from_utf8(written).unwrap_or("?"))?)
}

/// The words behind `words`, or `analyse` and `d` where no line gives them.
fn words_given(alloc: Global, lines: &[&str]) -> Result<Names, Memory> {
    let given = lines.iter().find_map(|line| line.strip_prefix("words"));
    let mut words = Names::new(alloc);
    add_names(&mut words, alloc, given.unwrap_or("analyse d"))?;
    Ok(words)
}

/// Adds the names that words spell.
fn add_names(names: &mut Names, alloc: Global, words: &str) -> Result<(), Memory> {
    for word in words.split_whitespace() {
        names.push(name_of(alloc, word)?)?;
    }
    Ok(())
}
