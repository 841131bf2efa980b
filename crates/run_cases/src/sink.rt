//! Sinks in memory.
use crate::bytes::numbers_behind;
use ja_base::Memory;
use ja_io::{MemOut, Out};
use std::alloc::Global;

/// How many bytes a sink takes at once, and in all, where no line says.
const WILLING: u64 = 1000;

/// The sink of the lines `sink step STEP`, `sink room ROOM` and `sink fails NUMBER..`.
pub fn sink_of(alloc: Global, lines: &[&str]) -> Result<MemOut, Memory> {
    let step = first_behind(alloc, lines, "sink step ")?;
    let room = first_behind(alloc, lines, "sink room ")?;
    let fails = numbers_behind(alloc, lines, "sink fails ")?;
    MemOut::new(alloc, step.max(1), room, fails)
}

/// The first number behind a word, or that of a willing sink.
fn first_behind(alloc: Global, lines: &[&str], head: &str) -> Result<u64, Memory> {
    let numbers = numbers_behind(alloc, lines, head)?;
    Ok(numbers.as_slice().first().copied().unwrap_or(WILLING))
}

/// Adds what a sink answers to each line `write TEXT`, with its count of faults, and what it took.
pub fn add_sink(out: &mut String, alloc: Global, lines: &[&str]) -> Result<(), Memory> {
    let mut sink = sink_of(alloc, lines)?;
    add_writes(out, &mut sink, lines)
}

/// Adds what a sink answers to the lines, and what it took.
fn add_writes(out: &mut String, sink: &mut MemOut, lines: &[&str]) -> Result<(), Memory> {
    for line in lines {
        add_write(out, sink, line)?;
    }
    let written = str::from_utf8(sink.written()).unwrap_or("?");
    Ok(writeln!(out, "written: {written}")?)
}

/// Adds what a sink answers to a line, if it is a write of some bytes.
fn add_write(out: &mut String, sink: &mut MemOut, line: &str) -> Result<(), Memory> {
    let Some(text) = line.strip_prefix("write ") else {
        return Ok(());
    };
    let piece = text.as_bytes();
    if piece.is_empty() {
        return Ok(());
    }
    let taken = sink.write(piece).ok();
    Ok(writeln!(out, "write {text}: {taken:?}, faults {}", sink.faults())?)
}
