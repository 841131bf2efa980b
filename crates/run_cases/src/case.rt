//! The parts of the input.
use crate::bytes::{Spelled, lines_of, spelled_of};
use crate::folder::add_folder;
use crate::runs::add_run;
use crate::sink::add_sink;
use ja_base::Memory;
use std::alloc::Global;
use std::thread::Threads;

/// What comes of the parts of the input, which empty lines part.
pub fn cases_text<R: Threads + Sync>(rt: &R, alloc: Global, text: &str) -> Result<String, Memory> {
    let mut out = String::new(alloc);
    add_cases(&mut out, rt, alloc, text)?;
    Ok(out)
}

/// Adds what comes of the parts of the input.
fn add_cases<R: Threads + Sync>(
    out: &mut String,
    rt: &R,
    alloc: Global,
    text: &str,
) -> Result<(), Memory> {
    let mut spelled = Vec::new(alloc);
    for part in text.split("\n\n") {
        add_part(out, rt, alloc, &mut spelled, part)?;
    }
    Ok(())
}

/// Adds what comes of a part of the input.
fn add_part<R: Threads + Sync>(
    out: &mut String,
    rt: &R,
    alloc: Global,
    spelled: &mut Vec<Spelled>,
    part: &str,
) -> Result<(), Memory> {
    let lines = lines_of(alloc, part)?;
    add_lines(out, rt, alloc, spelled, lines.as_slice())
}

/// Adds what comes of the lines of a part, or keeps the bytes that they spell.
fn add_lines<R: Threads + Sync>(
    out: &mut String,
    rt: &R,
    alloc: Global,
    spelled: &mut Vec<Spelled>,
    lines: &[&str],
) -> Result<(), Memory> {
    let [head, lines @ ..] = lines else {
        return Ok(());
    };
    match head.strip_prefix("bytes ") {
        Some(name) => Ok(spelled.push(spelled_of(alloc, name, lines)?)?),
        None => add_case(out, rt, alloc, spelled.as_slice(), head, lines),
    }
}

/// Adds what comes of a run, a folder or a sink.
fn add_case<R: Threads + Sync>(
    out: &mut String,
    rt: &R,
    alloc: Global,
    spelled: &[Spelled],
    head: &str,
    lines: &[&str],
) -> Result<(), Memory> {
    let Some((kind, title)) = head.split_once(' ') else {
        return Ok(());
    };
    writeln!(out, "== {title}")?;
    match kind {
        "run" => add_run(out, rt, alloc, spelled, lines),
        "folder" => add_folder(out, alloc, spelled, lines),
        "sink" => add_sink(out, alloc, lines),
        _ => Ok(writeln!(out, "no case")?),
    }
}
