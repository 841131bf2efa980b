//! Reads table files, makes class hierarchies, and asks a real directory and real streams, and prints what each
//! answers.
//!
//! What is asked stands in the files `tables.txt`, `hierarchies.txt` and `edges.txt`, which say how their lines are
//! read.
#![tactic(auto)]

mod edges;
mod hierarchies;
mod tables;

use edges::print_answers;
use hierarchies::hierarchies_text;
use ja_base::Memory;
use std::{fs, io};
use tables::tables_text;

/// Prints a text.
fn print_text(rt: &HostRuntime, text: Result<String, Memory>) -> io::Result<()> {
    print!(rt;
        "{}",
        text.as_ref()
            .map_or("out of memory\n", |text| text.as_str())
    )
}

/// Prints what comes of the tables.
fn print_tables(rt: &HostRuntime) -> io::Result<()> {
    let text = fs::read_to_string(rt, "tables.txt")?;
    print_text(rt, tables_text(rt.alloc(), text.as_str()))
}

/// Prints what comes of the hierarchies.
fn print_hierarchies(rt: &HostRuntime) -> io::Result<()> {
    let text = fs::read_to_string(rt, "hierarchies.txt")?;
    print_text(rt, hierarchies_text(rt.alloc(), text.as_str()))
}

/// Prints what a directory and streams answer.
fn print_edges(rt: &HostRuntime) -> io::Result<()> {
    let text = fs::read_to_string(rt, "edges.txt")?;
    print_answers(rt, text.as_str())
}

fn main(rt: HostRuntime) -> io::Result<()> {
    print_tables(&rt)?;
    print_hierarchies(&rt)?;
    print_edges(&rt)
}
