//! Asks the table of nodes and the operations on diagrams, and prints what they answer.
//!
//! First come the tables of the stored input, which says how its lines are read; then functions whose diagrams are
//! known: small ones, 200 random ones, chains of all variables, relations of 500 slots; what rules make
//! of relations of three slots; two threads; and at last the stored tables whose roots grow into other tables.
#![tactic(auto)]

mod growth;
mod joined;
mod large;
mod nodes;
mod pool;
mod random;
mod renamed;
mod room;
mod rules;
mod stepped;
mod threads;

use growth::growth_text;
use ja_base::Memory;
use room::{Part, add_part};
use std::alloc::Global;
use std::io;
use std::thread::Threads;

/// The parts that work with larger functions, and those of rules.
const PARTS: [Part; 8] = [
    Part::Random,
    Part::Chains,
    Part::Kept,
    Part::Rules,
    Part::Chain,
    Part::Composed,
    Part::Projected,
    Part::Called,
];

/// What comes of the tables that a text spells, as lines.
fn tables_text(alloc: Global, text: &str) -> Result<String, Memory> {
    let mut out = String::new(alloc);
    add_tables(&mut out, alloc, text)?;
    Ok(out)
}

/// Adds what comes of the tables that a text spells.
fn add_tables(out: &mut String, alloc: Global, text: &str) -> Result<(), Memory> {
    for case in text.split("\ntable ").skip(1) {
        if let Some((slots, lines)) = case.split_once('\n') {
            let slots = slots.parse::<u64>().unwrap_or(0);
            nodes::add_table(out, alloc, slots, lines)?;
        }
    }
    Ok(())
}

/// What comes of nodes and functions that no text spells, as lines.
fn functions_text<R: Threads + Sync>(rt: &R, alloc: Global) -> Result<String, Memory> {
    let mut out = String::new(alloc);
    add_functions(&mut out, rt, alloc)?;
    Ok(out)
}

/// Adds what comes of nodes and functions that no text spells.
fn add_functions<R: Threads + Sync>(out: &mut String, rt: &R, alloc: Global) -> Result<(), Memory> {
    nodes::add_parts(out, alloc)?;
    nodes::add_largest(out, alloc)?;
    nodes::add_threads(out, rt, alloc)?;
    add_part(out, alloc, Part::Joined)?;
    renamed::add_renamed(out, alloc)?;
    add_parts(out, alloc)?;
    threads::add_workers(out, rt, alloc)
}

/// Adds what comes of the parts that work with larger functions, and of rules.
fn add_parts(out: &mut String, alloc: Global) -> Result<(), Memory> {
    for part in PARTS {
        add_part(out, alloc, part)?;
    }
    Ok(())
}

fn main(rt: HostRuntime) -> io::Result<()> {
    let alloc = rt.alloc();
    let text = io::read_to_string(alloc, rt.reader())?;
    for told in [
        tables_text(alloc, text.as_str()),
        functions_text(&rt, alloc),
        growth_text(alloc, text.as_str()),
    ] {
        print!(rt;
            "{}",
            told.as_ref()
                .map_or("out of memory\n", |text| text.as_str())
        )?;
    }
    Ok(())
}
