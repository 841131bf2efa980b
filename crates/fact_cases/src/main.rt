//! Fills the tables of facts of a small program, and prints what they answer; then counts what the ends of each
//! operation make.
//!
//! First come the sets and names of the stored input, which says how its lines are read. The tables are those of
//! the program of `sample`. The last lines are those of `ends`.
//!
//! A function that holds a table gives its answers to another one to print: each place where a function can end
//! early, while it has something to let go, makes its proof dearer.
#![tactic(auto)]

mod blocks;
mod classes;
mod ends;
mod heap;
mod sample;
mod small;
mod tables;

ghost use Rattle.std.specs.Prelude.{◌≡◌};
ghost use Rattle.ja_ir.specs.Sample.{sample};

use ends::lines;
use ja_base::Memory;
use ja_ir::Program;
use sample::sample;
use small::small_text;
use std::alloc::Global;
use std::io;

/// What comes of the blocks, the heap and the tables, as lines.
fn facts_text(alloc: Global) -> Result<String, Memory> {
    let mut out = String::new(alloc);
    add_facts(&mut out, alloc)?;
    Ok(out)
}

/// Adds what comes of the blocks, the heap and the tables.
fn add_facts(out: &mut String, alloc: Global) -> Result<(), Memory> {
    blocks::add_blocks(out, alloc)?;
    heap::add_heap(out, alloc)?;
    tables::add_rows(out, alloc)?;
    tables::add_variables(out)?;
    let program = sample(alloc)?;
    add_tables(out, alloc, &program)
}

/// Adds what the tables of the program say.
fn add_tables(out: &mut String, alloc: Global, program: &Program) -> Result<(), Memory>
    requires { program.now ≡ sample }
{
    add_sets(out, alloc, program)?;
    add_heaps(out, alloc, program)
}

/// Adds what the class sets and the call graph say.
fn add_sets(out: &mut String, alloc: Global, program: &Program) -> Result<(), Memory>
    requires { program.now ≡ sample }
{
    classes::add_code(out, alloc, program)?;
    classes::add_methods(out, alloc, program)?;
    classes::add_objects(out, alloc, program)?;
    tables::add_reached(out, alloc, program)?;
    tables::add_calls(out, alloc, program)
}

/// Adds what the effects, the pairs and the held cells are.
fn add_heaps(out: &mut String, alloc: Global, program: &Program) -> Result<(), Memory>
    requires { program.now ≡ sample }
{
    tables::add_effects(out, alloc, program)?;
    tables::add_first_pairs(out, alloc, program)?;
    tables::add_pairs(out, alloc)?;
    tables::add_reach(out, alloc)?;
    tables::add_held(out, alloc, program)?;
    tables::add_field_held(out, alloc, program)
}

fn main(rt: HostRuntime) -> io::Result<()> {
    let alloc = rt.alloc();
    let text = io::read_to_string(alloc, rt.reader())?;
    for told in [
        small_text(alloc, text.as_str()),
        facts_text(alloc),
        lines(alloc),
    ] {
        print!(rt;
            "{}",
            told.as_ref()
                .map_or("out of memory\n", |text| text.as_str())
        )?;
    }
    Ok(())
}
