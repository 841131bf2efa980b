ghost use Rattle.std.specs.Prelude.{◌≡◌, ◌-◌, ◌<◌, ◌≤◌, [], false, true, Some, length, slice_get, map, IfOk};
ghost use Rattle.ja_ir.specs.declared.entry.Site.{Site};
ghost use Rattle.ja_facts.specs.Verdict.{AreVerdictsOf};
ghost use Rattle.ja_explicit.specs.Given.{AreGiven, AreNarrow, Taints, value_count, most_values};
ghost use Rattle.ja_explicit.specs.Tables.{items_of};
ghost use Rattle.ja_explicit.specs.InnerWords.{says};
ghost use Rattle.ja_explicit.specs.InnerRounds as rounds;
ghost use Rattle.ja_explicit.specs.InnerRounds.{IsSound, IsClosed};

use crate::item::Item;
use crate::table::Table;
use crate::words::stacked_is_true;
use ja_base::{Flags, Memory, Seq};
use ja_ir::{Instr, Method, Op, Program, Site, arguments};
use std::alloc::Global;

// Whether an argument of one of these positions is true in a word, over so many values.
fn some_position(method: &Method, word: u32, under: u64, positions: &[u64]) -> bool
    requires narrow { value_count method.now ≤ most_values }
    ensures { result ≡ rounds.some_position (says method.now word) under positions.now }
{
    for k in positions {
        if *k < 10 && under <= 10 && stacked_is_true(method, word, under + *k) {
            return true;
        }
    }
    false
}

// Whether a word before a call makes one of its positions true.
fn warns_at_op(method: &Method, instr: &Instr, word: u32, positions: &[u64]) -> bool
    requires narrow { value_count method.now ≤ most_values }
    ensures { result ≡ rounds.warns_at_op instr.now.op instr.now.height (says method.now word) positions.now }
{
    match &instr.op {
        Op::Call(call) => {
            let under = (instr.height as u64).saturating_sub(arguments(call));
            some_position(method, word, under, positions)
        }
        _ => false,
    }
}

// The same for the instruction of a number, if there is one.
fn warns_in(method: &Method, index: u64, word: u32, positions: &[u64]) -> bool
    requires narrow { value_count method.now ≤ most_values }
    ensures { result ≡ rounds.warns_in (Some method.now) index word positions.now }
{
    match method.code.as_slice().get(index as usize) {
        Some(instr) => warns_at_op(method, instr, word, positions),
        None => false,
    }
}

// The same for an instruction of a method of a program.
fn warns_of(p: &Program, m: u64, index: u64, word: u32, positions: &[u64]) -> bool
    requires narrow { AreNarrow p.now }
    ensures { result ≡ rounds.warns_in (slice_get p.now.methods m) index word positions.now }
{
    if m >= p.methods().len() {
        return false;
    }
    warns_in(p.methods().at(m), index, word, positions)
}

// Whether a fact warns a site.
fn warns(p: &Program, site: &Site, item: Item) -> bool
    requires narrow { AreNarrow p.now }
    ensures { result ≡ rounds.warns p.now site.now item }
{
    match item {
        Item::At {
            method,
            index,
            now,
            ..
        } => {
            method == site.method.0 as u64
                && index == site.index as u64
                && warns_of(p, method, index, now, site.positions.as_slice())
        }
        _ => false,
    }
}

// Whether some fact of a table warns a site.
fn is_warned(p: &Program, table: &Table, site: &Site) -> bool
    requires narrow { AreNarrow p.now }
    ensures { result ≡ rounds.is_warned p.now (items_of table.now) site.now }
{
    let count = table.len();
    for k in 0..count {
        match table.at(k) {
            Some(item) => {
                if warns(p, site, item) {
                    return true;
                }
            }
            None => return false,
        }
    }
    false
}

/// One flag for each site of a program: whether some fact of a table warns it.
pub fn flags_of(alloc: Global, p: &Program, table: &Table) -> Result<Flags, Memory>
    requires narrow { AreNarrow p.now }
    ensures { IfOk result (λ flags. flags ≡ map (rounds.is_warned p.now (items_of table.now)) p.now.sites) }
{
    let mut flags = Seq::new(alloc);
    for site in p.sites().as_slice() {
        flags.push(is_warned(p, table, site))?;
    }
    Ok(flags)
}
