ghost use Rattle.std.specs.Prelude.{◌≡◌, ◌+◌, ◌<◌, false, map, replicate, IfOk};
ghost use Rattle.ja_facts.specs.ClassTables.{token_count, no_members, throws_some, slots_before, throws_before};
ghost use Rattle.ja_facts.specs.Shared.{zero_slots_of, zero_thrown_of};
ghost use Rattle.ja_ir.specs.Params.{param_count};
ghost use Rattle.ja_ir.specs.declared.method.Method.{Method};

use crate::flat::FlatRows;
use crate::params::param_count;
use crate::rows::Rows;
use ja_base::Memory;
use ja_ir::{Instr, Method, Op, Program};
use ja_sets::TokenSet;
use std::alloc::Global;

/// The number of the tokens of a program.
pub fn token_count(p: &Program) -> u32
    ensures { result ≡ token_count p.now }
{
    p.classes().len() as u32 + 4
}

/// So many empty sets of numbers below `n`.
pub fn set_row(alloc: Global, count: u64, n: u32) -> Result<Rows<TokenSet>, Memory>
    ensures { IfOk result (λ row. row ≡ replicate count (no_members n)) }
{
    let mut row = Rows::new(alloc);
    for _i in 0..count {
        row.push(TokenSet::new(alloc, n)?)?;
    }
    Ok(row)
}

// Whether some end of an operation throws.
fn throws_some(op: &Op) -> bool
    ensures { result ≡ throws_some op.now }
{
    match op {
        Op::Mix { throws, .. } => *throws,
        Op::New(_)
        | Op::NewArray { .. }
        | Op::ArrLoad(_)
        | Op::ArrStore(_)
        | Op::ArrLen
        | Op::GetField(_)
        | Op::PutField(_)
        | Op::Cast(_)
        | Op::Monitor
        | Op::Throw
        | Op::Call(_) => true,
        _ => false,
    }
}

// The number of the slots before an instruction, if it is reached.
fn slots_before(method: &Method, instr: &Instr) -> u64
    ensures { result ≡ slots_before method.now instr.now }
{
    if instr.reached {
        method.locals as u64 + instr.height as u64
    } else {
        0
    }
}

// 1 for a reached instruction that may throw, 0 for another.
fn throws_before(instr: &Instr) -> u32
    ensures { result ≡ throws_before instr.now }
{
    if instr.reached && throws_some(&instr.op) {
        1
    } else {
        0
    }
}

// Name 0 for each slot before each instruction of a method.
fn method_slots(alloc: Global, method: &Method) -> Result<FlatRows, Memory>
    ensures { IfOk result (λ rows. rows ≡ zero_slots_of method.now) }
{
    let mut rows = FlatRows::new(alloc);
    for instr in method.code.as_slice() {
        match Vec::from_elem(alloc, 0, slots_before(method, instr) as usize) {
            Ok(names) => rows.push(names.as_slice())?,
            Err(_) => return Err(Memory),
        }
    }
    Ok(rows)
}

// Name 0, as a number that may be no name, for each instruction of a method that may throw.
fn method_thrown(alloc: Global, method: &Method) -> Result<Rows<u32>, Memory>
    ensures { IfOk result (λ row. row ≡ zero_thrown_of method.now) }
{
    let mut row = Rows::new(alloc);
    for instr in method.code.as_slice() {
        row.push(throws_before(instr))?;
    }
    Ok(row)
}

/// Name 0 for each slot before each instruction of each method.
pub fn slot_names(alloc: Global, p: &Program) -> Result<Rows<FlatRows>, Memory>
    ensures { IfOk result (λ table. table ≡ map zero_slots_of p.now.methods) }
{
    let mut table = Rows::new(alloc);
    for method in p.methods().as_slice() {
        table.push(method_slots(alloc, method)?)?;
    }
    Ok(table)
}

/// Name 0, as a number that may be no name, for each instruction of each method that may throw.
pub fn thrown_names(alloc: Global, p: &Program) -> Result<Rows<Rows<u32>>, Memory>
    ensures { IfOk result (λ rows. rows ≡ map zero_thrown_of p.now.methods) }
{
    let mut rows = Rows::new(alloc);
    for method in p.methods().as_slice() {
        rows.push(method_thrown(alloc, method)?)?;
    }
    Ok(rows)
}

/// The empty sets of the parameters of each method.
pub fn param_sets(alloc: Global, p: &Program, n: u32) -> Result<Rows<Rows<TokenSet>>, Memory>
    ensures { IfOk result (λ rows. rows ≡ map (λ (method : Method). replicate (param_count method) (no_members n)) p.now.methods) }
{
    let mut rows = Rows::new(alloc);
    for method in p.methods().as_slice() {
        rows.push(set_row(alloc, param_count(method), n)?)?;
    }
    Ok(rows)
}

/// So many flags, none of them set.
pub fn flag_row(alloc: Global, count: u64) -> Result<Rows<bool>, Memory>
    ensures { IfOk result (λ row. row ≡ replicate count false) }
{
    let mut row = Rows::new(alloc);
    for _i in 0..count {
        row.push(false)?;
    }
    Ok(row)
}
