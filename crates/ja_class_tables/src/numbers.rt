ghost use Rattle.std.specs.Prelude.{◌≡◌, Some, slice_get, IfOk, OnOk};
ghost use Rattle.ja_ir.specs.Whole.{IsWhole};
ghost use Rattle.ja_network.specs.Facts.{IsNetwork};
ghost use Rattle.ja_class_tables.specs.InnerPool as inner;
ghost use Rattle.ja_class_tables.specs.InnerPool.{AreNumbers, AreAllNumbers, Grows, IsNumber, IsPool};
ghost use Rattle.ja_class_tables.specs.InnerNotes.{HasItems};

use crate::pool::Pool;
use ja_base::{Memory, MethodId};
use ja_facts::{CallGraph, Rows};
use ja_ir::{Instr, Method, Op, Program};
use ja_network::{Cell, Network};
use std::alloc::Global;

/// What is asked of each instruction.
#[derive(Clone, Copy)]
pub enum Part {
    /// What it throws, if it is reached.
    OfThrown,
    /// What takes its arguments, if it is a call.
    OfTakers,
}

// Whether an operation is a call.
fn is_call(op: &Op) -> bool
    ensures { result ≡ inner.is_call op.now }
{
    match op {
        Op::Call(_) => true,
        _ => false,
    }
}

// The cell of such a part of an instruction, if there is one.
fn part_of(part: Part, graph: &CallGraph, m: u32, i: u32, instr: &Instr) -> Option<Cell>
    ensures { result ≡ inner.part_of part graph.now m i (Some instr.now) }
{
    let (method, index) = (m, i);
    match part {
        Part::OfThrown => {
            if graph.reached(MethodId(m), i) {
                Some(Cell::Thrown { method, index })
            } else {
                None
            }
        }
        Part::OfTakers => {
            if is_call(&instr.op) {
                Some(Cell::Takers { method, index })
            } else {
                None
            }
        }
    }
}

// One more than the name of the set of a cell, and 0 where there is none.
fn number_of(
    alloc: Global,
    net: &Network,
    cell: Option<Cell>,
    pool: &mut Pool,
) -> Result<u32, Memory>
    requires network { IsNetwork net.now }
    requires pool { IsPool net.now pool.old }
    ensures pool { OnOk result (IsPool net.now pool.new) }
    ensures grows { OnOk result (Grows pool.old.sets pool.new.sets) }
    ensures number { IfOk result (IsNumber net.now pool.new.sets cell) }
{
    match cell {
        Some(cell) => {
            let name = pool.name_once(alloc, net, cell)?;
            Ok(name + 1)
        }
        None => Ok(0),
    }
}

// The numbers of the instructions of a method.
fn method_numbers(
    alloc: Global,
    p: &Program,
    net: &Network,
    part: Part,
    graph: &CallGraph,
    m: u32,
    method: &Method,
    pool: &mut Pool,
) -> Result<Rows<u32>, Memory>
    requires network { IsNetwork net.now }
    requires whole { IsWhole p.now }
    requires found { slice_get p.now.methods m ≡ Some method.now }
    requires room { HasItems p.now graph.now.reached }
    requires pool { IsPool net.now pool.old }
    ensures pool { OnOk result (IsPool net.now pool.new) }
    ensures grows { OnOk result (Grows pool.old.sets pool.new.sets) }
    ensures numbers { IfOk result (AreNumbers p.now net.now part graph.now pool.new.sets m) }
{
    let mut row = Rows::new(alloc);
    for (i, instr) in method.code.as_slice().iter().enumerate() {
        let cell = part_of(part, graph, m, i as u32, instr);
        let number = number_of(alloc, net, cell, pool)?;
        row.push(number)?;
    }
    Ok(row)
}

/// The numbers of such a part of each instruction of each method.
pub fn numbers_of(
    alloc: Global,
    p: &Program,
    net: &Network,
    part: Part,
    graph: &CallGraph,
    pool: &mut Pool,
) -> Result<Rows<Rows<u32>>, Memory>
    requires network { IsNetwork net.now }
    requires room { HasItems p.now graph.now.reached }
    requires pool { IsPool net.now pool.old }
    ensures pool { OnOk result (IsPool net.now pool.new) }
    ensures grows { OnOk result (Grows pool.old.sets pool.new.sets) }
    ensures numbers { IfOk result (AreAllNumbers p.now net.now part graph.now pool.new.sets) }
{
    let mut table = Rows::new(alloc);
    for (m, method) in p.methods().as_slice().iter().enumerate() {
        let row = method_numbers(alloc, p, net, part, graph, m as u32, method, pool)?;
        table.push(row)?;
    }
    Ok(table)
}
