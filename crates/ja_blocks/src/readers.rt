ghost use Rattle.std.specs.Prelude.{◌≡◌, ◌≤◌, ◌<◌, All, Contains, OnOk, IfOk, Some, length, slice_get};
ghost use Rattle.ja_ir.specs.Lookup.{instr_at};
ghost use Rattle.ja_blocks.specs.Blocks.{IsBlockIn};
ghost use Rattle.ja_blocks.specs.Index.{IsIndex, IsNoted};
ghost use Rattle.ja_blocks.specs.Readers.{ReadsEnd, Gets, GetsAt, HasInstr, BlockReadsEnd, BlockGets, BlockBegins};

use crate::blocks::ProgramBlock;
use crate::note::{note, note_all};
use ja_base::{Memory, MethodId, Numbers, Seq};
use ja_facts::CallGraph;
use ja_ir::{Instr, Op, Program};
use std::alloc::Global;

/// Lists without numbers.
pub fn empty_lists(alloc: Global, count: usize) -> Result<Vec<Numbers>, Memory>
    ensures { IfOk result (λ lists. IsIndex count lists.items (λ k x. ⊥)) }
{
    let mut lists = Vec::new(alloc);
    for _key in 0..count {
        lists.push(Seq::new(alloc))?;
    }
    Ok(lists)
}

/// Adds a number to the lists of class initialisers.
fn note_inits(lists: &mut Vec<Numbers>, inits: &[MethodId], number: u64) -> Result<(), Memory>
    ensures { OnOk result (IsNoted lists.old.items lists.new.items (λ k x. Contains inits.now (record { 0 = k }) × (x ≡ number))) }
{
    for init in inits {
        note(lists, u64::from(init.0), number)?;
    }
    Ok(())
}

/// Adds a block to the lists of the methods by whose ends an instruction of it goes.
fn note_ends(
    lists: &mut Vec<Numbers>,
    p: &Program,
    graph: &CallGraph,
    m: MethodId,
    i: u32,
    instr: &Instr,
    block: u64,
) -> Result<(), Memory>
    requires { instr_at p.now m.0 i ≡ Some instr.now }
    ensures { OnOk result (IsNoted lists.old.items lists.new.items (λ k x. ReadsEnd p.now graph.now m.0 i k × (x ≡ block))) }
{
    note_all(lists, graph.targets(m, i).methods.as_slice(), block)?;
    note_inits(lists, p.inits_of(&instr.op), block)?;
    Ok(())
}

/// Adds a block to the list of the field that an operation of it reads, if it reads one.
fn note_field(lists: &mut Vec<Numbers>, op: &Op, block: u64) -> Result<(), Memory>
    ensures { OnOk result (IsNoted lists.old.items lists.new.items (λ k x. Gets op.now k × (x ≡ block))) }
{
    match op {
        Op::GetField(field) | Op::GetStatic(field) => note(lists, u64::from(field.0), block)?,
        _ => (),
    }
    Ok(())
}

/// For each method the blocks that begin it and those that go by how it ends, and for each field those that read it.
#[derive(Drop)]
pub struct Readers {
    pub begins: Vec<Numbers>,
    pub ends: Vec<Numbers>,
    pub fields: Vec<Numbers>,
}

/// Adds a block to the list of the method that it begins, if it begins one.
fn note_beginning(lists: &mut Vec<Numbers>, block: ProgramBlock, number: u64) -> Result<(), Memory>
    ensures { OnOk result (IsNoted lists.old.items lists.new.items (λ k x. ((block.method.0 ≡ k) × (block.first ≡ 0)) × (x ≡ number))) }
{
    if block.first == 0 {
        note(lists, u64::from(block.method.0), number)?;
    }
    Ok(())
}

/// Adds a block to the lists of all that its instructions read.
fn note_block(
    readers: &mut Readers,
    p: &Program,
    graph: &CallGraph,
    block: ProgramBlock,
    number: u64,
) -> Result<(), Memory>
    requires block { IsBlockIn p.now block }
    ensures begins { readers.new.begins ≡ readers.old.begins }
    ensures ends { OnOk result (IsNoted readers.old.ends.items readers.new.ends.items (λ k x. HasInstr block (λ m i. ReadsEnd p.now graph.now m i k) × (x ≡ number))) }
    ensures fields { OnOk result (IsNoted readers.old.fields.items readers.new.fields.items (λ k x. HasInstr block (λ m i. GetsAt p.now m i k) × (x ≡ number))) }
{
    let method = p.methods().at(u64::from(block.method.0));
    for i in block.first..block.last + 1 {
        let instr = method.code.at(u64::from(i));
        note_ends(&mut readers.ends, p, graph, block.method, i, instr, number)?;
        note_field(&mut readers.fields, &instr.op, number)?;
    }
    Ok(())
}

/// The readers among the blocks of a program.
pub fn readers_of(
    alloc: Global,
    p: &Program,
    graph: &CallGraph,
    blocks: &[ProgramBlock],
) -> Result<Readers, Memory>
    requires { All (IsBlockIn p.now) blocks.now }
    ensures begins { IfOk result (λ readers. IsIndex (length p.now.methods) readers.begins.items (BlockBegins blocks.now)) }
    ensures ends { IfOk result (λ readers. IsIndex (length p.now.methods) readers.ends.items (BlockReadsEnd p.now graph.now blocks.now)) }
    ensures fields { IfOk result (λ readers. IsIndex (length p.now.fields) readers.fields.items (BlockGets p.now blocks.now)) }
{
    let mut readers = Readers {
        begins: empty_lists(alloc, p.methods().len() as usize)?,
        ends: empty_lists(alloc, p.methods().len() as usize)?,
        fields: empty_lists(alloc, p.fields().len() as usize)?,
    };
    let mut number = 0;
    for block in blocks {
        note_beginning(&mut readers.begins, *block, number)?;
        note_block(&mut readers, p, graph, *block, number)?;
        number += 1;
    }
    Ok(readers)
}
