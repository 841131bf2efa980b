ghost use Rattle.std.specs.Prelude.{◌≡◌, ◌++◌, ◌≤◌, ◌<◌, ◌^◌, ℕ, suc, Contains, Some, IsTrue, false, map, length, slice_get, OnOk, IfOk};
ghost use Rattle.ja_ir.specs.Blocks as blocks;
ghost use Rattle.ja_ir.specs.Blocks.{StaysInside, AreBlocks};
ghost use Rattle.ja_blocks.specs.Blocks.{in_method, IsAmong, AreRuns, AreProgramBlocks};
ghost use Rattle.ja_blocks.specs.Inner.{AreSingles, GoesOn, GoStraight};

use ja_base::{Memory, MethodId, Seq};
use ja_ir::{Block, Blocks, Instr, Method, Op, Program, blocks_of};
use std::alloc::Global;

/// A block of a method of a program.
#[derive(Clone, Copy)]
pub struct ProgramBlock {
    pub method: MethodId,
    pub first: u32,
    pub last: u32,
}

/// The blocks of a program. The number of a block is its place.
pub type ProgramBlocks = Seq<ProgramBlock>;

/// Whether an operation is a branch.
fn is_branch(op: &Op) -> bool
    ensures { result ≡ blocks.is_branch op.now }
{
    match op {
        Op::Branch { .. } => true,
        _ => false,
    }
}

/// Whether an instruction that is no branch leads nowhere but to the one behind it.
fn goes_on(instr: &Instr, place: u64) -> bool
    requires { place < 2 ^ 63 }
    ensures { IsTrue result → GoesOn place instr.now }
{
    if is_branch(&instr.op) {
        return true;
    }
    for next in instr.next.as_slice() {
        if *next != place + 1 {
            return false;
        }
    }
    true
}

/// Whether all instructions that are no branches lead nowhere but to the ones behind them.
fn go_straight(code: &[Instr]) -> bool
    ensures { IsTrue result → GoStraight code.now }
{
    for place in 0..code.len() {
        if !goes_on(&code[place], place as u64) {
            return false;
        }
    }
    true
}

/// Whether blocks have so many instructions, one behind the other.
fn are_joined(row: &[Block], count: u64) -> bool
    ensures { IsTrue result → (i : ℕ) → i < count → IsAmong row.now i }
{
    let mut end = 0;
    for block in row {
        if u64::from(block.first) != end {
            return false;
        }
        end = u64::from(block.last) + 1;
    }
    count <= end
}

/// A block for each instruction.
fn singles(alloc: Global, count: u32) -> Result<Blocks, Memory>
    ensures { IfOk result (AreSingles count) }
{
    let mut row = Seq::new(alloc);
    for place in 0..count {
        row.push(Block {
            first: place,
            last: place,
        })?;
    }
    Ok(row)
}

/// The runs of a method: its longest straight runs, or where an instruction that is no branch leads
/// elsewhere than to the next one, single instructions.
fn runs_of(alloc: Global, method: &Method) -> Result<Blocks, Memory>
    requires inside { StaysInside method.now }
    requires few { length method.now.code ≤ 67108864 }
    ensures { IfOk result (AreRuns method.now) }
{
    let row = blocks_of(alloc, method)?;
    let is_straight = go_straight(method.code.as_slice());
    if is_straight && are_joined(row.as_slice(), method.code.len()) {
        Ok(row)
    } else {
        singles(alloc, method.code.len() as u32)
    }
}

/// Adds the blocks of a method.
fn add_blocks(out: &mut ProgramBlocks, method: u32, row: &[Block]) -> Result<(), Memory>
    ensures { OnOk result (out.new ≡ out.old ++ map (in_method method) row.now) }
{
    for block in row {
        out.push(ProgramBlock {
            method: MethodId(method),
            first: block.first,
            last: block.last,
        })?;
    }
    Ok(())
}

/// The blocks of all methods of a program, in the order of the methods and in that of their code.
pub fn program_blocks(alloc: Global, p: &Program) -> Result<ProgramBlocks, Memory>
    ensures { IfOk result (AreProgramBlocks p.now) }
{
    let mut blocks = Seq::new(alloc);
    let mut number = 0;
    for method in p.methods().as_slice() {
        let row = runs_of(alloc, method)?;
        add_blocks(&mut blocks, number, row.as_slice())?;
        number += 1;
    }
    Ok(blocks)
}
