ghost use Rattle.std.specs.Prelude.{◌≡◌, ◌^◌, ◌<◌, ◌≤◌, ◌-◌, ◌+◌, All, IfOk, length};
ghost use Rattle.ja_ir.specs.Blocks as blocks;
ghost use Rattle.ja_ir.specs.Blocks.{AreBlocks, StaysInside};
ghost use Rattle.ja_ir.specs.InnerLeaders.{blocks_after, with_code, with_handlers, with_instr, with_place, with_places};

use crate::{CallKind, Handler, Instr, Method, Op};
use ja_base::{Memory, Seq};
use std::alloc::Global;

/// A straight run of instructions of a method, from the first to the last index.
#[derive(Clone, Copy, PartialEq, Eq)]
pub struct Block {
    pub first: u32,
    pub last: u32,
}

/// The blocks of a method, in order.
pub type Blocks = Seq<Block>;

/// Cuts a method into its longest straight runs: a block begins at the first instruction, at each
/// branch target, at each handler, at each instruction that may initialise a class (New, GetStatic,
/// PutStatic and a static call), and after each branch, return, throw and call. The time is linear in
/// the method's size.
pub fn blocks_of(alloc: Global, m: &Method) -> Result<Blocks, Memory>
    requires inside { StaysInside m.now }
    requires few { length m.now.code ≤ 2 ^ 32 }
    ensures { IfOk result (AreBlocks m.now) }
{
    let code = m.code.as_slice();
    let Ok(mut starts) = Vec::from_elem(alloc, false, code.len()) else {
        return Err(Memory);
    };
    let flags = starts.as_mut_slice();
    mark_code(flags, code);
    mark_handlers(flags, m.handlers.as_slice());
    cut(alloc, flags)
}

/// Whether an operation is a branch.
fn is_branch(op: &Op) -> bool
    ensures { result ≡ blocks.is_branch op.now }
{
    match op {
        Op::Branch { .. } => true,
        _ => false,
    }
}

/// Whether a block ends with an operation.
fn ends_block(op: &Op) -> bool
    ensures { result ≡ blocks.ends_block op.now }
{
    match op {
        Op::Branch { .. } | Op::Return(_) | Op::Call(_) | Op::Throw => true,
        _ => false,
    }
}

/// Whether an operation may initialise a class, whatever class it names.
fn may_initialize(op: &Op) -> bool
    ensures { result ≡ blocks.may_initialize op.now }
{
    match op {
        Op::New(_) | Op::GetStatic(_) | Op::PutStatic(_) => true,
        Op::Call(call) => call.kind == CallKind::Static,
        _ => false,
    }
}

/// Marks these places.
fn mark_places(starts: &mut [bool], places: &[u64])
    requires { All (λ place. place < length starts.old) places.now }
    ensures { starts.new ≡ with_places places.now starts.old }
{
    for place in places {
        starts[*place as usize] = true;
    }
}

/// Marks a place that may be the number of instructions.
fn mark_place(starts: &mut [bool], place: usize)
    ensures { starts.new ≡ with_place place starts.old }
{
    if place < starts.len() {
        starts[place] = true;
    }
}

/// Marks where blocks begin because of the instruction at an index.
fn mark_instr(starts: &mut [bool], index: usize, instr: &Instr)
    requires places { All (λ place. place < length starts.old) instr.now.next }
    requires index { index < length starts.old }
    ensures { starts.new ≡ with_instr index instr.now starts.old }
{
    if is_branch(&instr.op) {
        mark_places(starts, instr.next.as_slice());
    }
    if may_initialize(&instr.op) {
        mark_place(starts, index);
    }
    if ends_block(&instr.op) {
        mark_place(starts, index + 1);
    }
}

/// Marks where blocks begin because of the instructions.
fn mark_code(starts: &mut [bool], code: &[Instr])
    requires places { All (λ instr. All (λ place. place < length starts.old) instr.next) code.now }
    requires size { length code.now ≡ length starts.old }
    ensures { starts.new ≡ with_code 0 code.now starts.old }
{
    for (index, instr) in code.iter().enumerate() {
        mark_instr(starts, index, instr);
    }
}

/// Marks where blocks begin because of the handlers.
fn mark_handlers(starts: &mut [bool], handlers: &[Handler])
    requires { All (λ handler. handler.target < length starts.old) handlers.now }
    ensures { starts.new ≡ with_handlers handlers.now starts.old }
{
    for handler in handlers {
        starts[handler.target as usize] = true;
    }
}

/// The blocks that begin at the first place and at each marked place.
fn cut(alloc: Global, starts: &[bool]) -> Result<Blocks, Memory>
    requires { length starts.now ≤ 2 ^ 32 }
    ensures { IfOk result (λ list. list ≡ blocks_after starts.now) }
{
    let mut list = Seq::new(alloc);
    let mut first = 0;
    for i in 1..starts.len() {
        if starts[i] {
            list.push(run(first, i))?;
            first = i;
        }
    }
    if !starts.is_empty() {
        list.push(run(first, starts.len()))?;
    }
    Ok(list)
}

/// The block from one index up to the one before another.
fn run(first: usize, end: usize) -> Block
    requires order { first < end }
    requires few { end ≤ 2 ^ 32 }
    ensures { result ≡ record { first = first; last = end - 1 } }
{
    Block {
        first: first as u32,
        last: (end - 1) as u32,
    }
}
