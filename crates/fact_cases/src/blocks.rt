//! Blocks of a method.
ghost use Rattle.std.specs.Prelude.{◌≡◌, ◌+◌, ◌<◌, ◌≤◌, [], All, IfOk, OnOk, length};
ghost use Rattle.ja_ir.specs.Blocks.{StaysInside};

use ja_base::{ClassId, Desc, Kind, Memory, Name, Seq};
use ja_ir::{
    Block, CallKind, CallOp, Instr, Instrs, LibRow, Method, Op, RowEffect, RowFlow, RowResult,
    Successors, blocks_of,
};
use std::alloc::Global;

/// The row of a call that makes something of its arguments.
fn quiet_row(alloc: Global) -> LibRow {
    LibRow {
        flow: RowFlow::Args,
        effect: RowEffect::Quiet,
        result: RowResult::Fresh,
        sinks: Seq::new(alloc),
        marks: Seq::new(alloc),
        category: 0,
    }
}

/// A static call of a method of two parameters.
fn call(alloc: Global, name: &[u8]) -> Result<Op, Memory> {
    let class = Name::of(alloc, b"F")?;
    let name = Name::of(alloc, name)?;
    let desc = Name::of(alloc, b"(Ljava/lang/String;I)Ljava/lang/String;")?;
    Ok(Op::Call(CallOp {
        kind: CallKind::Static,
        class,
        name,
        desc,
        params: Seq::new(alloc),
        result: None,
        row: quiet_row(alloc),
        found: None,
    }))
}

/// Adds an instruction that leads to these indices, all of them below 8.
fn add(code: &mut Instrs, alloc: Global, pc: u32, op: Op, next: &[u64]) -> Result<(), Memory>
    requires below { All (λ j. j < 8) next.now }
    requires so_far { All (λ instr. All (λ j. j < 8) instr.next) code.old }
    ensures inside { OnOk result (All (λ instr. All (λ j. j < 8) instr.next) code.new) }
    ensures size { OnOk result (length code.new ≡ length code.old + 1) }
{
    let next = Successors::of(alloc, next)?;
    code.push(Instr {
        pc,
        op,
        next,
        height: 0,
        reached: true,
    })
}

/// Adds the instructions that return the text, where the number is 0.
fn add_return(code: &mut Instrs, alloc: Global) -> Result<(), Memory>
    requires so_far { All (λ instr. All (λ j. j < 8) instr.next) code.old }
    ensures inside { OnOk result (All (λ instr. All (λ j. j < 8) instr.next) code.new) }
    ensures size { OnOk result (length code.new ≡ length code.old + 4) }
{
    add(code, alloc, 0, Op::Load(Kind::P1, 1), &[1])?;
    add(code, alloc, 1, Op::Branch { pops: 1 }, &[4, 2])?;
    add(code, alloc, 4, Op::Load(Kind::R, 0), &[3])?;
    add(code, alloc, 5, Op::Return(Some(Kind::R)), &[])
}

/// Adds the instructions that hand a source's text to another method.
fn add_hand_over(code: &mut Instrs, alloc: Global) -> Result<(), Memory>
    requires so_far { All (λ instr. All (λ j. j < 8) instr.next) code.old }
    ensures inside { OnOk result (All (λ instr. All (λ j. j < 8) instr.next) code.new) }
    ensures size { OnOk result (length code.new ≡ length code.old + 4) }
{
    let source = call(alloc, b"source")?;
    add(code, alloc, 6, source, &[5])?;
    add(code, alloc, 9, Op::Load(Kind::P1, 1), &[6])?;
    let called = call(alloc, b"g")?;
    add(code, alloc, 10, called, &[7])?;
    add(code, alloc, 13, Op::Return(Some(Kind::R)), &[])
}

/// Adds all instructions of the method.
fn add_code(code: &mut Instrs, alloc: Global) -> Result<(), Memory>
    requires { code.old ≡ [] }
    ensures inside { OnOk result (All (λ instr. All (λ j. j < 8) instr.next) code.new) }
    ensures size { OnOk result (length code.new ≡ 8) }
{
    add_return(code, alloc)?;
    add_hand_over(code, alloc)
}

/// The code of the method.
fn code(alloc: Global) -> Result<Instrs, Memory>
    ensures inside { IfOk result (λ code. All (λ instr. All (λ j. j < 8) instr.next) code) }
    ensures size { IfOk result (λ code. length code ≡ 8) }
{
    let mut code: Instrs = Seq::new(alloc);
    add_code(&mut code, alloc)?;
    Ok(code)
}

/// A method that returns its text, or calls another method with a source's text:
///
/// ```text
/// 0 iload_1, 1 ifne 6, 4 aload_0, 5 areturn, 6 invokestatic, 9 iload_1, 10 invokestatic, 13 areturn
/// ```
fn recursive(alloc: Global) -> Result<Method, Memory>
    ensures inside { IfOk result StaysInside }
    ensures size { IfOk result (λ m. length m.code ≡ 8) }
{
    let name = Name::of(alloc, b"f")?;
    let desc = Name::of(alloc, b"(Ljava/lang/String;I)Ljava/lang/String;")?;
    let code = code(alloc)?;
    Ok(Method {
        class: ClassId(0),
        name,
        desc,
        types: Desc {
            params: Seq::new(alloc),
            result: None,
            words: 0,
        },
        flags: 9,
        locals: 2,
        stack: 2,
        code,
        handlers: Seq::new(alloc),
    })
}

/// Adds where the blocks of the method begin.
pub fn add_blocks(out: &mut String, alloc: Global) -> Result<(), Memory> {
    let method = recursive(alloc)?;
    let blocks = blocks_of(alloc, &method)?;
    add_places(out, method.code.as_slice(), blocks.as_slice())
}

/// Adds where blocks begin.
fn add_places(out: &mut String, code: &[Instr], blocks: &[Block]) -> Result<(), Memory> {
    write!(out, "blocks {} at", blocks.len())?;
    for block in blocks {
        if let Some(instr) = code.get(block.first as usize) {
            write!(out, " {}", instr.pc)?;
        }
    }
    Ok(writeln!(out)?)
}
