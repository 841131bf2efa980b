ghost use Rattle.std.specs.Prelude.{◌≡◌, ℕ, List, ◌≤◌, length, IfOk, IfErr, Ok, Err};
ghost use Rattle.ja_code.specs.declared.code.Code.{Code};
ghost use Rattle.ja_code.specs.declared.fault.CodeFault.{CodeFault};
ghost use Rattle.ja_code.specs.declared.handler.RawHandler.{RawHandler};
ghost use Rattle.ja_code.specs.Grammar.{AreInstrs, is_start, Spells};
ghost use Rattle.ja_code.specs.Faults.{IsFault, IsCause, Answers};
ghost use Rattle.ja_code.specs.InnerReading.{marked};

use crate::branch::check_branches;
use crate::fault::CodeFault;
use crate::handler::{RawHandler, RawHandlers, check_handlers};
use crate::instr::{RawInstrs, instr_at};
use ja_base::tag::Tag;
use std::alloc::Global;

/// The instructions of a method in pc order, and its exception table.
#[derive(Drop)]
pub struct Code {
    pub instrs: RawInstrs,
    pub handlers: RawHandlers,
}

/// The instructions that the code spells, and for each place of the code whether one begins there.
fn instrs_of(
    alloc: Global,
    code: &[u8],
    tags: &[Tag],
    dims: &[u8],
) -> Result<(RawInstrs, Vec<bool>), CodeFault>
    requires { length code.now ≤ 65535 }
    ensures spelled { IfOk result (λ r. AreInstrs tags.now dims.now 0 code.now r.0) }
    ensures starts { IfOk result (λ r. (place : ℕ) → marked r.1.items place ≡ is_start r.0 place) }
    ensures size { IfOk result (λ r. length r.1.items ≡ length code.now) }
    ensures cause { IfErr result (λ e. (rows : List RawHandler) → IsCause code.now tags.now dims.now rows e) }
{
    let mut instrs = RawInstrs::new(alloc);
    let mut starts = vec![in alloc; false; code.len()]?;
    let mut pc = 0;
    while pc < code.len() {
        let instr = instr_at(alloc, pc as u32, &code[pc..], tags, dims)?;
        starts[pc] = true;
        pc += instr.length as usize;
        instrs.push(instr)?;
    }
    Ok((instrs, starts))
}

/// What a code array and its exception table spell, or the first fault.
fn checked(
    alloc: Global,
    code: &[u8],
    tags: &[Tag],
    dims: &[u8],
    rows: &[RawHandler],
) -> Result<Code, CodeFault>
    requires code { length code.now ≤ 65535 }
    requires rows { length rows.now ≤ 65535 }
    ensures found { IfOk result (Spells code.now tags.now dims.now rows.now) }
    ensures cause { IfErr result (IsCause code.now tags.now dims.now rows.now) }
{
    let (instrs, starts) = instrs_of(alloc, code, tags, dims)?;
    check_branches(instrs.as_slice(), starts.as_slice())?;
    check_handlers(rows, starts.as_slice(), tags)?;
    let handlers = RawHandlers::from_vec(Vec::from_slice(alloc, rows)?);
    Ok(Code { instrs, handlers })
}

/// Decodes a code array and its exception table (JVM specification 4.7.3, 4.9.1 and 6.5).
///
/// `tags` has the tag of each entry of the constant pool, and 0 where there is none, and `dims` has at
/// a class the number of `[` with which its name begins. The code has at most 65,535 bytes, and there
/// are at most 65,535 rows. The fault is the first one: of the instructions in pc order, then of their
/// branches in pc order, then of the rows in order.
pub fn decode(
    alloc: Global,
    code: &[u8],
    tags: &[Tag],
    dims: &[u8],
    rows: &[RawHandler],
) -> Result<Code, CodeFault>
    requires code { length code.now ≤ 65535 }
    requires rows { length rows.now ≤ 65535 }
    // What is decoded is spelled so.
    ensures found { IfOk result (Spells code.now tags.now dims.now rows.now) }
    // What is spelled so is decoded, unless memory runs out.
    ensures only { (c : Code) → Spells code.now tags.now dims.now rows.now c → Answers result (Ok c) }
    // An error is the first fault, or want of memory.
    ensures cause { IfErr result (IsCause code.now tags.now dims.now rows.now) }
    // The first fault is the error, unless memory runs out.
    ensures first { (fault : CodeFault) → IsFault code.now tags.now dims.now rows.now fault → Answers result (Err fault) }
{
    checked(alloc, code, tags, dims, rows)
}
