//! The instructions of the code (JVM specification, 6.5).

ghost use Rattle.std.specs.Prelude.{◌≡◌, ◌<◌, ◌^◌, length, IfOk};
ghost use Rattle.ja_class.specs.InnerReading.{Gives, byte_at, call_at, constant_at, operation_at, step_from, code_from};
ghost use Rattle.ja_class.specs.InnerViews.{entries};

use super::bytes::{u8_at, u16_at};
use super::constant::Constant;
use super::names::{call_of, constant_at};
use super::{FirstCode, FirstFault, FirstInstr, FirstOp};
use ja_code::number::{
    ALOAD, ALOAD_0, ALOAD_3, ASTORE, ASTORE_0, ASTORE_3, INVOKESTATIC, LDC, POP, RETURN,
};
use std::alloc::Global;

/// The operation that pushes the constant with an index, which must be a text.
#[tactic(auto, unfolding(crate::specs::InnerReading::constant_at))]
fn text_constant(pool: &[Constant<'_>], index: u8) -> Result<FirstOp, FirstFault>
    ensures { Gives (λ x. x) result (constant_at (entries pool.now) index) }
{
    match constant_at(pool, u16::from(index)) {
        Some(Constant::String(_)) => Ok(FirstOp::Text),
        _ => Err(FirstFault::Unbuilt),
    }
}

/// The call of the method with an index.
#[tactic(auto, unfolding(crate::specs::InnerReading::call_at))]
fn method_call(pool: &[Constant<'_>], index: u16) -> Result<FirstOp, FirstFault>
    ensures { Gives (λ x. x) result (call_at (entries pool.now) index) }
{
    match constant_at(pool, index) {
        Some(Constant::Methodref(class, member)) => {
            call_of(pool, class, member).ok_or(FirstFault::Unbuilt)
        }
        _ => Err(FirstFault::Unbuilt),
    }
}

/// The operation behind its opcode, and the code after it.
#[tactic(auto, unfolding(crate::specs::InnerReading::operation_at))]
fn operation<'a>(
    pool: &[Constant<'_>],
    opcode: u8,
    code: &'a [u8],
) -> Result<(FirstOp, &'a [u8]), FirstFault>
    ensures { Gives (λ x. (x.0, x.1.now)) result (operation_at (entries pool.now) opcode code.now) }
{
    match opcode {
        LDC => {
            let (index, rest) = u8_at(code)?;
            Ok((text_constant(pool, index)?, rest))
        }
        ALOAD => {
            let (local, rest) = u8_at(code)?;
            Ok((FirstOp::Load(u32::from(local)), rest))
        }
        ALOAD_0..=ALOAD_3 => Ok((FirstOp::Load(u32::from(opcode - ALOAD_0)), code)),
        ASTORE => {
            let (local, rest) = u8_at(code)?;
            Ok((FirstOp::Store(u32::from(local)), rest))
        }
        ASTORE_0..=ASTORE_3 => Ok((FirstOp::Store(u32::from(opcode - ASTORE_0)), code)),
        POP => Ok((FirstOp::Pop, code)),
        RETURN => Ok((FirstOp::Return, code)),
        INVOKESTATIC => {
            let (index, rest) = u16_at(code)?;
            Ok((method_call(pool, index)?, rest))
        }
        _ => Err(FirstFault::Unbuilt),
    }
}

/// The operation at the front of the code, and the code after it.
#[tactic(auto, unfolding(crate::specs::InnerReading::step_from))]
fn step_of<'a>(pool: &[Constant<'_>], code: &'a [u8]) -> Result<(FirstOp, &'a [u8]), FirstFault>
    ensures value { Gives (λ x. (x.0, x.1.now)) result (step_from (entries pool.now) code.now) }
    ensures shorter { IfOk result (λ x. length x.1.now < length code.now) }
{
    let (opcode, rest) = u8_at(code)?;
    operation(pool, opcode, rest)
}

/// The instructions of the code.
pub(super) fn code_of(
    alloc: Global,
    pool: &[Constant<'_>],
    code: &[u8],
) -> Result<FirstCode, FirstFault>
    requires { length code.now < 2 ^ 16 }
    ensures { Gives (λ x. x) result (code_from (entries pool.now) (length code.now) (length code.now) code.now) }
{
    let mut instructions = Vec::new(alloc);
    let mut rest = code;
    while !rest.is_empty() {
        let pc = (code.len() - rest.len()) as u32;
        let (op, after) = step_of(pool, rest)?;
        instructions.push(FirstInstr { pc, op })?;
        rest = after;
    }
    Ok(FirstCode::from_vec(instructions))
}
