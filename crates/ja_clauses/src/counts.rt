ghost use Rattle.std.specs.Prelude.{◌≡◌, ◌^◌, ◌<◌};
ghost use Rattle.ja_ir.specs.Operations as operations;

use ja_ir::{CallOp, Op};

/// The number of arguments of a call, a receiver among them.
pub fn argument_count(call: &CallOp) -> u32
    requires { operations.arguments call.now < 2 ^ 32 }
    ensures { result ≡ operations.arguments call.now }
{
    ja_ir::arguments(call) as u32
}

/// Whether an operation may throw a new library object by choice.
pub fn may_throw(op: &Op) -> bool
    ensures { result ≡ operations.may_throw op.now }
{
    match op {
        Op::Mix { throws, .. } => *throws,
        Op::New(_)
        | Op::ArrLoad(_)
        | Op::ArrStore(_)
        | Op::GetField(_)
        | Op::PutField(_)
        | Op::NewArray { .. }
        | Op::ArrLen
        | Op::Cast(_)
        | Op::Monitor => true,
        _ => false,
    }
}
