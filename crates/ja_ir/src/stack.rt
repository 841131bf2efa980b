ghost use Rattle.std.specs.Prelude.{◌≡◌};
ghost use Rattle.ja_ir.specs.Operations as operations;

use crate::op::{CallKind, CallOp, Op};

/// Whether a call of this kind has a receiver.
pub fn has_receiver(kind: CallKind) -> bool
    ensures { result ≡ operations.has_receiver kind }
{
    match kind {
        CallKind::Static | CallKind::StaticField => false,
        _ => true,
    }
}

/// Whether a call of this kind chooses its target by its receiver.
pub fn is_dispatched(kind: CallKind) -> bool
    ensures { result ≡ operations.is_dispatched kind }
{
    match kind {
        CallKind::Virtual | CallKind::Interface => true,
        _ => false,
    }
}

/// The number of arguments of a call, a receiver among them.
pub fn arguments(call: &CallOp) -> u64
    ensures { result ≡ operations.arguments call.now }
{
    let params = call.params.as_slice().len() as u64;
    match call.kind {
        CallKind::Static | CallKind::StaticField => params,
        _ => params + 1,
    }
}

/// How many values an operation takes from the stack.
pub fn pops(op: &Op) -> u64
    ensures { result ≡ operations.pops op.now }
{
    match op {
        Op::Shuffle { pops, .. } | Op::Mix { pops, .. } | Op::Branch { pops } => *pops as u64,
        Op::Call(call) => arguments(call),
        Op::NewArray { dimensions, .. } => *dimensions as u64,
        Op::Return(kind) => u64::from(kind.is_some()),
        Op::ArrStore(_) => 3,
        Op::ArrLoad(_) | Op::PutField(_) => 2,
        Op::Nop | Op::Const(_) | Op::Text | Op::New(_) | Op::Load(..) | Op::GetStatic(_) => 0,
        _ => 1,
    }
}

/// How many values an operation puts on the stack at its normal end.
pub fn pushes(op: &Op) -> u64
    ensures { result ≡ operations.pushes op.now }
{
    match op {
        Op::Shuffle { pushes, .. } => pushes.len(),
        Op::Call(call) => u64::from(call.result.is_some()),
        Op::Nop
        | Op::Store(..)
        | Op::ArrStore(_)
        | Op::Branch { .. }
        | Op::Return(_)
        | Op::PutStatic(_)
        | Op::PutField(_)
        | Op::Throw
        | Op::Monitor => 0,
        _ => 1,
    }
}
