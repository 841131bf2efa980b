use crate::frame::Slot;
use crate::point::Point;
use ja_ir::{CallKind, CallOp, Op};

/// Whether a call has a receiver.
pub fn has_receiver(call: &CallOp) -> bool {
    !matches!(call.kind, CallKind::Static | CallKind::StaticField)
}

/// The number of arguments of a call, a receiver among them.
pub fn arguments(call: &CallOp) -> u32 {
    let params = u32::try_from(call.params.len()).unwrap_or(u32::MAX);
    params.saturating_add(u32::from(has_receiver(call)))
}

/// How many values an operation takes from the stack.
pub fn pops(op: &Op) -> u32 {
    match op {
        Op::Shuffle { pops, .. } | Op::Mix { pops, .. } | Op::Branch { pops } => *pops,
        Op::Call(call) => arguments(call),
        Op::NewArray { dimensions, .. } => *dimensions,
        Op::Return(kind) => u32::from(kind.is_some()),
        Op::ArrStore(_) => 3,
        Op::ArrLoad(_) | Op::PutField(_) => 2,
        Op::Nop | Op::Const(_) | Op::Text | Op::New(_) | Op::Load(..) | Op::GetStatic(_) => 0,
        _ => 1,
    }
}

/// How many values an operation puts on the stack at its normal end.
pub fn pushes(op: &Op) -> u32 {
    match op {
        Op::Shuffle { pushes, .. } => u32::try_from(pushes.len()).unwrap_or(u32::MAX),
        Op::Call(call) => u32::from(call.result.is_some()),
        Op::Nop
        | Op::Store(..)
        | Op::ArrStore(_)
        | Op::Branch { .. }
        | Op::Return(_)
        | Op::PutStatic(_)
        | Op::PutField(_)
        | Op::Throw
        | Op::Monitor => 0,
        _ => 1,
    }
}

/// The number of values under what an operation takes.
pub fn under(point: &Point) -> u32 {
    point.height.saturating_sub(pops(point.op))
}

/// Whether a local or a value stays where it is.
fn stays(point: &Point, from: Slot, to: Slot) -> bool {
    if from != to {
        return false;
    }
    match (from, point.op) {
        (Slot::Local(l), Op::Store(_, local)) => l != *local,
        (Slot::Local(_), _) => true,
        (Slot::OnStack(k), _) => k < under(point),
    }
}

/// Whether a shuffle moves a value from one place on the stack to another.
fn is_shuffled(point: &Point, pushes: &[u64], from: Slot, to: Slot) -> bool {
    let base = under(point);
    for j in 0..pushes.len() {
        let to_here = to == Slot::OnStack(base.wrapping_add(u32::try_from(j).unwrap_or(0)));
        let moved = u32::try_from(pushes[j]).unwrap_or(0);
        if to_here && from == Slot::OnStack(base.wrapping_add(moved)) {
            return true;
        }
    }
    false
}

/// Whether an operation moves a value.
fn is_moved(point: &Point, from: Slot, to: Slot) -> bool {
    let top = point.down(1);
    match point.op {
        Op::Load(_, local) => from == Slot::Local(*local) && to == Slot::OnStack(point.height),
        Op::Store(_, local) => Some(from) == top && to == Slot::Local(*local),
        Op::Shuffle { pushes, .. } => is_shuffled(point, pushes.as_slice(), from, to),
        Op::Cast(_) => Some(from) == top && Some(to) == top,
        _ => false,
    }
}

/// Whether at a normal end of an operation the second slot has the value that the first had.
pub fn copies(point: &Point, from: Slot, to: Slot) -> bool {
    stays(point, from, to) || is_moved(point, from, to)
}
