use crate::copying::{arguments, has_receiver, under};
use crate::frame::{Slot, Truth};
use crate::point::Point;
use ja_base::Kind;
use ja_ir::{CallOp, RowEffect, RowFlow, RowResult};

/// Whether one of so many values on the stack is true, above those that an operation leaves.
pub fn any_stacked(point: &Point, before: Truth, count: u32) -> bool {
    for k in 0..count {
        if before.has(point.frame, Slot::OnStack(under(point).wrapping_add(k))) {
            return true;
        }
    }
    false
}

/// Whether some argument of a call is true.
pub fn any_argument(point: &Point, before: Truth, call: &CallOp) -> bool {
    any_stacked(point, before, arguments(call))
}

/// Whether argument 0 of a call is true. It is not where there is none.
fn first_argument(point: &Point, before: Truth, call: &CallOp) -> bool {
    any_stacked(point, before, arguments(call).min(1))
}

/// What a library call makes tainted.
pub fn flow(point: &Point, before: Truth, call: &CallOp) -> bool {
    match call.row.flow {
        RowFlow::Always => true,
        RowFlow::Never => false,
        RowFlow::Args => any_argument(point, before, call),
    }
}

/// What a library call puts into the objects that it changes.
pub fn put_in(point: &Point, before: Truth, call: &CallOp) -> bool {
    flow(point, before, call) || any_argument(point, before, call)
}

/// The same, and nothing where it changes no object.
pub fn changes(point: &Point, before: Truth, call: &CallOp) -> bool {
    match call.row.effect {
        RowEffect::Quiet => false,
        RowEffect::Absorb | RowEffect::Blend => put_in(point, before, call),
    }
}

/// The most that the reference that a library call answers may be.
fn answered_reference(point: &Point, before: Truth, call: &CallOp) -> bool {
    let flow = flow(point, before, call);
    let first = first_argument(point, before, call);
    let changes = changes(point, before, call);
    match call.row.result {
        RowResult::Fresh => flow,
        RowResult::Argument => first || changes,
        RowResult::Member => flow || first || changes,
        RowResult::Any => flow || any_argument(point, before, call),
    }
}

/// The most that what a library call answers may be.
pub fn answered(point: &Point, before: Truth, call: &CallOp, kind: Kind) -> bool {
    match kind {
        Kind::R => answered_reference(point, before, call),
        _ => flow(point, before, call),
    }
}

/// Whether argument `k` is one of those whose objects a library call may change.
fn is_source(call: &CallOp, k: u32) -> bool {
    match call.row.effect {
        RowEffect::Quiet => false,
        RowEffect::Absorb => has_receiver(call) && k == 0,
        RowEffect::Blend => true,
    }
}

/// Whether a slot has a pair with an argument whose objects a library call may change.
pub fn meets_source(point: &Point, call: &CallOp, slot: Slot) -> bool {
    for k in 0..arguments(call) {
        let argument = Slot::OnStack(under(point).wrapping_add(k));
        if is_source(call, k) && point.known.pair(slot, argument) {
            return true;
        }
    }
    false
}
