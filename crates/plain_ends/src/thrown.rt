use crate::copying::has_receiver;
use crate::flowing::{changes, flow, meets_source, put_in};
use crate::frame::{Slot, Truth};
use crate::point::Point;
use ja_ir::{CallOp, Op};

/// Whether an operation may throw a new object by choice.
fn may_throw(op: &Op) -> bool {
    match op {
        Op::Mix { throws, .. } => *throws,
        Op::New(_)
        | Op::ArrLoad(_)
        | Op::ArrStore(_)
        | Op::GetField(_)
        | Op::PutField(_)
        | Op::NewArray { .. }
        | Op::ArrLen
        | Op::Cast(_)
        | Op::Monitor => true,
        _ => false,
    }
}

/// Whether an operation may end with a new object before it has done anything.
fn throws_clean(point: &Point) -> bool {
    match point.op {
        Op::Call(call) => has_receiver(call) || point.known.is_abstract,
        op => may_throw(op),
    }
}

/// Whether the stack is gone.
pub fn is_stack_gone(point: &Point, after: Truth) -> bool {
    for k in 0..point.frame.stack {
        if after.has(point.frame, Slot::OnStack(k)) {
            return false;
        }
    }
    true
}

/// Whether each local is as it was.
fn are_locals_kept(point: &Point, before: Truth, after: Truth) -> bool {
    for l in 0..point.frame.locals {
        let local = Slot::Local(l);
        if after.has(point.frame, local) != before.has(point.frame, local) {
            return false;
        }
    }
    true
}

/// Whether all but the stack is as it was, and the exception has this truth.
fn leaves(point: &Point, before: Truth, exc: bool, after: Truth) -> bool {
    are_locals_kept(point, before, after)
        && is_stack_gone(point, after)
        && after.dirt(point.frame) == before.dirt(point.frame)
        && after.exc(point.frame) == exc
}

/// Whether each local may have its truth after the effect of a library call.
fn all_absorb(point: &Point, before: Truth, call: &CallOp, after: Truth) -> bool {
    for l in 0..point.frame.locals {
        let local = Slot::Local(l);
        let truth = after.has(point.frame, local);
        let was = before.has(point.frame, local);
        let absorbed = meets_source(point, call, local)
            && (!truth || was || put_in(point, before, call));
        if truth != was && !absorbed {
            return false;
        }
    }
    true
}

/// Whether a library call may end so after its effect.
fn leaves_library(point: &Point, before: Truth, call: &CallOp, after: Truth) -> bool {
    point.known.library
        && all_absorb(point, before, call, after)
        && is_stack_gone(point, after)
        && after.dirt(point.frame) == (before.dirt(point.frame) || changes(point, before, call))
        && (!after.exc(point.frame) || flow(point, before, call))
}

/// Whether an exceptional end of an instruction may lead from the one truth to the other.
pub fn is_exceptional_end(point: &Point, before: Truth, after: Truth) -> bool {
    if throws_clean(point) && leaves(point, before, false, after) {
        return true;
    }
    match point.op {
        Op::Throw => { point.height > 0 && leaves(point, before, point.is_down(before, 1), after) }
        Op::Call(call) => leaves_library(point, before, call, after),
        _ => false,
    }
}
