use crate::copying::{copies, pops, pushes, under};
use crate::flowing::{answered, any_stacked, changes, meets_source, put_in};
use crate::frame::{Slot, Truth};
use crate::point::Point;
use ja_ir::{CallOp, Op};

/// Whether the truth of a slot is that of a slot whose value it has.
fn is_copied(point: &Point, before: Truth, slot: Slot, truth: bool) -> bool {
    for number in 0..point.frame.len() {
        let from = point.frame.slot(number);
        if copies(point, from, slot) && before.has(point.frame, from) == truth {
            return true;
        }
    }
    false
}

/// Whether a slot lies above the stack after an operation.
fn is_above(point: &Point, slot: Slot) -> bool {
    match slot {
        Slot::Local(_) => false,
        Slot::OnStack(k) => under(point).wrapping_add(pushes(point.op)) <= k,
    }
}

/// Whether an operation pushes there what is never true.
fn is_pushed_false(point: &Point, slot: Slot) -> bool {
    let place = match point.op {
        Op::Const(_) | Op::Text | Op::New(_) => Some(Slot::OnStack(point.height)),
        Op::NewArray { .. } => Some(Slot::OnStack(under(point))),
        Op::ArrLen | Op::InstanceOf => point.down(1),
        _ => None,
    };
    Some(slot) == place
}

/// Whether a computation pushes this truth there.
fn is_mixed(point: &Point, before: Truth, slot: Slot, truth: bool) -> bool {
    match point.op {
        Op::Mix { pops, .. } => {
            slot == Slot::OnStack(under(point)) && truth == any_stacked(point, before, *pops)
        }
        _ => false,
    }
}

/// Whether an operation reads an object and may push this truth there.
fn is_loaded(point: &Point, before: Truth, slot: Slot, truth: bool) -> bool {
    let depth = match point.op {
        Op::GetField(_) => 1,
        Op::ArrLoad(_) => 2,
        _ => return false,
    };
    Some(slot) == point.down(depth) && (!truth || point.is_down(before, depth))
}

/// Whether an operation pushes a static field there.
fn is_static_loaded(point: &Point, slot: Slot) -> bool {
    matches!(point.op, Op::GetStatic(_)) && slot == Slot::OnStack(point.height)
}

/// Whether an operation writes into an object that a slot may reach, and the slot may have this truth
/// then.
fn is_written(point: &Point, before: Truth, slot: Slot, truth: bool) -> bool {
    let depth = match point.op {
        Op::PutField(_) => 2,
        Op::ArrStore(_) => 3,
        _ => return false,
    };
    let Some(object) = point.down(depth) else {
        return false;
    };
    copies(point, slot, slot)
        && point.known.reaches(slot, object)
        && (!truth || before.has(point.frame, slot) || point.is_down(before, 1))
}

/// Whether a library call may give a slot that stays this truth.
fn is_absorbed(point: &Point, before: Truth, call: &CallOp, slot: Slot, truth: bool) -> bool {
    copies(point, slot, slot)
        && meets_source(point, call, slot)
        && (!truth || before.has(point.frame, slot) || put_in(point, before, call))
}

/// Whether a library call may answer this truth there.
fn is_answered(point: &Point, before: Truth, call: &CallOp, slot: Slot, truth: bool) -> bool {
    match &call.result {
        Some(type_) => {
            slot == Slot::OnStack(under(point))
                && (!truth || answered(point, before, call, type_.kind))
        }
        None => false,
    }
}

/// Whether a library call may give a slot this truth.
fn is_called(point: &Point, before: Truth, slot: Slot, truth: bool) -> bool {
    match point.op {
        Op::Call(call) => {
            is_absorbed(point, before, call, slot, truth)
                || is_answered(point, before, call, slot, truth)
        }
        _ => false,
    }
}

/// Whether a slot may have this truth after a normal end.
fn turns(point: &Point, before: Truth, slot: Slot, truth: bool) -> bool {
    is_copied(point, before, slot, truth)
        || (!truth && (is_above(point, slot) || is_pushed_false(point, slot)))
        || is_mixed(point, before, slot, truth)
        || is_loaded(point, before, slot, truth)
        || is_static_loaded(point, slot)
        || is_written(point, before, slot, truth)
        || is_called(point, before, slot, truth)
}

/// Whether something was stored that is tainted, after a normal end.
fn dirt_after(point: &Point, before: Truth) -> bool {
    let added = match point.op {
        Op::PutField(_) | Op::ArrStore(_) => point.is_down(before, 1),
        Op::Call(call) => changes(point, before, call),
        _ => false,
    };
    before.dirt(point.frame) || added
}

/// Whether a normal end may follow: the operation does not end the method, and a call may go to the
/// library.
fn goes_on(point: &Point) -> bool {
    match point.op {
        Op::Return(_) | Op::Throw => false,
        Op::Call(_) => point.known.library,
        _ => true,
    }
}

/// Whether each slot may have its truth after a normal end.
fn all_turn(point: &Point, before: Truth, after: Truth) -> bool {
    for number in 0..point.frame.len() {
        let slot = point.frame.slot(number);
        if !turns(point, before, slot, after.has(point.frame, slot)) {
            return false;
        }
    }
    true
}

/// Whether a normal end of an instruction, at a call that of its library part, may lead from the one
/// truth to the other.
pub fn is_normal_end(point: &Point, before: Truth, after: Truth) -> bool {
    pops(point.op) <= point.height
        && goes_on(point)
        && after.dirt(point.frame) == dirt_after(point, before)
        && after.exc(point.frame) == before.exc(point.frame)
        && all_turn(point, before, after)
}
