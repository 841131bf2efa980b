//! The frame of a method as its instructions run.

ghost use Rattle.std.specs.Prelude.{◌≡◌, ◌≤◌, IfSome};
ghost use Rattle.ja_class.specs.InnerReading.{frame_after, first_frame, is_return, runs, is_runnable};

use super::{FirstInstr, FirstOp};

/// The most values of a frame, locals and stack together.
const MOST_VALUES: u32 = 10;

/// How many values are on the stack, and which locals are set.
#[derive(Clone, Copy)]
pub(super) struct Frame {
    locals: u32,
    stack: u32,
    height: u32,
    set: [bool; 10],
}

/// The frame before the first instruction: the argument is local 0.
fn first_frame(locals: u16, stack: u16) -> Frame
    ensures { result ≡ first_frame locals stack }
{
    Frame {
        locals: u32::from(locals),
        stack: u32::from(stack),
        height: 0,
        set: [
            true, false, false, false, false, false, false, false, false, false,
        ],
    }
}

/// The frame after an operation, if it finds what it needs. A return has none.
#[tactic(auto, unfolding(crate::specs::InnerReading::frame_after))]
fn frame_after(frame: Frame, op: FirstOp) -> Option<Frame>
    requires { frame.locals ≤ 10 }
    ensures value { result ≡ frame_after frame op }
    ensures locals { IfSome result (λ next. next.locals ≡ frame.locals) }
{
    let mut next = frame;
    match op {
        FirstOp::Load(local) => {
            if local >= frame.locals || !frame.set[local as usize] || frame.height >= frame.stack {
                return None;
            }
            next.height += 1;
        }
        FirstOp::Store(local) => {
            if local >= frame.locals || frame.height == 0 {
                return None;
            }
            next.height -= 1;
            next.set[local as usize] = true;
        }
        FirstOp::Text | FirstOp::Source => {
            if frame.height >= frame.stack {
                return None;
            }
            next.height += 1;
        }
        FirstOp::Pop | FirstOp::Sink => {
            if frame.height == 0 {
                return None;
            }
            next.height -= 1;
        }
        FirstOp::Return => return None,
    }
    Some(next)
}

/// Whether an operation is the return.
fn is_return(op: FirstOp) -> bool
    ensures { result ≡ is_return op }
{
    matches!(op, FirstOp::Return)
}

/// Whether instructions run from a frame to a return at their end.
fn runs(first: Frame, code: &[FirstInstr]) -> bool
    requires { first.locals ≤ 10 }
    ensures { result ≡ runs first code.now }
{
    let mut frame = first;
    for (index, instruction) in code.iter().enumerate() {
        if index + 1 == code.len() {
            return is_return(instruction.op);
        }
        match frame_after(frame, instruction.op) {
            Some(next) => frame = next,
            None => return false,
        }
    }
    false
}

/// Whether a frame has a local for the argument and at most ten values, and the instructions
/// run in it to a return at their end.
#[tactic(auto, unfolding(crate::specs::InnerReading::is_runnable))]
pub(super) fn is_runnable(locals: u16, stack: u16, code: &[FirstInstr]) -> bool
    ensures { result ≡ is_runnable locals stack code.now }
{
    if locals == 0 || u32::from(locals) + u32::from(stack) > MOST_VALUES {
        return false;
    }
    runs(first_frame(locals, stack), code)
}
