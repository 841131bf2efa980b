ghost use Rattle.std.specs.Prelude.{◌+◌, ◌≤◌, IfOk};
ghost use Rattle.ja_base.specs.Limit.{max_frame_values};
ghost use Rattle.ja_order.specs.Order as orders;
ghost use Rattle.ja_frames.specs.Frames.{IsFrameOf, AreFrames};

use ja_base::{Memory, Seq};
use ja_ir::{Method, Program};
use ja_order::{Order, method_order};
use ja_work::{Frame, Frames};
use std::alloc::Global;

/// The frame of a method whose slots have these places. It takes no memory.
pub fn frame_of(method: &Method, order: Order) -> Frame
    requires small { method.now.locals + method.now.stack ≤ max_frame_values }
    requires order { orders.HasOrder method.now order }
    ensures { IsFrameOf method.now result }
{
    let Order { places, slots } = order;
    Frame {
        locals: method.locals,
        stack: method.stack,
        places,
        slots,
    }
}

/// The frames of a program's methods, each with the order of its variables that `ja_order` makes of the
/// method's code.
pub fn frames_of(alloc: Global, p: &Program) -> Result<Frames, Memory>
    ensures { IfOk result (AreFrames p.now) }
{
    let mut frames = Seq::new(alloc);
    for method in p.methods().as_slice() {
        let order = method_order(alloc, method)?;
        frames.push(frame_of(method, order))?;
    }
    Ok(frames)
}
