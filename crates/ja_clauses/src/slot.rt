ghost use Rattle.std.specs.Prelude.{◌≡◌, ◌+◌, ◌≤◌, ◌<◌, IfSome};
ghost use Rattle.ja_work.specs.Clauses as clauses;
ghost use Rattle.ja_work.specs.Told as told;
ghost use Rattle.ja_clauses.specs.Slots.{as_slot};
ghost use Rattle.ja_base.specs.Limit.{max_frame_values};

use ja_ir::Method;
use ja_work::Spot;

/// Where a value stands in a frame.
#[derive(Clone, Copy)]
pub enum Slot {
    /// A local.
    Local(u32),
    /// A value on the stack, from the bottom.
    OnStack(u32),
}

/// The spot of a slot.
pub fn spot_of(slot: Slot) -> Spot
    ensures { result ≡ clauses.spot_of (as_slot slot) }
{
    match slot {
        Slot::Local(local) => Spot::Local(local),
        Slot::OnStack(under) => Spot::OnStack(under),
    }
}

/// The number of a slot of a method, if it is one.
pub fn number_of(method: &Method, slot: Slot) -> Option<u32>
    requires { method.now.locals + method.now.stack ≤ max_frame_values }
    ensures number { result ≡ told.number_of method.now (as_slot slot) }
    ensures below { IfSome result (λ n. n < method.now.locals + method.now.stack) }
{
    match slot {
        Slot::Local(local) => {
            if local < method.locals {
                Some(local)
            } else {
                None
            }
        }
        Slot::OnStack(under) => {
            if under < method.stack {
                Some(method.locals + under)
            } else {
                None
            }
        }
    }
}
