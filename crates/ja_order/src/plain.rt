ghost use Rattle.std.specs.Prelude.{◌≡◌, ◌≤◌, ◌<◌, ◌+◌, IfOk};
ghost use Rattle.ja_order.specs.Inner.{IsOrderOf, IsPlain, IsSmall, ArePlainPlaces, ArePlainSlots};
ghost use Rattle.ja_base.specs.Limit.{max_frame_values};

use crate::frame::Frame;
use crate::order::Order;
use ja_base::{Memory, Seq};
use std::alloc::Global;

/// The place of a slot in the plain order.
fn plain_place(locals: u32, stack: u32, slot: u32) -> u32
    requires { (locals + stack ≤ max_frame_values) × (slot < locals + stack + 2) }
    ensures { IsPlain locals stack slot result }
{
    if locals == 0 || stack == 0 {
        return slot;
    }
    if slot == 0 || locals < slot {
        return slot;
    }
    if slot == locals { 1 } else { slot + 1 }
}

/// The slot at a place in the plain order.
fn plain_slot(locals: u32, stack: u32, place: u32) -> u32
    requires { (locals + stack ≤ max_frame_values) × (place < locals + stack + 2) }
    ensures { IsPlain locals stack result place }
{
    if locals == 0 || stack == 0 {
        return place;
    }
    if place == 0 || locals < place {
        return place;
    }
    if place == 1 { locals } else { place - 1 }
}

/// The places of all slots in the plain order.
fn plain_places(alloc: Global, locals: u32, stack: u32) -> Result<Seq<u32>, Memory>
    requires { locals + stack ≤ max_frame_values }
    ensures { IfOk result (ArePlainPlaces locals stack) }
{
    let mut places = Seq::new(alloc);
    for slot in 0..locals + stack + 2 {
        places.push(plain_place(locals, stack, slot))?;
    }
    Ok(places)
}

/// The slots at all places in the plain order.
fn plain_slots(alloc: Global, locals: u32, stack: u32) -> Result<Seq<u32>, Memory>
    requires { locals + stack ≤ max_frame_values }
    ensures { IfOk result (ArePlainSlots locals stack) }
{
    let mut slots = Seq::new(alloc);
    for place in 0..locals + stack + 2 {
        slots.push(plain_slot(locals, stack, place))?;
    }
    Ok(slots)
}

/// The plain order: the locals and then the values on the stack as they are, but for the lowest value,
/// which comes after the first local.
pub fn plain(alloc: Global, frame: Frame) -> Result<Order, Memory>
    requires { IsSmall frame }
    ensures { IfOk result (IsOrderOf frame.params frame.locals frame.stack) }
{
    let (locals, stack) = (frame.locals as u32, frame.stack as u32);
    Ok(Order {
        places: plain_places(alloc, locals, stack)?,
        slots: plain_slots(alloc, locals, stack)?,
    })
}
