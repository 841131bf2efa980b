ghost use Rattle.std.specs.Prelude.{◌+◌, ◌≤◌, IfOk};
ghost use Rattle.ja_base.specs.Limit.{max_frame_values};
ghost use Rattle.ja_ir.specs.Lookup.{HasCode};
ghost use Rattle.ja_order.specs.Inner.{IsOrderOf, IsSmall};
ghost use Rattle.ja_order.specs.Order.{AreOrders, HasFrame, HasOrder, IsOrder};

use crate::checks::is_order;
use crate::frame::Frame;
use crate::order::{Order, Orders};
use crate::plain::plain;
use crate::ranking::ranked_slots;
use crate::walk::Walk;
use ja_base::{Memory, Seq};
use ja_ir::{Method, Program};
use std::alloc::Global;

/// The places of slots that stand in a list in their order.
pub fn places_of(alloc: Global, slots: &[usize]) -> Result<Vec<u32>, Memory> {
    let mut places = Vec::from_elem(alloc, 0u32, slots.len())?;
    let mut place = 0u32;
    for slot in slots {
        if *slot < places.len() {
            places[*slot] = place;
        }
        place = place.wrapping_add(1);
    }
    Ok(places)
}

/// The same numbers in fewer bits.
fn narrowed(alloc: Global, slots: &[usize]) -> Result<Vec<u32>, Memory> {
    let mut narrow = Vec::new(alloc);
    for slot in slots {
        narrow.push(u32::try_from(*slot).unwrap_or(0))?;
    }
    Ok(narrow)
}

/// The order that a method's code suggests; nothing is known of it.
fn suggested(alloc: Global, method: &Method, frame: Frame) -> Result<Order, Memory> {
    let walk = Walk::of(alloc, method, frame)?;
    let slots = ranked_slots(alloc, &walk, frame)?;
    Ok(Order {
        places: Seq::from_vec(places_of(alloc, slots.as_slice())?),
        slots: Seq::from_vec(narrowed(alloc, slots.as_slice())?),
    })
}

/// The order that a method's code suggests, or the plain one where that is none.
fn frame_order(alloc: Global, method: &Method, frame: Frame) -> Result<Order, Memory>
    requires { IsSmall frame }
    ensures { IfOk result (IsOrderOf frame.params frame.locals frame.stack) }
{
    let order = suggested(alloc, method, frame)?;
    if is_order(&order, frame) {
        return Ok(order);
    }
    plain(alloc, frame)
}

/// An order of a method's variables. A value on the stack stands beside the local that it is made from
/// most often, and a local beside one that it is made from, so that the diagrams of relations between
/// them are small: with all locals before all values, N locals that are passed to one call take about
/// 2^N nodes. The time is linear in the number of instructions, times the number of slots.
pub fn order_of(alloc: Global, method: &Method) -> Result<Order, Memory>
    requires { HasFrame method.now }
    ensures { IfOk result (IsOrder method.now) }
{
    frame_order(alloc, method, Frame::of(method))
}

/// The places of a method's slots: an order of its variables, and where it has no code the plain one.
pub fn method_order(alloc: Global, method: &Method) -> Result<Order, Memory>
    requires frame { HasCode method.now → HasFrame method.now }
    requires small { method.now.locals + method.now.stack ≤ max_frame_values }
    ensures { IfOk result (HasOrder method.now) }
{
    if method.code.is_empty() {
        plain(alloc, Frame::bare(method))
    } else {
        order_of(alloc, method)
    }
}

/// The orders of the variables of a program's methods, each made once from the method's code.
pub fn orders_of(alloc: Global, p: &Program) -> Result<Orders, Memory>
    ensures { IfOk result (AreOrders p.now) }
{
    let mut orders = Seq::new(alloc);
    for method in p.methods().as_slice() {
        orders.push(method_order(alloc, method)?)?;
    }
    Ok(orders)
}
