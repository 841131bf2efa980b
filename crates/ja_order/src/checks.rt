ghost use Rattle.std.specs.Prelude.{◌≡◌, ◌≤◌, ◌<◌, ◌+◌, ℕ, length, slice_index, IsTrue};
ghost use Rattle.ja_order.specs.Inner.{IsOrderOf, IsSmall, AreRising, AreFound};

use crate::frame::Frame;
use crate::order::Order;

/// Whether the places from one slot up to another one rise.
fn are_rising(places: &[u32], first: usize, end: usize) -> bool
    requires { end ≤ length places.now }
    ensures { IsTrue result → AreRising places.now first end }
{
    for slot in first..end {
        if slot + 1 < end && places[slot] >= places[slot + 1] {
            return false;
        }
    }
    true
}

/// Whether each number stands in the second list at the place that the first list has for it.
fn are_found(places: &[u32], numbers: &[u32]) -> bool
    requires { length places.now ≡ length numbers.now }
    ensures { IsTrue result → AreFound places.now numbers.now (length places.now) }
{
    for number in 0..places.len() {
        let place = places[number] as usize;
        if place >= numbers.len() || numbers[place] as usize != number {
            return false;
        }
    }
    true
}

/// Whether the lowest value on the stack lies between the first two locals of parameters.
fn is_between(places: &[u32], frame: Frame) -> bool
    requires small { IsSmall frame }
    requires counted { length places.now ≡ frame.locals + frame.stack + 2 }
    ensures { IsTrue result → (0 < frame.params → 0 < frame.stack → slice_index places.now 0 < slice_index places.now frame.locals) × (1 < frame.params → 0 < frame.stack → slice_index places.now frame.locals < slice_index places.now 1) }
{
    if frame.stack == 0 || frame.params == 0 {
        return true;
    }
    let lowest = places[frame.locals];
    places[0] < lowest && (frame.params == 1 || lowest < places[1])
}

/// Whether this is an order for a frame.
pub fn is_order(order: &Order, frame: Frame) -> bool
    requires { IsSmall frame }
    ensures { IsTrue result → IsOrderOf frame.params frame.locals frame.stack order.now }
{
    let (places, slots) = (order.places.as_slice(), order.slots.as_slice());
    let dirt = frame.locals + frame.stack;
    if places.len() != dirt + 2 || slots.len() != dirt + 2 {
        return false;
    }
    if !are_found(places, slots) || !are_found(slots, places) {
        return false;
    }
    if !are_rising(places, 0, frame.params) || !are_rising(places, frame.locals, dirt) {
        return false;
    }
    if !is_between(places, frame) {
        return false;
    }
    places[dirt] as usize == dirt && places[dirt + 1] as usize == dirt + 1
}
