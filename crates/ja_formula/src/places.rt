ghost use Rattle.std.specs.Prelude.{◌≡◌, ◌/◌, ◌+◌, ◌<◌, ◌≤◌, true, slice_index};
ghost use Rattle.ja_base.specs.Limit.{max_frame_values, last_variable};
ghost use Rattle.ja_work.specs.Frames as frames;

use ja_work::{Frame, Spot};

/// The number of a spot among the slots of a frame.
fn number(frame: &Frame, spot: Spot) -> u32
    requires { frames.is_inside frame.now spot ≡ true }
    ensures number { result ≡ frames.number frame.now spot }
    ensures within { result < frames.size frame.now }
{
    match spot {
        Spot::Local(local) => local,
        Spot::OnStack(under) => frame.locals + under,
        Spot::Dirt => frame.locals + frame.stack,
        Spot::Exc => frame.locals + frame.stack + 1,
    }
}

/// The place of a slot.
fn place(frame: &Frame, slot: u32) -> u32
    requires { slot < frames.size frame.now }
    ensures place { result ≡ slice_index frame.now.places slot }
    ensures within { result < frames.size frame.now }
    ensures small { result ≤ max_frame_values + 1 }
{
    frame.places.as_slice()[slot as usize]
}

/// The variable of a spot in a copy: 0 at the entry of the method, 1 at present, 2 next, 3 of a callee.
pub fn variable(frame: &Frame, spot: Spot, copy: u32) -> u32
    requires inside { frames.is_inside frame.now spot ≡ true }
    requires copy { copy ≤ 3 }
    ensures variable { result ≡ frames.variable frame.now spot copy }
    ensures within { result / 4 < frames.size frame.now }
    ensures small { result ≤ last_variable }
{
    4 * place(frame, number(frame, spot)) + copy
}

/// The slot at a place.
fn slot(frame: &Frame, place: u32) -> u32
    requires { place < frames.size frame.now }
    ensures slot { result ≡ slice_index frame.now.slots place }
    ensures within { result < frames.size frame.now }
{
    frame.slots.as_slice()[place as usize]
}

/// The spot of a number.
fn numbered(frame: &Frame, slot: u32) -> Spot
    requires { slot < frames.size frame.now }
    ensures spot { result ≡ frames.numbered frame.now slot }
    ensures inside { frames.is_inside frame.now result ≡ true }
{
    if slot < frame.locals {
        return Spot::Local(slot);
    }
    if slot < frame.locals + frame.stack {
        return Spot::OnStack(slot - frame.locals);
    }
    if slot == frame.locals + frame.stack {
        Spot::Dirt
    } else {
        Spot::Exc
    }
}

/// The spot at a place.
pub fn spot_at(frame: &Frame, place: u32) -> Spot
    requires { place < frames.size frame.now }
    ensures spot { result ≡ frames.spot_at frame.now place }
    ensures inside { frames.is_inside frame.now result ≡ true }
{
    numbered(frame, slot(frame, place))
}
