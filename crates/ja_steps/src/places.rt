ghost use Rattle.std.specs.Prelude.{◌≡◌, ◌+◌, ◌<◌, ◌≤◌, true, slice_index};
ghost use Rattle.ja_base.specs.Limit.{max_frame_values};
ghost use Rattle.ja_work.specs.Frames as frames;
ghost use Rattle.ja_steps.specs.Inner as parts;

use crate::parts::Part;
use ja_work::{Clause, Frame, Spot};

/// Whether a spot is one of a frame.
fn is_inside(frame: &Frame, spot: Spot) -> bool
    ensures { result ≡ frames.is_inside frame.now spot }
{
    match spot {
        Spot::Local(local) => local < frame.locals,
        Spot::OnStack(under) => under < frame.stack,
        Spot::Dirt | Spot::Exc => true,
    }
}

/// The number of a spot among the slots of a frame.
fn number(frame: &Frame, spot: Spot) -> u32
    requires { frames.is_inside frame.now spot ≡ true }
    ensures number { result ≡ frames.number frame.now spot }
    ensures within { result < frames.size frame.now }
{
    match spot {
        Spot::Local(local) => local,
        Spot::OnStack(under) => frame.locals + under,
        Spot::Dirt => frame.locals + frame.stack,
        Spot::Exc => frame.locals + frame.stack + 1,
    }
}

/// The place of a slot.
fn place(frame: &Frame, slot: u32) -> u32
    requires { slot < frames.size frame.now }
    ensures place { result ≡ slice_index frame.now.places slot }
{
    frame.places.as_slice()[slot as usize]
}

/// The place of a spot, if it is one of the frame.
pub(crate) fn place_if(frame: &Frame, spot: Option<Spot>) -> Option<u32>
    ensures { result ≡ parts.place_if frame.now spot }
{
    match spot {
        Some(spot) if is_inside(frame, spot) => Some(place(frame, number(frame, spot))),
        _ => None,
    }
}

/// The slot at a place.
fn slot(frame: &Frame, place: u32) -> u32
    requires { place < frames.size frame.now }
    ensures slot { result ≡ slice_index frame.now.slots place }
    ensures within { result < frames.size frame.now }
{
    frame.slots.as_slice()[place as usize]
}

/// The spot of a number.
fn numbered(frame: &Frame, slot: u32) -> Spot
    requires { slot < frames.size frame.now }
    ensures spot { result ≡ frames.numbered frame.now slot }
{
    if slot < frame.locals {
        return Spot::Local(slot);
    }
    if slot < frame.locals + frame.stack {
        return Spot::OnStack(slot - frame.locals);
    }
    if slot == frame.locals + frame.stack {
        Spot::Dirt
    } else {
        Spot::Exc
    }
}

/// The spot at a place.
pub(crate) fn spot_at(frame: &Frame, place: u32) -> Spot
    requires { place < frames.size frame.now }
    ensures { result ≡ frames.spot_at frame.now place }
{
    numbered(frame, slot(frame, place))
}

/// Whether a spot is one of so many values on the stack.
fn is_counted(first: u32, count: u32, spot: Spot) -> bool
    ensures { result ≡ parts.is_counted first count spot }
{
    match spot {
        Spot::OnStack(under) => !(under < first) && (under as u64) < first as u64 + count as u64,
        _ => false,
    }
}

/// How many slots a frame has.
pub(crate) fn size(frame: &Frame) -> u32
    ensures size { result ≡ frames.size frame.now }
    ensures small { result ≤ max_frame_values + 2 }
{
    frame.locals + frame.stack + 2
}

/// What a clause says of the spot at a place, by places, for so many counted values.
pub(crate) fn part_of(frame: &Frame, first: u32, count: u32, place: u32, clause: &Clause) -> Part
    requires { place < frames.size frame.now }
    ensures { result ≡ parts.part_of frame.now first count place clause.now }
{
    Part {
        place,
        exact: clause.exact,
        always: clause.always,
        one: place_if(frame, clause.one),
        ranged: clause.count != 0,
        counted: is_counted(first, count, spot_at(frame, place)),
    }
}
