use crate::chains::{keys_of, ranked_locals, roots_of};
use crate::cost::cost;
use crate::frame::Frame;
use crate::walk::Walk;
use ja_base::Memory;
use std::alloc::Global;

/// The weight of the values at a place on the stack, and the place among the ranked locals of the one
/// that they are made from most.
fn heaviest(walk: &Walk, ranked: &[usize], value: usize) -> (u64, usize) {
    let mut most = 0;
    let mut best = 0;
    for at in 0..ranked.len() {
        let weight = walk.weight(value, ranked[at]);
        if weight > most {
            most = weight;
            best = at;
        }
    }
    (most, best)
}

/// The place on the stack of the heaviest values that follow no local yet.
fn heaviest_left(weights: &[(u64, usize)], follows: &[Option<usize>]) -> Option<usize> {
    let mut best = None;
    let mut most = 0;
    for at in 0..weights.len() {
        let left = at < follows.len() && follows[at].is_none();
        if left && (best.is_none() || weights[at].0 > most) {
            best = Some(at);
            most = weights[at].0;
        }
    }
    best
}

/// A place between those of the values below and above that follow a local already.
fn between(follows: &[Option<usize>], value: usize, wanted: usize) -> usize {
    let mut place = wanted;
    for at in 0..follows.len() {
        if let Some(other) = follows[at] {
            place = if at < value {
                place.max(other)
            } else {
                place.min(other)
            };
        }
    }
    place
}

/// After which of the ranked locals the values at each place on the stack stand: the lowest after the
/// first local, and the others, the heaviest first, after those that they are made from most, but
/// between their neighbours.
fn followed_locals(
    alloc: Global,
    walk: &Walk,
    ranked: &[usize],
    stack: usize,
) -> Result<Vec<Option<usize>>, Memory> {
    let mut weights = Vec::new(alloc);
    let mut follows = Vec::new(alloc);
    for value in 0..stack {
        weights.push(heaviest(walk, ranked, value))?;
        follows.push(if value == 0 { Some(0) } else { None })?;
    }
    for _value in 1..stack {
        if let Some(value) = heaviest_left(weights.as_slice(), follows.as_slice()) {
            let wanted = weights.get(value).map_or(0, |weight| weight.1);
            let place = between(follows.as_slice(), value, wanted);
            if value < follows.len() {
                follows[value] = Some(place);
            }
        }
    }
    Ok(follows)
}

/// Adds the values that follow a ranked local to a list of slots.
fn add_values(
    slots: &mut Vec<usize>,
    follows: &[Option<usize>],
    at: usize,
    locals: usize,
) -> Result<(), Memory> {
    for value in 0..follows.len() {
        if follows[value] == Some(at) {
            slots.push(locals.wrapping_add(value))?;
        }
    }
    Ok(())
}

/// The slots in order, where the locals are in this one: each is followed by the values on the stack
/// that stand after it, and dirt and exc come last.
fn slots_after(
    alloc: Global,
    walk: &Walk,
    frame: Frame,
    ranked: &[usize],
) -> Result<Vec<usize>, Memory> {
    let follows = followed_locals(alloc, walk, ranked, frame.stack)?;
    let mut slots = Vec::new(alloc);
    for at in 0..ranked.len().max(1) {
        if let Some(local) = ranked.get(at) {
            slots.push(*local)?;
        }
        add_values(&mut slots, follows.as_slice(), at, frame.locals)?;
    }
    let dirt = frame.locals.wrapping_add(frame.stack);
    slots.push(dirt)?;
    slots.push(dirt.wrapping_add(1))?;
    Ok(slots)
}

/// The slots in an order that keeps those near one another which depend on one another. The chains of
/// locals are in the order of their first locals or, where that makes the cost less than half, in that
/// of the values that are made from them.
pub fn ranked_slots(alloc: Global, walk: &Walk, frame: Frame) -> Result<Vec<usize>, Memory> {
    let roots = roots_of(alloc, walk, frame)?;
    let same = Vec::from_elem(alloc, 0usize, roots.len())?;
    let ranked = ranked_locals(alloc, roots.as_slice(), same.as_slice(), 0)?;
    let slots = slots_after(alloc, walk, frame, ranked.as_slice())?;
    let keys = keys_of(alloc, walk, frame, roots.as_slice())?;
    let sorted = ranked_locals(alloc, roots.as_slice(), keys.as_slice(), frame.stack)?;
    let other = slots_after(alloc, walk, frame, sorted.as_slice())?;
    if cost(alloc, walk, frame, other.as_slice())?
        < cost(alloc, walk, frame, slots.as_slice())? / 2
    {
        return Ok(other);
    }
    Ok(slots)
}
