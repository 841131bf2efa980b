use crate::frame::Frame;
use crate::make::places_of;
use crate::walk::Walk;
use ja_base::Memory;
use std::alloc::Global;

/// How far the places of two slots are from one another.
fn distance(places: &[u32], one: usize, other: usize) -> u64 {
    let one = places.get(one).copied().unwrap_or(0);
    let other = places.get(other).copied().unwrap_or(0);
    (one.max(other) - one.min(other)) as u64
}

/// What an order of the slots costs: the weights of values that are made from locals, each times the
/// distance between the two.
pub fn cost(alloc: Global, walk: &Walk, frame: Frame, slots: &[usize]) -> Result<u64, Memory> {
    let places = places_of(alloc, slots)?;
    let mut all = 0u64;
    for value in 0..frame.stack {
        for local in 0..frame.locals {
            let far = distance(places.as_slice(), frame.locals.wrapping_add(value), local);
            all = all.saturating_add(walk.weight(value, local).saturating_mul(far));
        }
    }
    Ok(all)
}
