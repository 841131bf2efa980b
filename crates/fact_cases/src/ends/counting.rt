//! How many pairs ends make.
use crate::ends::case::{Before, Case};
use crate::ends::operation::{operation, reading};
use ja_base::Memory;
use ja_ir::Op;
use plain_ends::{Frame, Known, Point, Relation, Slot, normal_ends, thrown_ends};
use std::alloc::Global;

/// A frame with one local, and two values on the stack or as many as there are.
pub fn frame(height: u32) -> Frame {
    Frame {
        locals: 1,
        stack: height.max(2),
    }
}

/// The local and the lowest value on the stack, in both orders.
fn pairs(alloc: Global, met: bool) -> Result<Vec<(Slot, Slot)>, Memory> {
    let mut pairs = Vec::new(alloc);
    if met {
        pairs.push((Slot::Local(0), Slot::OnStack(0)))?;
        pairs.push((Slot::OnStack(0), Slot::Local(0)))?;
    }
    Ok(pairs)
}

/// What is known.
fn known(alloc: Global, before: Before) -> Result<Known, Memory> {
    let met = before == Before::Met;
    let known = pairs(alloc, met)?;
    let reach = pairs(alloc, met)?;
    Ok(Known {
        pairs: known,
        reach,
        library: met,
        is_abstract: before == Before::WithoutCode,
    })
}

/// How many pairs a normal end makes.
fn normal_count(alloc: Global, point: &Point<'_>) -> Result<usize, Memory> {
    let ends = normal_ends(alloc, point)?;
    Ok(ends.pairs.len())
}

/// How many pairs an exceptional end makes.
fn thrown_count(alloc: Global, point: &Point<'_>) -> Result<usize, Memory> {
    let ends = thrown_ends(alloc, point)?;
    Ok(ends.pairs.len())
}

/// Adds how many pairs the normal and the exceptional end of an operation make.
fn add_counts(out: &mut String, alloc: Global, op: &Op, case: Case) -> Result<(), Memory> {
    let known = known(alloc, case.before)?;
    let point = Point {
        op,
        height: case.height,
        frame: frame(case.height),
        known: &known,
    };
    let normal = normal_count(alloc, &point)?;
    let thrown = thrown_count(alloc, &point)?;
    Ok(writeln!(out, "{} {normal} {thrown}", case.name)?)
}

/// Adds the line of a case.
pub fn add_case(out: &mut String, alloc: Global, number: usize, case: Case) -> Result<(), Memory> {
    let op = operation(alloc, number)?;
    add_counts(out, alloc, &op, case)
}

/// The pairs of a read of a field.
fn field_read(alloc: Global) -> Result<Relation, Memory> {
    let known = known(alloc, Before::Nothing)?;
    let op = reading(13);
    let point = Point {
        op: &op,
        height: 1,
        frame: frame(1),
        known: &known,
    };
    normal_ends(alloc, &point)
}

/// Adds the line of a read of a field of what a field has.
pub fn add_twice(out: &mut String, alloc: Global) -> Result<(), Memory> {
    let read = field_read(alloc)?;
    let both = read.then(alloc, frame(1), &read)?;
    writeln!(out, "field of a field {}", both.pairs.len())?;
    Ok(())
}
