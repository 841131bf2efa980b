//! Counts what the ends of each operation make of truths on tiny frames.
//!
//! Each line has the name of a case, the number of pairs of a truth before and one after that its normal end makes,
//! and of those that its exceptional end makes. The frame has one local and two values on the stack, or three where an
//! operation takes three: so there are 32 truths, or 64. Where a write or a call may change an object, the local
//! reaches it or has a pair with it. The line before the last is of a read of a field of what
//! a field has: of the pairs that both make, one after the other. The last line is of the returns and the throws of a method, by two
//! summaries of it that differ in the result alone: its argument is true, and the local has a pair with what it may change.
mod case;
mod counting;
mod operation;
mod returning;
mod row;

use case::CASES;
use counting::{add_case, add_twice};
use ja_base::Memory;
use returning::add_returns;
use std::alloc::Global;

/// All lines.
pub fn lines(alloc: Global) -> Result<String, Memory> {
    let mut out = String::new(alloc);
    for number in 0..CASES.len() {
        add_case(&mut out, alloc, number, CASES[number])?;
    }
    add_twice(&mut out, alloc)?;
    add_returns(&mut out, alloc)?;
    Ok(out)
}
