//! How a method's returns and throws lead on.
use crate::ends::counting::frame;
use ja_base::Memory;
use plain_ends::{Call, Slot, Summary, returns};
use std::alloc::Global;

/// What is told of a method whose parameter is true: its result is tainted or not, and nothing else is.
static SUMMARIES: [Summary; 2] = [
    Summary {
        params: 1,
        result: true,
        dirt: false,
        exc: false,
    },
    Summary {
        params: 1,
        result: false,
        dirt: false,
        exc: false,
    },
];

/// A method that is entered with the upper one of two values, and may change what the local has a pair with.
fn entered(alloc: Global) -> Result<Call, Memory> {
    let mut affected = Vec::new(alloc);
    affected.push(Slot::Local(0))?;
    Ok(Call {
        frame: frame(2),
        count: 1,
        under: 1,
        answers: true,
        affected,
    })
}

/// How many pairs its returns make, or its throws.
fn count(alloc: Global, call: &Call, throws: bool) -> Result<usize, Memory> {
    let ends = returns(alloc, call, &SUMMARIES, throws)?;
    Ok(ends.pairs.len())
}

/// Adds the line of the method.
pub fn add_returns(out: &mut String, alloc: Global) -> Result<(), Memory> {
    let call = entered(alloc)?;
    let returned = count(alloc, &call, false)?;
    let thrown = count(alloc, &call, true)?;
    Ok(writeln!(out, "method of two summaries {returned} {thrown}")?)
}
