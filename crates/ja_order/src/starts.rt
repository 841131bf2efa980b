use ja_base::Memory;
use ja_ir::{Handler, Instr, Op};
use std::alloc::Global;

/// Marks a place where there is one.
fn mark(starts: &mut [bool], place: usize) {
    if place < starts.len() {
        starts[place] = true;
    }
}

/// Marks the places where a branch leads.
fn mark_next(starts: &mut [bool], instr: &Instr) {
    if let Op::Branch { .. } = instr.op {
        for place in instr.next.as_slice() {
            mark(starts, *place as usize);
        }
    }
}

/// Marks the places where the handlers are.
fn mark_handlers(starts: &mut [bool], handlers: &[Handler]) {
    for handler in handlers {
        mark(starts, handler.target as usize);
    }
}

/// Where branches and handlers lead: everywhere else an instruction is reached from the one before it.
pub fn run_starts(
    alloc: Global,
    code: &[Instr],
    handlers: &[Handler],
) -> Result<Vec<bool>, Memory> {
    let mut starts = Vec::from_elem(alloc, false, code.len())?;
    for instr in code {
        mark_next(starts.as_mut_slice(), instr);
    }
    mark_handlers(starts.as_mut_slice(), handlers);
    Ok(starts)
}
