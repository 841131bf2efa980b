use crate::frame::{Frame, Slot, Truth};

/// What is told of a method's end: which of its parameters were true, and whether its result, what was
/// stored and what was thrown is tainted.
#[derive(Clone, Copy, PartialEq, Eq, Debug)]
pub struct Summary {
    /// A bit for each parameter.
    pub params: u64,
    pub result: bool,
    pub dirt: bool,
    pub exc: bool,
}

/// How a method is entered: with so many arguments over so many values, which are left.
#[derive(Drop)]
pub struct Call {
    pub frame: Frame,
    pub count: u32,
    pub under: u32,
    /// Whether a result is pushed.
    pub answers: bool,
    /// The slots that have a pair with something that the method may change.
    pub affected: Vec<Slot>,
}

/// Whether the arguments are those of which a summary tells.
fn fits(call: &Call, before: Truth, summary: Summary) -> bool {
    for k in 0..call.count {
        let argument = before.has(call.frame, Slot::OnStack(call.under.wrapping_add(k)));
        if argument != (summary.params >> (k % 64) & 1 == 1) {
            return false;
        }
    }
    true
}

/// Whether a slot is affected.
fn is_affected(call: &Call, slot: Slot) -> bool {
    call.affected.iter().any(|other| *other == slot)
}

/// Whether a slot that is left may have this truth after a method has ended.
fn left(call: &Call, before: Truth, summary: Summary, slot: Slot, truth: bool) -> bool {
    let was = before.has(call.frame, slot);
    truth == was || (is_affected(call, slot) && (!truth || was || summary.dirt))
}

/// Whether a slot may have this truth after a method has returned.
fn turns(call: &Call, before: Truth, summary: Summary, slot: Slot, truth: bool) -> bool {
    match slot {
        Slot::Local(_) => left(call, before, summary, slot, truth),
        Slot::OnStack(k) if k < call.under => left(call, before, summary, slot, truth),
        Slot::OnStack(k) if k == call.under && call.answers => truth == summary.result,
        Slot::OnStack(_) => !truth,
    }
}

/// Whether a method that has returned with a summary may lead from the one truth to the other.
pub fn is_return(call: &Call, before: Truth, summary: Summary, after: Truth) -> bool {
    if !fits(call, before, summary) {
        return false;
    }
    for number in 0..call.frame.len() {
        let slot = call.frame.slot(number);
        if !turns(call, before, summary, slot, after.has(call.frame, slot)) {
            return false;
        }
    }
    after.dirt(call.frame) == (before.dirt(call.frame) || summary.dirt)
        && after.exc(call.frame) == before.exc(call.frame)
}

/// Whether a slot may have this truth after a method has thrown.
fn leaves(call: &Call, before: Truth, summary: Summary, slot: Slot, truth: bool) -> bool {
    match slot {
        Slot::Local(_) => left(call, before, summary, slot, truth),
        Slot::OnStack(_) => !truth,
    }
}

/// Whether a method that has thrown with a summary may lead from the one truth to the other.
pub fn is_call_thrown(call: &Call, before: Truth, summary: Summary, after: Truth) -> bool {
    if !fits(call, before, summary) {
        return false;
    }
    for number in 0..call.frame.len() {
        let slot = call.frame.slot(number);
        if !leaves(call, before, summary, slot, after.has(call.frame, slot)) {
            return false;
        }
    }
    after.dirt(call.frame) == (before.dirt(call.frame) || summary.dirt)
        && after.exc(call.frame) == summary.exc
}
