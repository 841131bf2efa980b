use crate::sources::Sources;
use ja_ir::Op;

/// A value on the stack: the locals that it was made from, and what it weighs.
#[derive(Clone, Copy)]
pub struct Stacked {
    pub made: Sources,
    /// The sum over the instructions before which it was there.
    pub weight: u64,
}

impl Stacked {
    /// A new value that is made from these locals.
    pub fn of(made: Sources) -> Stacked {
        Stacked { made, weight: 0 }
    }
}

/// What values are made from together.
fn union(values: &[Stacked]) -> Sources {
    let mut all = Sources::NONE;
    for value in values {
        all = all.with(value.made);
    }
    all
}

/// What the value at a place is made from.
pub fn made_at(values: &[Stacked], at: usize) -> Sources {
    values.get(at).map_or(Sources::NONE, |value| value.made)
}

/// What an operation that popped these values makes the value from that it pushes at a place: a load
/// from its local, a shuffle from what it moves, a computation and a call from all that they took. A
/// cast and an element of an array are made from what the reference is.
pub fn pushed(op: &Op, popped: &[Stacked], at: usize) -> Sources {
    match op {
        Op::Load(_, local) => Sources::of(*local as usize),
        Op::Shuffle { pushes, .. } => match pushes.as_slice().get(at) {
            Some(from) => made_at(popped, *from as usize),
            None => Sources::NONE,
        },
        Op::Mix { .. } | Op::Call(_) => union(popped),
        Op::Cast(_) | Op::ArrLoad(_) => made_at(popped, 0),
        _ => Sources::NONE,
    }
}
