use crate::frame::{Frame, Slot, Truth};
use ja_ir::Op;

/// What is known before an instruction, as far as its ends ask.
#[derive(Drop)]
pub struct Known {
    /// From which of two slots some object is reached that the other one reaches, too; both orders stand.
    pub pairs: Vec<(Slot, Slot)>,
    /// From which slot the object of which other one is reached.
    pub reach: Vec<(Slot, Slot)>,
    /// Whether the library is a target.
    pub library: bool,
    /// Whether some target has no code.
    pub is_abstract: bool,
}

impl Known {
    /// Whether there is a pair of two slots.
    pub fn pair(&self, one: Slot, other: Slot) -> bool {
        self.pairs.iter().any(|pair| *pair == (one, other))
    }

    /// Whether the object of the second slot is reached from the first.
    pub fn reaches(&self, from: Slot, to: Slot) -> bool {
        self.reach.iter().any(|pair| *pair == (from, to))
    }
}

/// An instruction that is reached, and what is known before it.
#[derive(Clone, Copy)]
pub struct Point<'a> {
    pub op: &'a Op,
    /// The number of values on the stack before it.
    pub height: u32,
    pub frame: Frame,
    pub known: &'a Known,
}

impl Point<'_> {
    /// The slot so far below the top of the stack: 1 for the topmost value.
    pub fn down(&self, depth: u32) -> Option<Slot> {
        self.height.checked_sub(depth).map(Slot::OnStack)
    }

    /// Whether the value so far below the top is true.
    pub fn is_down(&self, before: Truth, depth: u32) -> bool {
        match self.down(depth) {
            Some(slot) => before.has(self.frame, slot),
            None => false,
        }
    }
}
