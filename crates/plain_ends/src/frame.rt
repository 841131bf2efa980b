/// Where a value stands in a frame: in a local, or on the stack with so many values under it.
#[derive(Clone, Copy, PartialEq, Eq, Debug)]
pub enum Slot {
    Local(u32),
    OnStack(u32),
}

/// A tiny frame: so few locals and values on the stack that there are at most 64 slots with those for
/// what was stored and for what is thrown.
#[derive(Clone, Copy, PartialEq, Eq, Debug)]
pub struct Frame {
    pub locals: u32,
    pub stack: u32,
}

impl Frame {
    /// The number of a slot: locals come first, and then the values on the stack.
    pub fn number(self, slot: Slot) -> Option<u32> {
        match slot {
            Slot::Local(l) if l < self.locals => Some(l),
            Slot::OnStack(k) if k < self.stack => Some(self.locals.wrapping_add(k)),
            _ => None,
        }
    }

    /// How many locals and values there are.
    pub fn len(self) -> u32 {
        self.locals.wrapping_add(self.stack)
    }

    /// Whether there is neither a local nor a value.
    pub fn is_empty(self) -> bool {
        self.len() == 0
    }

    /// The slot of a number.
    pub fn slot(self, number: u32) -> Slot {
        if number < self.locals {
            Slot::Local(number)
        } else {
            Slot::OnStack(number - self.locals)
        }
    }

    /// How many truths a frame has: two for each slot, for what was stored and for what is thrown,
    /// multiplied.
    pub fn truths(self) -> u64 {
        1 << (self.len().min(30) + 2)
    }
}

/// Which slots of a frame are true, whether something was stored that is tainted, and whether what is
/// thrown is: a bit for each slot by its number, and two behind them.
#[derive(Clone, Copy, PartialEq, Eq, Debug)]
pub struct Truth {
    bits: u64,
}

impl Truth {
    /// The truth of a number below that of the truths.
    pub fn of(number: u64) -> Truth {
        Truth { bits: number }
    }

    /// Its number.
    pub fn number(self) -> u64 {
        self.bits
    }

    fn bit(self, number: u32) -> bool {
        self.bits >> (number % 64) & 1 == 1
    }

    /// Whether a slot is true. One that the frame does not have is not.
    pub fn has(self, frame: Frame, slot: Slot) -> bool {
        match frame.number(slot) {
            Some(number) => self.bit(number),
            None => false,
        }
    }

    /// Whether something was stored that is tainted.
    pub fn dirt(self, frame: Frame) -> bool {
        self.bit(frame.len())
    }

    /// Whether what is thrown is tainted.
    pub fn exc(self, frame: Frame) -> bool {
        self.bit(frame.len().wrapping_add(1))
    }
}
