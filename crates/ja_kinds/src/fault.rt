ghost use Rattle.std.specs.Prelude.{◌≡◌};
ghost use Rattle.ja_kinds.specs.declared.fault.KindFault.TheVariants as faults;

use ja_base::Memory;

/// Why a method has no kinds.
#[derive(Clone, Copy, PartialEq, Eq, Debug)]
pub enum KindFault {
    /// The locals and the stack have this many words together, which is more than 512.
    FrameSize { values: u32 },
    /// Before the instruction at `pc` or after it the stack is too low or too high.
    StackDepth { pc: u32 },
    /// An operand or a local of the instruction at `pc` is of another kind than it needs.
    KindClash { pc: u32 },
    /// The instruction at `pc` goes on past the end of the code.
    FallsOff { pc: u32 },
    /// Want of memory.
    Memory,
}

impl From<Memory> for KindFault {
    ghost from_gives = { λ _ fault. fault ≡ faults.Memory };

    fn from(_memory: Memory) -> KindFault {
        KindFault::Memory
    }
}
