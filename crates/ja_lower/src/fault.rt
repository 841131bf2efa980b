ghost use Rattle.std.specs.Prelude.{◌≡◌};
ghost use Rattle.ja_lower.specs.declared.fault.LowerFault.TheVariants as faults;

use ja_base::{Memory, Refusal};

/// Why classes make no program.
#[derive(Debug, Drop)]
pub enum LowerFault {
    /// The classes as a whole, or one of their methods, are refused.
    Refused(Refusal),
    /// Want of memory.
    Memory,
}

impl From<Memory> for LowerFault {
    ghost from_gives = { λ _ fault. fault ≡ faults.Memory };

    fn from(_memory: Memory) -> LowerFault {
        LowerFault::Memory
    }
}
