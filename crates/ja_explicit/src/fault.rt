ghost use Rattle.std.specs.Prelude.{◌≡◌};

use ja_base::MethodId;

/// Why the plain solver has no answer.
#[derive(Debug, Drop, Clone, Copy, PartialEq, Eq)]
pub enum PlainFault {
    /// The frame of a method, the first such, has more than ten values, so many.
    FrameTooWide { method: MethodId, values: u32 },
    /// Want of memory.
    Memory,
}

impl From<ja_base::Memory> for PlainFault {
    ghost use Rattle.ja_explicit.specs.declared.fault.PlainFault.TheVariants.{Memory};

    ghost from_gives = { λ _ fault. fault ≡ Memory };

    fn from(_error: ja_base::Memory) -> PlainFault {
        PlainFault::Memory
    }
}
