use ja_base::Memory;

/// Why a part of a table file is not read.
#[derive(Debug, Drop, Clone, Copy)]
pub(crate) enum PartFault {
    /// It breaks the rules.
    Wrong,
    /// Want of memory.
    Memory,
}

impl From<Memory> for PartFault {
    ghost use Rattle.std.specs.Prelude.{◌≡◌};
    ghost use Rattle.ja_lib.specs.declared.part.PartFault.TheVariants as parts;

    ghost from_gives = { λ _ e. e ≡ parts.Memory };

    fn from(_error: Memory) -> PartFault {
        PartFault::Memory
    }
}
