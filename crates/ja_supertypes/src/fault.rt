ghost use Rattle.std.specs.Prelude.{◌≡◌};
ghost use Rattle.ja_supertypes.specs.declared.fault.ClassFault.TheVariants.{Memory};

/// Why classes have no well-founded supertypes. A class is named by its place in the list.
#[derive(Debug, Drop, Clone, Copy, PartialEq, Eq)]
pub enum ClassFault {
    /// A class in a package of the platform: its name begins with `java/`.
    PlatformClass { class: u32 },
    /// A class with the name of an earlier one.
    Duplicate { class: u32 },
    /// A class that is its own supertype.
    Cycle { class: u32 },
    /// Want of memory.
    Memory,
}

impl From<ja_base::Memory> for ClassFault {
    ghost from_gives = { λ _ fault. fault ≡ Memory };

    fn from(_error: ja_base::Memory) -> ClassFault {
        ClassFault::Memory
    }
}
