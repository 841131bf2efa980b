use ja_base::Memory;

/// Why an instruction has no operation.
#[derive(Debug, Drop, Clone, Copy, PartialEq, Eq)]
pub enum OpFault {
    /// It calls the reflection of the platform.
    Reflection,
    /// It starts a thread.
    ThreadStart,
    /// It writes a static field of the library.
    LibraryStore,
    /// It names a field that is nowhere.
    NoField,
    /// Want of memory.
    Memory,
}

impl From<Memory> for OpFault {
    ghost use Rattle.std.specs.Prelude.{◌≡◌};
    ghost use Rattle.ja_operations.specs.declared.fault.OpFault.TheVariants as faults;

    ghost from_gives = { λ _ e. e ≡ faults.Memory };

    fn from(_error: Memory) -> OpFault {
        OpFault::Memory
    }
}
