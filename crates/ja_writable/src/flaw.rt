ghost use Rattle.std.specs.Prelude.{◌≡◌};
ghost use Rattle.ja_writable.specs.declared.flaw.Flaw.TheVariants as flaws;

use ja_base::Memory;

/// Why an item is not taken.
#[derive(Clone, Copy)]
pub(crate) enum Flaw {
    /// It cannot be written.
    Unwritable,
    /// Memory ran out.
    Memory,
}

impl From<Memory> for Flaw {
    ghost from_gives = { λ _ e. e ≡ flaws.Memory };

    fn from(_error: Memory) -> Flaw {
        Flaw::Memory
    }
}
