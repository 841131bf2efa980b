ghost use Rattle.std.specs.Prelude.{◌≡◌};
ghost use Rattle.ja_listing.specs.declared.fault.ItemFault.TheVariants as faults;

use ja_base::Memory;

/// Why an item is not read.
#[derive(Clone, Copy)]
pub(crate) enum ItemFault {
    /// It breaks the notation.
    Broken,
    /// Memory ran out.
    Memory,
}

impl From<Memory> for ItemFault {
    ghost from_gives = { λ _ e. e ≡ faults.Memory };

    fn from(_error: Memory) -> ItemFault {
        ItemFault::Memory
    }
}

/// Why a listing is not read, or a class of it not written.
#[derive(Clone, Copy, PartialEq, Eq, Debug)]
pub enum MakeFault {
    /// The number of the first item that breaks the notation or cannot be written, counted from 0.
    BadListing { line: u64 },
    /// Memory ran out.
    Memory,
}
