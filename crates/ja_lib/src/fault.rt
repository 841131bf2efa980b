use ja_base::Memory;
use thiserror::Error;

/// Why bytes are no table file.
#[derive(Error, Debug, Drop, Clone, Copy, PartialEq, Eq)]
pub enum TableFault {
    /// The bytes are not UTF-8, or no text in TOML.
    #[error("the table is not a text in TOML")]
    Text,
    /// A key at the top is none of `row`, `entry` and `category`, or `row` or `entry` is no array of tables.
    #[error("the table has an unknown key at the top, or its rows or entries are no array of tables")]
    UnknownKey,
    /// The list of categories of marks is no array of 1 to 8 distinct names of 1 to 32 bytes from a to z,
    /// 0 to 9 and _.
    #[error("the table's list of categories breaks the rules for categories")]
    BadCategory,
    /// The first row, counted from 0, that breaks the rules for rows.
    #[error("row {row} of the table breaks the rules for rows")]
    BadRow { row: u64 },
    /// The first entry, counted from 0, that breaks the rules for entries.
    #[error("entry {entry} of the table breaks the rules for entries")]
    BadEntry { entry: u64 },
    /// Want of memory.
    #[error("out of memory")]
    Memory,
}

impl From<Memory> for TableFault {
    ghost use Rattle.std.specs.Prelude.{◌≡◌};
    ghost use Rattle.ja_lib.specs.declared.fault.TableFault.TheVariants as faults;

    ghost from_gives = { λ _ e. e ≡ faults.Memory };

    fn from(_error: Memory) -> TableFault {
        TableFault::Memory
    }
}
