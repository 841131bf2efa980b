//! What the files that were read so far come to.
ghost use Rattle.std.specs.Prelude.{◌≡◌, ◌≤◌, length};
ghost use Rattle.ja_base.specs.Limit.{max_total_bytes};
ghost use Rattle.ja_reading.specs.Sizes.{AreWithin};

use ja_base::{Names, Refusal};
use ja_class::Class;
use ja_lib::Table;

/// What was read of the table of the folder.
#[derive(Drop)]
pub(crate) enum TableRead {
    /// No file has been the table.
    Absent,
    /// The table.
    Own(Table),
    /// Why the table is refused.
    Wrong(Refusal),
}

/// What was read of the class files.
#[derive(Drop)]
pub(crate) struct ClassesRead {
    /// The names of those that were read as classes, up to the first that is refused.
    pub names: Names,
    /// Their classes.
    pub classes: Vec<Class>,
    /// Why the first one that is refused is so.
    pub refusal: Option<Refusal>,
    ghost named: { length names ≡ length classes.items },
}

/// What the files that were read so far come to.
#[derive(Drop)]
pub(crate) struct Judged {
    /// How many bytes they have.
    pub total: u64,
    pub table: TableRead,
    pub classes: ClassesRead,
    ghost short: { total ≤ max_total_bytes },
    ghost few: { AreWithin classes.classes.items total },
}
