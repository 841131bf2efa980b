use ja_base::{Name, Names, Seq};
use ja_ir::LibRow;

/// What the calls of some methods do, for each of some classes.
#[derive(Drop)]
pub struct TableRow {
    pub classes: Names,
    /// The name of the methods, or `*` for all.
    pub method: Name,
    /// The descriptor of the methods (JVM specification 4.3.3), where it is given.
    pub desc: Option<Name>,
    pub meaning: LibRow,
}

/// A list of rows.
pub type TableRows = Seq<TableRow>;
