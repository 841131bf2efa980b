//! The table of library methods, sources and sinks: what a call of each does, and which methods the
//! environment may call.
#![tactic(auto)]

mod category;
mod default;
mod entry;
mod entry_part;
mod fault;
mod index;
mod keys;
mod law;
mod part;
mod read;
mod row;
mod row_part;
mod spelled;
mod table;
mod values;

pub use default::default_table;
pub use entry::{EntryRow, EntryRows};
pub use fault::TableFault;
pub use law::law_one_answer;
pub use read::read_table;
pub use row::{TableRow, TableRows};
pub use table::Table;
