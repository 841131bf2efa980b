//! Operations on decision diagrams over the shared table of nodes: each means what it is named for.
#![tactic(auto)]

mod assign;
mod build;
mod cache;
mod copies;
mod exists;
mod join;
mod law;
mod pick;
mod product;
mod renaming;
mod shift;
mod worker;

pub use assign::Assign;
pub use cache::MAX_ENTRIES;
pub use copies::Copies;
pub use law::law_forgotten;
pub use renaming::Renaming;
pub use worker::Worker;

/// A list of nodes.
pub type Roots = ja_base::Seq<ja_node_table::Node>;
