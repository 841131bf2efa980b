//! What each end of an instruction says of each spot, computed from the tables of facts.
#![tactic(auto)]

mod before;
mod counts;
mod crossing;
mod handled;
mod law;
mod normal;
mod plain;
mod reading;
mod rows;
mod slot;
mod stays;
mod summary;
mod through;
mod thrown;

pub use before::Before;
pub use crossing::{return_clause, throw_clause};
pub use handled::{caught_clause, end_clause, leave_clause};
pub use law::law_empty_are_shaped;
pub use normal::{may_go_on, normal_clause};
pub use slot::Slot;
pub use summary::Summary;
pub use through::Through;
pub use thrown::{exceptional_clause, may_end};
