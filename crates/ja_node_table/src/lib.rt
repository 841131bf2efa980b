//! A table of diagram nodes that threads share without a lock: one word for each node, one
//! compare-exchange to make it, and one number for each function.
#![tactic(auto)]

mod full;
mod rule;
mod seat;
mod table;
mod view;

pub use full::Full;
pub use ja_node_core::{Node, Parts};
pub use seat::NodeSeat;
pub use table::NodeTable;
