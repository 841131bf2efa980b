//! The network over which class sets are solved: cells with sets of tokens, links between them, and
//! events. It tells each fact once, and hands out what has not been worked on.
#![tactic(auto)]

mod cell;
mod network;
mod sets;
mod state;

pub use cell::{Action, Cell, Event};
pub use network::Network;
pub use sets::{copied, without};
pub use state::CellState;
