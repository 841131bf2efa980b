//! The least solution of the equations of taint on lists of facts, for programs with narrow frames: a
//! plain solver, to which the one on diagrams is compared.
#![tactic(auto)]

mod calling;
mod chance;
mod clauses;
mod environment;
mod fault;
mod following;
mod item;
mod landing;
mod params;
mod passage;
mod plain;
mod reading;
mod rule;
mod solve;
mod standing;
mod stepping;
mod stored;
mod storing;
mod table;
mod throwing;
mod warning;
mod words;

pub use fault::PlainFault;
pub use plain::{PlainSolution, solve_plain};
