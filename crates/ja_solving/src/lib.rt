//! The network of class sets, solved: it tells exactly the least set of facts under the rules of the
//! program.
#![tactic(auto)]

mod firing;
mod solving;
mod telling;
mod working;

pub use solving::solve;
