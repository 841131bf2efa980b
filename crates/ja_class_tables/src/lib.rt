//! From a solved network to tables: which sets of tokens and which calls it tells.
#![tactic(auto)]

mod members;
mod notes;
mod numbers;
mod pool;
mod reading;
mod slots;
mod targets;

pub use reading::tables;
