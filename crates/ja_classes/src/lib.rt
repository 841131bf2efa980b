//! Class sets and the call graph of a program: the least ones.
#![tactic(auto)]

mod least;

pub use least::class_sets;
