//! What a program and the program of one of its categories of marks have in common.
#![tactic(auto)]

mod law;

pub use law::law_projected_keeps_analyses;
