//! Which fields and bags an object of a token, or what a field refers to, may reach.
#![tactic(auto)]

mod classes;
mod counts;
mod fields;
mod search;
mod sets;
mod solve;
mod tokens;

pub use solve::holds;
