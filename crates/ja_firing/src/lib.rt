//! What comes of a token of a cell for which something is done: a list of constraints.
#![tactic(auto)]

mod object;
mod token;

pub use token::add_fires;
