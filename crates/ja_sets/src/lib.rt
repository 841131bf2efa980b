//! Sets of numbers and of pairs of numbers, as bits in machine words.
#![tactic(auto)]

mod bits;
mod law;
mod pairs;
mod tokens;

pub use law::{law_pairs, law_sets};
pub use pairs::PairSet;
pub use tokens::TokenSet;
