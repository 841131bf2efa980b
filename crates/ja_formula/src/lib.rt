//! The ends of instructions as decision diagrams.
#![tactic(auto)]

mod clause;
mod ends;
mod gather;
mod law;
mod literal;
mod places;
mod rule;
mod whole;

pub use ends::{formula, formula_thrown};
pub use law::law_parts;
