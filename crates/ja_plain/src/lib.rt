//! The taint of a program's values by plain definitions, and the plain solver of its equations.
#![tactic(auto)]

mod first;
mod law;
mod truths;

pub use first::solve_first;
pub use law::{law_events_are_warned, law_examples, law_facts_cover, law_taint_tests};
