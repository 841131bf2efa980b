//! From class files to a program, and from a folder to its class files.
#![tactic(auto)]

mod answer;
mod fault;
mod law;
mod methods;
mod place;
mod program;
mod refusal;

pub use fault::LowerFault;
pub use law::{law_one_program, law_one_verdict};
pub use program::{lower, lower_in_pieces};
