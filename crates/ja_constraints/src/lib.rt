//! What a network is told of class sets: for each event, and at first, a list of constraints.
#![tactic(auto)]

mod call;
mod constraint;
mod event;
mod flow;
mod library;
mod operation;
mod place;
mod start;

pub use call::{add_calls, add_calls_abstract, add_calls_library};
pub use constraint::{Constraint, Constraints, add_copy, add_link, add_reach, add_token};
pub use event::add_follows;
pub use library::has_reference;
pub use place::{argument_cell, instr_of, method_of, row_at};
pub use start::add_starts;
