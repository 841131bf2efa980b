//! Which listed classes can be written, and what their constant pools are to have.
#![tactic(auto)]

mod ask;
mod flaw;
mod judge_class;
mod judge_item;
mod judge_operand;
mod judge_text;
mod place;
mod wants;

pub use judge_class::{check_class, judge};
pub use wants::Wants;
