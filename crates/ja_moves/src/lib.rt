//! How the pairs of names before a step become pairs after it, a row at a time.
#![tactic(auto)]

mod marks;
mod rows;
mod steps;
mod wide;

pub use marks::{mark, meet};
pub use rows::{gather, take};
pub use steps::{Move, carry};
pub use wide::widen;
