//! The frames of a program's methods, with an order of the variables of each.
#![tactic(auto)]

mod make;

pub use make::{frame_of, frames_of};
