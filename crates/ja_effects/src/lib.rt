//! What each method may change of what it was given.
#![tactic(auto)]

mod calls;
mod direct;
mod enter;
mod library;
mod marks;
mod solve;

pub use solve::effects;
