//! How the names of a method are numbered, and what a call takes: what the solvers of pairs, effects and
//! reachability share.
#![tactic(auto)]

mod frame;

pub use frame::{Frame, frame_of};
