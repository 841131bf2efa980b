//! What the ends of instructions say of each slot, as data, and the aim of the analyser's own node
//! tables: the functions that a program's equations are made of.
#![tactic(auto)]

mod clause;
mod frame;
mod law;
mod way;
mod work;

pub use clause::{Clause, Spot};
pub use frame::{Frame, Frames};
pub use law::{law_ends, law_frames, law_no_work, law_outside, law_summaries, law_tests, law_work};
pub use way::Way;
pub use work::Work;
