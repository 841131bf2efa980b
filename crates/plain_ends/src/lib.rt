//! What the ends of instructions make of truths on tiny frames: the definitions run as they are written,
//! one pair of assignments after the other.
//!
//! It is what faster ways are compared with.
#![tactic(auto)]

mod call;
mod copying;
mod flowing;
mod frame;
mod normal;
mod point;
mod relation;
mod thrown;

pub use call::{Call, Summary, is_call_thrown, is_return};
pub use copying::{pops, pushes};
pub use frame::{Frame, Slot, Truth};
pub use normal::is_normal_end;
pub use point::{Known, Point};
pub use relation::{Relation, normal_ends, returns, thrown_ends};
pub use thrown::is_exceptional_end;
