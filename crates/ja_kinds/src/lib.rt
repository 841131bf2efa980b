//! What the locals and the values on the stack are before each instruction of a method.
#![tactic(auto)]

mod answer;
mod effect;
mod entry;
mod fault;
mod frame;
mod judge;
mod known;
mod law;
mod locals;
mod merge;
mod method;
mod pool_kinds;
mod reading;
mod solve;
mod stack;
mod state;
mod step;
mod sweep;

pub use answer::kinds;
pub use effect::Effect;
pub use fault::KindFault;
pub use frame::Frame;
pub use known::Kinds;
pub use law::{law_each_has_an_effect, law_moves, law_one_answer, law_one_effect, law_reached};
pub use pool_kinds::tag_named;
pub use state::{KindList, KindState, State};
