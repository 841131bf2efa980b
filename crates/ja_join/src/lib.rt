//! Compositions of relations over the copies of a method's variables, what is left of some copies, steps:
//! what an end of an instruction makes of a set of facts, in one pass over its diagram, also together with
//! a callee's summary; and searches in relations.
#![tactic(auto)]

mod compose;
mod law;
mod memo;
mod pass;
mod rule;
mod seek;

pub use compose::{after, looks_in, project};
pub use ja_bdd::Copies;
pub use law::{law_composed, law_step, law_told};
pub use memo::Memo;
pub use pass::{step, step_with};
pub use rule::{Masks, Move, Rule, States};
pub use seek::holds_with;
