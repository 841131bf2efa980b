//! Steps of sets of facts over ends of instructions: the rule by which a relation is carried over an end, made
//! of the clauses of that end.
#![tactic(auto)]

mod case;
mod end;
mod law;
mod make;
mod masks;
mod parts;
mod places;

pub use end::End;
pub use law::{law_rules, law_sets, law_unread};
pub use make::rule_of;
