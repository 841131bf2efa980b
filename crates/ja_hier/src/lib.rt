//! The class hierarchy of a program: what its classes may not have, and look-ups of fields and methods.
#![tactic(auto)]

mod above;
mod crossing;
mod fault;
mod field_at;
mod fields;
mod flags;
mod forks;
mod hier;
mod index;
mod law;
mod methods;
mod package;
mod skip;
mod starts;
mod tables;

pub use fault::HierFault;
pub use field_at::FieldAt;
pub use hier::{Hier, hierarchy};
pub use law::law_one_answer;
pub use starts::is_numbered;
