//! The nodes of shared decision diagrams: their words, the table machine that makes them, and its law.
#![tactic(auto)]

mod aim;
mod law;
mod path;
mod word;

pub use aim::{Aim, AnyAim};
pub use law::law_canonical;
pub use path::{first_place, next_place, path_length};
pub use word::{Node, Parts};
