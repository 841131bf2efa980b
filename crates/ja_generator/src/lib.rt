//! Classes that are made by number, so that a user sees the analyser at work without a folder.
#![tactic(auto)]

mod body;
mod class;
mod drawn;
mod files;
mod items;
mod law;

pub use files::generated;
pub use law::{law_names_ascend, law_writable};
