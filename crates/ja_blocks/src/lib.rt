//! What the solver of taint asks of a program in each round, made once: its blocks in order, and which of them read what.
#![tactic(auto)]

mod blocks;
mod holders;
mod layout;
mod note;
mod readers;

pub use blocks::{ProgramBlock, ProgramBlocks};
pub use layout::{Layout, layout_of};
