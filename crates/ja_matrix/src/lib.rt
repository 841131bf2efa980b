//! Tables of truth values in machine words, whose rows are joined a word at a time.
#![tactic(auto)]

mod matrix;
mod words;

pub use matrix::Matrix;
