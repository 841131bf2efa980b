//! From a folder to the program that its files spell, or to the first reason for which it is refused.
#![tactic(auto)]

mod fault;
mod judged;
mod judgement;
mod judging;
mod names;
mod reading;
mod refusal;

pub use fault::ReadingFault;
pub use judgement::{Judgement, judge_folder};
