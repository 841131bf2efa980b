//! The words of a call of the program. Reading them takes no memory.
#![tactic(auto)]

mod command;
mod law;
mod number;
mod options;

pub use command::{Command, command_of};
pub use law::law_one_command;
