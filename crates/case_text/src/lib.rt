//! How cases are written and bytes print, for tools.
#![tactic(auto)]

mod escaped;
mod repetition;
mod shown;
mod words;

pub use escaped::unescaped;
pub use repetition::repeated;
pub use shown::ShownBytes;
pub use words::words_of;
