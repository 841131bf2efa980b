//! The outside of the analyser: a folder that it reads, a sink for its text, and a gate before each
//! block of a round, with stand-ins in memory and the thin edge over the real system.
#![tactic(auto)]

mod dir_folder;
mod folder;
mod gate;
mod mem_folder;
mod mem_out;
mod name_text;
mod out;
mod std_out;
mod walk;

pub use dir_folder::DirFolder;
pub use folder::{Folder, FolderFail, Piece};
pub use gate::{Gate, NoGate};
pub use mem_folder::{MemFolder, has_distinct_names};
pub use mem_out::MemOut;
pub use out::{Out, OutFault};
pub use std_out::StdOut;
pub use walk::MAX_ENTRIES;
