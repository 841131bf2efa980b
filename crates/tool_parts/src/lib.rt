//! What the tools share: programs and refusals as text, the words of a call and the files of a directory, the
//! classes of a folder, and the class files that a listing makes.
#![tactic(auto)]

mod class_folder;
mod few;
mod files;
mod listing_files;
mod program_text;

pub use class_folder::ClassFolder;
pub use files::{files_in, folders_in, words_of};
pub use listing_files::{ListingFault, class_files};
pub use program_text::{text_of, text_of_refusal};
