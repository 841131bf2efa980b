//! The class file that a listed class stands for, and which listed classes have one.
#![tactic(auto)]

mod argument;
mod key;
mod labels;
mod law;
mod law_code;
mod law_items;
mod law_pool;
mod law_read;
mod member;

pub use argument::argument_words;
pub use key::Key;
pub use labels::{labels_of, parted, place_behind, size_of};
pub use law::{law_argument_words, law_written};
pub use law_read::law_read_back;
pub use member::{constructor_of, method_tag};
