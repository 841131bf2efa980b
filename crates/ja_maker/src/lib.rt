//! Classes written as text: the writer of class files.
#![tactic(auto)]

mod class_bytes;
mod code_bytes;
mod constructor_bytes;
mod method_bytes;
mod pool_bytes;
mod pool_lists;
mod put;
mod write;

pub use ja_assembly::{law_argument_words, law_read_back, law_written};
pub use ja_listing::{
    Frame, Head, Item, Items, Listing, Listings, MakeFault, MemberName, Number, Operand,
    read_listing,
};
pub use ja_writable::check_class;
pub use write::write_class;
