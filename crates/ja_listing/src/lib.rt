//! Classes written as text: the reader of listings.
#![tactic(auto)]

mod draft;
mod fault;
mod glyph;
mod item;
mod line;
mod listing;
mod number;
mod operand;
mod read;
mod scope;
mod word;

pub use fault::MakeFault;
pub use item::{Frame, Head, Item, Items, Line, MemberName, Operand};
pub use listing::{Listing, Listings};
pub use number::Number;
pub use read::read_listing;
