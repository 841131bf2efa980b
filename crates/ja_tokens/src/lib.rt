//! What tokens are: which of them fit a type, which are absorbing, which are made new for a type; and
//! where exceptions go.
#![tactic(auto)]

mod classes;
mod made;
mod place;
mod shape;
mod token;

pub use classes::ClassNumbers;
pub use made::{bagged_tokens, fresh_tokens};
pub use place::{ThrownTo, thrown_to};
pub use shape::{TypeShape, fits_shape};
pub use token::{absorbs, at_or_below, lib_token, parr_token, rarr_token, text_token};
