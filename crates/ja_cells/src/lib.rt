//! Which cell of a network has the tokens of which slot of which instruction.
#![tactic(auto)]

mod joins;
mod made;
mod names;
mod row;

pub use made::{is_made, outer_token};
pub use names::{CellRow, CellRows, Names, names_of};
pub use row::{cell_in, next_row};
