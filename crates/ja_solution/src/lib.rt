//! What the cells of a solver say of a program, and when they mean the least solution of its equations of taint.
#![tactic(auto)]

mod cells;
mod given;
mod law;
mod state;

pub use cells::{CellName, Cells, Counts};
pub use given::Given;
pub use law::{law_closed, law_covered, law_settled, law_solved, law_stays_settled};
pub use state::{State, first_state, next_dirty, raise, settle, store, warn};
