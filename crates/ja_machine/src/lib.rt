//! The marked machine: what a run of a program is, with marks on the data that must not reach a
//! sink, and which values of a heap are tainted.
#![tactic(auto)]

mod heap;
mod law;
mod reach;

pub use heap::{FieldValue, FieldValues, Heap, Object, Value};
pub use law::{
    law_heaps_grow, law_longer_runs_extend, law_objects_have_their_fields, law_operations,
    law_program_runs_go_on, law_reaching_is_transitive, law_runs_go_on, law_sets_of_categories,
    law_small_programs, law_tests_answer, law_unwritten_stays,
};
pub use reach::{reaches, tainted};
