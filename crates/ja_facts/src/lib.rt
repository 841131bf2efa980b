//! What the analyses compute, as definitions, and the types of their results.
#![tactic(auto)]

mod build;
mod classes;
mod effects;
mod facts;
mod flat;
mod graph;
mod holds;
mod law;
mod pairs;
mod params;
mod rows;
mod targets;

pub use classes::ClassSets;
pub use effects::Effects;
pub use facts::{Facts, var_of};
pub use flat::FlatRows;
pub use graph::CallGraph;
pub use holds::Holds;
pub use law::{
    law_empty_heaps_tell_nothing, law_empty_tells_nothing, law_example, law_joint_is_fixed,
    law_least_is_below, law_least_is_solution, law_load_moves, law_more_positions_lose_nothing,
    law_name_prints, law_nothing_warns, law_report_without_sites, law_rounds_add,
    law_tables_tell_kept,
};
pub use pairs::{Pairs, Reach};
pub use params::param_count;
pub use rows::Rows;
pub use targets::Targets;
