//! What the definitions say of small programs.
#![tactic(auto)]

mod law;

pub use law::{
    law_aliasing, law_building, law_choosing, law_elements, law_entering, law_failing,
    law_initializing, law_labelling, law_parting, law_passing, law_resting, law_runs, law_throwing,
    law_unlinking,
};
