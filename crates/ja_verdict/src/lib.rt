//! The texts that a run writes: reports, the lines of refusals and of wrong words, and how names and numbers print.
#![tactic(auto)]

mod fields;
mod lines;
mod print;
mod refusal;
mod reports;
mod site;

pub use lines::{full_line, usage_lines};
pub use print::{push_name, push_number, push_text};
pub use refusal::refusal_line;
pub use reports::{report, status, total_report};
pub use site::line_of;
