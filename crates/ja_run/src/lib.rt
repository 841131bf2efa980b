//! The analyser as one call, `run`, over a folder and a sink that its caller gives.
#![tactic(auto)]

mod analyse;
mod answer;
mod report;
mod status;
mod text;
mod words;
mod writing;

pub use analyse::run;
pub use status::Status;
