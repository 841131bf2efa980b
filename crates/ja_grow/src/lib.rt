//! Makes a table of diagram nodes anew with more slots, where its roots mean what they meant.
#![tactic(auto)]

mod copies;
mod fault;
mod growth;
mod rebuilding;

pub use fault::GrowFault;
pub use rebuilding::{Rebuilt, rebuild};
