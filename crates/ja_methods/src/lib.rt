//! The methods of program classes: what each instruction does and where it leads, handlers and sink
//! calls, or why a method is refused.
#![tactic(auto)]

mod fault;
mod handler;
mod instr;
mod law;
mod method;
mod next;
mod place;
mod site;

pub use fault::MethodFault;
pub use law::{law_one_method, law_sites_name_calls, law_whole_method};
pub use method::{Lowered, lower_method};
pub use site::{MethodSite, MethodSites};
