//! What one instruction of a program class does: exactly one operation, or a refusal.
#![tactic(auto)]

mod call;
mod fault;
mod field;
mod law;
mod member;
mod operation;
mod refuse;
mod row;
mod shuffle;
mod site;
mod target;
mod token;

pub use call::types_of;
pub use fault::OpFault;
pub use law::{law_each_is_profiled, law_one_operation, law_operations_agree};
pub use member::MemberRef;
pub use operation::operation_of;
pub use site::{SinkCall, site_of};
