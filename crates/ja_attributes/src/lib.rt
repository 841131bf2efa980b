//! Attributes of fields, methods and code, read exactly by their grammar.
#![tactic(auto)]

mod attribute;
mod code;
mod fault;
mod field;
mod law;
mod method;
mod number;
mod skip;

pub use code::MethodCode;
pub use fault::AttributeFault;
pub use field::field_attributes;
pub use law::{law_any_attributes, law_field_attributes, law_method_attributes};
pub use method::method_attributes;
pub use skip::skip_attributes;
