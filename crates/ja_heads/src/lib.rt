//! The parts of a program that follow from the heads of its classes and from the table: what it says of
//! each class, its fields, and the methods that the environment may call.
#![tactic(auto)]

mod class_info;
mod entering;
mod entry;
mod field;
mod initializer;
mod law;
mod selection;
mod signature;
mod supers;

pub use class_info::class_infos;
pub use entry::entries;
pub use field::fields;
pub use law::law_one_heads;
pub use signature::Signature;
