//! Class files of the JVM specification, read exactly by their grammar.
#![tactic(auto)]

mod class;
mod class_file;
mod descriptor;
mod fault;
mod field;
mod first;
mod head;
mod law;
mod member;
mod method;
mod number;

pub use class::{Class, ClassMethod, ClassMethods};
pub use class_file::read_class;
pub use fault::ClassFault;
pub use first::{
    FirstCode, FirstFault, FirstInstr, FirstMethod, FirstOp, first_form_is_one, read_first,
};
pub use law::law_spelled_or_refused;
