//! The classes of a program by their names, and their supertypes: what lies above each class in the
//! program, and by which library classes it is known.
#![tactic(auto)]

mod classes;
mod closure;
mod copy;
mod cycle;
mod direct;
mod fault;
mod foreign;
mod gather;
mod law;
mod library;
mod make;
mod names;
mod superclasses;
mod tables;

pub use classes::{Classes, classes_of};
pub use copy::copy_head;
pub use fault::ClassFault;
pub use law::law_one_list;
