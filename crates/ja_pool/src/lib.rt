//! The constant pool of a class file, read exactly by its grammar.
#![tactic(auto)]

mod check;
mod constant;
mod entry;
mod fault;
mod law;
mod look;
mod payload;
mod pool;
mod read;
mod shape;
mod slot;

pub use constant::{Constant, Member};
pub use fault::PoolFault;
pub use law::law_one_reading;
pub use pool::Pool;
pub use read::read_pool;
