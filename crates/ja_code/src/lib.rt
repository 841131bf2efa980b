//! Instructions of the JVM: their table, and the decoding of a method's code.
#![tactic(auto)]

mod behaviour;
mod branch;
mod bytes;
mod check;
mod code;
mod fault;
mod form;
mod handler;
mod instr;
mod law;
pub mod number;
mod opcode;
mod operand;
mod start;
mod table;

pub use behaviour::{
    Behaviour, Elements, FieldAccess, Invocation, Operands, Rearrangement, Source,
};
pub use code::{Code, decode};
pub use fault::CodeFault;
pub use form::{Entry, Form};
pub use handler::{RawHandler, RawHandlers};
pub use instr::{RawInstr, RawInstrs};
pub use law::{law_branch_targets, law_spelled_or_refused};
pub use opcode::Opcode;
