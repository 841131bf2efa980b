//! The program that is analysed: its classes, methods and fields, what each instruction does, the
//! methods that the environment may call, and the sink calls.
#![tactic(auto)]

mod block;
mod class;
mod copy;
mod entry;
mod flags;
mod head;
mod initializing;
mod law;
mod method;
mod op;
mod program;
mod project;
mod row;
mod stack;
mod successors;

pub use block::{Block, Blocks, blocks_of};
pub use class::{
    ClassIds, ClassInfo, ClassInfos, Field, FieldIds, Fields, MethodAt, MethodIds, Selection,
    Selections,
};
pub use entry::{Entries, Entry, Site, Sites};
pub use flags::{is_abstract, is_interface, is_static};
pub use head::{ClassHead, HeadField, HeadFields, HeadMethod, HeadMethods};
pub use law::{law_environment_methods, law_sample_is_whole, law_small_program};
pub use method::{Catch, Handler, Handlers, Instr, Instrs, Method, Methods};
pub use op::{CallKind, CallOp, Op, Token};
pub use program::{Parts, Program};
pub use row::{LibRow, RowEffect, RowFlow, RowResult};
pub use stack::{arguments, has_receiver, is_dispatched, pops, pushes};
pub use successors::Successors;
