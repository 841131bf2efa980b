use crate::{Op, Successors};
use ja_base::{ClassId, Desc, Name, Seq};

/// A method of a program class.
#[derive(Drop)]
pub struct Method {
    /// The class that declares it.
    pub class: ClassId,
    pub name: Name,
    pub desc: Name,
    /// The types that the descriptor spells.
    pub types: Desc,
    /// The access flags (JVM specification table 4.6-A).
    pub flags: u32,
    /// `max_locals` (JVM specification 4.7.3).
    pub locals: u32,
    /// `max_stack` (JVM specification 4.7.3).
    pub stack: u32,
    /// The instructions in the order of their offsets; none where the method has no code.
    pub code: Instrs,
    /// The exception table, in its order.
    pub handlers: Handlers,
}

/// An instruction.
#[derive(Drop)]
pub struct Instr {
    /// Its offset in the code.
    pub pc: u32,
    pub op: Op,
    /// The indices of the instructions to which its normal end may lead. Those of a branch are its
    /// target, or its default and then its cases with repeats kept, and then the instruction after
    /// it where it can go on there.
    pub next: Successors,
    /// The number of values on the stack before it, and 0 where it is not reached.
    pub height: u32,
    /// Whether some path from the first instruction leads to it.
    pub reached: bool,
}

/// An entry of an exception table, by indices of instructions (JVM specification 4.7.3).
#[derive(Drop)]
pub struct Handler {
    /// The first instruction of its range.
    pub start: u32,
    /// The first index past its range. It may be the number of instructions.
    pub end: u32,
    /// The instruction to which an exception goes that it catches.
    pub target: u32,
    pub catch: Catch,
}

/// What a handler catches.
#[derive(Clone, Copy, PartialEq, Eq)]
pub enum Catch {
    /// Everything.
    All,
    /// The objects of this program class and of those below it.
    Program(ClassId),
    /// Some objects of a library class, which is not known further.
    Library,
}

/// A list of instructions.
pub type Instrs = Seq<Instr>;

/// A list of exception table entries.
pub type Handlers = Seq<Handler>;

/// A list of methods.
pub type Methods = Seq<Method>;
