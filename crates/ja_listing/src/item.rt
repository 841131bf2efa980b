use crate::Number;
use ja_base::{Name, Seq};
use ja_code::Opcode;

/// The name of a field or a method of a class.
#[derive(Drop)]
pub struct MemberName {
    pub class: Name,
    pub name: Name,
    pub desc: Name,
}

/// What an instruction of a listing works on.
#[derive(Drop)]
pub enum Operand {
    /// No operand.
    Nothing,
    /// A constant, a local variable or the type of an array's elements.
    Constant(Number),
    /// A local variable and the constant that is added to it.
    LocalAndConstant(Number, Number),
    /// The label of an instruction.
    Label(Name),
    /// A quoted text.
    Quotation(Name),
    ClassName(Name),
    FieldName(MemberName),
    MethodName(MemberName),
    /// The type of an array, and how many of its dimensions are made.
    ArrayName(Name, Number),
}

/// What a listing says of a class as a whole.
#[derive(Drop)]
pub struct Head {
    pub name: Name,
    pub superclass: Name,
    pub flags: Number,
}

/// The most words on a method's stack, and the number of its locals (JVM specification 4.7.3).
#[derive(Clone, Copy)]
pub struct Frame {
    pub stack: Number,
    pub locals: Number,
}

/// An item of a class.
#[derive(Drop)]
pub enum Item {
    Field {
        flags: Number,
        name: Name,
        desc: Name,
    },
    /// The beginning of a method, with a frame where it has code by its flags.
    Method {
        flags: Number,
        name: Name,
        desc: Name,
        frame: Option<Frame>,
    },
    /// `$I`, the constructor that only calls that of the superclass.
    Initializer,
    /// An entry of the exception table: the labels of the first instruction of its range, of the first behind
    /// it and of the handler, and the class that is caught, if not any.
    Try {
        start: Name,
        end: Name,
        handler: Name,
        catch: Option<Name>,
    },
    Instruction {
        label: Option<Name>,
        opcode: Opcode,
        operand: Operand,
    },
}

/// A list of items.
pub type Items = Seq<Item>;

/// An item of a listing: it begins a class, or belongs to one.
#[derive(Drop)]
pub enum Line {
    Class(Head),
    Item(Item),
}
