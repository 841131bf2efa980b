use crate::{LibRow, MethodAt};
use ja_base::{FieldId, JavaType, JavaTypes, Kind, Name, Numbers};

/// What kind of object an object is: the number of its program class or, with C program classes,
/// C for a text, C + 1 for a library object, C + 2 for an array of references and C + 3 for an array
/// of primitives.
#[derive(Clone, Copy, PartialEq, Eq)]
pub struct Token(pub u32);

/// What an instruction does: one of 23 operations.
#[derive(Drop)]
pub enum Op {
    /// Does nothing.
    Nop,
    /// Pushes null, or a primitive constant.
    Const(Kind),
    /// Pushes a new text.
    Text,
    /// Pushes a new object.
    New(Token),
    /// Pushes a local.
    Load(Kind, u32),
    /// Pops into a local.
    Store(Kind, u32),
    /// Pops an index and an array, and pushes the element.
    ArrLoad(Kind),
    /// Pops a value, an index and an array, and sets the element.
    ArrStore(Kind),
    /// Pops this number of values and pushes some of them again. A value is named by its place
    /// among those that were popped, from 0, the lowest first; they are pushed in this order.
    Shuffle {
        pops: u32,
        pushes: Numbers,
    },
    /// Pops this number of primitive values and pushes a primitive value that depends on them all.
    Mix {
        pops: u32,
        result: Kind,
        throws: bool,
    },
    /// Pops this number of values and goes to one of the next instructions.
    Branch {
        pops: u32,
    },
    /// Ends the method, with the topmost value where there is a kind.
    Return(Option<Kind>),
    GetStatic(FieldId),
    PutStatic(FieldId),
    GetField(FieldId),
    PutField(FieldId),
    /// Calls a method, or reads or writes a library field.
    Call(CallOp),
    /// Pops a length for each dimension and pushes an array whose elements are arrays, and so on
    /// for this number of dimensions. `last` is the token of the innermost array; each other array
    /// is an array of references.
    NewArray {
        last: Token,
        dimensions: u32,
    },
    /// Pops an array and pushes its length.
    ArrLen,
    /// Throws the topmost value.
    Throw,
    /// Keeps the topmost value where it is null or of this type, and throws where it is not; it may
    /// throw where the value is of the type too. The type is the name of a class, or the whole
    /// descriptor of an array.
    Cast(Name),
    /// Pops a reference and pushes a truth value.
    InstanceOf,
    /// Pops the object whose monitor is entered or left.
    Monitor,
}

/// A call as its instruction spells it.
#[derive(Drop)]
pub struct CallOp {
    pub kind: CallKind,
    /// The class or array class that the instruction names.
    pub class: Name,
    pub name: Name,
    pub desc: Name,
    /// The types of the arguments, without the receiver.
    pub params: JavaTypes,
    /// The type of the result; none where there is none.
    pub result: Option<JavaType>,
    /// What the call does where it goes to the library.
    pub row: LibRow,
    /// What a static or special call finds, and nothing for the other kinds.
    pub found: Option<MethodAt>,
}

/// How a call chooses its target (JVM specification 6.5).
#[derive(Clone, Copy, PartialEq, Eq)]
pub enum CallKind {
    Virtual,
    Special,
    Static,
    Interface,
    /// A read of a static library field. It has no receiver.
    StaticField,
    /// A read or a write of another library field. A write has one argument.
    MemberField,
}
