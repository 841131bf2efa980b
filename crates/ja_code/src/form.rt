ghost use Rattle.std.specs.Prelude.{◌≡◌, ◌≤◌, Some};
ghost use Rattle.ja_code.specs.Grammar.{is_branch};
ghost use Rattle.ja_code.specs.Faults.{front_size};

use crate::bytes::gap;

/// What an index of an instruction must name in the constant pool (JVM specification 4.4 and 6.5).
#[derive(Clone, Copy, PartialEq, Eq)]
pub enum Entry {
    /// What `ldc` and `ldc_w` load: an int, a float, a string or a class.
    Loadable,
    /// What `ldc2_w` loads: a long or a double.
    TwoWord,
    /// A field.
    Field,
    /// A method of a class.
    Method,
    /// A method of an interface.
    InterfaceMethod,
    /// A method of a class or of an interface.
    AnyMethod,
    /// A class, an interface or an array type.
    Class,
}

/// The operands that an opcode takes (JVM specification 6.5), in the order of their bytes.
#[derive(Clone, Copy, PartialEq, Eq)]
pub enum Form {
    /// No operand.
    Plain,
    /// A constant of one byte.
    Byte,
    /// A constant of two bytes.
    Short,
    /// A local variable: one byte, and two behind `wide`.
    Local,
    /// A local variable and a constant, each of one byte, and of two behind `wide`.
    Increment,
    /// A pool index of one byte, which names what `ldc` loads.
    ByteIndex,
    /// A pool index of two bytes.
    Index(Entry),
    /// A pool index of two bytes, which names a method of an interface, and two bytes more.
    Interface,
    /// A pool index of two bytes, which names a dynamic call, and two bytes more.
    Dynamic,
    /// The element type of an array of a primitive type, in one byte.
    ArrayType,
    /// A pool index of two bytes, which names an array type, and a number of dimensions in one byte.
    Dimensions,
    /// An offset of two bytes.
    Branch,
    /// An offset of four bytes.
    FarBranch,
    /// The operands of `tableswitch`.
    TableSwitch,
    /// The operands of `lookupswitch`.
    LookupSwitch,
    /// The opcode that is widened, and its operands.
    Wide,
}

impl Form {
    /// The number of bytes of an instruction at `pc` that its form alone asks for: of a switch those before its table, and
    /// of `wide` both opcodes.
    pub fn front_len(self, pc: u32) -> usize
        ensures size { result ≡ front_size self pc }
        ensures most { result ≤ 16 }
    {
        match self {
            Form::Plain => 1,
            Form::Byte | Form::Local | Form::ByteIndex | Form::ArrayType | Form::Wide => 2,
            Form::Short | Form::Increment | Form::Index(_) | Form::Branch => 3,
            Form::Dimensions => 4,
            Form::Interface | Form::Dynamic | Form::FarBranch => 5,
            Form::TableSwitch => gap(pc) + 13,
            Form::LookupSwitch => gap(pc) + 9,
        }
    }

    /// Whether the operands are places where the instruction may go.
    pub fn is_branch(self) -> bool
        ensures { result ≡ is_branch (Some self) }
    {
        matches!(
            self,
            Form::Branch | Form::FarBranch | Form::TableSwitch | Form::LookupSwitch
        )
    }
}
