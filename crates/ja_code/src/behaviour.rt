ghost use Rattle.std.specs.Prelude.{◌≡◌};
ghost use Rattle.ja_code.specs.Behaviour.{goes_on, branches};

use ja_base::Kind;

/// Which local variable an instruction uses.
#[derive(Clone, Copy, PartialEq, Eq)]
pub enum Source {
    /// The one that its operand names.
    Operand,
    /// The one that its opcode names.
    Fixed(u32),
}

/// The kinds of one or two operands; of two the first is the lower one on the stack.
#[derive(Clone, Copy, PartialEq, Eq)]
pub enum Operands {
    One(Kind),
    Two(Kind, Kind),
}

/// The instructions that move words on the stack (JVM specification 6.5).
#[derive(Clone, Copy, PartialEq, Eq)]
pub enum Rearrangement {
    Pop,
    Pop2,
    Dup,
    DupX1,
    DupX2,
    Dup2,
    Dup2X1,
    Dup2X2,
    Swap,
}

/// The instructions that read or write a field (JVM specification 6.5).
#[derive(Clone, Copy, PartialEq, Eq)]
pub enum FieldAccess {
    /// Pushes the static field.
    GetStatic,
    /// Pops into the static field.
    PutStatic,
    /// Pops an object and pushes its field.
    GetField,
    /// Pops an object and a value, and sets the field.
    PutField,
}

/// The instructions that call a method (JVM specification 6.5). But for `Static` they pop a receiver below the arguments.
#[derive(Clone, Copy, PartialEq, Eq)]
pub enum Invocation {
    Virtual,
    Special,
    Static,
    Interface,
}

/// What the elements of a new array of one dimension are (JVM specification 6.5, newarray and anewarray).
#[derive(Clone, Copy, PartialEq, Eq)]
pub enum Elements {
    Primitives,
    References,
}

/// What an opcode does with locals and stack (JVM specification 6.5).
#[derive(Clone, Copy, PartialEq, Eq)]
pub enum Behaviour {
    /// Does nothing.
    Nothing,
    /// Pushes a constant.
    Constant(Kind),
    /// Pushes the constant of one word that its pool entry holds: a number, a text or a class.
    Loaded,
    /// Pushes a local.
    Load(Kind, Source),
    /// Pops into a local.
    Store(Kind, Source),
    /// Adds a constant to an int local.
    Increment,
    /// Pops an array and an index, and pushes the element.
    ArrayLoad(Kind),
    /// Pops an array, an index and a value, and sets the element.
    ArrayStore(Kind),
    /// Moves words.
    Rearrange(Rearrangement),
    /// Pops primitive operands and pushes a primitive result; an integer division may throw.
    Compute {
        operands: Operands,
        result: Kind,
        throws: bool,
    },
    /// Pops operands, and goes to its target or on to the next instruction.
    Test(Operands),
    /// Goes to its target.
    Jump,
    /// Pops an int, and goes to one of its targets.
    Switch,
    /// Ends the method, with a value where there is a kind.
    Return(Option<Kind>),
    /// Reads or writes the field that its pool entry names.
    Access(FieldAccess),
    /// Pops the arguments of the method that its pool entry names, and pushes its result.
    Invoke(Invocation),
    /// Pushes a new object.
    New,
    /// Pops a length and pushes a new array.
    NewArray(Elements),
    /// Pops as many lengths as its operand says and pushes a new array.
    NewArrays,
    /// Pops an array and pushes its length.
    ArrayLength,
    /// Throws what it pops.
    Throw,
    /// Keeps a reference.
    Cast,
    /// Pops a reference and pushes a truth value.
    InstanceOf,
    /// Pops the object whose monitor is entered or left.
    Monitor,
}

impl Behaviour {
    /// Whether the next instruction in the code may come after one.
    pub fn goes_on(self) -> bool
        ensures { result ≡ goes_on self }
    {
        match self {
            Behaviour::Jump => false,
            Behaviour::Switch => false,
            Behaviour::Return(_) => false,
            Behaviour::Throw => false,
            _ => true,
        }
    }

    /// Whether the operands of an instruction are places where it may go.
    pub fn branches(self) -> bool
        ensures { result ≡ branches self }
    {
        match self {
            Behaviour::Test(_) => true,
            Behaviour::Jump => true,
            Behaviour::Switch => true,
            _ => false,
        }
    }
}
