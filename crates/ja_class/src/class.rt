use ja_base::Seq;
use ja_code::Code;
use ja_ir::ClassHead;
use ja_pool::Pool;
use std::marker::Model;

/// The code of a method and the size of its frame (JVM specification 4.7.3).
#[derive(Drop)]
pub struct ClassMethod {
    /// None where the method has no code; then both numbers are 0.
    pub code: Option<Code>,
    /// The depth of the operand stack.
    pub max_stack: u32,
    /// The number of local variables.
    pub max_locals: u32,
}

/// A list of methods.
pub type ClassMethods = Seq<ClassMethod>;

/// A class that some bytes of the profile spell.
#[derive(Drop)]
pub struct Class {
    pub head: ClassHead,
    pub pool: Pool,
    /// In the order of the head's methods.
    pub methods: ClassMethods,
}

impl Model for Class {
    ghost use Rattle.ja_class.specs.Meaning.{ClassSpelled};
    ghost use Rattle.ja_class.specs.ClassFile.{IsSpelled};

    ghost Value = { ClassSpelled };

    ghost view = { λ class. record { head = class.head; pool = class.pool; methods = class.methods } };

    ghost invariant = { λ class. IsSpelled (record { head = class.head; pool = class.pool; methods = class.methods }) };
}
