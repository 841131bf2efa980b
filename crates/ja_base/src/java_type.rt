ghost use Rattle.std.specs.Prelude.{◌≡◌};
ghost use Rattle.ja_base.specs.Kind.{words_of};

use crate::{Name, Seq};

/// What a local variable or a value on the operand stack is (JVM specification 2.11.1, 4.10.1.2).
#[derive(Clone, Copy, PartialEq, Eq, Debug)]
pub enum Kind {
    /// A primitive value of one word: boolean, byte, char, short, int or float.
    P1,
    /// A primitive value of two words: long or double.
    P2,
    /// A reference.
    R,
    /// A word that is not usable.
    T,
}

impl Kind {
    /// The words that a value of this kind takes, 1 or 2 (JVM specification 2.6.1).
    pub fn words(self) -> u32
        ensures { result ≡ words_of self }
    {
        match self {
            Kind::P1 => 1,
            Kind::P2 => 2,
            Kind::R => 1,
            Kind::T => 1,
        }
    }
}

/// A type of a field, a parameter or a result.
#[derive(Debug, Drop)]
pub struct JavaType {
    pub kind: Kind,
    /// The letter of a primitive type, the name of a class, or the whole descriptor of an array.
    pub name: Name,
}

/// A list of types.
pub type JavaTypes = Seq<JavaType>;

/// The types of a method, as its descriptor spells them (JVM specification 4.3.3).
#[derive(Debug, Drop)]
pub struct Desc {
    /// The types of the parameters, without a receiver.
    pub params: JavaTypes,
    /// The type of the result; none for `V`.
    pub result: Option<JavaType>,
    /// The words that the parameters take, without a receiver: at most 255.
    pub words: u32,
}
