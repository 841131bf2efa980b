ghost use Rattle.std.specs.Prelude.{◌≡◌};
ghost use Rattle.ja_ir.specs.Tokens as tokens;
ghost use Rattle.ja_tokens.specs.Shapes.{shape_meant};

use crate::token::{at_or_below, lib_token, parr_token, rarr_token, text_token};
use ja_ir::Program;

/// What a reference type is.
#[derive(Clone, Copy)]
pub enum TypeShape {
    /// A program class, by its number.
    Class(u32),
    /// An array of primitives.
    Primitives,
    /// Another array.
    References,
    /// `java/lang/String`.
    Strings,
    /// `java/lang/Object`.
    Objects,
    /// Another library class.
    Elsewhere,
}

/// Whether objects of the token fit a type of the shape.
pub fn fits_shape(p: &Program, token: u32, shape: TypeShape) -> bool
    ensures { result ≡ tokens.fits_shape p.now token (shape_meant shape) }
{
    match shape {
        TypeShape::Class(class) => at_or_below(p, token, class),
        TypeShape::Primitives => token == parr_token(p),
        TypeShape::References => token == rarr_token(p),
        TypeShape::Strings => token == text_token(p) || token == lib_token(p),
        TypeShape::Objects => true,
        TypeShape::Elsewhere => true,
    }
}

/// The shape of an array of elements of this descriptor.
pub fn array_shape(element: &[u8]) -> TypeShape
    ensures { shape_meant result ≡ tokens.array_shape element.now }
{
    match element {
        [b'B' | b'C' | b'F' | b'I' | b'S' | b'Z' | b'D' | b'J'] => TypeShape::Primitives,
        _ => TypeShape::References,
    }
}

/// The shape of a library class.
pub fn class_shape(name: &[u8]) -> TypeShape
    ensures { shape_meant result ≡ tokens.class_shape name.now }
{
    if name == b"java/lang/String".as_slice() {
        TypeShape::Strings
    } else if name == b"java/lang/Object".as_slice() {
        TypeShape::Objects
    } else {
        TypeShape::Elsewhere
    }
}
