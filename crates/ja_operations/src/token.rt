ghost use Rattle.std.specs.Prelude.{◌≡◌, ◌≤◌, ◌<◌, ◌^◌, length, drop};
ghost use Rattle.ja_ir.specs.Tokens.{array_shape};
ghost use Rattle.ja_operations.specs.Tokens.{library_token, references_token, primitives_token, token_of_class, token_of_array, token_of_innermost, is_primitive, is_primitive_letter};
ghost use Rattle.ja_base.specs.Limit.{max_numbered};

use ja_base::Name;
use ja_code::Elements;
use ja_hier::Hier;
use ja_ir::Token;

/// The number of program classes.
fn class_count(hier: &Hier) -> u32
    requires { length hier.now ≤ max_numbered }
    ensures { result ≡ length hier.now }
{
    hier.heads().len() as u32
}

/// The token of library objects.
pub(crate) fn library_token(hier: &Hier) -> Token
    requires { length hier.now ≤ max_numbered }
    ensures { result ≡ library_token hier.now }
{
    Token(class_count(hier) + 1)
}

/// The token of arrays of references.
fn references_token(hier: &Hier) -> Token
    requires { length hier.now ≤ max_numbered }
    ensures { result ≡ references_token hier.now }
{
    Token(class_count(hier) + 2)
}

/// The token of arrays of primitives.
fn primitives_token(hier: &Hier) -> Token
    requires { length hier.now ≤ max_numbered }
    ensures { result ≡ primitives_token hier.now }
{
    Token(class_count(hier) + 3)
}

/// The token of new objects of the class of a name.
pub(crate) fn token_of_class(hier: &Hier, name: &Name) -> Token
    requires { length hier.now ≤ max_numbered }
    ensures { result ≡ token_of_class hier.now name.now }
{
    match hier.class_named(name) {
        Some(class) => Token(class.0),
        None => library_token(hier),
    }
}

/// The token of new arrays of one dimension.
pub(crate) fn token_of_array(hier: &Hier, elements: Elements) -> Token
    requires { length hier.now ≤ max_numbered }
    ensures { result ≡ token_of_array hier.now elements }
{
    match elements {
        Elements::Primitives => primitives_token(hier),
        Elements::References => references_token(hier),
    }
}

/// Whether a byte is the letter of a primitive type (JVM specification 4.3.2).
fn is_primitive_letter(byte: u8) -> bool
    ensures { result ≡ is_primitive_letter byte }
{
    match byte {
        b'B' | b'C' | b'F' | b'I' | b'S' | b'Z' | b'D' | b'J' => true,
        _ => false,
    }
}

/// Whether elements of this descriptor are primitive.
fn is_primitive(element: &[u8]) -> bool
    ensures { result ≡ is_primitive element.now }
{
    match element {
        [byte] => is_primitive_letter(*byte),
        _ => false,
    }
}

/// The token of the innermost arrays that `multianewarray` makes of an array class.
pub(crate) fn token_of_innermost(hier: &Hier, name: &[u8], dimensions: u32) -> Token
    requires { length hier.now ≤ max_numbered }
    ensures { result ≡ token_of_innermost hier.now name.now dimensions }
{
    let (_, element) = name.split_at(name.len().min(dimensions as usize));
    if is_primitive(element) {
        primitives_token(hier)
    } else {
        references_token(hier)
    }
}
