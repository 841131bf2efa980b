ghost use Rattle.std.specs.Prelude.{◌≡◌, ◌++◌, [], IfOk, OnOk};
ghost use Rattle.ja_ir.specs.Tokens as tokens;
ghost use Rattle.ja_ir.specs.declared.program.Parts.{Parts};
ghost use Rattle.ja_tokens.specs.Numbers.{AreNumbers};
ghost use Rattle.ja_tokens.specs.Shapes.{shape_meant};

use crate::classes::ClassNumbers;
use crate::shape::{TypeShape, array_shape};
use crate::token::{lib_token, parr_token, rarr_token, text_token};
use ja_base::{JavaType, Kind, Memory, Name, Seq};
use ja_ir::Program;
use std::alloc::Global;

// Adds the tokens that an object may have that is made new for a type of the shape.
fn add_made(p: &Program, shape: TypeShape, made: &mut Seq<u32>) -> Result<(), Memory>
    ensures { OnOk result (made.new ≡ made.old ++ tokens.made_tokens p.now (shape_meant shape)) }
{
    match shape {
        TypeShape::Class(_) => Ok(()),
        TypeShape::Primitives => made.push(parr_token(p)),
        TypeShape::References => made.push(rarr_token(p)),
        TypeShape::Strings => made.push(text_token(p)),
        TypeShape::Objects => {
            made.push(lib_token(p))?;
            made.push(parr_token(p))?;
            made.push(rarr_token(p))
        }
        TypeShape::Elsewhere => made.push(lib_token(p)),
    }
}

// The bytes before the first ';'.
fn before_semicolon(bytes: &[u8]) -> &[u8]
    ensures { result.now ≡ tokens.before_semicolon bytes.now }
{
    for i in 0..bytes.len() {
        if bytes[i] == b';' {
            return &bytes[..i];
        }
    }
    bytes
}

// Adds the tokens of all objects that are made new for an array's element of this descriptor.
fn add_element(
    alloc: Global,
    p: &Program,
    classes: &ClassNumbers,
    desc: &[u8],
    made: &mut Seq<u32>,
) -> Result<(), Memory>
    requires { AreNumbers p.now classes.now }
    ensures { OnOk result (made.new ≡ made.old ++ tokens.element_tokens p.now desc.now) }
{
    for i in 0..desc.len() {
        match desc[i] {
            b'[' => match array_shape(&desc[i + 1..]) {
                TypeShape::References => made.push(rarr_token(p))?,
                _ => return made.push(parr_token(p)),
            },
            b'L' => {
                let name = Name::of(alloc, before_semicolon(&desc[i + 1..]))?;
                return add_made(p, classes.shape_of(&name), made);
            }
            _ => return Ok(()),
        }
    }
    Ok(())
}

// Adds the tokens of the objects that are made new and put into bags for a type of this shape and name.
fn add_bagged(
    alloc: Global,
    p: &Program,
    classes: &ClassNumbers,
    name: &Name,
    made: &mut Seq<u32>,
) -> Result<(), Memory>
    requires { AreNumbers p.now classes.now }
    ensures { OnOk result (made.new ≡ made.old ++ tokens.bagged_tokens p.now name.now) }
{
    match classes.shape_of(name) {
        TypeShape::References => match name.bytes() {
            [_, element @ ..] => add_element(alloc, p, classes, element, made),
            [] => Ok(()),
        },
        TypeShape::Objects => made.push(lib_token(p)),
        _ => Ok(()),
    }
}

/// The tokens of the objects that are made new and put into bags for a type of this name.
pub fn bagged_tokens(
    alloc: Global,
    p: &Program,
    classes: &ClassNumbers,
    name: &Name,
) -> Result<Seq<u32>, Memory>
    requires { AreNumbers p.now classes.now }
    ensures { IfOk result (λ made. made ≡ tokens.bagged_tokens p.now name.now) }
{
    let mut made = Seq::new(alloc);
    add_bagged(alloc, p, classes, name, &mut made)?;
    Ok(made)
}

/// The tokens of all objects that are made new for a type, those in bags among them.
pub fn fresh_tokens(
    alloc: Global,
    p: &Program,
    classes: &ClassNumbers,
    type_: &JavaType,
) -> Result<Seq<u32>, Memory>
    requires { AreNumbers p.now classes.now }
    ensures { IfOk result (λ made. made ≡ tokens.fresh_tokens p.now type_.now) }
{
    let mut made = Seq::new(alloc);
    if type_.kind == Kind::R {
        add_made(p, classes.shape_of(&type_.name), &mut made)?;
        add_bagged(alloc, p, classes, &type_.name, &mut made)?;
    }
    Ok(made)
}
