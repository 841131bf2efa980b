ghost use Rattle.std.specs.Prelude.{◌≡◌, ◌++◌, ◌<◌, ◌^◌, OnOk};
ghost use Rattle.ja_ir.specs.Operations as operations;
ghost use Rattle.ja_ir.specs.Tokens as tokens;
ghost use Rattle.ja_tokens.specs.Numbers.{AreNumbers};
ghost use Rattle.ja_tokens.specs.Shapes.{shape_meant};
ghost use Rattle.ja_constraints.specs.LibraryCalls as library;
ghost use Rattle.ja_constraints.specs.Places.{HasFew};

use crate::constraint::{Constraints, add_link, add_throws_library, add_token};
use crate::place::argument_cell;
use ja_base::{JavaType, Kind, Memory, Name};
use ja_ir::{CallKind, CallOp, Op, Program, RowEffect, RowResult, arguments, has_receiver};
use ja_network::{Action, Cell};
use ja_tokens::{ClassNumbers, TypeShape, bagged_tokens, fits_shape, fresh_tokens, rarr_token};
use std::alloc::Global;

// Whether an argument is one of those whose objects a call may change.
fn is_source(kind: CallKind, k: u32, effect: RowEffect) -> bool
    ensures { result ≡ library.is_source kind k effect }
{
    match effect {
        RowEffect::Quiet => false,
        RowEffect::Absorb => has_receiver(kind) && k == 0,
        RowEffect::Blend => true,
    }
}

// Adds that an argument, which is in a cell, leads to takers, if it is a source.
fn add_source(
    told: &mut Constraints,
    method: u32,
    index: u32,
    k: u32,
    from: Cell,
    call: &CallOp,
) -> Result<(), Memory>
    ensures { OnOk result (told.new ≡ told.old ++ library.source method index k from call.now) }
{
    if is_source(call.kind, k, call.row.effect) {
        add_link(told, from, Action::Source { method, index })
    } else {
        Ok(())
    }
}

// Adds how a result comes from an argument, which is in a cell.
fn add_answer_from(
    told: &mut Constraints,
    method: u32,
    index: u32,
    k: u32,
    from: Cell,
    form: RowResult,
) -> Result<(), Memory>
    ensures { OnOk result (told.new ≡ told.old ++ library.answers_from method index k from form) }
{
    match form {
        RowResult::Fresh => Ok(()),
        RowResult::Argument => {
            if k == 0 {
                add_link(told, from, Action::Return { method, index })
            } else {
                Ok(())
            }
        }
        RowResult::Member => {
            if k == 0 {
                add_link(told, from, Action::Lead { method, index })
            } else {
                Ok(())
            }
        }
        RowResult::Any => add_link(told, from, Action::Lead { method, index }),
    }
}

// Whether a kind is that of references.
fn is_reference(kind: Kind) -> bool
    ensures { result ≡ library.is_reference kind }
{
    match kind {
        Kind::R => true,
        _ => false,
    }
}

// Whether a result, if there is one, is a reference.
pub fn has_reference(type_: &Option<JavaType>) -> bool
    ensures { result ≡ library.has_reference type_.now }
{
    match type_ {
        Some(type_) => is_reference(type_.kind),
        None => false,
    }
}

// Adds how the result comes from an argument, which is in a cell.
fn add_result_from(
    told: &mut Constraints,
    m: u32,
    i: u32,
    k: u32,
    from: Cell,
    call: &CallOp,
) -> Result<(), Memory>
    ensures { OnOk result (told.new ≡ told.old ++ library.result_from m i k from call.now) }
{
    if has_reference(&call.result) {
        add_answer_from(told, m, i, k, from, call.row.result)
    } else {
        Ok(())
    }
}

// Adds what an argument, which is in a cell, does in a call of the library.
fn add_argument(
    told: &mut Constraints,
    m: u32,
    i: u32,
    k: u32,
    from: Cell,
    call: &CallOp,
) -> Result<(), Memory>
    ensures { OnOk result (told.new ≡ told.old ++ library.argument_does m i k from call.now) }
{
    add_source(told, m, i, k, from, call)?;
    add_result_from(told, m, i, k, from, call)
}

// Adds what all arguments do in a call of the library.
fn add_arguments(
    told: &mut Constraints,
    m: u32,
    i: u32,
    row: &[Cell],
    locals: u32,
    height: u32,
    call: &CallOp,
) -> Result<(), Memory>
    requires { operations.arguments call.now < 2 ^ 32 }
    ensures { OnOk result (told.new ≡ told.old ++ library.arguments_do m i row.now locals height call.now) }
{
    let count = arguments(call) as u32;
    for k in 0..count {
        let from = argument_cell(row, locals, height, call, k);
        add_argument(told, m, i, k, from, call)?;
    }
    Ok(())
}

// Adds that a call answers a token, where it fits a type of the shape.
fn add_fitting(
    told: &mut Constraints,
    p: &Program,
    method: u32,
    index: u32,
    shape: TypeShape,
    token: u32,
) -> Result<(), Memory>
    ensures { OnOk result (told.new ≡ told.old ++ library.answers_shape p.now method index (shape_meant shape) token) }
{
    if fits_shape(p, token, shape) {
        add_token(told, Cell::Pushed { method, index }, token)
    } else {
        Ok(())
    }
}

// Adds that a call answers those of the tokens that fit the type of a name.
fn add_each_fitting(
    told: &mut Constraints,
    p: &Program,
    classes: &ClassNumbers,
    m: u32,
    i: u32,
    name: &Name,
    made: &[u32],
) -> Result<(), Memory>
    requires { AreNumbers p.now classes.now }
    ensures { OnOk result (told.new ≡ told.old ++ library.answers_each p.now m i name.now made.now) }
{
    let shape = classes.shape_of(name);
    for token in made {
        add_fitting(told, p, m, i, shape, *token)?;
    }
    Ok(())
}

// Adds that arrays of references have these tokens in their bags.
fn add_fills(told: &mut Constraints, p: &Program, made: &[u32]) -> Result<(), Memory>
    ensures { OnOk result (told.new ≡ told.old ++ library.fills p.now made.now) }
{
    let bag = Cell::Bag {
        token: rarr_token(p),
    };
    for token in made {
        add_token(told, bag, *token)?;
    }
    Ok(())
}

// Whether a result makes something new.
fn makes_result(form: RowResult) -> bool
    ensures { result ≡ library.makes_result form }
{
    match form {
        RowResult::Argument => false,
        _ => true,
    }
}

// Adds what is in the bags of what is made for a result.
fn add_fills_result(
    alloc: Global,
    told: &mut Constraints,
    p: &Program,
    classes: &ClassNumbers,
    form: RowResult,
    name: &Name,
) -> Result<(), Memory>
    requires { AreNumbers p.now classes.now }
    ensures { OnOk result (told.new ≡ told.old ++ library.fills_result p.now form name.now) }
{
    if !makes_result(form) {
        return Ok(());
    }
    let made = bagged_tokens(alloc, p, classes, name)?;
    add_fills(told, p, made.as_slice())
}

// Adds what is made for a result of this type.
fn add_makes_for(
    alloc: Global,
    told: &mut Constraints,
    p: &Program,
    classes: &ClassNumbers,
    m: u32,
    i: u32,
    form: RowResult,
    type_: &JavaType,
) -> Result<(), Memory>
    requires { AreNumbers p.now classes.now }
    ensures { OnOk result (told.new ≡ told.old ++ library.makes_for p.now m i form type_.now) }
{
    if !is_reference(type_.kind) {
        return Ok(());
    }
    let made = fresh_tokens(alloc, p, classes, type_)?;
    add_each_fitting(told, p, classes, m, i, &type_.name, made.as_slice())?;
    add_fills_result(alloc, told, p, classes, form, &type_.name)
}

// Adds what is made for the result, if there is one.
fn add_makes_new(
    alloc: Global,
    told: &mut Constraints,
    p: &Program,
    classes: &ClassNumbers,
    m: u32,
    i: u32,
    call: &CallOp,
) -> Result<(), Memory>
    requires { AreNumbers p.now classes.now }
    ensures { OnOk result (told.new ≡ told.old ++ library.makes_new p.now m i call.now.row.result call.now.result) }
{
    match &call.result {
        Some(type_) => add_makes_for(alloc, told, p, classes, m, i, call.row.result, type_),
        None => Ok(()),
    }
}

/// Adds what an operation does in the library, if it is a call.
pub fn add_does_there(
    alloc: Global,
    told: &mut Constraints,
    p: &Program,
    classes: &ClassNumbers,
    m: u32,
    i: u32,
    row: &[Cell],
    locals: u32,
    height: u32,
    op: &Op,
) -> Result<(), Memory>
    requires numbers { AreNumbers p.now classes.now }
    requires few { HasFew op.now }
    ensures { OnOk result (told.new ≡ told.old ++ library.does_there p.now m i row.now locals height op.now) }
{
    match op {
        Op::Call(call) => {
            add_arguments(told, m, i, row, locals, height, call)?;
            add_makes_new(alloc, told, p, classes, m, i, call)
        }
        _ => Ok(()),
    }
}

/// Adds that a call of the library throws, and that its takers take the arguments.
pub fn add_goes_there(
    told: &mut Constraints,
    p: &Program,
    method: u32,
    index: u32,
) -> Result<(), Memory>
    ensures { OnOk result (told.new ≡ told.old ++ library.goes_there p.now method index) }
{
    add_throws_library(told, p, method, index)?;
    add_link(
        told,
        Cell::Takers { method, index },
        Action::Fill { method, index },
    )
}
