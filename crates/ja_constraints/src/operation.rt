ghost use Rattle.std.specs.Prelude.{◌≡◌, ◌++◌, OnOk};
ghost use Rattle.ja_facts.specs.ClassTables as tables;
ghost use Rattle.ja_constraints.specs.Operations as operations;

use crate::constraint::{Constraints, add_copy, add_link, add_throws_library, add_token};
use ja_base::{Kind, Memory};
use ja_cells::{is_made, outer_token};
use ja_ir::{Op, Program};
use ja_network::{Action, Cell};
use ja_tokens::{rarr_token, text_token};

// Adds that an object of a token is made.
fn add_made(told: &mut Constraints, token: u32) -> Result<(), Memory>
    ensures { OnOk result (told.new ≡ told.old ++ operations.makes token) }
{
    add_token(told, Cell::Single { token }, token)
}

// Adds that an object of a class is made, where it can be.
fn add_new(told: &mut Constraints, p: &Program, token: u32) -> Result<(), Memory>
    ensures { OnOk result (told.new ≡ told.old ++ operations.makes_new p.now token) }
{
    if is_made(p, token) {
        add_made(told, token)
    } else {
        Ok(())
    }
}

// Adds what is in the bag of an array when it is made.
fn add_filled(told: &mut Constraints, p: &Program, last: u32, dimensions: u32) -> Result<(), Memory>
    ensures { OnOk result (told.new ≡ told.old ++ operations.fills_array p.now last dimensions) }
{
    if dimensions < 2 {
        return Ok(());
    }
    let token = rarr_token(p);
    add_token(told, Cell::Bag { token }, last)?;
    if dimensions == 2 {
        return Ok(());
    }
    add_token(told, Cell::Bag { token }, token)
}

// Adds that an array is made.
fn add_array(told: &mut Constraints, p: &Program, last: u32, dimensions: u32) -> Result<(), Memory>
    ensures { OnOk result (told.new ≡ told.old ++ operations.makes_array p.now last dimensions) }
{
    add_made(told, outer_token(p, last, dimensions))?;
    add_filled(told, p, last, dimensions)
}

// Adds that an element is stored from a cell.
fn add_stored(told: &mut Constraints, p: &Program, from: Cell, kind: Kind) -> Result<(), Memory>
    ensures { OnOk result (told.new ≡ told.old ++ operations.stores p.now from kind) }
{
    match kind {
        Kind::R => {
            let to = Cell::Bag {
                token: rarr_token(p),
            };
            add_copy(told, from, to)
        }
        _ => Ok(()),
    }
}

// Adds that a result is returned from a cell, where there is one.
fn add_returned(
    told: &mut Constraints,
    method: u32,
    from: Cell,
    kind: Option<Kind>,
) -> Result<(), Memory>
    ensures { OnOk result (told.new ≡ told.old ++ operations.returns method from kind) }
{
    match kind {
        Some(_) => add_copy(told, from, Cell::Answer { method }),
        None => Ok(()),
    }
}

/// Adds what an instruction makes, and where its topmost value goes, which is in this cell.
pub fn add_operation(
    told: &mut Constraints,
    p: &Program,
    method: u32,
    index: u32,
    top: Cell,
    op: &Op,
) -> Result<(), Memory>
    ensures { OnOk result (told.new ≡ told.old ++ operations.does p.now method index top op.now) }
{
    match op {
        Op::Text => add_made(told, text_token(p)),
        Op::New(token) => add_new(told, p, token.0),
        Op::NewArray { last, dimensions } => add_array(told, p, last.0, *dimensions),
        Op::ArrStore(kind) => add_stored(told, p, top, *kind),
        Op::PutField(field) => add_copy(told, top, Cell::Field { field: field.0 }),
        Op::PutStatic(field) => add_copy(told, top, Cell::Field { field: field.0 }),
        Op::Cast(_) => add_link(told, top, Action::Check { method, index }),
        Op::Throw => add_copy(told, top, Cell::Thrown { method, index }),
        Op::Return(kind) => add_returned(told, method, top, *kind),
        _ => Ok(()),
    }
}

// Whether an operation throws a library object by choice, or where the reference that it throws is
// null.
fn may_throw_library(op: &Op) -> bool
    ensures { result ≡ operations.may_throw_library op.now }
{
    match op {
        Op::Mix { throws, .. } => *throws,
        Op::New(_)
        | Op::NewArray { .. }
        | Op::ArrLoad(_)
        | Op::ArrStore(_)
        | Op::ArrLen
        | Op::GetField(_)
        | Op::PutField(_)
        | Op::Cast(_)
        | Op::Monitor
        | Op::Throw => true,
        _ => false,
    }
}

// Whether some end of an operation throws.
fn throws_some(op: &Op) -> bool
    ensures { result ≡ tables.throws_some op.now }
{
    match op {
        Op::Call(_) => true,
        _ => may_throw_library(op),
    }
}

// Adds that a library object is thrown, where it is so.
fn add_raised(
    told: &mut Constraints,
    p: &Program,
    method: u32,
    index: u32,
    raises: bool,
) -> Result<(), Memory>
    ensures { OnOk result (told.new ≡ told.old ++ operations.raises_library p.now method index raises) }
{
    if raises {
        add_throws_library(told, p, method, index)
    } else {
        Ok(())
    }
}

/// Adds what an operation throws whatever is there, and that what it throws goes somewhere.
pub fn add_raises(
    told: &mut Constraints,
    p: &Program,
    method: u32,
    index: u32,
    op: &Op,
) -> Result<(), Memory>
    ensures { OnOk result (told.new ≡ told.old ++ operations.raises p.now method index op.now) }
{
    add_raised(told, p, method, index, may_throw_library(op))?;
    if throws_some(op) {
        return add_link(
            told,
            Cell::Thrown { method, index },
            Action::Throw { method, index },
        );
    }
    Ok(())
}
