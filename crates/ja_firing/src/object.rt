ghost use Rattle.std.specs.Prelude.{◌≡◌, ◌++◌, ◌<◌, ◌^◌, OnOk, length, map, slice_get};
ghost use Rattle.ja_ir.specs.Operations as operations;
ghost use Rattle.ja_ir.specs.Lookup as lookup;
ghost use Rattle.ja_tokens.specs.Shapes.{place_meant};
ghost use Rattle.ja_cells.specs.Names.{row_at};
ghost use Rattle.ja_firing.specs.Tokens as tokens;
ghost use Rattle.ja_constraints.specs.Places.{HasFew};

use ja_base::Memory;
use ja_cells::{Names, cell_in};
use ja_constraints::{
    Constraint, Constraints, add_copy, add_link, add_reach, add_token, argument_cell, instr_of,
    method_of, row_at,
};
use ja_ir::{CallOp, Field, Op, Program, arguments, is_static};
use ja_network::{Action, Cell, Event};
use ja_tokens::{ThrownTo, absorbs, at_or_below, lib_token, parr_token, rarr_token, thrown_to};
use std::alloc::Global;

// Adds that the locals are kept for a handler.
fn add_keeps(
    told: &mut Constraints,
    method: u32,
    index: u32,
    row: &[Cell],
    locals: u32,
) -> Result<(), Memory>
    ensures { OnOk result (told.new ≡ told.old ++ tokens.keeps method index row.now locals) }
{
    for slot in 0..locals {
        let to = Cell::Before {
            method,
            index,
            slot,
        };
        add_copy(told, cell_in(row, slot as u64), to)?;
    }
    Ok(())
}

// Adds that an exception goes to a place.
fn add_goes_out(
    told: &mut Constraints,
    method: u32,
    token: u32,
    row: &[Cell],
    locals: u32,
    place: ThrownTo,
) -> Result<(), Memory>
    ensures { OnOk result (told.new ≡ told.old ++ tokens.goes_out method token row.now locals (place_meant place)) }
{
    match place {
        ThrownTo::Caller => add_token(told, Cell::Out { method }, token),
        ThrownTo::Handler(index) => {
            let thrown = Cell::Before {
                method,
                index,
                slot: locals,
            };
            add_reach(told, method, index)?;
            add_token(told, thrown, token)?;
            add_keeps(told, method, index, row, locals)
        }
    }
}

// Adds that an exception goes to places.
fn add_goes_each(
    told: &mut Constraints,
    method: u32,
    token: u32,
    row: &[Cell],
    locals: u32,
    places: &[ThrownTo],
) -> Result<(), Memory>
    ensures { OnOk result (told.new ≡ told.old ++ tokens.goes_each method token row.now locals (map place_meant places.now)) }
{
    for place in places {
        add_goes_out(told, method, token, row, locals, *place)?;
    }
    Ok(())
}

/// Adds where an exception goes, if there is a method of this number.
pub fn add_thrown(
    alloc: Global,
    told: &mut Constraints,
    p: &Program,
    names: &Names,
    m: u32,
    i: u32,
    token: u32,
) -> Result<(), Memory>
    ensures { OnOk result (told.new ≡ told.old ++ tokens.thrown p.now m i token (row_at names.now m i) (slice_get p.now.methods m)) }
{
    match method_of(p, m) {
        Some(method) => {
            let places = thrown_to(alloc, p, method.handlers.as_slice(), i, token)?;
            let row = row_at(names, m, i);
            add_goes_each(told, m, token, row, method.locals, places.as_slice())
        }
        None => Ok(()),
    }
}

// Adds that what an object leads to is asked for.
fn add_asks(told: &mut Constraints, token: u32) -> Result<(), Memory>
    ensures { OnOk result (told.new ≡ told.old ++ tokens.asks token) }
{
    told.push(Constraint::Happens {
        event: Event::Spanned { token },
    })
}

/// Adds that what a source leads to takes the arguments.
pub fn add_sources(
    told: &mut Constraints,
    method: u32,
    index: u32,
    token: u32,
) -> Result<(), Memory>
    ensures { OnOk result (told.new ≡ told.old ++ tokens.sources method index token) }
{
    add_asks(told, token)?;
    add_link(told, Cell::Span { token }, Action::Take { method, index })
}

/// Adds that what an argument leads to may be answered.
pub fn add_leads(told: &mut Constraints, method: u32, index: u32, token: u32) -> Result<(), Memory>
    ensures { OnOk result (told.new ≡ told.old ++ tokens.leads method index token) }
{
    add_asks(told, token)?;
    add_link(told, Cell::Span { token }, Action::Return { method, index })
}

/// Adds that an absorbing token takes the arguments.
pub fn add_takes(
    told: &mut Constraints,
    p: &Program,
    method: u32,
    index: u32,
    token: u32,
) -> Result<(), Memory>
    ensures { OnOk result (told.new ≡ told.old ++ tokens.takes p.now method index token) }
{
    if absorbs(p, token) {
        add_token(told, Cell::Takers { method, index }, token)
    } else {
        Ok(())
    }
}

// Adds that the bags of a token take the arguments of a call.
fn add_fills_from(
    told: &mut Constraints,
    row: &[Cell],
    locals: u32,
    height: u32,
    token: u32,
    call: &CallOp,
) -> Result<(), Memory>
    requires { operations.arguments call.now < 2 ^ 32 }
    ensures { OnOk result (told.new ≡ told.old ++ tokens.fills_from row.now locals height token call.now) }
{
    let count = arguments(call) as u32;
    for k in 0..count {
        let from = argument_cell(row, locals, height, call, k);
        add_copy(told, from, Cell::Bag { token })?;
    }
    Ok(())
}

// Adds that the bags of a token take the arguments of an operation, if it is a call.
fn add_fills_bag(
    told: &mut Constraints,
    row: &[Cell],
    locals: u32,
    height: u32,
    token: u32,
    op: &Op,
) -> Result<(), Memory>
    requires { HasFew op.now }
    ensures { OnOk result (told.new ≡ told.old ++ tokens.fills_bag row.now locals height token op.now) }
{
    match op {
        Op::Call(call) => add_fills_from(told, row, locals, height, token, call),
        _ => Ok(()),
    }
}

/// Adds the same for the instruction of these numbers, if there is one.
pub fn add_filled(
    told: &mut Constraints,
    p: &Program,
    names: &Names,
    m: u32,
    i: u32,
    token: u32,
) -> Result<(), Memory>
    ensures { OnOk result (told.new ≡ told.old ++ tokens.filled p.now names.now m i token) }
{
    match method_of(p, m) {
        Some(method) => match instr_of(method, i) {
            Some(instr) => {
                let row = row_at(names, m, i);
                add_fills_bag(told, row, method.locals, instr.height, token, &instr.op)
            }
            None => Ok(()),
        },
        None => Ok(()),
    }
}

// Whether the objects of a token have a field.
fn is_instance_field(p: &Program, token: u32, field: &Field) -> bool
    ensures { result ≡ lookup.is_instance_field p.now token field.now }
{
    !is_static(field.flags) && at_or_below(p, token, field.class.0)
}

// Adds that what is in a field leads on from an object of a token, if that has it.
fn add_field_leads(
    told: &mut Constraints,
    p: &Program,
    start: u32,
    token: u32,
    field: u32,
    info: &Field,
) -> Result<(), Memory>
    ensures { OnOk result (told.new ≡ told.old ++ tokens.field_leads p.now start token field info.now) }
{
    if is_instance_field(p, token, info) {
        add_copy(told, Cell::Field { field }, Cell::Span { token: start })
    } else {
        Ok(())
    }
}

// Adds the same for all fields.
fn add_fields_lead(
    told: &mut Constraints,
    p: &Program,
    start: u32,
    token: u32,
    fields: &[Field],
) -> Result<(), Memory>
    requires { length fields.now < 2 ^ 32 }
    ensures { OnOk result (told.new ≡ told.old ++ tokens.fields_lead p.now start token 0 fields.now) }
{
    for (f, field) in fields.iter().enumerate() {
        add_field_leads(told, p, start, token, f as u32, field)?;
    }
    Ok(())
}

// Adds that what is in the bags of a token leads on, if it has any.
fn add_bag_leads(told: &mut Constraints, p: &Program, start: u32, token: u32) -> Result<(), Memory>
    ensures { OnOk result (told.new ≡ told.old ++ tokens.bag_leads p.now start token) }
{
    if absorbs(p, token) {
        add_copy(told, Cell::Bag { token }, Cell::Span { token: start })
    } else {
        Ok(())
    }
}

/// Adds that what leads to an object of a token leads to what that has.
pub fn add_expands(
    told: &mut Constraints,
    p: &Program,
    start: u32,
    token: u32,
) -> Result<(), Memory>
    ensures { OnOk result (told.new ≡ told.old ++ tokens.expands p.now start token) }
{
    add_fields_lead(told, p, start, token, p.fields().as_slice())?;
    add_bag_leads(told, p, start, token)
}

/// Adds that the environment puts all that it makes into the bags of a token, if that is a library
/// object or an array.
pub fn add_stocks(told: &mut Constraints, p: &Program, token: u32) -> Result<(), Memory>
    ensures { OnOk result (told.new ≡ told.old ++ tokens.stocks p.now token) }
{
    if token == lib_token(p) || (token == rarr_token(p) || token == parr_token(p)) {
        add_copy(told, Cell::Environment, Cell::Bag { token })
    } else {
        Ok(())
    }
}
