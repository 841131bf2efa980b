ghost use Rattle.std.specs.Prelude.{◌≡◌, ◌++◌, ◌<◌, ◌^◌, OnOk, slice_get};
ghost use Rattle.ja_ir.specs.Operations as operations;
ghost use Rattle.ja_constraints.specs.Calls as calls;
ghost use Rattle.ja_constraints.specs.Places.{HasFew};

use crate::constraint::{
    Constraint, Constraints, add_copy, add_link, add_reach, add_throws_library,
};
use crate::place::argument_cell;
use ja_base::Memory;
use ja_ir::{
    CallKind, CallOp, MethodAt, Op, Program, arguments, has_receiver, is_dispatched, is_static,
};
use ja_network::{Action, Cell, Event};

// Whether a method, if there is one of this number, can be called by a call of this kind.
fn can_be_called(p: &Program, kind: CallKind, n: u32) -> bool
    ensures { result ≡ calls.can_be_called kind (slice_get p.now.methods n) }
{
    match p.methods().as_slice().get(n as usize) {
        Some(method) => match kind {
            CallKind::Static => is_static(method.flags),
            CallKind::Special => !is_static(method.flags),
            _ => false,
        },
        None => false,
    }
}

/// Adds that a call goes to a method with code.
pub fn add_calls(told: &mut Constraints, method: u32, index: u32, target: u32) -> Result<(), Memory>
    ensures { OnOk result (told.new ≡ told.old ++ calls.calls method index target) }
{
    told.push(Constraint::Happens {
        event: Event::Calls {
            method,
            index,
            target,
        },
    })
}

/// Adds that a call goes to a method without code.
pub fn add_calls_abstract(
    told: &mut Constraints,
    method: u32,
    index: u32,
    target: u32,
) -> Result<(), Memory>
    ensures { OnOk result (told.new ≡ told.old ++ calls.calls_abstract method index target) }
{
    told.push(Constraint::Happens {
        event: Event::CallsAbstract {
            method,
            index,
            target,
        },
    })
}

/// Adds that a call goes to the library.
pub fn add_calls_library(told: &mut Constraints, method: u32, index: u32) -> Result<(), Memory>
    ensures { OnOk result (told.new ≡ told.old ++ calls.calls_library method index) }
{
    told.push(Constraint::Happens {
        event: Event::CallsLibrary { method, index },
    })
}

// Adds that a call goes to what it found, where that can be called by it.
fn add_found(
    told: &mut Constraints,
    p: &Program,
    m: u32,
    i: u32,
    kind: CallKind,
    found: Option<MethodAt>,
) -> Result<(), Memory>
    ensures { OnOk result (told.new ≡ told.old ++ calls.goes_to_found p.now m i kind found) }
{
    match found {
        None => Ok(()),
        Some(MethodAt::Library) => add_calls_library(told, m, i),
        Some(MethodAt::Program(n)) => {
            if can_be_called(p, kind, n.0) {
                add_calls(told, m, i, n.0)
            } else {
                Ok(())
            }
        }
        Some(MethodAt::Abstract(n)) => {
            if can_be_called(p, kind, n.0) {
                add_calls_abstract(told, m, i, n.0)
            } else {
                Ok(())
            }
        }
    }
}

// Adds where a call goes, whose receiver is in a cell.
fn add_by_kind(
    told: &mut Constraints,
    p: &Program,
    method: u32,
    index: u32,
    receiver: Cell,
    call: &CallOp,
) -> Result<(), Memory>
    ensures { OnOk result (told.new ≡ told.old ++ calls.goes_by_kind p.now method index receiver call.now.found call.now.kind) }
{
    match call.kind {
        CallKind::Virtual => add_link(told, receiver, Action::Dispatch { method, index }),
        CallKind::Interface => add_link(told, receiver, Action::Dispatch { method, index }),
        CallKind::Special => add_found(told, p, method, index, CallKind::Special, call.found),
        CallKind::Static => add_found(told, p, method, index, CallKind::Static, call.found),
        CallKind::StaticField => add_calls_library(told, method, index),
        CallKind::MemberField => add_calls_library(told, method, index),
    }
}

// Adds that a call on null throws.
fn add_null(
    told: &mut Constraints,
    p: &Program,
    m: u32,
    i: u32,
    kind: CallKind,
) -> Result<(), Memory>
    ensures { OnOk result (told.new ≡ told.old ++ calls.null_receiver p.now m i kind) }
{
    if has_receiver(kind) {
        add_throws_library(told, p, m, i)
    } else {
        Ok(())
    }
}

/// Adds where an operation that may run goes, if it is a call.
pub fn add_targets(
    told: &mut Constraints,
    p: &Program,
    m: u32,
    i: u32,
    row: &[Cell],
    locals: u32,
    height: u32,
    op: &Op,
) -> Result<(), Memory>
    ensures { OnOk result (told.new ≡ told.old ++ calls.targets p.now m i row.now locals height op.now) }
{
    match op {
        Op::Call(call) => {
            let receiver = argument_cell(row, locals, height, call, 0);
            add_null(told, p, m, i, call.kind)?;
            add_by_kind(told, p, m, i, receiver, call)
        }
        _ => Ok(()),
    }
}

// The first argument that goes to a method with all that are in its cell.
fn first_handed(kind: CallKind) -> u32
    ensures { result ≡ calls.first_handed kind }
{
    if is_dispatched(kind) { 1 } else { 0 }
}

// Adds that the arguments of a call go to the parameters of a method.
fn add_hands(
    told: &mut Constraints,
    row: &[Cell],
    locals: u32,
    height: u32,
    call: &CallOp,
    method: u32,
) -> Result<(), Memory>
    requires { operations.arguments call.now < 2 ^ 32 }
    ensures { OnOk result (told.new ≡ told.old ++ calls.hands row.now locals height call.now method) }
{
    let first = first_handed(call.kind);
    let count = arguments(call) as u32;
    for param in first..count {
        let from = argument_cell(row, locals, height, call, param);
        add_copy(told, from, Cell::Param { method, param })?;
    }
    Ok(())
}

/// Adds that the arguments of an operation go to the parameters of a method and its result comes back,
/// if it is a call.
pub fn add_passes(
    told: &mut Constraints,
    m: u32,
    i: u32,
    target: u32,
    row: &[Cell],
    locals: u32,
    height: u32,
    op: &Op,
) -> Result<(), Memory>
    requires { HasFew op.now }
    ensures { OnOk result (told.new ≡ told.old ++ calls.passes m i target row.now locals height op.now) }
{
    match op {
        Op::Call(call) => {
            add_hands(told, row, locals, height, call, target)?;
            let to = Cell::Pushed {
                method: m,
                index: i,
            };
            add_copy(told, Cell::Answer { method: target }, to)
        }
        _ => Ok(()),
    }
}

/// Adds that a method may begin which is called, and that what it throws out the call throws.
pub fn add_begin(told: &mut Constraints, m: u32, i: u32, target: u32) -> Result<(), Memory>
    ensures { OnOk result (told.new ≡ told.old ++ calls.begins m i target) }
{
    add_reach(told, target, 0)?;
    let to = Cell::Thrown {
        method: m,
        index: i,
    };
    add_copy(told, Cell::Out { method: target }, to)
}
