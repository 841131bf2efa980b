ghost use Rattle.std.specs.Prelude.{◌≡◌, ◌++◌, OnOk, slice_get};
ghost use Rattle.std.specs.Option.{option_copied};
ghost use Rattle.ja_ir.specs.Lookup as lookup;
ghost use Rattle.ja_ir.specs.Params as params;
ghost use Rattle.ja_ir.specs.Tokens as shapes;
ghost use Rattle.ja_tokens.specs.Numbers.{AreNumbers};
ghost use Rattle.ja_tokens.specs.Shapes.{shape_meant};
ghost use Rattle.ja_firing.specs.Tokens as tokens;

use crate::object::{
    add_expands, add_filled, add_leads, add_sources, add_stocks, add_takes, add_thrown,
};
use ja_base::{JavaType, Memory, Name};
use ja_cells::Names;
use ja_constraints::{
    Constraints, add_calls, add_calls_abstract, add_calls_library, add_token, has_reference,
    instr_of, method_of,
};
use ja_ir::{CallOp, MethodAt, Op, Program, Selection, is_static};
use ja_network::{Action, Cell};
use ja_tokens::{ClassNumbers, TypeShape, fits_shape};
use std::alloc::Global;

// Adds that a token goes to a cell, where it fits the reference type of a name.
fn add_passes_to(
    told: &mut Constraints,
    p: &Program,
    classes: &ClassNumbers,
    to: Cell,
    token: u32,
    name: &Name,
) -> Result<(), Memory>
    requires { AreNumbers p.now classes.now }
    ensures { OnOk result (told.new ≡ told.old ++ tokens.passes_to p.now to token name.now) }
{
    if fits_shape(p, token, classes.shape_of(name)) {
        add_token(told, to, token)
    } else {
        Ok(())
    }
}

// Adds that a token passes an operation, if it is a cast to whose type it fits.
fn add_passes_cast(
    told: &mut Constraints,
    p: &Program,
    classes: &ClassNumbers,
    method: u32,
    index: u32,
    token: u32,
    op: &Op,
) -> Result<(), Memory>
    requires { AreNumbers p.now classes.now }
    ensures { OnOk result (told.new ≡ told.old ++ tokens.passes_cast p.now method index token op.now) }
{
    match op {
        Op::Cast(name) => {
            let to = Cell::Pushed { method, index };
            add_passes_to(told, p, classes, to, token, name)
        }
        _ => Ok(()),
    }
}

// Adds the same for the instruction of these numbers, if there is one.
fn add_checked(
    told: &mut Constraints,
    p: &Program,
    classes: &ClassNumbers,
    m: u32,
    i: u32,
    token: u32,
) -> Result<(), Memory>
    requires { AreNumbers p.now classes.now }
    ensures { OnOk result (told.new ≡ told.old ++ tokens.checked p.now m i token) }
{
    match method_of(p, m) {
        Some(method) => match instr_of(method, i) {
            Some(instr) => add_passes_cast(told, p, classes, m, i, token, &instr.op),
            None => Ok(()),
        },
        None => Ok(()),
    }
}

// Adds that a token goes to a parameter, where it fits its type, if there is one.
fn add_fits_param(
    told: &mut Constraints,
    p: &Program,
    classes: &ClassNumbers,
    method: u32,
    param: u32,
    token: u32,
    type_: Option<&JavaType>,
) -> Result<(), Memory>
    requires { AreNumbers p.now classes.now }
    ensures { OnOk result (told.new ≡ told.old ++ tokens.fits_param p.now method param token (option_copied type_.entry)) }
{
    match type_ {
        Some(type_) => {
            let to = Cell::Param { method, param };
            add_passes_to(told, p, classes, to, token, &type_.name)
        }
        None => Ok(()),
    }
}

// The type of a parameter among a receiver, which has none, and these types.
fn type_among(receiver: bool, types: &[JavaType], k: u32) -> Option<&JavaType>
    ensures { option_copied result ≡ params.type_among receiver types.now k }
{
    if !receiver {
        return types.get(k as usize);
    }
    if k == 0 {
        return None;
    }
    types.get(k as usize - 1)
}

// Adds that a token goes to a parameter of a method, if there is one that has a type.
fn add_enters_param(
    told: &mut Constraints,
    p: &Program,
    classes: &ClassNumbers,
    m: u32,
    k: u32,
    token: u32,
) -> Result<(), Memory>
    requires { AreNumbers p.now classes.now }
    ensures { OnOk result (told.new ≡ told.old ++ tokens.enters_param p.now m k token (slice_get p.now.methods m)) }
{
    match method_of(p, m) {
        Some(method) => {
            let types = method.types.params.as_slice();
            let type_ = type_among(!is_static(method.flags), types, k);
            add_fits_param(told, p, classes, m, k, token, type_)
        }
        None => Ok(()),
    }
}

// Adds that a token is answered by a call whose result has this type, if it has one.
fn add_fits_result(
    told: &mut Constraints,
    p: &Program,
    classes: &ClassNumbers,
    method: u32,
    index: u32,
    token: u32,
    type_: &Option<JavaType>,
) -> Result<(), Memory>
    requires { AreNumbers p.now classes.now }
    ensures { OnOk result (told.new ≡ told.old ++ tokens.fits_result p.now method index token type_.now) }
{
    match type_ {
        Some(found) => {
            if has_reference(type_) {
                let to = Cell::Pushed { method, index };
                return add_passes_to(told, p, classes, to, token, &found.name);
            }
            Ok(())
        }
        None => Ok(()),
    }
}

// Adds that a token is answered by an operation, if it is a call.
fn add_answers(
    told: &mut Constraints,
    p: &Program,
    classes: &ClassNumbers,
    m: u32,
    i: u32,
    token: u32,
    op: &Op,
) -> Result<(), Memory>
    requires { AreNumbers p.now classes.now }
    ensures { OnOk result (told.new ≡ told.old ++ tokens.answers p.now m i token op.now) }
{
    match op {
        Op::Call(call) => add_fits_result(told, p, classes, m, i, token, &call.result),
        _ => Ok(()),
    }
}

// Adds the same for the instruction of these numbers, if there is one.
fn add_answered(
    told: &mut Constraints,
    p: &Program,
    classes: &ClassNumbers,
    m: u32,
    i: u32,
    token: u32,
) -> Result<(), Memory>
    requires { AreNumbers p.now classes.now }
    ensures { OnOk result (told.new ≡ told.old ++ tokens.answered p.now m i token) }
{
    match method_of(p, m) {
        Some(method) => match instr_of(method, i) {
            Some(instr) => add_answers(told, p, classes, m, i, token, &instr.op),
            None => Ok(()),
        },
        None => Ok(()),
    }
}

// What the first selection of a name and descriptor answers, and the library where none has them.
fn selection_among(name: &Name, desc: &Name, selections: &[Selection]) -> MethodAt
    ensures { result ≡ lookup.selection_among name.now desc.now selections.now }
{
    for selection in selections {
        if selection.name.bytes() == name.bytes() && selection.desc.bytes() == desc.bytes() {
            return selection.target;
        }
    }
    MethodAt::Library
}

// Whether a shape is that of a program class.
fn is_in_program(shape: TypeShape) -> bool
    ensures { result ≡ shapes.is_in_program (shape_meant shape) }
{
    match shape {
        TypeShape::Class(_) => true,
        _ => false,
    }
}

// Where a call on an object of a token goes, if anywhere, by what is known of the class that it names.
fn dispatched_by(
    p: &Program,
    call: &CallOp,
    token: u32,
    named: bool,
    fitting: bool,
) -> Option<MethodAt>
    ensures { result ≡ tokens.dispatched_by call.now named fitting (slice_get p.now.classes token) }
{
    match p.classes().as_slice().get(token as usize) {
        Some(class) => {
            if named && !fitting {
                return None;
            }
            let selections = class.selections.as_slice();
            Some(selection_among(&call.name, &call.desc, selections))
        }
        None => { if named { None } else { Some(MethodAt::Library) } }
    }
}

// Where a virtual or interface call on an object of a token goes, if anywhere.
fn dispatched(p: &Program, classes: &ClassNumbers, call: &CallOp, token: u32) -> Option<MethodAt>
    requires { AreNumbers p.now classes.now }
    ensures { result ≡ tokens.dispatched p.now call.now token }
{
    let shape = classes.shape_of(&call.class);
    dispatched_by(
        p,
        call,
        token,
        is_in_program(shape),
        fits_shape(p, token, shape),
    )
}

// Adds that a call goes there, and a receiver of a token with it.
fn add_goes_to(
    told: &mut Constraints,
    m: u32,
    i: u32,
    token: u32,
    target: Option<MethodAt>,
) -> Result<(), Memory>
    ensures { OnOk result (told.new ≡ told.old ++ tokens.goes_to m i token target) }
{
    match target {
        Some(MethodAt::Program(n)) => {
            add_calls(told, m, i, n.0)?;
            let receiver = Cell::Param {
                method: n.0,
                param: 0,
            };
            add_token(told, receiver, token)
        }
        Some(MethodAt::Abstract(n)) => add_calls_abstract(told, m, i, n.0),
        Some(MethodAt::Library) => add_calls_library(told, m, i),
        None => Ok(()),
    }
}

// Adds where an operation on a receiver of a token goes, if it is a call.
fn add_dispatches(
    told: &mut Constraints,
    p: &Program,
    classes: &ClassNumbers,
    m: u32,
    i: u32,
    token: u32,
    op: &Op,
) -> Result<(), Memory>
    requires { AreNumbers p.now classes.now }
    ensures { OnOk result (told.new ≡ told.old ++ tokens.dispatches p.now m i token op.now) }
{
    match op {
        Op::Call(call) => add_goes_to(told, m, i, token, dispatched(p, classes, call, token)),
        _ => Ok(()),
    }
}

// Adds the same for the instruction of these numbers, if there is one.
fn add_received(
    told: &mut Constraints,
    p: &Program,
    classes: &ClassNumbers,
    m: u32,
    i: u32,
    token: u32,
) -> Result<(), Memory>
    requires { AreNumbers p.now classes.now }
    ensures { OnOk result (told.new ≡ told.old ++ tokens.received p.now m i token) }
{
    match method_of(p, m) {
        Some(method) => match instr_of(method, i) {
            Some(instr) => add_dispatches(told, p, classes, m, i, token, &instr.op),
            None => Ok(()),
        },
        None => Ok(()),
    }
}

/// Adds what comes of a token of a cell for which this is done.
pub fn add_fires(
    alloc: Global,
    told: &mut Constraints,
    p: &Program,
    names: &Names,
    classes: &ClassNumbers,
    token: u32,
    action: Action,
) -> Result<(), Memory>
    requires { AreNumbers p.now classes.now }
    ensures { OnOk result (told.new ≡ told.old ++ tokens.fires p.now names.now token action) }
{
    match action {
        Action::Copy { to } => add_token(told, to, token),
        Action::Check { method, index } => add_checked(told, p, classes, method, index, token),
        Action::Enter { method, param } => {
            add_enters_param(told, p, classes, method, param, token)
        }
        Action::Return { method, index } => add_answered(told, p, classes, method, index, token),
        Action::Dispatch { method, index } => add_received(told, p, classes, method, index, token),
        Action::Throw { method, index } => {
            add_thrown(alloc, told, p, names, method, index, token)
        }
        Action::Source { method, index } => add_sources(told, method, index, token),
        Action::Take { method, index } => add_takes(told, p, method, index, token),
        Action::Fill { method, index } => add_filled(told, p, names, method, index, token),
        Action::Lead { method, index } => add_leads(told, method, index, token),
        Action::Expand { token: start } => add_expands(told, p, start, token),
        Action::Stock => add_stocks(told, p, token),
    }
}
