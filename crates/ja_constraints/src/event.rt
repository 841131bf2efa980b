ghost use Rattle.std.specs.Prelude.{◌≡◌, ◌++◌, ◌<◌, ◌≤◌, ◌^◌, All, OnOk};
ghost use Rattle.ja_base.specs.Descriptor.{words_of_all};
ghost use Rattle.ja_tokens.specs.Numbers.{AreNumbers};
ghost use Rattle.ja_constraints.specs.Events as events;
ghost use Rattle.ja_constraints.specs.Places.{HasFew};

use crate::call::{add_begin, add_passes, add_targets};
use crate::constraint::{Constraints, add_link, add_throws_library, add_token};
use crate::flow::{add_begins, add_enters, add_next};
use crate::library::{add_does_there, add_goes_there};
use crate::operation::{add_operation, add_raises};
use crate::place::{instr_of, method_of, row_at, top_cell};
use ja_base::Memory;
use ja_cells::{Names, next_row};
use ja_ir::{Instr, Method, Program};
use ja_network::{Action, Cell, Event};
use ja_tokens::ClassNumbers;
use std::alloc::Global;

// Adds that the parameters of a method come to its locals where it begins.
fn add_enters_at(told: &mut Constraints, m: u32, i: u32, method: &Method) -> Result<(), Memory>
    requires { words_of_all method.now.types.params ≤ 255 }
    ensures { OnOk result (told.new ≡ told.old ++ events.enters_at m i method.now) }
{
    if i == 0 {
        add_enters(told, m, method)
    } else {
        Ok(())
    }
}

// Adds where control goes from an instruction that may run.
fn add_leads_on(
    alloc: Global,
    told: &mut Constraints,
    p: &Program,
    names: &Names,
    m: u32,
    i: u32,
    method: &Method,
    instr: &Instr,
) -> Result<(), Memory>
    requires next { All (λ j. j < 2 ^ 32) instr.now.next }
    requires words { words_of_all method.now.types.params ≤ 255 }
    ensures { OnOk result (told.new ≡ told.old ++ events.leads_on p.now names.now m i method.now instr.now) }
{
    let next = next_row(alloc, p, m, i, &instr.op, row_at(names, m, i))?;
    add_next(told, names, m, next.as_slice(), instr.next.as_slice())?;
    add_begins(told, p.inits_of(&instr.op))?;
    add_enters_at(told, m, i, method)
}

// Adds what an instruction that may run does.
fn add_acts(
    told: &mut Constraints,
    p: &Program,
    names: &Names,
    m: u32,
    i: u32,
    method: &Method,
    instr: &Instr,
) -> Result<(), Memory>
    ensures { OnOk result (told.new ≡ told.old ++ events.acts p.now names.now m i method.now instr.now) }
{
    let row = row_at(names, m, i);
    let top = top_cell(row, method.locals, instr.height);
    add_raises(told, p, m, i, &instr.op)?;
    add_operation(told, p, m, i, top, &instr.op)?;
    add_targets(told, p, m, i, row, method.locals, instr.height, &instr.op)
}

// Adds what follows where an instruction may run.
fn add_runs(
    alloc: Global,
    told: &mut Constraints,
    p: &Program,
    names: &Names,
    m: u32,
    i: u32,
    method: &Method,
    instr: &Instr,
) -> Result<(), Memory>
    requires next { All (λ j. j < 2 ^ 32) instr.now.next }
    requires words { words_of_all method.now.types.params ≤ 255 }
    ensures { OnOk result (told.new ≡ told.old ++ events.runs p.now names.now m i method.now instr.now) }
{
    add_leads_on(alloc, told, p, names, m, i, method, instr)?;
    add_acts(told, p, names, m, i, method, instr)
}

// Adds what follows where an instruction may run, if there is one of these numbers.
fn add_reached(
    alloc: Global,
    told: &mut Constraints,
    p: &Program,
    names: &Names,
    m: u32,
    i: u32,
) -> Result<(), Memory>
    ensures { OnOk result (told.new ≡ told.old ++ events.reached p.now names.now m i) }
{
    match method_of(p, m) {
        Some(method) => match instr_of(method, i) {
            Some(instr) => add_runs(alloc, told, p, names, m, i, method, instr),
            None => Ok(()),
        },
        None => Ok(()),
    }
}

// Adds that the arguments of a call go to the parameters of a method, if there is a call.
fn add_passed(
    told: &mut Constraints,
    p: &Program,
    names: &Names,
    m: u32,
    i: u32,
    n: u32,
) -> Result<(), Memory>
    ensures { OnOk result (told.new ≡ told.old ++ events.passed p.now names.now m i n) }
{
    match method_of(p, m) {
        Some(method) => match instr_of(method, i) {
            Some(instr) => add_passes(
                told,
                m,
                i,
                n,
                row_at(names, m, i),
                method.locals,
                instr.height,
                &instr.op,
            ),
            None => Ok(()),
        },
        None => Ok(()),
    }
}

// Adds what follows where a call goes to a method with code.
fn add_called(
    told: &mut Constraints,
    p: &Program,
    names: &Names,
    m: u32,
    i: u32,
    n: u32,
) -> Result<(), Memory>
    ensures { OnOk result (told.new ≡ told.old ++ events.called p.now names.now m i n) }
{
    add_begin(told, m, i, n)?;
    add_passed(told, p, names, m, i, n)
}

// Adds what a call does in the library, if there is a call.
fn add_done_there(
    alloc: Global,
    told: &mut Constraints,
    p: &Program,
    names: &Names,
    classes: &ClassNumbers,
    m: u32,
    i: u32,
) -> Result<(), Memory>
    requires { AreNumbers p.now classes.now }
    ensures { OnOk result (told.new ≡ told.old ++ events.done_there p.now names.now m i) }
{
    match method_of(p, m) {
        Some(method) => match instr_of(method, i) {
            Some(instr) => add_does_there(
                alloc,
                told,
                p,
                classes,
                m,
                i,
                row_at(names, m, i),
                method.locals,
                instr.height,
                &instr.op,
            ),
            None => Ok(()),
        },
        None => Ok(()),
    }
}

// Adds what follows where a call goes to the library.
fn add_called_library(
    alloc: Global,
    told: &mut Constraints,
    p: &Program,
    names: &Names,
    classes: &ClassNumbers,
    m: u32,
    i: u32,
) -> Result<(), Memory>
    requires { AreNumbers p.now classes.now }
    ensures { OnOk result (told.new ≡ told.old ++ events.called_library p.now names.now m i) }
{
    add_goes_there(told, p, m, i)?;
    add_done_there(alloc, told, p, names, classes, m, i)
}

// Adds that an object is what it leads to, and leads to what that has.
fn add_spanned(told: &mut Constraints, token: u32) -> Result<(), Memory>
    ensures { OnOk result (told.new ≡ told.old ++ events.spanned token) }
{
    add_token(told, Cell::Span { token }, token)?;
    add_link(told, Cell::Span { token }, Action::Expand { token })
}

/// Adds what follows where an event happens.
pub fn add_follows(
    alloc: Global,
    told: &mut Constraints,
    p: &Program,
    names: &Names,
    classes: &ClassNumbers,
    event: Event,
) -> Result<(), Memory>
    requires { AreNumbers p.now classes.now }
    ensures { OnOk result (told.new ≡ told.old ++ events.follows p.now names.now event) }
{
    match event {
        Event::Reached { method, index } => add_reached(alloc, told, p, names, method, index),
        Event::Calls {
            method,
            index,
            target,
        } => add_called(told, p, names, method, index, target),
        Event::CallsAbstract {
            method,
            index,
            target: _,
        } => add_throws_library(told, p, method, index),
        Event::CallsLibrary { method, index } => {
            add_called_library(alloc, told, p, names, classes, method, index)
        }
        Event::Spanned { token } => add_spanned(told, token),
        Event::Linked { from: _, action: _ } => Ok(()),
    }
}
