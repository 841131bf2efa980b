ghost use Rattle.std.specs.Prelude.{◌≡◌, ◌++◌, ◌<◌, ◌≤◌, ◌^◌, None, OnOk, length, slice_get};
ghost use Rattle.ja_base.specs.Descriptor.{words_of_all};
ghost use Rattle.ja_ir.specs.Entries as entries;
ghost use Rattle.ja_ir.specs.Initializing.{inits_of_class};
ghost use Rattle.ja_ir.specs.Whole.{IsWhole};
ghost use Rattle.ja_tokens.specs.Numbers.{AreNumbers};
ghost use Rattle.ja_constraints.specs.Starts as starts;

use crate::constraint::{Constraints, add_link, add_reach, add_token};
use crate::flow::add_begins;
use crate::place::method_of;
use ja_base::{JavaType, Kind, Memory, MethodId};
use ja_ir::{Entry, Field, Method, Program, is_static};
use ja_network::{Action, Cell};
use ja_tokens::{ClassNumbers, fresh_tokens, text_token};
use std::alloc::Global;

// Adds that the environment makes objects of these tokens.
fn add_makes(told: &mut Constraints, made: &[u32]) -> Result<(), Memory>
    ensures { OnOk result (told.new ≡ told.old ++ starts.makes_each made.now) }
{
    for token in made {
        add_token(told, Cell::Environment, *token)?;
    }
    Ok(())
}

// Adds that what the environment makes goes to a parameter, where that is of a kind of references.
fn add_hands_over(told: &mut Constraints, method: u32, param: u32, kind: Kind) -> Result<(), Memory>
    ensures { OnOk result (told.new ≡ told.old ++ starts.hands_over method param kind) }
{
    match kind {
        Kind::R => add_link(told, Cell::Environment, Action::Enter { method, param }),
        _ => Ok(()),
    }
}

// Adds that the environment makes something for a parameter, and hands it over.
fn add_gives(
    alloc: Global,
    told: &mut Constraints,
    p: &Program,
    classes: &ClassNumbers,
    m: u32,
    k: u32,
    type_: &JavaType,
) -> Result<(), Memory>
    requires { AreNumbers p.now classes.now }
    ensures { OnOk result (told.new ≡ told.old ++ starts.gives p.now m k type_.now) }
{
    let made = fresh_tokens(alloc, p, classes, type_)?;
    add_makes(told, made.as_slice())?;
    add_hands_over(told, m, k, type_.kind)
}

// Adds the same for parameters of these types, of which the first has a number.
fn add_gives_each(
    alloc: Global,
    told: &mut Constraints,
    p: &Program,
    classes: &ClassNumbers,
    m: u32,
    first: u32,
    types: &[JavaType],
) -> Result<(), Memory>
    requires numbers { AreNumbers p.now classes.now }
    requires first { first ≤ 1 }
    requires few { length types.now ≤ 255 }
    ensures { OnOk result (told.new ≡ told.old ++ starts.gives_each p.now m first types.now) }
{
    let mut k = first;
    for type_ in types {
        add_gives(alloc, told, p, classes, m, k, type_)?;
        k += 1;
    }
    Ok(())
}

// Whether a method makes an object of a class ready without arguments.
fn is_constructor(method: &Method, class: u32) -> bool
    ensures { result ≡ entries.is_constructor class method.now }
{
    method.class.0 == class
        && (!is_static(method.flags)
            && (method.name.bytes() == b"<init>".as_slice()
                && (method.desc.bytes() == b"()V".as_slice() && method.code.len() > 0)))
}

// The constructor without parameters that a class declares, if there is one.
fn constructor_of(p: &Program, class: u32) -> Option<u32>
    ensures { result ≡ entries.constructor_of p.now class }
{
    for (m, method) in p.methods().as_slice().iter().enumerate() {
        if is_constructor(method, class) {
            return Some(m as u32);
        }
    }
    None
}

// Adds that the environment runs a constructor of a class, if there is one.
fn add_constructs(told: &mut Constraints, class: u32, found: Option<u32>) -> Result<(), Memory>
    ensures { OnOk result (told.new ≡ told.old ++ starts.constructs class found) }
{
    match found {
        Some(method) => {
            add_reach(told, method, 0)?;
            add_token(told, Cell::Param { method, param: 0 }, class)
        }
        None => Ok(()),
    }
}

// Adds that the environment makes an object of a class, on which it runs a method.
fn add_makes_receiver(
    told: &mut Constraints,
    p: &Program,
    class: u32,
    method: u32,
) -> Result<(), Memory>
    ensures { OnOk result (told.new ≡ told.old ++ starts.makes_receiver p.now class method) }
{
    add_token(told, Cell::Environment, class)?;
    add_token(told, Cell::Param { method, param: 0 }, class)?;
    add_constructs(told, class, constructor_of(p, class))
}

// Adds the same, where the method of an entry has a receiver.
fn add_receives(
    told: &mut Constraints,
    p: &Program,
    entry: &Entry,
    method: &Method,
) -> Result<(), Memory>
    ensures { OnOk result (told.new ≡ told.old ++ starts.receives p.now entry.now method.now) }
{
    if is_static(method.flags) {
        Ok(())
    } else {
        add_makes_receiver(told, p, entry.class.0, entry.method.0)
    }
}

// The number of a method's first parameter that has a type in its descriptor.
fn first_param(method: &Method) -> u32
    ensures first { result ≡ starts.first_param method.now }
    ensures small { result ≤ 1 }
{
    if is_static(method.flags) { 0 } else { 1 }
}

// Adds what the environment gives to the method of an entry.
fn add_gives_all(
    alloc: Global,
    told: &mut Constraints,
    p: &Program,
    classes: &ClassNumbers,
    entry: &Entry,
    method: &Method,
) -> Result<(), Memory>
    requires numbers { AreNumbers p.now classes.now }
    requires few { length method.now.types.params ≤ 255 }
    ensures { OnOk result (told.new ≡ told.old ++ starts.gives_all p.now entry.now method.now) }
{
    let types = method.types.params.as_slice();
    add_receives(told, p, entry, method)?;
    add_gives_each(
        alloc,
        told,
        p,
        classes,
        entry.method.0,
        first_param(method),
        types,
    )
}

// Adds what the environment gives to the method of an entry, if there is one.
fn add_gives_to(
    alloc: Global,
    told: &mut Constraints,
    p: &Program,
    classes: &ClassNumbers,
    entry: &Entry,
) -> Result<(), Memory>
    requires numbers { AreNumbers p.now classes.now }
    ensures { OnOk result (told.new ≡ told.old ++ starts.gives_to p.now entry.now (slice_get p.now.methods entry.now.method.0)) }
{
    match method_of(p, entry.method.0) {
        Some(method) => add_gives_all(alloc, told, p, classes, entry, method),
        None => Ok(()),
    }
}

// The class initialisers of a class, if there is one of this number.
fn inits_of(p: &Program, class: u32) -> &[MethodId]
    ensures { result.now ≡ inits_of_class (slice_get p.now.classes class) }
{
    match p.classes().as_slice().get(class as usize) {
        Some(info) => info.inits.as_slice(),
        None => &[],
    }
}

// Adds what is told of an entry.
fn add_entry(
    alloc: Global,
    told: &mut Constraints,
    p: &Program,
    classes: &ClassNumbers,
    entry: &Entry,
) -> Result<(), Memory>
    requires { AreNumbers p.now classes.now }
    ensures { OnOk result (told.new ≡ told.old ++ starts.enters p.now entry.now) }
{
    add_reach(told, entry.method.0, 0)?;
    add_begins(told, inits_of(p, entry.class.0))?;
    add_gives_to(alloc, told, p, classes, entry)
}

// Adds what is told of entries.
fn add_entries(
    alloc: Global,
    told: &mut Constraints,
    p: &Program,
    classes: &ClassNumbers,
    list: &[Entry],
) -> Result<(), Memory>
    requires { AreNumbers p.now classes.now }
    ensures { OnOk result (told.new ≡ told.old ++ starts.enter_all p.now list.now) }
{
    for entry in list {
        add_entry(alloc, told, p, classes, entry)?;
    }
    Ok(())
}

// Adds that a field that begins as a constant text has one.
fn add_begins_as(
    told: &mut Constraints,
    p: &Program,
    field: u32,
    info: &Field,
) -> Result<(), Memory>
    ensures { OnOk result (told.new ≡ told.old ++ starts.begins_as p.now field info.now) }
{
    if info.text {
        add_token(told, Cell::Field { field }, text_token(p))
    } else {
        Ok(())
    }
}

// Adds the same for all fields.
fn add_fields(told: &mut Constraints, p: &Program, fields: &[Field]) -> Result<(), Memory>
    requires { length fields.now < 2 ^ 32 }
    ensures { OnOk result (told.new ≡ told.old ++ starts.begin_fields p.now 0 fields.now) }
{
    for (f, field) in fields.iter().enumerate() {
        add_begins_as(told, p, f as u32, field)?;
    }
    Ok(())
}

/// Adds what is told at first: what the environment makes, runs and hands over, and the texts of
/// fields.
pub fn add_starts(
    alloc: Global,
    told: &mut Constraints,
    p: &Program,
    classes: &ClassNumbers,
) -> Result<(), Memory>
    requires { AreNumbers p.now classes.now }
    ensures { OnOk result (told.new ≡ told.old ++ starts.starts p.now) }
{
    add_link(told, Cell::Environment, Action::Stock)?;
    add_entries(alloc, told, p, classes, p.entries().as_slice())?;
    add_fields(told, p, p.fields().as_slice())
}
