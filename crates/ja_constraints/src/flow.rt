ghost use Rattle.std.specs.Prelude.{◌≡◌, ◌++◌, ◌<◌, ◌≤◌, ◌^◌, ◌+◌, All, length, OnOk};
ghost use Rattle.ja_base.specs.Descriptor.{words_of_all};
ghost use Rattle.ja_constraints.specs.Flows as flows;

use crate::constraint::{Constraints, add_copy, add_reach};
use crate::place::row_at;
use ja_base::{JavaType, Memory, MethodId};
use ja_cells::{Names, cell_in};
use ja_ir::{Method, is_static};
use ja_network::Cell;

// Adds that what comes to a slot goes to its cell, where this is one of a slot before instruction `j`.
fn add_flow(told: &mut Constraints, m: u32, j: u32, next: &[Cell], cell: Cell) -> Result<(), Memory>
    ensures { OnOk result (told.new ≡ told.old ++ flows.flow m j next.now cell) }
{
    match cell {
        Cell::Before {
            method,
            index,
            slot,
        } => {
            if method == m && index == j {
                add_copy(told, cell_in(next, slot as u64), cell)
            } else {
                Ok(())
            }
        }
        _ => Ok(()),
    }
}

// Adds that what comes to slots goes to their cells.
fn add_flows(
    told: &mut Constraints,
    m: u32,
    j: u32,
    next: &[Cell],
    there: &[Cell],
) -> Result<(), Memory>
    ensures { OnOk result (told.new ≡ told.old ++ flows.flows m j next.now there.now) }
{
    for cell in there {
        add_flow(told, m, j, next, *cell)?;
    }
    Ok(())
}

// Adds that control goes on to an instruction, and values with it.
fn add_way(
    told: &mut Constraints,
    names: &Names,
    m: u32,
    next: &[Cell],
    j: u32,
) -> Result<(), Memory>
    ensures { OnOk result (told.new ≡ told.old ++ flows.way names.now m next.now j) }
{
    add_reach(told, m, j)?;
    add_flows(told, m, j, next, row_at(names, m, j))
}

/// Adds that control goes on to these instructions, and values with it.
pub fn add_next(
    told: &mut Constraints,
    names: &Names,
    m: u32,
    next: &[Cell],
    targets: &[u64],
) -> Result<(), Memory>
    requires { All (λ j. j < 2 ^ 32) targets.now }
    ensures { OnOk result (told.new ≡ told.old ++ flows.goes_on names.now m next.now targets.now) }
{
    for j in targets {
        add_way(told, names, m, next, *j as u32)?;
    }
    Ok(())
}

/// Adds that these methods may begin.
pub fn add_begins(told: &mut Constraints, methods: &[MethodId]) -> Result<(), Memory>
    ensures { OnOk result (told.new ≡ told.old ++ flows.begin_each methods.now) }
{
    for method in methods {
        add_reach(told, method.0, 0)?;
    }
    Ok(())
}

// Adds that a parameter comes to a local.
fn add_enter(told: &mut Constraints, method: u32, param: u32, slot: u32) -> Result<(), Memory>
    ensures { OnOk result (told.new ≡ told.old ++ flows.enter method param slot) }
{
    let to = Cell::Before {
        method,
        index: 0,
        slot,
    };
    add_copy(told, Cell::Param { method, param }, to)
}

// Adds that parameters of these types come to locals, the first to a parameter and a local of this
// number.
fn add_types(
    told: &mut Constraints,
    method: u32,
    first: u32,
    types: &[JavaType],
) -> Result<(), Memory>
    requires first { first ≤ 1 }
    requires few { words_of_all types.now ≤ 255 }
    ensures { OnOk result (told.new ≡ told.old ++ flows.enter_types method first first types.now) }
{
    let mut local = first;
    let mut param = first;
    for type_ in types {
        add_enter(told, method, param, local)?;
        local += type_.kind.words();
        param += 1;
    }
    Ok(())
}

/// Adds that the parameters of a method come to its locals.
pub fn add_enters(told: &mut Constraints, m: u32, method: &Method) -> Result<(), Memory>
    requires { words_of_all method.now.types.params ≤ 255 }
    ensures { OnOk result (told.new ≡ told.old ++ flows.enters m method.now) }
{
    let types = method.types.params.as_slice();
    if is_static(method.flags) {
        return add_types(told, m, 0, types);
    }
    add_enter(told, m, 0, 0)?;
    add_types(told, m, 1, types)
}
