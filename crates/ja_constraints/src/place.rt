ghost use Rattle.std.specs.Prelude.{◌≡◌, slice_get};
ghost use Rattle.std.specs.Option.{option_copied};
ghost use Rattle.ja_constraints.specs.Places as places;
ghost use Rattle.ja_ir.specs.Whole.{IsWhole};
ghost use Rattle.ja_cells.specs.Names.{row_at};

use ja_cells::{Names, cell_in};
use ja_ir::{CallOp, Instr, Method, Program, arguments};
use ja_network::Cell;

/// The method of a number, if there is one.
pub fn method_of(p: &Program, m: u32) -> Option<&Method>
    ensures found { option_copied result ≡ slice_get p.now.methods m }
    ensures whole { IsWhole p.now }
{
    p.methods().as_slice().get(m as usize)
}

/// The instruction of a method at an index, if there is one.
pub fn instr_of(method: &Method, i: u32) -> Option<&Instr>
    ensures { option_copied result ≡ slice_get method.now.code i }
{
    method.code.as_slice().get(i as usize)
}

/// The cells of the slots before an instruction.
pub fn row_at(names: &Names, m: u32, i: u32) -> &[Cell]
    ensures { result.now ≡ row_at names.now m i }
{
    match names.as_slice().get(m as usize) {
        Some(rows) => match rows.as_slice().get(i as usize) {
            Some(row) => row.as_slice(),
            None => &[],
        },
        None => &[],
    }
}

/// The cell of the topmost value of so many on the stack, over so many locals.
pub fn top_cell(row: &[Cell], locals: u32, height: u32) -> Cell
    ensures { result ≡ places.top_cell row.now locals height }
{
    if height == 0 {
        return Cell::Nothing;
    }
    cell_in(row, locals as u64 + (height as u64 - 1))
}

/// The cell of an argument of a call, before which so many values are on the stack.
pub fn argument_cell(row: &[Cell], locals: u32, height: u32, call: &CallOp, k: u32) -> Cell
    ensures { result ≡ places.argument_cell row.now locals height call.now k }
{
    let under = (height as u64).saturating_sub(arguments(call));
    cell_in(row, locals as u64 + (under + k as u64))
}
