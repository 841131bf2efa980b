ghost use Rattle.std.specs.Prelude.{◌≡◌, ◌+◌, ◌<◌, ◌^◌, Some, length, slice_get, true, IfOk};
ghost use Rattle.ja_ir.specs.Whole.{IsWhole};
ghost use Rattle.ja_cells.specs.Joins.{AreJoins};
ghost use Rattle.ja_cells.specs.Rows.{own_row};
ghost use Rattle.ja_cells.specs.Names.{AreNames, AreRows, IsRow};

use crate::joins::{goes_on, joins_of};
use crate::row::{next_row, own_row};
use ja_base::{Memory, Seq};
use ja_ir::{Instr, Method, Program};
use ja_network::Cell;
use ja_sets::TokenSet;
use std::alloc::Global;

/// The cells of the slots before an instruction: those of the locals, and then those of the values on
/// the stack, from the bottom.
pub type CellRow = Seq<Cell>;

/// The cells of the slots before each instruction of a method.
pub type CellRows = Seq<CellRow>;

/// The cells of the slots before each instruction of each method.
pub type Names = Seq<CellRows>;

/// The cells of the slots before each instruction of each method of a program.
pub fn names_of(alloc: Global, p: &Program) -> Result<Names, Memory>
    ensures { IfOk result (AreNames p.now) }
{
    let mut names = Seq::new(alloc);
    for (m, method) in p.methods().as_slice().iter().enumerate() {
        let rows = rows_of(alloc, p, m as u32, method)?;
        names.push(rows)?;
    }
    Ok(names)
}

// The cells of the slots before each instruction of a method.
fn rows_of(alloc: Global, p: &Program, m: u32, method: &Method) -> Result<CellRows, Memory>
    requires whole { IsWhole p.now }
    requires found { slice_get p.now.methods m ≡ Some method.now }
    ensures { IfOk result (AreRows p.now m method.now (length method.now.code)) }
{
    let joins = joins_of(alloc, method)?;
    let mut rows = Seq::new(alloc);
    for (j, instr) in method.code.as_slice().iter().enumerate() {
        let row = row_before(alloc, p, m, method, j as u32, instr, &joins, &rows)?;
        rows.push(row)?;
    }
    Ok(rows)
}

// The cells of the slots before an instruction, where those before the earlier ones are there.
fn row_before(
    alloc: Global,
    p: &Program,
    m: u32,
    method: &Method,
    j: u32,
    instr: &Instr,
    joins: &TokenSet,
    rows: &CellRows,
) -> Result<CellRow, Memory>
    requires whole { IsWhole p.now }
    requires found { slice_get p.now.methods m ≡ Some method.now }
    requires at { slice_get method.now.code j ≡ Some instr.now }
    requires joins { AreJoins method.now joins.now }
    requires rows { length rows.now ≡ j }
    ensures { instr.now.reached ≡ true → IfOk result (IsRow p.now m method.now rows.now j instr.now) }
{
    if !instr.reached {
        return Ok(Seq::new(alloc));
    }
    if j == 0 {
        return own_row(alloc, m, j, method.locals + instr.height);
    }
    let before = method.code.at(j as u64 - 1);
    if goes_on(before, joins, j) {
        let row = rows.at(j as u64 - 1);
        return next_row(alloc, p, m, j - 1, &before.op, row.as_slice());
    }
    own_row(alloc, m, j, method.locals + instr.height)
}
