ghost use Rattle.std.specs.Prelude.{◌≡◌, ◌++◌, OnOk, replicate, slice_get};
ghost use Rattle.ja_cells.specs.Rows as rows;
ghost use Rattle.ja_ir.specs.Operations.{result_count};
ghost use Rattle.ja_network.specs.declared.cell.Cell.TheVariants.{Nothing};

use ja_base::{JavaType, Kind, Memory, Seq};
use ja_ir::{Op, Program, is_abstract, is_interface, pushes};
use ja_network::Cell;
use ja_tokens::{rarr_token, text_token};

/// Whether objects of the token can be made: it is no program class, or one that is neither abstract
/// nor an interface.
pub fn is_made(p: &Program, token: u32) -> bool
    ensures { result ≡ rows.is_made (slice_get p.now.classes token) }
{
    match p.classes().as_slice().get(token as usize) {
        Some(class) => !is_abstract(class.flags) && !is_interface(class.flags),
        None => true,
    }
}

/// The token of a new array of so many dimensions whose innermost is of this token.
pub fn outer_token(p: &Program, last: u32, dimensions: u32) -> u32
    ensures { result ≡ rows.outer_token p.now last dimensions }
{
    if dimensions <= 1 { last } else { rarr_token(p) }
}

// The cell of a new object of the token.
fn made_cell(p: &Program, token: u32) -> Cell
    ensures { result ≡ rows.made_cell p.now token }
{
    if is_made(p, token) {
        Cell::Single { token }
    } else {
        Cell::Nothing
    }
}

// The cell of an array's element.
fn element_cell(p: &Program, kind: Kind) -> Cell
    ensures { result ≡ rows.element_cell p.now kind }
{
    match kind {
        Kind::R => Cell::Bag {
            token: rarr_token(p),
        },
        _ => Cell::Nothing,
    }
}

// Adds so many cells without tokens.
fn add_nothing(row: &mut Seq<Cell>, count: u64) -> Result<(), Memory>
    ensures { OnOk result (row.new ≡ row.old ++ replicate count Nothing) }
{
    for _i in 0..count {
        row.push(Cell::Nothing)?;
    }
    Ok(())
}

// Adds the cell of a call's result, where it has one.
fn add_result(row: &mut Seq<Cell>, type_: &Option<JavaType>, cell: Cell) -> Result<(), Memory>
    ensures { OnOk result (row.new ≡ row.old ++ replicate (result_count type_.now) cell) }
{
    match type_ {
        Some(_) => row.push(cell),
        None => Ok(()),
    }
}

/// Adds the cells of what an instruction pushes, where this is no copy of what was there.
pub fn add_pushed(
    p: &Program,
    method: u32,
    index: u32,
    op: &Op,
    row: &mut Seq<Cell>,
) -> Result<(), Memory>
    ensures { OnOk result (row.new ≡ row.old ++ rows.pushed_cells p.now method index op.now) }
{
    match op {
        Op::Text => row.push(Cell::Single {
            token: text_token(p),
        }),
        Op::New(token) => row.push(made_cell(p, token.0)),
        Op::NewArray { last, dimensions } => row.push(Cell::Single {
            token: outer_token(p, last.0, *dimensions),
        }),
        Op::ArrLoad(kind) => row.push(element_cell(p, *kind)),
        Op::GetField(field) => row.push(Cell::Field { field: field.0 }),
        Op::GetStatic(field) => row.push(Cell::Field { field: field.0 }),
        Op::Cast(_) => row.push(Cell::Pushed { method, index }),
        Op::Call(call) => add_result(row, &call.result, Cell::Pushed { method, index }),
        _ => add_nothing(row, pushes(op)),
    }
}
