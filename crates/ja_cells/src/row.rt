ghost use Rattle.std.specs.Prelude.{◌≡◌, ◌<◌, ◌^◌, ◌+◌, length, slice_set, IfOk};
ghost use Rattle.ja_cells.specs.Rows as rows;

use crate::made::add_pushed;
use ja_base::{Memory, Seq};
use ja_ir::{Op, Program, pops};
use ja_network::Cell;
use std::alloc::Global;

/// Cells of their own for so many slots before an instruction.
pub fn own_row(alloc: Global, method: u32, index: u32, count: u32) -> Result<Seq<Cell>, Memory>
    ensures { IfOk result (λ row. row ≡ rows.own_row method index 0 count) }
{
    let mut row = Seq::new(alloc);
    for slot in 0..count {
        row.push(Cell::Before {
            method,
            index,
            slot,
        })?;
    }
    Ok(row)
}

/// The cell at a place, and one without tokens past the end.
pub fn cell_in(row: &[Cell], z: u64) -> Cell
    ensures { result ≡ rows.cell_in row.now z }
{
    match row.get(z as usize) {
        Some(cell) => *cell,
        None => Cell::Nothing,
    }
}

// The row without its last cells.
fn without_last(alloc: Global, row: &[Cell], count: u64) -> Result<Seq<Cell>, Memory>
    ensures { IfOk result (λ left. left ≡ rows.without_last count row.now) }
{
    let left = (row.len() as u64).saturating_sub(count) as usize;
    Seq::copy_of(alloc, &row[..left])
}

// The last cells of the row.
fn last_of(row: &[Cell], count: u64) -> &[Cell]
    ensures { result.now ≡ rows.last_of count row.now }
{
    let left = (row.len() as u64).saturating_sub(count) as usize;
    &row[left..]
}

// Puts a cell at a place, where there is one.
fn set_cell(cells: &mut [Cell], z: usize, cell: Cell)
    ensures { cells.new ≡ slice_set cells.old z cell }
{
    if z < cells.len() {
        cells[z] = cell;
    }
}

// The cells after a load.
fn loaded(alloc: Global, row: &[Cell], local: u32) -> Result<Seq<Cell>, Memory>
    ensures { IfOk result (λ next. next ≡ rows.loaded row.now local) }
{
    let mut next = Seq::copy_of(alloc, row)?;
    next.push(cell_in(row, local as u64))?;
    Ok(next)
}

// The cells after a store.
fn stored(alloc: Global, row: &[Cell], local: u32) -> Result<Seq<Cell>, Memory>
    ensures { IfOk result (λ next. next ≡ rows.stored row.now local) }
{
    let last = cell_in(row, (row.len() as u64).saturating_sub(1));
    let left = without_last(alloc, row, 1)?;
    let mut cells = left.into_vec();
    set_cell(cells.as_mut_slice(), local as usize, last);
    Ok(Seq::from_vec(cells))
}

// The cells after a shuffle.
fn shuffled(alloc: Global, row: &[Cell], count: u64, pushed: &[u64]) -> Result<Seq<Cell>, Memory>
    ensures { IfOk result (λ next. next ≡ rows.shuffled row.now count pushed.now) }
{
    let mut next = without_last(alloc, row, count)?;
    let taken = last_of(row, count);
    for k in pushed {
        next.push(cell_in(taken, *k))?;
    }
    Ok(next)
}

// The cells after another operation.
fn plain(
    alloc: Global,
    p: &Program,
    m: u32,
    i: u32,
    op: &Op,
    row: &[Cell],
) -> Result<Seq<Cell>, Memory>
    ensures { IfOk result (λ next. next ≡ rows.plain p.now m i op.now row.now) }
{
    let mut next = without_last(alloc, row, pops(op))?;
    add_pushed(p, m, i, op, &mut next)?;
    Ok(next)
}

/// The cells of the slots at the normal end of an instruction, before which they are these.
pub fn next_row(
    alloc: Global,
    p: &Program,
    m: u32,
    i: u32,
    op: &Op,
    row: &[Cell],
) -> Result<Seq<Cell>, Memory>
    ensures { IfOk result (λ next. next ≡ rows.next_row p.now m i op.now row.now) }
{
    match op {
        Op::Load(_, local) => loaded(alloc, row, *local),
        Op::Store(_, local) => stored(alloc, row, *local),
        Op::Shuffle { pops, pushes } => shuffled(alloc, row, *pops as u64, pushes.as_slice()),
        _ => plain(alloc, p, m, i, op, row),
    }
}
