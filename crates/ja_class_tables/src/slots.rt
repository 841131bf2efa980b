ghost use Rattle.std.specs.Prelude.{◌≡◌, [], length, slice_index_or, IfOk, OnOk};
ghost use Rattle.ja_network.specs.Facts.{IsNetwork};
ghost use Rattle.ja_class_tables.specs.InnerPool.{AreNamed, AreRowsNamed, AreSlotsNamed, Grows, IsPool, cells_before};
ghost use Rattle.ja_class_tables.specs.InnerNotes.{HasItems};

use crate::pool::Pool;
use ja_base::{Memory, MethodId, Seq};
use ja_cells::Names;
use ja_constraints::row_at;
use ja_facts::{CallGraph, FlatRows, Rows};
use ja_ir::{Method, Program};
use ja_network::{Cell, Network};
use std::alloc::Global;

// The cells of the slots before an instruction, if it is reached.
fn cells_before<'a>(names: &'a Names, graph: &CallGraph, m: u32, i: u32) -> &'a [Cell]
    ensures { result.now ≡ cells_before names.now graph.now m i }
{
    if graph.reached(MethodId(m), i) {
        row_at(names, m, i)
    } else {
        &[]
    }
}

// The names of the sets of cells.
fn row_names(
    alloc: Global,
    net: &Network,
    cells: &[Cell],
    pool: &mut Pool,
) -> Result<Seq<u32>, Memory>
    requires network { IsNetwork net.now }
    requires pool { IsPool net.now pool.old }
    ensures pool { OnOk result (IsPool net.now pool.new) }
    ensures grows { OnOk result (Grows pool.old.sets pool.new.sets) }
    ensures named { IfOk result (AreNamed net.now pool.new.sets cells.now) }
{
    let mut row = Seq::new(alloc);
    for cell in cells {
        let name = pool.name(alloc, net, *cell)?;
        row.push(name)?;
    }
    Ok(row)
}

// The names of the sets of the slots before the instructions of a method.
fn method_slots(
    alloc: Global,
    names: &Names,
    net: &Network,
    graph: &CallGraph,
    m: u32,
    size: u32,
    pool: &mut Pool,
) -> Result<FlatRows, Memory>
    requires network { IsNetwork net.now }
    requires room { length (slice_index_or graph.now.reached m []) ≡ size }
    requires pool { IsPool net.now pool.old }
    ensures pool { OnOk result (IsPool net.now pool.new) }
    ensures grows { OnOk result (Grows pool.old.sets pool.new.sets) }
    ensures named { IfOk result (AreRowsNamed net.now names.now graph.now pool.new.sets m) }
{
    let mut rows = FlatRows::new(alloc);
    for i in 0..size {
        let row = row_names(alloc, net, cells_before(names, graph, m, i), pool)?;
        rows.push(row.as_slice())?;
    }
    Ok(rows)
}

/// The names of the sets of the slots before each instruction of each method.
pub fn slot_names(
    alloc: Global,
    p: &Program,
    names: &Names,
    net: &Network,
    graph: &CallGraph,
    pool: &mut Pool,
) -> Result<Rows<FlatRows>, Memory>
    requires network { IsNetwork net.now }
    requires room { HasItems p.now graph.now.reached }
    requires pool { IsPool net.now pool.old }
    ensures pool { OnOk result (IsPool net.now pool.new) }
    ensures grows { OnOk result (Grows pool.old.sets pool.new.sets) }
    ensures named { IfOk result (AreSlotsNamed net.now names.now graph.now pool.new.sets) }
{
    let mut table = Rows::new(alloc);
    for (m, method) in p.methods().as_slice().iter().enumerate() {
        let size = method.code.len() as u32;
        let rows = method_slots(alloc, names, net, graph, m as u32, size, pool)?;
        table.push(rows)?;
    }
    Ok(table)
}
