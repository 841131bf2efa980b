//! What growth answers, as text.
ghost use Rattle.std.specs.Prelude.{◌≤◌, IfOk};
ghost use Rattle.ja_base.specs.declared.limit.TheConstants.{MIN_SLOTS, MAX_SLOTS};
ghost use Rattle.ja_node_table.specs.Seats.{IsOf, known};
ghost use Rattle.ja_bdd.specs.Workers.{IsWorkerOf, seen};
ghost use Rattle.diagram_cases.specs.Roots.{AreKnown};

use ja_base::Memory;
use ja_bdd::{Roots, Worker};
use ja_grow::{GrowFault, Rebuilt, rebuild};
use ja_node_core::AnyAim;
use ja_node_table::NodeTable;
use std::alloc::Global;

/// The roots in a new table of so many slots, between 16 and 2^24.
pub fn grown(
    alloc: Global,
    table: &NodeTable<AnyAim>,
    worker: &mut Worker<AnyAim>,
    roots: &Roots,
    slots: u64,
) -> Result<Rebuilt<AnyAim>, GrowFault<AnyAim>>
    requires worker { IsWorkerOf table.now worker.old }
    requires roots { AreKnown (seen worker.old) roots.now }
    requires slots { (MIN_SLOTS ≤ slots) × (slots ≤ MAX_SLOTS) }
    ensures seat { IfOk result (λ r. IsOf r.table r.seat) }
    ensures roots { IfOk result (λ r. AreKnown (known r.seat) r.roots) }
{
    let mut seat = worker.give_seat(table);
    rebuild(alloc, table, &mut seat, roots, slots)
}

/// Adds what became of the roots: their numbers, or how many slots are too few.
pub fn add_grown(
    out: &mut String,
    grown: &Result<Rebuilt<AnyAim>, GrowFault<AnyAim>>,
) -> Result<(), Memory> {
    match grown {
        Ok(rebuilt) => {
            for root in rebuilt.roots.as_slice() {
                write!(out, " {}", root.number)?;
            }
            Ok(writeln!(out)?)
        }
        Err(GrowFault::Memory) => Err(Memory),
        Err(GrowFault::Full(full)) => Ok(writeln!(out, " full, {} slots", full.slots())?),
    }
}
