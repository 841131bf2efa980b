//! Renaming.
ghost use Rattle.std.specs.Prelude.{◌≤◌, IfSome, OnOk};
ghost use Rattle.ja_node_core.specs.Node.{Knows};
ghost use Rattle.ja_bdd.specs.Workers.{IsWorkerOf, seen};

use ja_base::Memory;
use ja_bdd::{Renaming, Worker};
use ja_node_core::AnyAim;
use ja_node_table::{Node, NodeTable};
use std::alloc::Global;

/// The node of a variable, and what a renaming makes of it.
fn literal_and_partner(
    table: &NodeTable<AnyAim>,
    worker: &mut Worker<AnyAim>,
    var: u32,
    m: &Renaming,
) -> Option<(Node, Node)>
    requires worker { IsWorkerOf table.now worker.old }
    requires var { var ≤ 4094 }
    ensures worker { IsWorkerOf table.now worker.new }
    ensures known { IfSome result (λ r. Knows (seen worker.new) r.0.number × Knows (seen worker.new) r.1.number) }
{
    match worker.make(table, var, Node::FALSE, Node::TRUE) {
        Ok(literal) => match worker.shift(table, literal, m) {
            Ok(partner) => Some((literal, partner)),
            Err(_) => None,
        },
        Err(_) => None,
    }
}

/// Adds what a renaming makes of the node of a variable.
fn add_shifted(
    out: &mut String,
    table: &NodeTable<AnyAim>,
    worker: &mut Worker<AnyAim>,
) -> Result<(), Memory>
    requires { IsWorkerOf table.now worker.old }
    ensures { OnOk result (IsWorkerOf table.now worker.new) }
{
    let mut m = Renaming::new();
    m.put(0, 2);
    let Some((a, shifted)) = literal_and_partner(table, worker, 0, &m) else {
        return Ok(writeln!(out, "renamed: no room")?);
    };
    let other = worker.same(a, shifted);
    let same = worker.same(a, a);
    if shifted.number > 1 {
        let parts = worker.parts(table, shifted);
        writeln!(
            out,
            "renamed: variable {} low {} high {} same {other} {same}",
            parts.var, parts.lo.number, parts.hi.number
        )?;
    }
    Ok(())
}

/// Adds what a renaming makes of the node of a variable, by a worker whose seat is given and taken.
pub fn add_renamed(out: &mut String, alloc: Global) -> Result<(), Memory> {
    let (table, seat) = NodeTable::new(alloc, 65536, AnyAim)?;
    let mut worker = Worker::new(alloc, seat).ok().ok_or(Memory)?;
    add_shifted(out, &table, &mut worker)?;
    let given = worker.give_seat(&table);
    worker.take_seat(&table, given);
    Ok(())
}
