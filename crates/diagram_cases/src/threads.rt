//! Two workers in threads.
ghost use Rattle.std.specs.Prelude.{◌≡◌, IfOk, OnOk};
ghost use Rattle.std.specs.List.{All};
ghost use Rattle.ja_node_core.specs.Node.{Knows};
ghost use Rattle.ja_bdd.specs.Workers.{IsWorkerOf, seen};

use crate::pool::{Pool, Step};
use ja_base::Memory;
use ja_node_core::AnyAim;
use ja_node_table::NodeTable;
use std::alloc::Global;
use std::thread::{Threads, join};

/// One of the first twelve variables or its partner, for each of them, in rising or falling order.
fn paired(pool: &mut Pool, table: &NodeTable<AnyAim>, rising: bool) -> Result<usize, Memory>
    requires { IsWorkerOf table.now pool.old.worker × All (λ n. Knows (seen pool.old.worker) n.number) pool.old.nodes.items }
    ensures { OnOk result (IsWorkerOf table.now pool.new.worker × All (λ n. Knows (seen pool.new.worker) n.number) pool.new.nodes.items) }
{
    let mut made = 1;
    for step in 0..12 {
        let var = if rising { step } else { 11 - step };
        let x = pool.step(table, Step::Literal(var, true), 0, 0)?;
        let y = pool.step(table, Step::Literal(var + 12, true), 0, 0)?;
        let pair = pool.step(table, Step::Or, x, y)?;
        made = pool.step(table, Step::And, pair, made)?;
    }
    Ok(made)
}

/// The same in a thread of its own.
fn paired_alone(
    table: &NodeTable<AnyAim>,
    mut pool: Pool,
    rising: bool,
) -> Result<(Pool, usize), Memory>
    requires { IsWorkerOf table.now pool.worker × All (λ n. Knows (seen pool.worker) n.number) pool.nodes.items }
    ensures { IfOk result (λ r. IsWorkerOf table.now r.0.worker × All (λ n. Knows (seen r.0.worker) n.number) r.0.nodes.items) }
{
    let made = paired(&mut pool, table, rising)?;
    Ok((pool, made))
}

/// Adds whether two threads get one number for a function.
pub fn add_workers<R: Threads + Sync>(
    out: &mut String,
    rt: &R,
    alloc: Global,
) -> Result<(), Memory> {
    let (table, mut seat) = NodeTable::new(alloc, 65536, AnyAim)?;
    let other = table.split(&mut seat);
    let one = Pool::new(alloc, &table, seat)?;
    let two = Pool::new(alloc, &table, other)?;
    let (one, two) = join(
        rt,
        || paired_alone(&table, one, true),
        || paired_alone(&table, two, false),
    );
    let (mut one, f) = one?;
    let (mut two, g) = two?;
    one.rejoin(&table, &mut two);
    let f = one.number(f);
    let same = f.is_some() && f == two.number(g);
    Ok(writeln!(out, "two workers: one number {same}")?)
}
