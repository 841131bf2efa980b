ghost use Rattle.std.specs.Prelude.{◌≡◌, ◌<◌, OnOk};
ghost use Rattle.bdd_bench.specs.Ready.{IsReady};

use crate::compose::{Forgetting, compose};
use crate::failure::Failure;
use crate::pool::{Pool, SLOTS, Step, TRUE, is, is_not};
use ja_node_core::AnyAim;
use ja_node_table::NodeTable;

/// The relation that keeps each slot as it is, between two of its copies.
fn kept(pool: &mut Pool, table: &NodeTable<AnyAim>, one: u32, other: u32) -> Result<usize, Failure>
    requires ready { IsReady table.now pool.old }
    requires copies { (one < 4) × (other < 4) }
    ensures { OnOk result (IsReady table.now pool.new) }
{
    let mut made = TRUE;
    for down in 0..SLOTS {
        let slot = 4 * (SLOTS - 1 - down);
        let both = pool.step(table, Step::And, is(slot + one), is(slot + other))?;
        let neither = pool.step(table, Step::And, is_not(slot + one), is_not(slot + other))?;
        let same = pool.step(table, Step::Or, both, neither)?;
        made = pool.step(table, Step::And, same, made)?;
    }
    Ok(made)
}

/// Composes the relation that keeps each slot so many times with itself, to copy 2 and back to
/// copy 1 in turn. Answers 1 where that keeps each slot, too, else 0.
pub fn identity(
    pool: &mut Pool,
    table: &NodeTable<AnyAim>,
    forgetting: Forgetting,
    rounds: u64,
) -> Result<u64, Failure>
    requires { IsReady table.now pool.old }
    ensures { OnOk result (IsReady table.now pool.new) }
{
    let start = kept(pool, table, 0, 1)?;
    let next = kept(pool, table, 1, 2)?;
    let mut made = start;
    for _round in 0..rounds {
        let across = compose(pool, table, forgetting, made, next, 1)?;
        made = compose(pool, table, forgetting, across, next, 2)?;
    }
    let start = pool.node(start)?;
    let made = pool.node(made)?;
    Ok(u64::from(made == start))
}
