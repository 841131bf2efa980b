ghost use Rattle.std.specs.Prelude.{◌≡◌, ◌<◌, OnOk};
ghost use Rattle.ja_node_core.specs.Node.{Knows};
ghost use Rattle.ja_bdd.specs.Workers.{IsWorkerOf, seen};
ghost use Rattle.bdd_bench.specs.Ready.{IsReady};

use crate::compose::{Forgetting, compose};
use crate::failure::Failure;
use crate::pool::{Pool, Step, TRUE, is, is_not};
use ja_base::MAX_VARIABLES;
use ja_bdd::Worker;
use ja_node_core::AnyAim;
use ja_node_table::{Node, NodeTable};

/// How many slots the formulas speak of.
const TAINTED: u32 = 30;

/// How many slots may be tainted by others.
const JOINED: u32 = 15;

/// How many slots of a relation are forgotten.
const FORGOTTEN: u32 = 10;

/// The last variable of a diagram.
const LAST: u32 = MAX_VARIABLES - 1;

fn next_random(random: u64) -> u64 {
    random
        .wrapping_mul(0x5851_f42d_4c95_7f2d)
        .wrapping_add(0x1405_7b7e_f767_814f)
}

/// A slot.
fn slot_of(random: u64) -> u32
    ensures { result < 30 }
{
    (random >> 33) as u32 % TAINTED
}

/// What a slot is after a call at most: what it was, or what another one was. The slots before the
/// call are of this copy, and those after it of the next.
fn clause(
    pool: &mut Pool,
    table: &NodeTable<AnyAim>,
    slot: u32,
    copy: u32,
    random: &mut u64,
) -> Result<usize, Failure>
    requires ready { IsReady table.now pool.old }
    requires slot { slot < 30 }
    requires copy { copy < 3 }
    ensures { OnOk result (IsReady table.now pool.new) }
{
    let var = 4 * slot + copy;
    let mut made = pool.step(table, Step::Or, is_not(var + 1), is(var))?;
    let others = if slot < JOINED { 2 } else { 0 };
    for _other in 0..others {
        *random = next_random(*random);
        made = pool.step(table, Step::Or, made, is(4 * slot_of(*random) + copy))?;
    }
    Ok(made)
}

/// What all slots are after a call at most.
fn relation(
    pool: &mut Pool,
    table: &NodeTable<AnyAim>,
    copy: u32,
    random: &mut u64,
) -> Result<usize, Failure>
    requires ready { IsReady table.now pool.old }
    requires copy { copy < 3 }
    ensures { OnOk result (IsReady table.now pool.new) }
{
    let mut made = TRUE;
    for down in 0..TAINTED {
        let next = clause(pool, table, TAINTED - 1 - down, copy, random)?;
        made = pool.step(table, Step::And, next, made)?;
    }
    Ok(made)
}

/// A relation with what some slots were before the call forgotten.
fn forget(
    pool: &mut Pool,
    table: &NodeTable<AnyAim>,
    f: usize,
    random: &mut u64,
) -> Result<usize, Failure>
    requires { IsReady table.now pool.old }
    ensures { OnOk result (IsReady table.now pool.new) }
{
    let mut made = f;
    for _slot in 0..FORGOTTEN {
        *random = next_random(*random);
        made = pool.step(table, Step::Exists(4 * slot_of(*random)), made, made)?;
    }
    Ok(made)
}

/// The value of a known node where the variables have the bits of a point.
fn value(table: &NodeTable<AnyAim>, worker: &mut Worker<AnyAim>, n: Node, point: u64) -> bool
    requires worker { IsWorkerOf table.now worker.old }
    requires known { Knows (seen worker.old) n.number }
    ensures worker { IsWorkerOf table.now worker.new }
    ensures same { seen worker.new ≡ seen worker.old }
{
    let mut at = n;
    for _level in 0..LAST {
        if at.number < 2 {
            break;
        }
        let parts = worker.parts(table, at);
        let bit = (parts.var % 4 * TAINTED).wrapping_add(parts.var / 4) % 64;
        at = if point >> bit & 1 == 1 {
            parts.hi
        } else {
            parts.lo
        };
    }
    at == Node::TRUE
}

/// The same for a place of a pool.
fn value_of(
    pool: &mut Pool,
    table: &NodeTable<AnyAim>,
    at: usize,
    point: u64,
) -> Result<bool, Failure>
    requires { IsReady table.now pool.old }
    ensures { OnOk result (IsReady table.now pool.new) }
{
    let n = pool.node(at)?;
    Ok(value(table, &mut pool.worker, n, point))
}

/// Makes so many relations. Answers how many of them are true at a point each.
pub fn taint(pool: &mut Pool, table: &NodeTable<AnyAim>, rounds: u64) -> Result<u64, Failure>
    requires { IsReady table.now pool.old }
    ensures { OnOk result (IsReady table.now pool.new) }
{
    let mut random = 1;
    let mut trues = 0u64;
    for _round in 0..rounds {
        let made = relation(pool, table, 0, &mut random)?;
        let made = forget(pool, table, made, &mut random)?;
        random = next_random(random);
        let holds = value_of(pool, table, made, random)?;
        trues = trues.wrapping_add(u64::from(holds));
    }
    Ok(trues)
}

/// Composes so many pairs of relations. Answers how many of the composed ones are true at a point
/// each.
pub fn calls(
    pool: &mut Pool,
    table: &NodeTable<AnyAim>,
    forgetting: Forgetting,
    rounds: u64,
) -> Result<u64, Failure>
    requires { IsReady table.now pool.old }
    ensures { OnOk result (IsReady table.now pool.new) }
{
    let mut random = 1;
    let mut trues = 0u64;
    for _round in 0..rounds {
        let first = relation(pool, table, 0, &mut random)?;
        let second = relation(pool, table, 1, &mut random)?;
        let made = compose(pool, table, forgetting, first, second, 1)?;
        random = next_random(random);
        let holds = value_of(pool, table, made, random)?;
        trues = trues.wrapping_add(u64::from(holds));
    }
    Ok(trues)
}
