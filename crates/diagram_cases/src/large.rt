//! Diagrams of many levels.
ghost use Rattle.std.specs.Prelude.{◌≡◌, ◌<◌, IfOk, OnOk};
ghost use Rattle.std.specs.List.{All};
ghost use Rattle.ja_node_core.specs.Node.{Knows};
ghost use Rattle.ja_bdd.specs.Workers.{IsWorkerOf, seen};

use crate::pool::{LAST, Pool, Step};
use ja_base::Memory;
use ja_bdd::Assign;
use ja_node_core::AnyAim;
use ja_node_table::NodeTable;
use std::alloc::Global;

/// How many slots a relation keeps.
const SLOTS: u32 = 500;

/// All variables, the last of them with this value: a chain of 4,095 levels.
fn chain(pool: &mut Pool, table: &NodeTable<AnyAim>, last: bool) -> Result<usize, Memory>
    requires { IsWorkerOf table.now pool.old.worker × All (λ n. Knows (seen pool.old.worker) n.number) pool.old.nodes.items }
    ensures { OnOk result (IsWorkerOf table.now pool.new.worker × All (λ n. Knows (seen pool.new.worker) n.number) pool.new.nodes.items) }
{
    let mut made = pool.step(table, Step::Literal(LAST, last), 0, 0)?;
    for down in 0..LAST {
        let next = pool.step(table, Step::Literal(LAST - 1 - down, true), 0, 0)?;
        made = pool.step(table, Step::And, next, made)?;
    }
    Ok(made)
}

/// Adds what becomes of two chains that differ in the last variable.
pub fn add_chains(
    out: &mut String,
    alloc: Global,
    pool: &mut Pool,
    table: &NodeTable<AnyAim>,
) -> Result<(), Memory>
    requires { IsWorkerOf table.now pool.old.worker × All (λ n. Knows (seen pool.old.worker) n.number) pool.old.nodes.items }
{
    let f = chain(pool, table, true)?;
    let g = chain(pool, table, false)?;
    let none = pool.step(table, Step::And, f, g)?;
    let either = pool.step(table, Step::Or, f, g)?;
    let rest = pool.step(table, Step::Exists(LAST), f, 0)?;
    let none = pool.number(none) == Some(0);
    let same = pool.number(either) == pool.number(rest);
    writeln!(
        out,
        "chains: both is false {none}, either is one without its last {same}"
    )?;
    add_picked(out, alloc, pool, table, g)
}

/// Adds whether a function has an assignment, and three of its values.
fn add_picked(
    out: &mut String,
    alloc: Global,
    pool: &mut Pool,
    table: &NodeTable<AnyAim>,
    at: usize,
) -> Result<(), Memory>
    requires { IsWorkerOf table.now pool.old.worker × All (λ n. Knows (seen pool.old.worker) n.number) pool.old.nodes.items }
{
    let mut a = Assign::new(alloc)?;
    let picked = pool.pick(table, at, &mut a)?;
    Ok(writeln!(
        out,
        "picked {picked}: {} {} {}",
        a.get(0),
        a.get(LAST - 1),
        a.get(LAST)
    )?)
}

/// The relation that keeps so many slots as they are, between two of their copies.
fn kept(pool: &mut Pool, table: &NodeTable<AnyAim>, one: u32, other: u32) -> Result<usize, Memory>
    requires { IsWorkerOf table.now pool.old.worker × All (λ n. Knows (seen pool.old.worker) n.number) pool.old.nodes.items × (one < 4) × (other < 4) }
    ensures { OnOk result (IsWorkerOf table.now pool.new.worker × All (λ n. Knows (seen pool.new.worker) n.number) pool.new.nodes.items) }
{
    let mut made = 1;
    for down in 0..SLOTS {
        let slot = 4 * (SLOTS - 1 - down);
        let x = pool.step(table, Step::Literal(slot + one, true), 0, 0)?;
        let y = pool.step(table, Step::Literal(slot + other, true), 0, 0)?;
        let not_x = pool.step(table, Step::Literal(slot + one, false), 0, 0)?;
        let not_y = pool.step(table, Step::Literal(slot + other, false), 0, 0)?;
        let both = pool.step(table, Step::And, x, y)?;
        let neither = pool.step(table, Step::And, not_x, not_y)?;
        let same = pool.step(table, Step::Or, both, neither)?;
        made = pool.step(table, Step::And, same, made)?;
    }
    Ok(made)
}

/// Adds whether keeping 500 slots twice is keeping them once.
pub fn add_kept(out: &mut String, pool: &mut Pool, table: &NodeTable<AnyAim>) -> Result<(), Memory>
    requires { IsWorkerOf table.now pool.old.worker × All (λ n. Knows (seen pool.old.worker) n.number) pool.old.nodes.items }
{
    let first = kept(pool, table, 0, 1)?;
    let second = kept(pool, table, 1, 2)?;
    let mut composed = pool.step(table, Step::And, first, second)?;
    for slot in 0..SLOTS {
        composed = pool.step(table, Step::Exists(4 * slot + 1), composed, 0)?;
    }
    let whole = kept(pool, table, 0, 2)?;
    let same = pool.number(composed) == pool.number(whole);
    Ok(writeln!(out, "keeping slots twice keeps them {same}")?)
}
