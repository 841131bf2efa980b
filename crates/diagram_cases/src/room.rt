//! Parts that work with a pool over a table of its own.
ghost use Rattle.std.specs.Prelude.{◌≤◌};
ghost use Rattle.std.specs.List.{All};
ghost use Rattle.ja_node_core.specs.Node.{Knows};
ghost use Rattle.ja_bdd.specs.Workers.{IsWorkerOf, seen};

use crate::joined::add_joined;
use crate::large::{add_chains, add_kept};
use crate::pool::Pool;
use crate::random::add_random;
use crate::stepped::{add_call, add_chain, add_composed, add_projected, add_rules};
use ja_base::Memory;
use ja_join::Memo;
use ja_node_core::AnyAim;
use ja_node_table::NodeTable;
use std::alloc::Global;

/// How many slots the table has.
const SLOTS: u64 = 1 << 22;

/// A part that works with a pool.
#[derive(Clone, Copy)]
pub enum Part {
    Joined,
    Random,
    Chains,
    Kept,
    Rules,
    /// Three rules, one after the other.
    Chain,
    Composed,
    Projected,
    /// A call with a summary of its callee.
    Called,
}

/// How many entries the memo of a part has: one where rules follow each other.
fn entries_of(part: Part) -> usize
    ensures { (1 ≤ result) × (result ≤ 1048576) }
{
    match part {
        Part::Chain => 1,
        _ => 1024,
    }
}

/// Adds what comes of a part.
pub fn add_part(out: &mut String, alloc: Global, part: Part) -> Result<(), Memory> {
    let (table, seat) = NodeTable::new(alloc, SLOTS, AnyAim)?;
    let mut pool = Pool::new(alloc, &table, seat)?;
    let mut memo = Memo::new(alloc, entries_of(part))?;
    add_told(out, alloc, &mut pool, &table, &mut memo, part)
}

/// Adds what comes of a part with this pool.
fn add_told(
    out: &mut String,
    alloc: Global,
    pool: &mut Pool,
    table: &NodeTable<AnyAim>,
    memo: &mut Memo,
    part: Part,
) -> Result<(), Memory>
    requires { IsWorkerOf table.now pool.old.worker × All (λ n. Knows (seen pool.old.worker) n.number) pool.old.nodes.items }
{
    match part {
        Part::Joined => add_joined(out, pool, table),
        Part::Random => add_random(out, alloc, pool, table),
        Part::Chains => add_chains(out, alloc, pool, table),
        Part::Kept => add_kept(out, pool, table),
        Part::Rules => add_rules(out, alloc, pool, table, memo),
        Part::Chain => add_chain(out, alloc, pool, table, memo),
        Part::Composed => add_composed(out, alloc, pool, table, memo),
        Part::Projected => add_projected(out, alloc, pool, table, memo),
        Part::Called => add_call(out, alloc, pool, table, memo),
    }
}
