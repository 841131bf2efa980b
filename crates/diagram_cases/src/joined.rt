//! Small functions, joined and forgotten.
ghost use Rattle.std.specs.List.{All};
ghost use Rattle.ja_node_core.specs.Node.{Knows};
ghost use Rattle.ja_bdd.specs.Workers.{IsWorkerOf, seen};

use crate::pool::{Pool, Step};
use ja_base::Memory;
use ja_node_core::AnyAim;
use ja_node_table::NodeTable;

/// Adds what "a and b" is, what is left of it without a, and what "a or not a" is.
pub fn add_joined(
    out: &mut String,
    pool: &mut Pool,
    table: &NodeTable<AnyAim>,
) -> Result<(), Memory>
    requires { IsWorkerOf table.now pool.old.worker × All (λ n. Knows (seen pool.old.worker) n.number) pool.old.nodes.items }
{
    let a = pool.step(table, Step::Literal(0, true), 0, 0)?;
    let b = pool.step(table, Step::Literal(1, true), 0, 0)?;
    let both = pool.step(table, Step::And, a, b)?;
    let parts = pool.parts(table, both)?;
    let rest = pool.step(table, Step::Exists(0), both, 0)?;
    let not_a = pool.step(table, Step::Literal(0, false), 0, 0)?;
    let all = pool.step(table, Step::Or, a, not_a)?;
    let b = pool.number(b);
    writeln!(
        out,
        "both: variable {} low {} high b {}",
        parts.var,
        parts.lo.number,
        Some(parts.hi.number) == b
    )?;
    let without = pool.number(rest) == b;
    let all = pool.number(all) == Some(1);
    Ok(writeln!(
        out,
        "both without a is b {without}, a or not a is true {all}"
    )?)
}
