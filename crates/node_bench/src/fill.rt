ghost use Rattle.std.specs.Prelude.{◌≡◌, ◌<◌, ◌≤◌, ◌-◌, length, IfOk, All};
ghost use Rattle.ja_node_core.specs.Node.{IsPart};
ghost use Rattle.ja_node_table.specs.Seats.{IsOf, known};
ghost use Rattle.node_bench.specs.Made.{IsUnder, IsAsked};
ghost use Rattle.ja_base.specs.Limit.{last_variable};

use crate::ask::ask;
use crate::load::Failure;
use ja_base::MAX_VARIABLES;
use ja_node_core::AnyAim;
use ja_node_table::{Node, NodeSeat, NodeTable, Parts};
use std::alloc::Global;

/// The last variable of a diagram.
const LAST: u32 = MAX_VARIABLES - 1;

/// How many nodes of one variable are asked for.
const WIDTH: u64 = 1_000;

/// A number that looks random, from another one.
pub fn mixed(number: u64) -> u64 {
    let step = number.wrapping_mul(0x9e37_79b9_7f4a_7c15);
    let step = (step ^ (step >> 30)).wrapping_mul(0xbf58_476d_1ce4_e5b9);
    let step = (step ^ (step >> 27)).wrapping_mul(0x94d0_49bb_1331_11eb);
    step ^ (step >> 31)
}

/// Two different places of a list of so many, drawn by a number.
fn draw(number: u64, count: usize) -> (usize, usize)
    requires { 2 ≤ count }
    ensures { (result.0 < count) × (result.1 < count) }
{
    let random = mixed(number);
    let first = (random >> 32) as usize % count;
    let further = (random & 0xffff_ffff) as usize % (count - 1);
    (first, (first + 1 + further) % count)
}

/// Asks for nodes of one variable, each over two of the given nodes. Their parts are added to the
/// list, and they are given back.
fn make_layer(
    alloc: Global,
    table: &NodeTable<AnyAim>,
    seat: &mut NodeSeat<AnyAim>,
    nodes: &[Node],
    parts: &mut Vec<Parts>,
    var: u32,
    width: u64,
) -> Result<Vec<Node>, Failure>
    requires seat { IsOf table.now seat.old }
    requires var { (0 < var) × (var ≤ last_variable) }
    requires nodes { (2 ≤ length nodes.now) × All (IsUnder (known seat.old) var) nodes.now }
    requires parts { All (IsAsked (known seat.old)) parts.old.items }
    ensures seat { IsOf table.now seat.new }
    ensures grows { IsPart (known seat.old) (known seat.new) }
    ensures nodes { IfOk result (λ v. All (IsUnder (known seat.new) (var - 1)) v.items) }
    ensures parts { IfOk result (λ _. All (IsAsked (known seat.new)) parts.new.items) }
{
    let mut fresh = Vec::new(alloc);
    for _step in 0..width {
        let (lo, hi) = draw(parts.len() as u64, nodes.len());
        let part = Parts {
            var,
            lo: nodes[lo],
            hi: nodes[hi],
        };
        let Some(made) = ask(table, seat, part) else {
            return Err(Failure::NoRoom);
        };
        parts.push(part)?;
        fresh.push(made)?;
    }
    Ok(fresh)
}

/// Fills a table by asking so many times for a node, each of a variable above those that stand and
/// over two nodes drawn from these. The parts that were asked for are given back.
pub fn fill(
    alloc: Global,
    table: &NodeTable<AnyAim>,
    seat: &mut NodeSeat<AnyAim>,
    count: u64,
) -> Result<Vec<Parts>, Failure>
    requires { IsOf table.now seat.old }
    ensures seat { IsOf table.now seat.new }
    ensures parts { IfOk result (λ v. All (IsAsked (known seat.new)) v.items) }
{
    let mut parts = Vec::new(alloc);
    let mut nodes = vec![in alloc; Node::FALSE, Node::TRUE]?;
    for layer in 0..LAST {
        let left = count.saturating_sub(parts.len() as u64);
        if left == 0 {
            break;
        }
        let fresh = make_layer(
            alloc,
            table,
            seat,
            &nodes,
            &mut parts,
            LAST - layer,
            left.min(WIDTH),
        )?;
        nodes.extend_from_slice(&fresh)?;
    }
    Ok(parts)
}
