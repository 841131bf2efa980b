ghost use Rattle.std.specs.Prelude.{◌<◌, ◌-◌, IfSome};
ghost use Rattle.ja_node_core.specs.Node.{IsPart};
ghost use Rattle.ja_node_table.specs.Seats.{IsOf, known};
ghost use Rattle.node_bench.specs.Made.{IsUnder, IsAsked};

use ja_node_core::AnyAim;
use ja_node_table::{Node, NodeSeat, NodeTable, Parts};

/// The node of these parts, unless there is no room for it.
pub fn ask(table: &NodeTable<AnyAim>, seat: &mut NodeSeat<AnyAim>, part: Parts) -> Option<Node>
    requires seat { IsOf table.now seat.old }
    requires asked { IsAsked (known seat.old) part }
    ensures seat { IsOf table.now seat.new }
    ensures grows { IsPart (known seat.old) (known seat.new) }
    ensures under { 0 < part.var → IfSome result (IsUnder (known seat.new) (part.var - 1)) }
{
    match table.make(seat, part.var, part.lo, part.hi) {
        Ok(made) => Some(made),
        Err(_) => None,
    }
}
