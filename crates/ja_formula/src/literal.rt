ghost use Rattle.std.specs.Prelude.{◌≡◌, ◌⊎◌, ◌≤◌, false, IfOk, IfErr};
ghost use Rattle.ja_node_core.specs.Node.{Knows, constant};
ghost use Rattle.ja_node_table.specs.Seats.{aim_of};
ghost use Rattle.ja_bdd.specs.Functions.{IsAimed};
ghost use Rattle.ja_bdd.specs.Meaning.{meaning, IsMeant, Keeps};
ghost use Rattle.ja_bdd.specs.Room.{LacksRoomUnder};
ghost use Rattle.ja_bdd.specs.Workers.{IsWorkerOf, seen};
ghost use Rattle.ja_base.specs.Limit.{last_variable};
ghost use Rattle.ja_work.specs.Work as work;

use ja_bdd::Worker;
use ja_node_core::Aim;
use ja_node_table::{Full, Node, NodeTable};

/// The constants that a literal is where its variable is false, and where it is true.
fn parts_of(positive: bool) -> (Node, Node)
    ensures { (result.0.number ≡ constant (work.signed positive false)) × (result.1.number ≡ constant positive) }
{
    if positive {
        (Node::FALSE, Node::TRUE)
    } else {
        (Node::TRUE, Node::FALSE)
    }
}

/// The node of a variable, or of its negation.
pub fn literal<A: Aim>(
    worker: &mut Worker<A>,
    table: &NodeTable<A>,
    var: u32,
    positive: bool,
) -> Result<Node, Full<A>>
    requires worker { IsWorkerOf table.now worker.old }
    requires var { var ≤ last_variable }
    requires aim { IsAimed (A.aims (aim_of table.now)) (work.literal var positive) }
    ensures worker { IsWorkerOf table.now worker.new }
    ensures keeps { Keeps (seen worker.old) (seen worker.new) }
    ensures ok { IfOk result (λ n. IsMeant (seen worker.new) n.number (work.literal var positive)) }
    ensures full { IfErr result (LacksRoomUnder table.now (seen worker.new) (work.literal var positive)) }
{
    let (low, high) = parts_of(positive);
    worker.make(table, var, low, high)
}

/// The conjunction, or the disjunction, of a variable or its negation with a known node.
///
/// `Full` comes only for a word under the literal or under what the call means.
pub fn tie<A: Aim>(
    worker: &mut Worker<A>,
    table: &NodeTable<A>,
    both: bool,
    var: u32,
    positive: bool,
    rest: Node,
) -> Result<Node, Full<A>>
    requires worker { IsWorkerOf table.now worker.old }
    requires known { Knows (seen worker.old) rest.number }
    requires var { var ≤ last_variable }
    requires literal { IsAimed (A.aims (aim_of table.now)) (work.literal var positive) }
    requires aim { IsAimed (A.aims (aim_of table.now)) (work.tied_by both (work.literal var positive) (meaning (seen worker.old) rest.number)) }
    ensures worker { IsWorkerOf table.now worker.new }
    ensures keeps { Keeps (seen worker.old) (seen worker.new) }
    ensures ok { IfOk result (λ n. IsMeant (seen worker.new) n.number (work.tied_by both (work.literal var positive) (meaning (seen worker.old) rest.number))) }
    ensures full { IfErr result (λ e. LacksRoomUnder table.now (seen worker.new) (work.literal var positive) e ⊎ LacksRoomUnder table.now (seen worker.new) (work.tied_by both (work.literal var positive) (meaning (seen worker.old) rest.number)) e) }
{
    let one = match literal(worker, table, var, positive) {
        Ok(one) => one,
        Err(full) => return Err(full),
    };
    if both {
        worker.and(table, one, rest)
    } else {
        worker.or(table, one, rest)
    }
}
