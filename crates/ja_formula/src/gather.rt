ghost use Rattle.std.specs.Prelude.{◌≡◌, ◌+◌, ◌≤◌, false, IfOk, IfErr};
ghost use Rattle.ja_node_core.specs.Node.{constant};
ghost use Rattle.ja_node_table.specs.Seats.{aim_of};
ghost use Rattle.ja_bdd.specs.Meaning.{IsMeant, Keeps};
ghost use Rattle.ja_bdd.specs.Workers.{IsWorkerOf, seen};
ghost use Rattle.ja_work.specs.Work.{signed, gathered, stack_variables, variables_of};
ghost use Rattle.ja_formula.specs.Made.{AreAimed, LacksRoomFor};
ghost use Rattle.ja_formula.specs.Inner.{IsStackTail, IsTail, LooksWithin};

use crate::literal::tie;
use crate::places::variable;
use ja_bdd::Worker;
use ja_node_core::Aim;
use ja_node_table::{Full, Node, NodeTable};
use ja_work::{Clause, Frame, Spot};

/// The disjunction of no variable, or the conjunction of none.
fn gathered_none(positive: bool) -> Node
    ensures { result.number ≡ constant (signed positive false) }
{
    if positive { Node::FALSE } else { Node::TRUE }
}

/// The disjunction of the variables of so many values on the stack, or the conjunction of their negations.
fn gather_stack<A: Aim>(
    worker: &mut Worker<A>,
    table: &NodeTable<A>,
    frame: &Frame,
    first: u32,
    count: u32,
    positive: bool,
) -> Result<Node, Full<A>>
    requires worker { IsWorkerOf table.now worker.old }
    requires inside { first + count ≤ frame.now.stack }
    requires aim { AreAimed (A.aims (aim_of table.now)) (IsStackTail frame.now first count positive) }
    ensures worker { IsWorkerOf table.now worker.new }
    ensures keeps { Keeps (seen worker.old) (seen worker.new) }
    ensures ok { IfOk result (λ n. IsMeant (seen worker.new) n.number (gathered positive (stack_variables frame.now first count))) }
    ensures full { IfErr result (LacksRoomFor table.now (seen worker.new) (IsStackTail frame.now first count positive)) }
{
    let mut node = gathered_none(positive);
    for done in 0..count {
        let under = first + (count - 1 - done);
        let var = variable(frame, Spot::OnStack(under), 1);
        node = match tie(worker, table, !positive, var, positive, node) {
            Ok(tied) => tied,
            Err(full) => return Err(full),
        };
    }
    Ok(node)
}

/// The disjunction of the variables that a clause looks at, or the conjunction of their negations.
///
/// `Full` comes only for a word under a literal or under what is gathered of the last of these variables.
pub fn gather<A: Aim>(
    worker: &mut Worker<A>,
    table: &NodeTable<A>,
    frame: &Frame,
    clause: &Clause,
    positive: bool,
) -> Result<Node, Full<A>>
    requires worker { IsWorkerOf table.now worker.old }
    requires within { LooksWithin frame.now clause.now }
    requires aim { AreAimed (A.aims (aim_of table.now)) (IsTail frame.now clause.now positive) }
    ensures worker { IsWorkerOf table.now worker.new }
    ensures keeps { Keeps (seen worker.old) (seen worker.new) }
    ensures ok { IfOk result (λ n. IsMeant (seen worker.new) n.number (gathered positive (variables_of frame.now clause.now))) }
    ensures full { IfErr result (LacksRoomFor table.now (seen worker.new) (IsTail frame.now clause.now positive)) }
{
    let (first, count) = (clause.first, clause.count);
    let node = match gather_stack(worker, table, frame, first, count, positive) {
        Ok(node) => node,
        Err(full) => return Err(full),
    };
    match clause.one {
        Some(spot) => tie(
            worker,
            table,
            !positive,
            variable(frame, spot, 1),
            positive,
            node,
        ),
        None => Ok(node),
    }
}
