ghost use Rattle.std.specs.Prelude.{◌≡◌, ◌+◌, ◌<◌, true, IfOk, IfErr};
ghost use Rattle.ja_ir.specs.Operations.{FindsOperands};
ghost use Rattle.ja_node_core.specs.Node.{constant};
ghost use Rattle.ja_node_table.specs.Seats.{aim_of};
ghost use Rattle.ja_bdd.specs.Meaning.{IsMeant, Keeps};
ghost use Rattle.ja_bdd.specs.Workers.{IsWorkerOf, seen};
ghost use Rattle.ja_work.specs.Frames as frames;
ghost use Rattle.ja_work.specs.Frames.{clause_function, clauses_from, whole};
ghost use Rattle.ja_formula.specs.Made.{IsRulePart, AreAimed, LacksRoomFor};
ghost use Rattle.ja_formula.specs.Inner.{AllLookWithin, clauses_of};

use crate::clause::clause_node;
use crate::places::spot_at;
use crate::rule::{End, Rule};
use ja_bdd::Worker;
use ja_clauses::{exceptional_clause, normal_clause};
use ja_node_core::Aim;
use ja_node_table::{Full, Node, NodeTable};
use ja_work::{Clause, Frame, Spot};

/// What the end says of a spot.
fn clause_of(rule: &Rule, spot: Spot) -> Clause
    requires { FindsOperands rule.now.op.now rule.now.height }
    ensures { result ≡ clauses_of rule.now spot }
{
    match rule.end {
        End::Normal => normal_clause(rule.before, rule.op, rule.height, spot),
        End::Exceptional(way) => {
            exceptional_clause(way, rule.before, rule.op, rule.height, spot)
        }
    }
}

/// The clause of the spot at a place.
fn clause_at<A: Aim>(
    worker: &mut Worker<A>,
    table: &NodeTable<A>,
    frame: &Frame,
    rule: &Rule,
    place: u32,
) -> Result<Node, Full<A>>
    requires worker { IsWorkerOf table.now worker.old }
    requires place { place < frames.size frame.now }
    requires finds { FindsOperands rule.now.op.now rule.now.height }
    requires within { AllLookWithin frame.now (clauses_of rule.now) }
    requires aim { AreAimed (A.aims (aim_of table.now)) (IsRulePart frame.now (clauses_of rule.now)) }
    ensures worker { IsWorkerOf table.now worker.new }
    ensures keeps { Keeps (seen worker.old) (seen worker.new) }
    ensures ok { let spot = frames.spot_at frame.now place in IfOk result (λ n. IsMeant (seen worker.new) n.number (clause_function frame.now (clauses_of rule.now spot) spot)) }
    ensures full { IfErr result (LacksRoomFor table.now (seen worker.new) (IsRulePart frame.now (clauses_of rule.now))) }
{
    let spot = spot_at(frame, place);
    let clause = clause_of(rule, spot);
    clause_node(worker, table, frame, &clause, spot)
}

/// The clauses from a place on, by those from the next place on.
fn clauses_with<A: Aim>(
    worker: &mut Worker<A>,
    table: &NodeTable<A>,
    frame: &Frame,
    rule: &Rule,
    place: u32,
    count: u32,
    rest: Node,
) -> Result<Node, Full<A>>
    requires worker { IsWorkerOf table.now worker.old }
    requires place { place + (count + 1) ≡ frames.size frame.now }
    requires finds { FindsOperands rule.now.op.now rule.now.height }
    requires within { AllLookWithin frame.now (clauses_of rule.now) }
    requires aim { AreAimed (A.aims (aim_of table.now)) (IsRulePart frame.now (clauses_of rule.now)) }
    requires rest { IsMeant (seen worker.old) rest.number (clauses_from frame.now (clauses_of rule.now) (place + 1) count) }
    ensures worker { IsWorkerOf table.now worker.new }
    ensures keeps { Keeps (seen worker.old) (seen worker.new) }
    ensures ok { IfOk result (λ n. IsMeant (seen worker.new) n.number (clauses_from frame.now (clauses_of rule.now) place (count + 1))) }
    ensures full { IfErr result (LacksRoomFor table.now (seen worker.new) (IsRulePart frame.now (clauses_of rule.now))) }
{
    let one = match clause_at(worker, table, frame, rule, place) {
        Ok(one) => one,
        Err(full) => return Err(full),
    };
    match worker.and(table, one, rest) {
        Ok(node) => Ok(node),
        Err(full) => Err(full),
    }
}

/// The conjunction of no clause.
fn no_clause() -> Node
    ensures { result.number ≡ constant true }
{
    Node::TRUE
}

/// The conjunction of the clauses of all spots of a frame, from the last place to the first.
pub fn rule_node<A: Aim>(
    worker: &mut Worker<A>,
    table: &NodeTable<A>,
    frame: &Frame,
    rule: &Rule,
) -> Result<Node, Full<A>>
    requires worker { IsWorkerOf table.now worker.old }
    requires finds { FindsOperands rule.now.op.now rule.now.height }
    requires within { AllLookWithin frame.now (clauses_of rule.now) }
    requires aim { AreAimed (A.aims (aim_of table.now)) (IsRulePart frame.now (clauses_of rule.now)) }
    ensures worker { IsWorkerOf table.now worker.new }
    ensures keeps { Keeps (seen worker.old) (seen worker.new) }
    ensures ok { IfOk result (λ n. IsMeant (seen worker.new) n.number (whole frame.now (clauses_of rule.now))) }
    ensures full { IfErr result (LacksRoomFor table.now (seen worker.new) (IsRulePart frame.now (clauses_of rule.now))) }
{
    let size = frame.locals + frame.stack + 2;
    let mut node = no_clause();
    for done in 0..size {
        node = match clauses_with(worker, table, frame, rule, size - 1 - done, done, node) {
            Ok(node) => node,
            Err(full) => return Err(full),
        };
    }
    Ok(node)
}
