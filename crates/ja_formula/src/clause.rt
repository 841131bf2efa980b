ghost use Rattle.std.specs.Prelude.{◌≡◌, true, false, IfOk, IfErr};
ghost use Rattle.ja_node_table.specs.Seats.{aim_of};
ghost use Rattle.ja_bdd.specs.Meaning.{IsMeant, Keeps};
ghost use Rattle.ja_bdd.specs.Workers.{IsWorkerOf, seen};
ghost use Rattle.ja_work.specs.Frames as frames;
ghost use Rattle.ja_work.specs.Frames.{is_inside, clause_function};
ghost use Rattle.ja_work.specs.Work as work;
ghost use Rattle.ja_work.specs.Work.{gathered, tied_by, variables_of};
ghost use Rattle.ja_formula.specs.Made.{IsClausePart, AreAimed, LacksRoomFor};
ghost use Rattle.ja_formula.specs.Inner.{LooksWithin};

use crate::gather::gather;
use crate::literal::{literal, tie};
use crate::places::variable;
use ja_bdd::Worker;
use ja_node_core::Aim;
use ja_node_table::{Full, Node, NodeTable};
use ja_work::{Clause, Frame, Spot};

/// How the next variable of a spot is joined to what is gathered of a clause's variables.
#[derive(Clone, Copy)]
struct Form {
    /// Whether both must hold, and not only one of them.
    both: bool,
    /// Whether the variable is meant, and not its negation.
    sign: bool,
    /// Whether some variable of the clause is true, and not none.
    positive: bool,
}

/// The next variable of a spot, joined to what is gathered of its clause's variables.
fn tied_gathered<A: Aim>(
    worker: &mut Worker<A>,
    table: &NodeTable<A>,
    frame: &Frame,
    clause: &Clause,
    spot: Spot,
    form: Form,
) -> Result<Node, Full<A>>
    requires worker { IsWorkerOf table.now worker.old }
    requires inside { is_inside frame.now spot ≡ true }
    requires within { LooksWithin frame.now clause.now }
    requires aim { AreAimed (A.aims (aim_of table.now)) (IsClausePart frame.now clause.now spot) }
    ensures worker { IsWorkerOf table.now worker.new }
    ensures keeps { Keeps (seen worker.old) (seen worker.new) }
    ensures ok { IfOk result (λ n. IsMeant (seen worker.new) n.number (tied_by form.both (work.literal (frames.variable frame.now spot 2) form.sign) (gathered form.positive (variables_of frame.now clause.now)))) }
    ensures full { IfErr result (LacksRoomFor table.now (seen worker.new) (IsClausePart frame.now clause.now spot)) }
{
    let node = match gather(worker, table, frame, clause, form.positive) {
        Ok(node) => node,
        Err(full) => return Err(full),
    };
    let var = variable(frame, spot, 2);
    tie(worker, table, form.both, var, form.sign, node)
}

/// A clause that is exact and no constant, where its spot is true next.
fn where_true<A: Aim>(
    worker: &mut Worker<A>,
    table: &NodeTable<A>,
    frame: &Frame,
    clause: &Clause,
    spot: Spot,
) -> Result<Node, Full<A>>
    requires worker { IsWorkerOf table.now worker.old }
    requires inside { is_inside frame.now spot ≡ true }
    requires within { LooksWithin frame.now clause.now }
    requires aim { AreAimed (A.aims (aim_of table.now)) (IsClausePart frame.now clause.now spot) }
    ensures worker { IsWorkerOf table.now worker.new }
    ensures keeps { Keeps (seen worker.old) (seen worker.new) }
    ensures ok { IfOk result (λ n. IsMeant (seen worker.new) n.number (tied_by true (work.literal (frames.variable frame.now spot 2) true) (gathered true (variables_of frame.now clause.now)))) }
    ensures full { IfErr result (LacksRoomFor table.now (seen worker.new) (IsClausePart frame.now clause.now spot)) }
{
    let form = Form {
        both: true,
        sign: true,
        positive: true,
    };
    tied_gathered(worker, table, frame, clause, spot, form)
}

/// A clause that is exact and no constant, where its spot is false next.
fn where_false<A: Aim>(
    worker: &mut Worker<A>,
    table: &NodeTable<A>,
    frame: &Frame,
    clause: &Clause,
    spot: Spot,
) -> Result<Node, Full<A>>
    requires worker { IsWorkerOf table.now worker.old }
    requires inside { is_inside frame.now spot ≡ true }
    requires within { LooksWithin frame.now clause.now }
    requires aim { AreAimed (A.aims (aim_of table.now)) (IsClausePart frame.now clause.now spot) }
    ensures worker { IsWorkerOf table.now worker.new }
    ensures keeps { Keeps (seen worker.old) (seen worker.new) }
    ensures ok { IfOk result (λ n. IsMeant (seen worker.new) n.number (tied_by true (work.literal (frames.variable frame.now spot 2) false) (gathered false (variables_of frame.now clause.now)))) }
    ensures full { IfErr result (LacksRoomFor table.now (seen worker.new) (IsClausePart frame.now clause.now spot)) }
{
    let form = Form {
        both: true,
        sign: false,
        positive: false,
    };
    tied_gathered(worker, table, frame, clause, spot, form)
}

/// A clause that is exact and no constant.
fn exact_node<A: Aim>(
    worker: &mut Worker<A>,
    table: &NodeTable<A>,
    frame: &Frame,
    clause: &Clause,
    spot: Spot,
) -> Result<Node, Full<A>>
    requires worker { IsWorkerOf table.now worker.old }
    requires inside { is_inside frame.now spot ≡ true }
    requires within { LooksWithin frame.now clause.now }
    requires aim { AreAimed (A.aims (aim_of table.now)) (IsClausePart frame.now clause.now spot) }
    requires exact { clause.now.exact ≡ true }
    requires varies { clause.now.always ≡ false }
    ensures worker { IsWorkerOf table.now worker.new }
    ensures keeps { Keeps (seen worker.old) (seen worker.new) }
    ensures ok { IfOk result (λ n. IsMeant (seen worker.new) n.number (clause_function frame.now clause.now spot)) }
    ensures full { IfErr result (LacksRoomFor table.now (seen worker.new) (IsClausePart frame.now clause.now spot)) }
{
    let high = match where_true(worker, table, frame, clause, spot) {
        Ok(high) => high,
        Err(full) => return Err(full),
    };
    let low = match where_false(worker, table, frame, clause, spot) {
        Ok(low) => low,
        Err(full) => return Err(full),
    };
    worker.or(table, high, low)
}

/// A clause that says at most where its spot is true next, and is no constant.
fn at_most_node<A: Aim>(
    worker: &mut Worker<A>,
    table: &NodeTable<A>,
    frame: &Frame,
    clause: &Clause,
    spot: Spot,
) -> Result<Node, Full<A>>
    requires worker { IsWorkerOf table.now worker.old }
    requires inside { is_inside frame.now spot ≡ true }
    requires within { LooksWithin frame.now clause.now }
    requires aim { AreAimed (A.aims (aim_of table.now)) (IsClausePart frame.now clause.now spot) }
    requires exact { clause.now.exact ≡ false }
    requires varies { clause.now.always ≡ false }
    ensures worker { IsWorkerOf table.now worker.new }
    ensures keeps { Keeps (seen worker.old) (seen worker.new) }
    ensures ok { IfOk result (λ n. IsMeant (seen worker.new) n.number (clause_function frame.now clause.now spot)) }
    ensures full { IfErr result (LacksRoomFor table.now (seen worker.new) (IsClausePart frame.now clause.now spot)) }
{
    let form = Form {
        both: false,
        sign: false,
        positive: true,
    };
    tied_gathered(worker, table, frame, clause, spot, form)
}

/// A clause whose spot is true next always, or may be.
fn always_node<A: Aim>(
    worker: &mut Worker<A>,
    table: &NodeTable<A>,
    frame: &Frame,
    clause: &Clause,
    spot: Spot,
) -> Result<Node, Full<A>>
    requires worker { IsWorkerOf table.now worker.old }
    requires inside { is_inside frame.now spot ≡ true }
    requires within { LooksWithin frame.now clause.now }
    requires aim { AreAimed (A.aims (aim_of table.now)) (IsClausePart frame.now clause.now spot) }
    requires always { clause.now.always ≡ true }
    ensures worker { IsWorkerOf table.now worker.new }
    ensures keeps { Keeps (seen worker.old) (seen worker.new) }
    ensures ok { IfOk result (λ n. IsMeant (seen worker.new) n.number (clause_function frame.now clause.now spot)) }
    ensures full { IfErr result (LacksRoomFor table.now (seen worker.new) (IsClausePart frame.now clause.now spot)) }
{
    if !clause.exact {
        return Ok(Node::TRUE);
    }
    let var = variable(frame, spot, 2);
    match literal(worker, table, var, true) {
        Ok(node) => Ok(node),
        Err(full) => Err(full),
    }
}

/// The node of a clause: of its spot next, by the spots at present.
///
/// The clause looks at spots of the frame alone. `Full` comes only for a word under a literal, a piece of the
/// clause or the clause.
pub fn clause_node<A: Aim>(
    worker: &mut Worker<A>,
    table: &NodeTable<A>,
    frame: &Frame,
    clause: &Clause,
    spot: Spot,
) -> Result<Node, Full<A>>
    requires worker { IsWorkerOf table.now worker.old }
    requires inside { is_inside frame.now spot ≡ true }
    requires within { LooksWithin frame.now clause.now }
    requires aim { AreAimed (A.aims (aim_of table.now)) (IsClausePart frame.now clause.now spot) }
    ensures worker { IsWorkerOf table.now worker.new }
    ensures keeps { Keeps (seen worker.old) (seen worker.new) }
    ensures ok { IfOk result (λ n. IsMeant (seen worker.new) n.number (clause_function frame.now clause.now spot)) }
    ensures full { IfErr result (LacksRoomFor table.now (seen worker.new) (IsClausePart frame.now clause.now spot)) }
{
    if clause.always {
        return always_node(worker, table, frame, clause, spot);
    }
    if clause.exact {
        exact_node(worker, table, frame, clause, spot)
    } else {
        at_most_node(worker, table, frame, clause, spot)
    }
}
