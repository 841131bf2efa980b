ghost use Rattle.std.specs.Prelude.{◌≡◌, ◌≢◌, ℕ, ◌+◌, ◌<◌, ◌≤◌, [], ◌∷◌, Bool, true, false, Some, drop, length, IfOk, IfErr, IfSome};
ghost use Rattle.ja_node_core.specs.Node.{Knows};
ghost use Rattle.ja_node_table.specs.Seats.{aim_of};
ghost use Rattle.ja_bdd.specs.Functions.{Function, IsFrom};
ghost use Rattle.ja_bdd.specs.Meaning.{meaning, IsMeant, Keeps, IsHalved};
ghost use Rattle.ja_bdd.specs.Workers.{IsWorkerOf, seen};
ghost use Rattle.ja_join.specs.Ascending.{IsToldFrom};
ghost use Rattle.ja_join.specs.Steps.{joint, IsStep, ArePartsAimed, LacksRoomAmong};
ghost use Rattle.ja_join.specs.Inner.{passed, passed_from, parted, AreRight, IsTaken, IsAsked, IsMade};
ghost use Rattle.ja_base.specs.Limit.{last_variable, max_variables};

use crate::memo::Memo;
use crate::rule::{Move, Rule, States};
use ja_bdd::Worker;
use ja_node_core::Aim;
use ja_node_table::{Full, Node, NodeTable};

/// A node's function, cut at a variable before which it does not look.
#[derive(Clone, Copy)]
pub(crate) struct Cut {
    pub(crate) var: u32,
    pub(crate) low: Node,
    pub(crate) high: Node,
}

/// Cuts a known node at its own variable, where that comes before `now`, and else at `now`.
pub(crate) fn cut_at<A: Aim>(worker: &mut Worker<A>, table: &NodeTable<A>, r: Node, now: u32) -> Cut
    requires worker { IsWorkerOf table.now worker.old }
    requires known { Knows (seen worker.old) r.number }
    requires now { now ≤ last_variable }
    ensures worker { IsWorkerOf table.now worker.new }
    ensures same { seen worker.new ≡ seen worker.old }
    ensures halved { IsHalved (seen worker.old) result.var r.number result.low.number result.high.number }
    ensures var { result.var ≤ now }
    ensures apart { result.var < now → result.low.number ≢ result.high.number }
{
    if r.number < 2 {
        return Cut {
            var: now,
            low: r,
            high: r,
        };
    }
    let parts = worker.parts(table, r);
    if now < parts.var {
        return Cut {
            var: now,
            low: r,
            high: r,
        };
    }
    Cut {
        var: parts.var,
        low: parts.lo,
        high: parts.hi,
    }
}

/// Whether a known node is true where no variable is. It looks at no variable before `from`.
fn is_true_of_none<A: Aim>(worker: &mut Worker<A>, table: &NodeTable<A>, g: Node, from: u32) -> bool
    requires worker { IsWorkerOf table.now worker.old }
    requires known { Knows (seen worker.old) g.number }
    requires later { IsFrom from (meaning (seen worker.old) g.number) }
    requires from { from ≤ max_variables }
    ensures worker { IsWorkerOf table.now worker.new }
    ensures same { seen worker.new ≡ seen worker.old }
    ensures is { result ≡ meaning (seen worker.old) g.number (λ v. false) }
{
    if g.number < 2 {
        return g.number == 1;
    }
    let parts = worker.parts(table, g);
    is_true_of_none(worker, table, parts.lo, parts.var + 1)
}

/// Cuts a known node, which looks at no variable before `from`, at a variable, where no variable before
/// that is true.
fn cleared_to<A: Aim>(
    worker: &mut Worker<A>,
    table: &NodeTable<A>,
    g: Node,
    from: u32,
    var: u32,
) -> Cut
    requires worker { IsWorkerOf table.now worker.old }
    requires known { Knows (seen worker.old) g.number }
    requires later { IsFrom from (meaning (seen worker.old) g.number) }
    requires from { from ≤ var }
    requires var { var ≤ last_variable }
    ensures worker { IsWorkerOf table.now worker.new }
    ensures same { seen worker.new ≡ seen worker.old }
    ensures low { IsTaken (seen worker.old) (Some var) false g.number result.low.number }
    ensures high { IsTaken (seen worker.old) (Some var) true g.number result.high.number }
{
    let cut = cut_at(worker, table, g, var);
    if cut.var == var {
        return cut;
    }
    cleared_to(worker, table, cut.low, cut.var + 1, var)
}

/// What is left of a callee's function, where the variable that a move tells of is false, and where it is
/// true.
#[derive(Clone, Copy)]
struct Told {
    low: Node,
    high: Node,
}

/// Takes out of a known node the variable that a move tells of.
fn take_told<A: Aim>(
    worker: &mut Worker<A>,
    table: &NodeTable<A>,
    told: Option<u32>,
    g: Node,
) -> Told
    requires worker { IsWorkerOf table.now worker.old }
    requires told { IsToldFrom 0 told }
    requires known { Knows (seen worker.old) g.number }
    ensures worker { IsWorkerOf table.now worker.new }
    ensures same { seen worker.new ≡ seen worker.old }
    ensures low { IsTaken (seen worker.old) told false g.number result.low.number }
    ensures high { IsTaken (seen worker.old) told true g.number result.high.number }
{
    let Some(var) = told else {
        return Told { low: g, high: g };
    };
    let cut = cleared_to(worker, table, g, 0, var);
    Told {
        low: cut.low,
        high: cut.high,
    }
}

/// What the moves of a rule from one on make of known nodes, if that is at hand.
fn at_hand<A: Aim>(
    worker: &Worker<A>,
    memo: &Memo,
    rule: &Rule,
    at: usize,
    states: States,
    r: Node,
    g: Node,
) -> Option<Node>
    requires known { Knows (seen worker.now) r.number × Knows (seen worker.now) g.number }
    requires memo { AreRight rule.now (seen worker.now) memo.now }
    ensures some { IfSome result (λ n. IsMeant (seen worker.now) n.number (passed_from rule.now at states (meaning (seen worker.now) r.number) (meaning (seen worker.now) g.number))) }
{
    if states.is_dead() {
        return Some(Node::FALSE);
    }
    if r.number == 0 {
        return Some(r);
    }
    if g.number == 0 {
        return Some(g);
    }
    memo.find(at, states, r, g)
}

/// What is left of known nodes behind the last move.
fn at_end<A: Aim>(
    worker: &mut Worker<A>,
    table: &NodeTable<A>,
    rule: &Rule,
    states: States,
    r: Node,
    g: Node,
) -> Node
    requires worker { IsWorkerOf table.now worker.old }
    requires known { Knows (seen worker.old) r.number × Knows (seen worker.old) g.number }
    ensures worker { IsWorkerOf table.now worker.new }
    ensures same { seen worker.new ≡ seen worker.old }
    ensures is { IsMeant (seen worker.old) result.number (passed rule.now.accepted [] states (meaning (seen worker.old) r.number) (meaning (seen worker.old) g.number)) }
{
    if !states.is_accepted(rule.accepted) {
        return Node::FALSE;
    }
    if is_true_of_none(worker, table, g, 0) {
        return r;
    }
    Node::FALSE
}

/// What the moves of a rule from one on make of known nodes, where the caller's looks at no variable before
/// `from`.
#[cycle(step)]
fn step_from<A: Aim>(
    worker: &mut Worker<A>,
    memo: &mut Memo,
    table: &NodeTable<A>,
    rule: &Rule,
    at: usize,
    states: States,
    from: u32,
    r: Node,
    g: Node,
) -> Result<Node, Full<A>>
    requires asked { IsAsked table.now (A.aims (aim_of table.now)) rule.now at states from worker.old memo.old r.number g.number }
    requires from { from ≤ max_variables }
    requires at { at ≤ length rule.now.moves.items }
    ensures made { IsMade table.now rule.now worker.old worker.new memo.new }
    ensures ok { IfOk result (λ n. IsMeant (seen worker.new) n.number (passed_from rule.now at states (meaning (seen worker.old) r.number) (meaning (seen worker.old) g.number))) }
    ensures full { IfErr result (LacksRoomAmong table.now (seen worker.new) (passed_from rule.now at states (meaning (seen worker.old) r.number) (meaning (seen worker.old) g.number))) }
{
    if let Some(n) = at_hand(worker, memo, rule, at, states, r, g) {
        return Ok(n);
    }
    if at == rule.moves.len() {
        return Ok(at_end(worker, table, rule, states, r, g));
    }
    let step = rule.moves[at];
    let cut = cut_at(worker, table, r, step.variable);
    let made = match step_cut(worker, memo, table, rule, at, states, step, r, g, cut) {
        Ok(made) => made,
        Err(full) => return Err(full),
    };
    memo.keep(at, states, r, g, made);
    Ok(made)
}

/// What the moves make of a node that is cut before the next move's variable, or at it.
#[cycle(step)]
fn step_cut<A: Aim>(
    worker: &mut Worker<A>,
    memo: &mut Memo,
    table: &NodeTable<A>,
    rule: &Rule,
    at: usize,
    states: States,
    step: Move,
    r: Node,
    g: Node,
    cut: Cut,
) -> Result<Node, Full<A>>
    requires asked { IsAsked table.now (A.aims (aim_of table.now)) rule.now at states cut.var worker.old memo.old r.number g.number }
    requires halved { IsHalved (seen worker.old) cut.var r.number cut.low.number cut.high.number }
    requires small { cut.var ≤ last_variable }
    requires var { cut.var ≤ step.variable }
    requires apart { cut.var < step.variable → cut.low.number ≢ cut.high.number }
    requires next { drop at rule.now.moves.items ≡ step ∷ drop (at + 1) rule.now.moves.items }
    requires at { at < length rule.now.moves.items }
    ensures made { IsMade table.now rule.now worker.old worker.new memo.new }
    ensures ok { IfOk result (λ n. IsMeant (seen worker.new) n.number (passed_from rule.now at states (meaning (seen worker.old) r.number) (meaning (seen worker.old) g.number))) }
    ensures full { IfErr result (LacksRoomAmong table.now (seen worker.new) (passed_from rule.now at states (meaning (seen worker.old) r.number) (meaning (seen worker.old) g.number))) }
{
    if cut.var < step.variable {
        return step_kept(worker, memo, table, rule, at, states, step, r, g, cut);
    }
    let told = take_told(worker, table, step.told, g);
    if step.forgets {
        return step_to(
            worker, memo, table, rule, at, states, step, r, g, cut, told, false,
        );
    }
    step_moved(worker, memo, table, rule, at, states, step, r, g, cut, told)
}

/// What the moves make of a node whose first variable comes before the next move's.
#[cycle(step)]
fn step_kept<A: Aim>(
    worker: &mut Worker<A>,
    memo: &mut Memo,
    table: &NodeTable<A>,
    rule: &Rule,
    at: usize,
    states: States,
    step: Move,
    r: Node,
    g: Node,
    cut: Cut,
) -> Result<Node, Full<A>>
    requires asked { IsAsked table.now (A.aims (aim_of table.now)) rule.now at states cut.var worker.old memo.old r.number g.number }
    requires halved { IsHalved (seen worker.old) cut.var r.number cut.low.number cut.high.number }
    requires small { cut.var ≤ last_variable }
    requires var { cut.var < step.variable }
    requires apart { cut.low.number ≢ cut.high.number }
    requires next { drop at rule.now.moves.items ≡ step ∷ drop (at + 1) rule.now.moves.items }
    requires at { at < length rule.now.moves.items }
    ensures made { IsMade table.now rule.now worker.old worker.new memo.new }
    ensures ok { IfOk result (λ n. IsMeant (seen worker.new) n.number (passed_from rule.now at states (meaning (seen worker.old) r.number) (meaning (seen worker.old) g.number))) }
    ensures full { IfErr result (LacksRoomAmong table.now (seen worker.new) (passed_from rule.now at states (meaning (seen worker.old) r.number) (meaning (seen worker.old) g.number))) }
{
    let from = cut.var + 1;
    let low = match step_from(worker, memo, table, rule, at, states, from, cut.low, g) {
        Ok(low) => low,
        Err(full) => return Err(full),
    };
    let high = match step_from(worker, memo, table, rule, at, states, from, cut.high, g) {
        Ok(high) => high,
        Err(full) => return Err(full),
    };
    worker.make(table, cut.var, low, high)
}

/// What the moves make of a node that is cut at the next move's variable, which is not forgotten.
#[cycle(step)]
fn step_moved<A: Aim>(
    worker: &mut Worker<A>,
    memo: &mut Memo,
    table: &NodeTable<A>,
    rule: &Rule,
    at: usize,
    states: States,
    step: Move,
    r: Node,
    g: Node,
    cut: Cut,
    told: Told,
) -> Result<Node, Full<A>>
    requires asked { IsAsked table.now (A.aims (aim_of table.now)) rule.now at states step.variable worker.old memo.old r.number g.number }
    requires halved { IsHalved (seen worker.old) step.variable r.number cut.low.number cut.high.number }
    requires taken { IsTaken (seen worker.old) step.told false g.number told.low.number × IsTaken (seen worker.old) step.told true g.number told.high.number }
    requires small { step.variable ≤ last_variable }
    requires stays { step.forgets ≡ false }
    requires next { drop at rule.now.moves.items ≡ step ∷ drop (at + 1) rule.now.moves.items }
    requires at { at < length rule.now.moves.items }
    ensures made { IsMade table.now rule.now worker.old worker.new memo.new }
    ensures ok { IfOk result (λ n. IsMeant (seen worker.new) n.number (passed_from rule.now at states (meaning (seen worker.old) r.number) (meaning (seen worker.old) g.number))) }
    ensures full { IfErr result (LacksRoomAmong table.now (seen worker.new) (passed_from rule.now at states (meaning (seen worker.old) r.number) (meaning (seen worker.old) g.number))) }
{
    let made = step_to(
        worker, memo, table, rule, at, states, step, r, g, cut, told, false,
    );
    let below = match made {
        Ok(below) => below,
        Err(full) => return Err(full),
    };
    let made = step_to(
        worker, memo, table, rule, at, states, step, r, g, cut, told, true,
    );
    let above = match made {
        Ok(above) => above,
        Err(full) => return Err(full),
    };
    worker.make(table, step.variable, below, above)
}

/// What the moves make of such a node where the next move's variable has this truth after it. Where it is
/// forgotten, that is what both of its truths make.
#[cycle(step)]
fn step_to<A: Aim>(
    worker: &mut Worker<A>,
    memo: &mut Memo,
    table: &NodeTable<A>,
    rule: &Rule,
    at: usize,
    states: States,
    step: Move,
    r: Node,
    g: Node,
    cut: Cut,
    told: Told,
    after: bool,
) -> Result<Node, Full<A>>
    requires asked { IsAsked table.now (A.aims (aim_of table.now)) rule.now at states step.variable worker.old memo.old r.number g.number }
    requires halved { IsHalved (seen worker.old) step.variable r.number cut.low.number cut.high.number }
    requires taken { IsTaken (seen worker.old) step.told false g.number told.low.number × IsTaken (seen worker.old) step.told true g.number told.high.number }
    requires small { step.variable ≤ last_variable }
    requires after { step.forgets ≡ true → after ≡ false }
    requires next { drop at rule.now.moves.items ≡ step ∷ drop (at + 1) rule.now.moves.items }
    requires at { at < length rule.now.moves.items }
    ensures made { IsMade table.now rule.now worker.old worker.new memo.new }
    ensures ok { IfOk result (λ n. IsMeant (seen worker.new) n.number (parted rule.now.accepted step (drop (at + 1) rule.now.moves.items) states after (meaning (seen worker.old) r.number) (meaning (seen worker.old) g.number))) }
    ensures full { IfErr result (LacksRoomAmong table.now (seen worker.new) (parted rule.now.accepted step (drop (at + 1) rule.now.moves.items) states after (meaning (seen worker.old) r.number) (meaning (seen worker.old) g.number))) }
{
    let from = step.variable + 1;
    let kept = states.next(&step, false, after);
    let first = match step_from(
        worker,
        memo,
        table,
        rule,
        at + 1,
        kept,
        from,
        cut.low,
        told.low,
    ) {
        Ok(first) => first,
        Err(full) => return Err(full),
    };
    let kept = states.next(&step, true, after);
    let second = match step_from(
        worker,
        memo,
        table,
        rule,
        at + 1,
        kept,
        from,
        cut.high,
        told.high,
    ) {
        Ok(second) => second,
        Err(full) => return Err(full),
    };
    worker.or(table, first, second)
}

/// What a rule makes of a known node together with one over a callee's variables, in one pass: the node that
/// is true exactly where the rule may lead to from where both are true, the callee's variables being as the
/// moves tell them.
///
/// Neither a diagram of the rule is made nor one of both nodes. `Full` comes only for a word under a part of
/// what the call means.
pub fn step_with<A: Aim>(
    worker: &mut Worker<A>,
    memo: &mut Memo,
    table: &NodeTable<A>,
    rule: &Rule,
    r: Node,
    told: Node,
) -> Result<Node, Full<A>>
    requires worker { IsWorkerOf table.now worker.old }
    requires known { Knows (seen worker.old) r.number × Knows (seen worker.old) told.number }
    requires aim { (χ : Function) → IsStep rule.now (joint rule.now.moves.items (meaning (seen worker.old) r.number) (meaning (seen worker.old) told.number)) χ → ArePartsAimed (A.aims (aim_of table.now)) rule.now (meaning (seen worker.old) r.number) χ }
    ensures worker { IsWorkerOf table.now worker.new }
    ensures keeps { Keeps (seen worker.old) (seen worker.new) }
    ensures ok { IfOk result (λ n. Knows (seen worker.new) n.number × IsStep rule.now (joint rule.now.moves.items (meaning (seen worker.old) r.number) (meaning (seen worker.old) told.number)) (meaning (seen worker.new) n.number)) }
    ensures full { IfErr result (λ e. (χ : Function) × IsStep rule.now (joint rule.now.moves.items (meaning (seen worker.old) r.number) (meaning (seen worker.old) told.number)) χ × LacksRoomAmong table.now (seen worker.new) χ e) }
{
    memo.begin();
    step_from(worker, memo, table, rule, 0, rule.start, 0, r, told)
}

/// What a rule makes of a known node, in one pass: the node that is true exactly where the rule may lead to
/// from where the known node is true.
///
/// No diagram of the rule is made. `Full` comes only for a word under a part of what the call means.
pub fn step<A: Aim>(
    worker: &mut Worker<A>,
    memo: &mut Memo,
    table: &NodeTable<A>,
    rule: &Rule,
    r: Node,
) -> Result<Node, Full<A>>
    requires worker { IsWorkerOf table.now worker.old }
    requires known { Knows (seen worker.old) r.number }
    requires aim { (χ : Function) → IsStep rule.now (meaning (seen worker.old) r.number) χ → ArePartsAimed (A.aims (aim_of table.now)) rule.now (meaning (seen worker.old) r.number) χ }
    ensures worker { IsWorkerOf table.now worker.new }
    ensures keeps { Keeps (seen worker.old) (seen worker.new) }
    ensures ok { IfOk result (λ n. Knows (seen worker.new) n.number × IsStep rule.now (meaning (seen worker.old) r.number) (meaning (seen worker.new) n.number)) }
    ensures full { IfErr result (λ e. (χ : Function) × IsStep rule.now (meaning (seen worker.old) r.number) χ × LacksRoomAmong table.now (seen worker.new) χ e) }
{
    step_with(worker, memo, table, rule, r, Node::TRUE)
}
