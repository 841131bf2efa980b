ghost use Rattle.std.specs.Prelude.{◌≡◌, ◌≢◌, ◌↔◌, ◌<◌, ◌≤◌, ◌⊎◌, IsTrue, true, false};
ghost use Rattle.ja_node_core.specs.Node.{Knows};
ghost use Rattle.ja_bdd.specs.Meaning.{meaning};
ghost use Rattle.ja_bdd.specs.Workers.{IsWorkerOf, seen};
ghost use Rattle.ja_join.specs.Searches.{HoldsWith};
ghost use Rattle.ja_join.specs.Inner.{IsSought, phase_of, AreVain, AreCut, IsSeeking};
ghost use Rattle.ja_base.specs.Limit.{last_variable, max_variables};

use crate::memo::Memo;
use crate::pass::cut_at;
use crate::rule::States;
use ja_base::MAX_VARIABLES;
use ja_bdd::Worker;
use ja_node_core::Aim;
use ja_node_table::{Node, NodeTable};

/// A search has no states.
const STATELESS: States = States {
    waiting: 0,
    seen: 0,
};

/// Two nodes' functions, cut at one variable before which neither looks.
#[derive(Clone, Copy)]
struct Both {
    var: u32,
    r_low: Node,
    r_high: Node,
    c_low: Node,
    c_high: Node,
}

/// Cuts two known nodes at the first variable of both, where that comes before `end`, and else at `end`.
fn cut_both<A: Aim>(
    worker: &mut Worker<A>,
    table: &NodeTable<A>,
    r: Node,
    c: Node,
    end: u32,
) -> Both
    requires worker { IsWorkerOf table.now worker.old }
    requires known { Knows (seen worker.old) r.number × Knows (seen worker.old) c.number }
    requires end { end ≤ last_variable }
    ensures worker { IsWorkerOf table.now worker.new }
    ensures same { seen worker.new ≡ seen worker.old }
    ensures cut { AreCut (seen worker.old) result.var end r.number c.number result.r_low.number result.r_high.number result.c_low.number result.c_high.number }
{
    let first = cut_at(worker, table, r, end);
    let second = cut_at(worker, table, c, first.var);
    if second.var < first.var {
        return Both {
            var: second.var,
            r_low: r,
            r_high: r,
            c_low: second.low,
            c_high: second.high,
        };
    }
    Both {
        var: second.var,
        r_low: first.low,
        r_high: first.high,
        c_low: second.low,
        c_high: second.high,
    }
}

/// In which phase a search is: before its variable was decided, or after.
fn phase(ahead: bool) -> usize
    ensures { result ≡ phase_of ahead }
{
    if ahead { 0 } else { 1 }
}

/// Whether both nodes are constants.
fn are_constant(r: Node, c: Node) -> bool
    ensures yes { IsTrue result → (r.number < 2) × (c.number < 2) }
    ensures no { result ≡ false → (2 ≤ r.number) ⊎ (2 ≤ c.number) }
{
    r.number < 2 && c.number < 2
}

/// Whether a search decides its variable at a cut.
fn decides(ahead: bool, at: u32, var: u32) -> bool
    ensures yes { IsTrue result → (ahead ≡ true) × (at ≡ var) }
    ensures no { result ≡ false → ahead ≡ true → at ≢ var }
{
    ahead && at == var
}

/// Where a search cuts at the latest: at its variable, where that is still ahead.
fn latest(var: u32, ahead: bool) -> u32
    requires { var ≤ last_variable }
    ensures var { ahead ≡ true → result ≡ var }
    ensures last { ahead ≡ false → result ≡ last_variable }
    ensures small { result ≤ last_variable }
{
    if ahead { var } else { MAX_VARIABLES - 1 }
}

/// Whether two known nodes, which look at no variable before `from`, are true somewhere; where the variable
/// is still ahead, where it is true.
#[cycle(seek)]
fn seek_from<A: Aim>(
    worker: &mut Worker<A>,
    memo: &mut Memo,
    table: &NodeTable<A>,
    var: u32,
    ahead: bool,
    from: u32,
    r: Node,
    c: Node,
) -> bool
    requires asked { IsSeeking table.now var ahead from worker.old memo.old r.number c.number }
    requires from { from ≤ max_variables }
    requires var { var ≤ last_variable }
    ensures worker { IsWorkerOf table.now worker.new }
    ensures same { seen worker.new ≡ seen worker.old }
    ensures vain { AreVain var (seen worker.old) memo.new }
    ensures is { IsTrue result ↔ IsSought ahead var (meaning (seen worker.old) r.number) (meaning (seen worker.old) c.number) }
{
    if r.number == 0 {
        return false;
    }
    if c.number == 0 {
        return false;
    }
    if are_constant(r, c) {
        return true;
    }
    if let Some(_vain) = memo.find(phase(ahead), STATELESS, r, c) {
        return false;
    }
    let cut = cut_both(worker, table, r, c, latest(var, ahead));
    let found = seek_parts(worker, memo, table, var, ahead, r, c, cut);
    if !found {
        // That it is noted says all.
        memo.keep(phase(ahead), STATELESS, r, c, r);
    }
    found
}

/// The same of two nodes that were cut.
#[cycle(seek)]
fn seek_parts<A: Aim>(
    worker: &mut Worker<A>,
    memo: &mut Memo,
    table: &NodeTable<A>,
    var: u32,
    ahead: bool,
    r: Node,
    c: Node,
    cut: Both,
) -> bool
    requires asked { IsSeeking table.now var ahead cut.var worker.old memo.old r.number c.number }
    requires cut { AreCut (seen worker.old) cut.var cut.var r.number c.number cut.r_low.number cut.r_high.number cut.c_low.number cut.c_high.number }
    requires small { cut.var ≤ last_variable }
    requires var { var ≤ last_variable }
    ensures worker { IsWorkerOf table.now worker.new }
    ensures same { seen worker.new ≡ seen worker.old }
    ensures vain { AreVain var (seen worker.old) memo.new }
    ensures is { IsTrue result ↔ IsSought ahead var (meaning (seen worker.old) r.number) (meaning (seen worker.old) c.number) }
{
    let from = cut.var + 1;
    if decides(ahead, cut.var, var) {
        return seek_from(
            worker, memo, table, var, false, from, cut.r_high, cut.c_high,
        );
    }
    let is_low = seek_from(worker, memo, table, var, ahead, from, cut.r_low, cut.c_low);
    if is_low {
        return true;
    }
    seek_from(
        worker, memo, table, var, ahead, from, cut.r_high, cut.c_high,
    )
}

/// Whether a known relation has a pair in which a variable is true, under a known context: whether both
/// nodes are true somewhere where the variable, at most 4,094, is true. It makes no node.
pub fn holds_with<A: Aim>(
    worker: &mut Worker<A>,
    memo: &mut Memo,
    table: &NodeTable<A>,
    r: Node,
    context: Node,
    var: u32,
) -> bool
    requires worker { IsWorkerOf table.now worker.old }
    requires known { Knows (seen worker.old) r.number × Knows (seen worker.old) context.number }
    requires var { var ≤ last_variable }
    ensures worker { IsWorkerOf table.now worker.new }
    ensures same { seen worker.new ≡ seen worker.old }
    ensures is { IsTrue result ↔ HoldsWith var (meaning (seen worker.old) r.number) (meaning (seen worker.old) context.number) }
{
    memo.begin();
    seek_from(worker, memo, table, var, true, 0, r, context)
}
