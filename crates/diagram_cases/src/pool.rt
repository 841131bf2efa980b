//! A worker, and the nodes that it was asked for.
ghost use Rattle.std.specs.Prelude.{◌≡◌, ◌⊎◌, ◌≤◌, IsTrue, IfSome, IfOk, OnOk};
ghost use Rattle.std.specs.List.{All};
ghost use Rattle.ja_node_core.specs.Node.{Knows};
ghost use Rattle.ja_node_table.specs.Seats.{IsOf};
ghost use Rattle.ja_bdd.specs.Meaning.{meaning, Keeps};
ghost use Rattle.ja_bdd.specs.Workers.{IsWorkerOf, seen};
ghost use Rattle.ja_join.specs.Composed.{LooksIn};

use ja_base::Memory;
use ja_bdd::{Assign, Copies, Worker};
use ja_join::{Memo, Rule, after, holds_with, looks_in, project, step, step_with};
use ja_node_core::AnyAim;
use ja_node_table::{Node, NodeSeat, NodeTable, Parts};
use std::alloc::Global;

/// The last variable.
pub const LAST: u32 = 4094;

/// How many entries the cache of a pool's worker has.
const ENTRIES: usize = 1 << 16;

/// One operation of a worker.
#[derive(Clone, Copy)]
pub enum Step {
    Literal(u32, bool),
    And,
    Or,
    Exists(u32),
    ExistsAll(Copies),
    AndExists(Copies),
    /// What is left of these copies.
    Project(Copies),
    /// The first relation and then the second.
    After,
}

/// The copies that the first of two relations looks at, and those that the second does.
const FIRST: Copies = Copies {
    at_entry: true,
    at_present: true,
    at_next: false,
    at_callee: false,
};

const SECOND: Copies = Copies {
    at_entry: false,
    at_present: true,
    at_next: true,
    at_callee: false,
};

/// The node of a variable or of its negation.
fn literal(
    table: &NodeTable<AnyAim>,
    worker: &mut Worker<AnyAim>,
    var: u32,
    value: bool,
) -> Option<Node>
    requires worker { IsWorkerOf table.now worker.old }
    requires var { var ≤ 4094 }
    ensures worker { IsWorkerOf table.now worker.new }
    ensures keeps { Keeps (seen worker.old) (seen worker.new) }
    ensures known { IfSome result (λ n. Knows (seen worker.new) n.number) }
{
    if value {
        worker.make(table, var, Node::FALSE, Node::TRUE).ok()
    } else {
        worker.make(table, var, Node::TRUE, Node::FALSE).ok()
    }
}

/// Whether a node is known to look at these copies alone.
fn is_in(table: &NodeTable<AnyAim>, worker: &mut Worker<AnyAim>, n: Node, copies: &Copies) -> bool
    requires worker { IsWorkerOf table.now worker.old }
    requires known { Knows (seen worker.old) n.number }
    ensures worker { IsWorkerOf table.now worker.new }
    ensures keeps { Keeps (seen worker.old) (seen worker.new) }
    ensures looks { IsTrue result → LooksIn copies.now (meaning (seen worker.new) n.number) }
{
    let Ok(looks) = looks_in(worker, table, n, copies) else {
        return false;
    };
    looks
}

/// Composes two relations, where each looks at its copies alone.
fn composed(
    table: &NodeTable<AnyAim>,
    worker: &mut Worker<AnyAim>,
    f: Node,
    g: Node,
) -> Option<Node>
    requires worker { IsWorkerOf table.now worker.old }
    requires known { Knows (seen worker.old) f.number × Knows (seen worker.old) g.number }
    ensures worker { IsWorkerOf table.now worker.new }
    ensures keeps { Keeps (seen worker.old) (seen worker.new) }
    ensures known { IfSome result (λ n. Knows (seen worker.new) n.number) }
{
    if !is_in(table, worker, f, &FIRST) {
        return None;
    }
    if !is_in(table, worker, g, &SECOND) {
        return None;
    }
    after(worker, table, f, g).ok()
}

/// Makes one operation, of a worker that knows both nodes.
fn ask(
    table: &NodeTable<AnyAim>,
    worker: &mut Worker<AnyAim>,
    asked: Step,
    f: Node,
    g: Node,
) -> Option<Node>
    requires worker { IsWorkerOf table.now worker.old }
    requires known { Knows (seen worker.old) f.number × Knows (seen worker.old) g.number }
    ensures worker { IsWorkerOf table.now worker.new }
    ensures keeps { Keeps (seen worker.old) (seen worker.new) }
    ensures known { IfSome result (λ n. Knows (seen worker.new) n.number) }
{
    match asked {
        Step::Literal(var, value) => literal(table, worker, var.min(LAST), value),
        Step::And => worker.and(table, f, g).ok(),
        Step::Or => worker.or(table, f, g).ok(),
        Step::Exists(var) => worker.exists(table, f, var).ok(),
        Step::ExistsAll(copies) => worker.exists_all(table, f, copies).ok(),
        Step::AndExists(copies) => worker.and_exists(table, f, g, copies).ok(),
        Step::Project(copies) => project(worker, table, f, &copies).ok(),
        Step::After => composed(table, worker, f, g),
    }
}

/// The child that a point, whose bits are the values of the first variables, leads to.
fn child_at(parts: Parts, point: usize) -> Node
    ensures { (result ≡ parts.lo) ⊎ (result ≡ parts.hi) }
{
    if point >> parts.var.min(12) & 1 == 1 {
        parts.hi
    } else {
        parts.lo
    }
}

/// The value of a known node at a point.
fn value_at(table: &NodeTable<AnyAim>, worker: &mut Worker<AnyAim>, n: Node, point: usize) -> bool
    requires worker { IsWorkerOf table.now worker.old }
    requires known { Knows (seen worker.old) n.number }
    ensures worker { IsWorkerOf table.now worker.new }
    ensures same { seen worker.new ≡ seen worker.old }
{
    let mut at = n;
    for _level in 0..LAST {
        if at.number < 2 {
            break;
        }
        let parts = worker.parts(table, at);
        at = child_at(parts, point);
    }
    at == Node::TRUE
}

/// A worker with nodes that it knows.
#[derive(Drop)]
pub struct Pool {
    worker: Worker<AnyAim>,
    nodes: Vec<Node>,
}

impl Pool {
    /// The pool of the two constants.
    pub fn new(
        alloc: Global,
        table: &NodeTable<AnyAim>,
        seat: NodeSeat<AnyAim>,
    ) -> Result<Pool, Memory>
        requires { IsOf table.now seat }
        ensures { IfOk result (λ p. IsWorkerOf table.now p.worker × All (λ n. Knows (seen p.worker) n.number) p.nodes.items) }
    {
        let worker = Worker::with_cache(alloc, seat, ENTRIES).ok().ok_or(Memory)?;
        let nodes = vec![in alloc; Node::FALSE, Node::TRUE]?;
        Ok(Pool { worker, nodes })
    }

    /// A node.
    fn node(&self, at: usize) -> Result<Node, Memory>
        requires { All (λ n. Knows (seen self.now.worker) n.number) self.now.nodes.items }
        ensures { IfOk result (λ n. Knows (seen self.now.worker) n.number) }
    {
        if at >= self.nodes.len() {
            return Err(Memory);
        }
        let n = self.nodes[at];
        Ok(n)
    }

    /// Makes one operation of two nodes, and answers the place of what was made.
    pub fn step(
        &mut self,
        table: &NodeTable<AnyAim>,
        asked: Step,
        f: usize,
        g: usize,
    ) -> Result<usize, Memory>
        requires { IsWorkerOf table.now self.old.worker × All (λ n. Knows (seen self.old.worker) n.number) self.old.nodes.items }
        ensures { OnOk result (IsWorkerOf table.now self.new.worker × All (λ n. Knows (seen self.new.worker) n.number) self.new.nodes.items) }
    {
        let f = self.node(f)?;
        let g = self.node(g)?;
        let Some(made) = ask(table, &mut self.worker, asked, f, g) else {
            return Err(Memory);
        };
        self.nodes.push(made)?;
        Ok(self.nodes.len() - 1)
    }

    /// What a rule makes of a node, by its place.
    pub fn stepped(
        &mut self,
        table: &NodeTable<AnyAim>,
        memo: &mut Memo,
        rule: &Rule,
        r: usize,
    ) -> Result<usize, Memory>
        requires { IsWorkerOf table.now self.old.worker × All (λ n. Knows (seen self.old.worker) n.number) self.old.nodes.items }
        ensures { OnOk result (IsWorkerOf table.now self.new.worker × All (λ n. Knows (seen self.new.worker) n.number) self.new.nodes.items) }
    {
        let r = self.node(r)?;
        let Ok(made) = step(&mut self.worker, memo, table, rule, r) else {
            return Err(Memory);
        };
        self.nodes.push(made)?;
        Ok(self.nodes.len() - 1)
    }

    /// What a rule makes of a node together with one over a callee's variables, by its place.
    pub fn stepped_with(
        &mut self,
        table: &NodeTable<AnyAim>,
        memo: &mut Memo,
        rule: &Rule,
        r: usize,
        told: usize,
    ) -> Result<usize, Memory>
        requires { IsWorkerOf table.now self.old.worker × All (λ n. Knows (seen self.old.worker) n.number) self.old.nodes.items }
        ensures { OnOk result (IsWorkerOf table.now self.new.worker × All (λ n. Knows (seen self.new.worker) n.number) self.new.nodes.items) }
    {
        let r = self.node(r)?;
        let told = self.node(told)?;
        let Ok(made) = step_with(&mut self.worker, memo, table, rule, r, told) else {
            return Err(Memory);
        };
        self.nodes.push(made)?;
        Ok(self.nodes.len() - 1)
    }

    /// Whether a node is true where a variable is, under another node.
    pub fn holds(
        &mut self,
        table: &NodeTable<AnyAim>,
        memo: &mut Memo,
        r: usize,
        context: usize,
        var: u32,
    ) -> Result<bool, Memory>
        requires { IsWorkerOf table.now self.old.worker × All (λ n. Knows (seen self.old.worker) n.number) self.old.nodes.items }
        ensures { OnOk result (IsWorkerOf table.now self.new.worker × All (λ n. Knows (seen self.new.worker) n.number) self.new.nodes.items) }
    {
        let r = self.node(r)?;
        let context = self.node(context)?;
        Ok(holds_with(&mut self.worker, memo, table, r, context, var.min(LAST)))
    }

    /// The value of a node at a point.
    pub fn value(
        &mut self,
        table: &NodeTable<AnyAim>,
        at: usize,
        point: usize,
    ) -> Result<bool, Memory>
        requires { IsWorkerOf table.now self.old.worker × All (λ n. Knows (seen self.old.worker) n.number) self.old.nodes.items }
        ensures { OnOk result (IsWorkerOf table.now self.new.worker × All (λ n. Knows (seen self.new.worker) n.number) self.new.nodes.items) }
    {
        let n = self.node(at)?;
        Ok(value_at(table, &mut self.worker, n, point))
    }

    /// The variable and the children of a node that is no constant.
    pub fn parts(&mut self, table: &NodeTable<AnyAim>, at: usize) -> Result<Parts, Memory>
        requires { IsWorkerOf table.now self.old.worker × All (λ n. Knows (seen self.old.worker) n.number) self.old.nodes.items }
        ensures { OnOk result (IsWorkerOf table.now self.new.worker × All (λ n. Knows (seen self.new.worker) n.number) self.new.nodes.items) }
    {
        let n = self.node(at)?;
        if n.number < 2 {
            return Err(Memory);
        }
        Ok(self.worker.parts(table, n))
    }

    /// Picks an assignment of a node.
    pub fn pick(
        &mut self,
        table: &NodeTable<AnyAim>,
        at: usize,
        a: &mut Assign,
    ) -> Result<bool, Memory>
        requires { IsWorkerOf table.now self.old.worker × All (λ n. Knows (seen self.old.worker) n.number) self.old.nodes.items }
        ensures { OnOk result (IsWorkerOf table.now self.new.worker × All (λ n. Knows (seen self.new.worker) n.number) self.new.nodes.items) }
    {
        let n = self.node(at)?;
        Ok(self.worker.pick(table, n, a))
    }

    /// Makes both pools' workers know what either knew.
    pub fn rejoin(&mut self, table: &NodeTable<AnyAim>, other: &mut Pool)
        requires { IsWorkerOf table.now self.old.worker × All (λ n. Knows (seen self.old.worker) n.number) self.old.nodes.items × IsWorkerOf table.now other.old.worker × All (λ n. Knows (seen other.old.worker) n.number) other.old.nodes.items }
        ensures { IsWorkerOf table.now self.new.worker × All (λ n. Knows (seen self.new.worker) n.number) self.new.nodes.items }
    {
        self.worker.rejoin(table, &mut other.worker);
    }

    /// The number of a node.
    pub fn number(&self, at: usize) -> Option<u32> {
        self.nodes.get(at).map(|n| n.number)
    }
}
